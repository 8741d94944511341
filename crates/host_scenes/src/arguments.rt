use abi_calls::StreamName;
use anyhow::{Result, bail};
use bas_items::Items;
use rv_core::Context;
use scene_script::{bytes_of, counted, parted};
use std::alloc::Global;
use std::collections::BTreeMap;

/// What names stand for.
pub type Names = BTreeMap<String, u64>;

/// The arguments of a call that are not read yet.
#[derive(Drop)]
pub struct Arguments<'a> {
    alloc: Global,
    names: &'a Names,
    rest: &'a str,
}

/// The numbers of a list.
fn numbers_of(alloc: Global, list: &str) -> Result<Vec<u64>> {
    let mut numbers = Vec::new(alloc);
    if list == "-" {
        return Ok(numbers);
    }
    for piece in list.split(',') {
        let (count, number) = counted(piece)?;
        let number = number.parse::<u64>()?;
        numbers.resize(numbers.len() + count as usize, number)?;
    }
    Ok(numbers)
}

/// Registers that have these numbers in turn, the program counter first; the others are 0.
fn context_of(numbers: &[u64]) -> Result<Context> {
    let mut context = Context { pc: 0, x: [0; 31] };
    if let [pc, registers @ ..] = numbers {
        context.pc = *pc;
        if registers.len() > context.x.len() {
            bail!("more than 31 registers");
        }
        let (front, _) = context.x.split_at_mut(registers.len());
        front.copy_from_slice(registers);
    }
    Ok(context)
}

impl<'a> Arguments<'a> {
    /// The arguments in a line, in which these names stand for numbers.
    pub fn new(alloc: Global, names: &'a Names, line: &'a str) -> Arguments<'a> {
        Arguments {
            alloc,
            names,
            rest: line,
        }
    }

    /// The next word.
    fn word(&mut self) -> Result<&'a str> {
        let (word, rest) = parted(self.rest);
        if word.is_empty() {
            bail!("an argument is missing");
        }
        self.rest = rest;
        Ok(word)
    }

    /// A number, or what a name stands for.
    pub fn number(&mut self) -> Result<u64> {
        let word = self.word()?;
        let Some(name) = word.strip_prefix('$') else {
            return Ok(word.parse::<u64>()?);
        };
        match self.names.get(name) {
            Some(number) => Ok(*number),
            None => bail!("no name {name}"),
        }
    }

    /// A number below 256.
    pub fn byte(&mut self) -> Result<u8> {
        Ok(self.word()?.parse::<u8>()?)
    }

    /// A number below 2^32.
    pub fn short(&mut self) -> Result<u32> {
        Ok(self.word()?.parse::<u32>()?)
    }

    /// Whether something is so.
    pub fn flag(&mut self) -> Result<bool> {
        match self.word()?.as_bytes() {
            b"true" => Ok(true),
            b"false" => Ok(false),
            _ => bail!("neither true nor false"),
        }
    }

    /// Bytes.
    pub fn bytes(&mut self) -> Result<Items<u8>> {
        Ok(Items::from_vec(bytes_of(self.alloc, self.word()?)?))
    }

    /// A list of numbers.
    pub fn numbers(&mut self) -> Result<Items<u64>> {
        Ok(Items::from_vec(numbers_of(self.alloc, self.word()?)?))
    }

    /// Registers.
    pub fn context(&mut self) -> Result<Context> {
        let numbers = numbers_of(self.alloc, self.word()?)?;
        context_of(numbers.as_slice())
    }

    /// What a stream is opened by.
    pub fn stream_name(&mut self) -> Result<StreamName> {
        let word = self.word()?;
        if let Some(name) = word.strip_prefix("File:") {
            let name = Items::from_vec(bytes_of(self.alloc, name)?);
            return Ok(StreamName::File(name));
        }
        match word.as_bytes() {
            b"ConIn" => Ok(StreamName::ConIn),
            b"ConOut" => Ok(StreamName::ConOut),
            b"ConErr" => Ok(StreamName::ConErr),
            _ => bail!("no stream {word}"),
        }
    }

    /// There are no further arguments.
    pub fn end(&self) -> Result<()> {
        if self.rest.is_empty() {
            Ok(())
        } else {
            bail!("too many arguments: {}", self.rest)
        }
    }
}
