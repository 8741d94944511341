use crate::words::{bytes_of, file_in, parted};
use anyhow::{Result, bail};
use std::alloc::{AllocError, Global};
use std::collections::{BTreeMap, BTreeSet};

/// Files by name.
pub type Files = BTreeMap<Vec<u8>, Vec<u8>>;

/// What of the outside can be made to fail.
#[derive(Clone, Copy, Debug, PartialEq, Eq)]
pub enum Edge {
    Input,
    Output,
    Errors,
    Store,
    Shelf,
    Notes,
}

/// A call of an edge that fails, the first being 1.
#[derive(Clone, Copy, Debug)]
pub struct Failure {
    pub edge: Edge,
    pub call: u64,
}

/// What the host of a scene begins with: its files, the console's input, and the calls that fail.
#[derive(Drop)]
pub struct Start {
    alloc: Global,
    pub files: Files,
    pub input: Vec<u8>,
    pub failures: Vec<Failure>,
}

/// The edge of a name.
pub(crate) fn edge_of(name: &str) -> Result<Edge> {
    match name.as_bytes() {
        b"input" => Ok(Edge::Input),
        b"output" => Ok(Edge::Output),
        b"errors" => Ok(Edge::Errors),
        b"store" => Ok(Edge::Store),
        b"shelf" => Ok(Edge::Shelf),
        b"notes" => Ok(Edge::Notes),
        _ => bail!("no edge {name}"),
    }
}

/// The names of files.
pub fn names_of(alloc: Global, files: &Files) -> Result<BTreeSet<Vec<u8>>, AllocError> {
    let mut names = BTreeSet::new(alloc);
    for (name, _) in files.iter() {
        names.insert(name.clone()?)?;
    }
    Ok(names)
}

impl Start {
    /// Without anything.
    pub fn new(alloc: Global) -> Start {
        Start {
            alloc,
            files: BTreeMap::new(alloc),
            input: Vec::new(alloc),
            failures: Vec::new(alloc),
        }
    }

    fn add_file(&mut self, rest: &str) -> Result<()> {
        let (name, bytes) = file_in(self.alloc, rest)?;
        self.files.insert(name, bytes)?;
        Ok(())
    }

    fn add_failure(&mut self, rest: &str) -> Result<()> {
        let (edge, call) = parted(rest);
        let edge = edge_of(edge)?;
        let call = call.parse::<u64>()?;
        self.failures.push(Failure { edge, call })?;
        Ok(())
    }

    /// Takes a line that says what there is, and answers whether it was one.
    pub fn take_line(&mut self, word: &str, rest: &str) -> Result<bool> {
        match word.as_bytes() {
            b"file" => self.add_file(rest)?,
            b"input" => self.input = bytes_of(self.alloc, rest)?,
            b"fail" => self.add_failure(rest)?,
            _ => return Ok(false),
        }
        Ok(true)
    }

    /// Forgets all but the files.
    pub fn go_on(&mut self) {
        self.input = Vec::new(self.alloc);
        self.failures = Vec::new(self.alloc);
    }
}
