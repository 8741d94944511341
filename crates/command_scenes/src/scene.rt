use crate::hosts::play;
use crate::telling::told;
use anyhow::Result;
use scene_script::{Failure, Files, Play, Played, Start, bytes_of, file_in, names_of, parted};
use std::alloc::{AllocError, Global};
use std::collections::{BTreeMap, BTreeSet};

/// What a scene begins with: what its host does, the files of the user, and the commands that are carried out one after
/// another over one host.
#[derive(Drop)]
pub struct Scene {
    alloc: Global,
    pub start: Start,
    pub texts: Files,
    pub commands: Vec<Vec<String>>,
    /// The names of the files that are looked at, beside those that are there.
    names: BTreeSet<Vec<u8>>,
}

/// The statements of a program, each as a line of a text.
fn lines_of(alloc: Global, statements: &str) -> Result<Vec<u8>, AllocError> {
    let mut text = Vec::new(alloc);
    for statement in statements.split("; ") {
        text.extend_from_slice(statement.as_bytes())?;
        text.push(b'\n')?;
    }
    Ok(text)
}

/// The words that a line has, each as the text that it stands for.
fn texts_of(alloc: Global, line: &str) -> Result<Vec<String>> {
    let mut texts = Vec::new(alloc);
    if line.is_empty() {
        return Ok(texts);
    }
    for word in line.split(' ') {
        texts.push(String::from_utf8(bytes_of(alloc, word)?)?)?;
    }
    Ok(texts)
}

impl Scene {
    /// A scene without anything.
    pub fn new(alloc: Global) -> Scene {
        Scene {
            alloc,
            start: Start::new(alloc),
            texts: BTreeMap::new(alloc),
            commands: Vec::new(alloc),
            names: BTreeSet::new(alloc),
        }
    }

    /// Looks at the files of this name too.
    fn look(&mut self, name: &[u8]) -> Result<(), AllocError> {
        self.names.insert(Vec::from_slice(self.alloc, name)?)?;
        Ok(())
    }

    /// The names of all files that are looked at.
    pub fn all_names(&self) -> Result<BTreeSet<Vec<u8>>, AllocError> {
        let mut names = names_of(self.alloc, &self.start.files)?;
        for name in self.names.iter() {
            names.insert(name.clone()?)?;
        }
        Ok(names)
    }

    fn add_text(&mut self, rest: &str) -> Result<()> {
        let (name, bytes) = file_in(self.alloc, rest)?;
        self.look(name.as_slice())?;
        self.texts.insert(name, bytes)?;
        Ok(())
    }

    fn add_lines(&mut self, rest: &str) -> Result<()> {
        let (name, statements) = parted(rest);
        let name = bytes_of(self.alloc, name)?;
        let text = lines_of(self.alloc, statements)?;
        self.look(name.as_slice())?;
        self.texts.insert(name, text)?;
        Ok(())
    }

    /// Adds a command.
    pub fn add_command(&mut self, rest: &str) -> Result<()> {
        let words = texts_of(self.alloc, rest)?;
        for word in &words {
            self.look(word.as_bytes())?;
        }
        self.commands.push(words)?;
        Ok(())
    }

    /// Takes a line that says what there is, and answers whether it was one.
    pub fn take_line(&mut self, word: &str, rest: &str) -> Result<bool> {
        match word.as_bytes() {
            b"text" => self.add_text(rest)?,
            b"lines" => self.add_lines(rest)?,
            b"do" => self.add_command(rest)?,
            _ => return self.start.take_line(word, rest),
        }
        Ok(true)
    }
}

impl Play for Scene {
    fn play(&self, failures: &[Failure]) -> Result<Played> {
        let seen = play(self.alloc, self, failures)?;
        Ok(Played {
            text: told(self.alloc, self, &seen)?,
            failed: seen.counts.failed,
        })
    }

    fn go_on(&mut self) {
        self.start.go_on();
        self.commands = Vec::new(self.alloc);
    }
}
