use crate::arguments::Names;
use crate::line::Line;
use abi_calls::{Call, Reply, StreamName};
use scene_script::{Files, names_of};
use std::alloc::{AllocError, Global};
use std::collections::{BTreeMap, BTreeSet};

/// What the calls of a scene came to so far.
#[derive(Drop)]
pub struct Record {
    alloc: Global,
    /// What came, in lines.
    pub text: String,
    /// What the names stand for.
    pub names: Names,
    /// The names of the files that are looked at.
    pub files: BTreeSet<Vec<u8>>,
    /// Whether a call gave no reply.
    pub over: bool,
}

impl Record {
    /// Nothing came yet, and there are these files.
    pub fn new(alloc: Global, files: &Files) -> Result<Record, AllocError> {
        Ok(Record {
            alloc,
            text: String::new(alloc),
            names: BTreeMap::new(alloc),
            files: names_of(alloc, files)?,
            over: false,
        })
    }

    /// A name stands for this number from now on.
    pub fn name(&mut self, name: &str, number: u64) -> Result<(), AllocError> {
        self.names
            .insert(String::from_str(self.alloc, name)?, number)?;
        Ok(())
    }

    /// The name of a line stands for the handle that the reply gives.
    pub fn keep(&mut self, line: &Line<'_>, reply: &Reply) -> Result<(), AllocError> {
        if let Reply::Handle(handle) = reply {
            self.name(line.name, *handle)?;
        }
        Ok(())
    }

    /// Looks at the file that a call may make.
    pub fn look(&mut self, call: &Call) -> Result<(), AllocError> {
        let (Call::StreamOpen {
            name: StreamName::File(name),
            ..
        }
        | Call::StreamRename { to: name, .. }) = call
        else {
            return Ok(());
        };
        self.files
            .insert(Vec::from_slice(self.alloc, name.as_slice())?)?;
        Ok(())
    }
}
