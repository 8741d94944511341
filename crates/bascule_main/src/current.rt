ghost use Rattle.std.specs.Prelude.{◌≡◌, None};

use crate::files::{counted, length_of, read_range};
use bas_edge::{EdgeError, Shelf};
use std::fs::{self, OpenOptions};
use std::io::{self, Write};
use std::rt::Files;

/// The current folder as a shelf: the name of a file is its path. It tells nothing of the files. What the system
/// answers counts a fault where it is an error, except for want of memory and for the length of an absent file.
#[derive(Drop)]
pub struct CurrentFolder<'a, R> {
    runtime: &'a R,
    /// How many faults there were, held at the greatest `u64`.
    faults: u64,
}

impl<'a, R: Files> CurrentFolder<'a, R> {
    /// The current folder, without a fault.
    pub fn new(runtime: &'a R) -> CurrentFolder<'a, R>
        ensures { ⟦<CurrentFolder<'a, R> as Shelf>⟧.fault_count result ≡ 0 }
    {
        CurrentFolder { runtime, faults: 0 }
    }

    fn append_bytes(&self, name: &str, bytes: &[u8]) -> io::Result<()> {
        let mut file = OpenOptions::new()
            .append(true)
            .create(true)
            .open(self.runtime, name)?;
        file.write_all(bytes)
    }
}

impl<R: Files> Shelf for CurrentFolder<'_, R> {
    ghost files = { λ _. None };

    ghost fault_count = { λ folder. folder.faults };

    fn length(&mut self, name: &str) -> Result<Option<u64>, EdgeError> {
        let length = length_of(self.runtime, name);
        counted(&mut self.faults, length)
    }

    fn read_at(&mut self, name: &str, at: u64, buffer: &mut [u8]) -> Result<(), EdgeError> {
        let read = read_range(self.runtime, name, at, buffer);
        counted(&mut self.faults, read)
    }

    fn replace(&mut self, name: &str, bytes: &[u8]) -> Result<(), EdgeError> {
        let replaced = fs::write(self.runtime, name, bytes);
        counted(&mut self.faults, replaced)
    }

    fn append(&mut self, name: &str, bytes: &[u8]) -> Result<(), EdgeError> {
        let appended = self.append_bytes(name, bytes);
        counted(&mut self.faults, appended)
    }

    fn faults(&self) -> u64 {
        self.faults
    }
}
