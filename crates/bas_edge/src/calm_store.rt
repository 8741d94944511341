ghost use Rattle.std.specs.Prelude.{◌≡◌, ◌<◌, Some, length, map, option_copied, IfOk, OnOk, OnErr};
ghost use Rattle.bas_edge.specs.Files.{HasFile, entry_of, file_bytes, file_of, files_of, overwritten, with_file, without_file};
ghost use Rattle.std.specs.FinMap as finite;

use crate::errors::{EdgeError, Memory};
use crate::store::Store;
use std::alloc::{AllocError, Global};
use std::collections::BTreeMap;
use std::marker::Model;

/// Files in memory that never fail. Contracts see them as a map from names to bytes.
#[derive(Drop)]
pub struct CalmStore {
    alloc: Global,
    files: BTreeMap<Vec<u8>, Vec<u8>>,
}

impl Model for CalmStore {
    ghost use Rattle.bas_edge.specs.Files.{Files, files_code, files_in};

    ghost Value = { Files };

    ghost coded = { files_code };

    ghost view = { λ store. files_in store.files };
}

impl CalmStore {
    /// A store of these files. Of a name given twice the last entry counts.
    pub fn new(alloc: Global, files: Vec<(Vec<u8>, Vec<u8>)>) -> Result<CalmStore, Memory>
        ensures { IfOk result (λ store. store ≡ files_of (map entry_of files.items)) }
    {
        let mut store = CalmStore::empty(alloc);
        for (name, bytes) in files {
            store.put(name, bytes)?;
        }
        Ok(store)
    }

    /// A store without files.
    pub(crate) fn empty(alloc: Global) -> CalmStore
        ensures { result ≡ finite.empty }
    {
        CalmStore {
            alloc,
            files: BTreeMap::new(alloc),
        }
    }

    /// The bytes of a file; `None` where no file has the name.
    pub fn file(&self, name: &[u8]) -> Option<&[u8]>
        ensures { option_copied result ≡ file_of self.now name.now }
    {
        match self.files.get(name) {
            Some(bytes) => Some(bytes.as_slice()),
            None => None,
        }
    }

    /// Puts the bytes under the name, in place of the file that had it.
    pub(crate) fn put(&mut self, name: Vec<u8>, bytes: Vec<u8>) -> Result<(), AllocError>
        ensures ok { OnOk result (self.new ≡ with_file name.items bytes.items self.old) }
        ensures err { OnErr result (self.new ≡ self.old) }
    {
        self.files.insert(name, bytes)?;
        Ok(())
    }

    /// Puts the bytes into a file that is there. Takes no memory.
    fn set(&mut self, name: &[u8], bytes: Vec<u8>)
        requires { HasFile self.old name.now }
        ensures { self.new ≡ with_file name.now bytes.items self.old }
    {
        match self.files.get_mut(name) {
            Some(text) => *text = bytes,
            None => unreachable!(),
        }
    }

    /// Takes a file that is there out of the store, and returns its bytes.
    fn take(&mut self, name: &[u8]) -> Vec<u8>
        requires { HasFile self.old name.now }
        ensures bytes { result.items ≡ file_bytes self.old name.now }
        ensures rest { self.new ≡ without_file name.now self.old }
    {
        match self.files.remove(name) {
            Some(bytes) => bytes,
            None => unreachable!(),
        }
    }
}

impl Store for CalmStore {
    ghost files = { λ store. Some store };

    ghost fault_count = { λ _. 0 };

    fn length(&mut self, name: &[u8]) -> Result<Option<u64>, EdgeError> {
        Ok(self.file(name).map(|bytes| bytes.len() as u64))
    }

    fn read_at(&mut self, name: &[u8], at: u64, buffer: &mut [u8]) -> Result<(), EdgeError> {
        match self.file(name) {
            Some(bytes) => {
                let (_, rest) = bytes.split_at(at as usize);
                let (part, _) = rest.split_at(buffer.len());
                buffer.copy_from_slice(part);
                Ok(())
            }
            None => unreachable!(),
        }
    }

    fn write_at(&mut self, name: &[u8], at: u64, bytes: &[u8]) -> Result<(), EdgeError> {
        if bytes.is_empty() {
            return Ok(());
        }
        match self.files.get_mut(name) {
            Some(text) => Ok(overwrite(text, at, bytes)?),
            None => unreachable!(),
        }
    }

    fn create(&mut self, name: &[u8]) -> Result<(), EdgeError> {
        let name = Vec::from_slice(self.alloc, name)?;
        let bytes = Vec::new(self.alloc);
        Ok(self.put(name, bytes)?)
    }

    fn remove(&mut self, name: &[u8]) -> Result<(), EdgeError> {
        self.take(name);
        Ok(())
    }

    fn rename(&mut self, from: &[u8], to: &[u8]) -> Result<(), EdgeError> {
        if from == to {
            return Ok(());
        }
        let name = Vec::from_slice(self.alloc, to)?;
        let empty = Vec::new(self.alloc);
        self.put(name, empty)?;
        let bytes = self.take(from);
        self.set(to, bytes);
        Ok(())
    }

    fn set_length(&mut self, name: &[u8], length: u64) -> Result<(), EdgeError> {
        match self.files.get_mut(name) {
            Some(text) => Ok(text.resize(length as usize, 0)?),
            None => unreachable!(),
        }
    }

    fn faults(&self) -> u64 {
        0
    }
}

/// Writes the bytes into the text from `at` on, and fills a gap past its end with zeros. After an `Err` the text is as before.
fn overwrite(text: &mut Vec<u8>, at: u64, bytes: &[u8]) -> Result<(), AllocError>
    requires { 0 < length bytes.now }
    ensures ok { OnOk result (text.new.items ≡ overwritten text.old.items at bytes.now) }
    ensures err { OnErr result (text.new.items ≡ text.old.items) }
{
    let start = at as usize;
    let Some(end) = start.checked_add(bytes.len()) else {
        return Err(AllocError);
    };
    text.resize(end.max(text.len()), 0)?;
    let (_, rest) = text.as_mut_slice().split_at_mut(start);
    let (part, _) = rest.split_at_mut(bytes.len());
    part.copy_from_slice(bytes);
    Ok(())
}
