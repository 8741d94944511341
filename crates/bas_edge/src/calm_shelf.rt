ghost use Rattle.std.specs.Prelude.{◌≡◌, Some, map, option_copied, IfOk};
ghost use Rattle.bas_edge.specs.Files.{file_of, files_of, text_entry_of};

use crate::calm_store::CalmStore;
use crate::errors::{EdgeError, Memory};
use crate::shelf::Shelf;
use crate::store::Store;
use std::alloc::Global;
use std::marker::Model;

/// A user's files in memory that never fail. Contracts see them as a map from the bytes of the names to bytes.
#[derive(Drop)]
pub struct CalmShelf {
    alloc: Global,
    store: CalmStore,
}

impl Model for CalmShelf {
    ghost use Rattle.bas_edge.specs.Files.{Files, files_code};

    ghost Value = { Files };

    ghost coded = { files_code };

    ghost view = { λ shelf. shelf.store };
}

impl CalmShelf {
    /// A shelf of these files. Of a name given twice the last entry counts.
    pub fn new(alloc: Global, files: Vec<(String, Vec<u8>)>) -> Result<CalmShelf, Memory>
        ensures { IfOk result (λ shelf. shelf ≡ files_of (map text_entry_of files.items)) }
    {
        let mut store = CalmStore::empty(alloc);
        for (name, bytes) in files {
            store.put(name.into_bytes(), bytes)?;
        }
        Ok(CalmShelf { alloc, store })
    }

    /// The bytes of a file; `None` where no file has the name.
    pub fn file(&self, name: &str) -> Option<&[u8]>
        ensures { option_copied result ≡ file_of self.now name.now }
    {
        self.store.file(name.as_bytes())
    }
}

impl Shelf for CalmShelf {
    ghost files = { λ shelf. Some shelf };

    ghost fault_count = { λ _. 0 };

    fn length(&mut self, name: &str) -> Result<Option<u64>, EdgeError> {
        self.store.length(name.as_bytes())
    }

    fn read_at(&mut self, name: &str, at: u64, buffer: &mut [u8]) -> Result<(), EdgeError> {
        self.store.read_at(name.as_bytes(), at, buffer)
    }

    fn replace(&mut self, name: &str, bytes: &[u8]) -> Result<(), EdgeError> {
        let name = Vec::from_slice(self.alloc, name.as_bytes())?;
        let bytes = Vec::from_slice(self.alloc, bytes)?;
        Ok(self.store.put(name, bytes)?)
    }

    #[tactic(auto, using(crate::proofs::FilesIn::with_bytes_at_end))]
    fn append(&mut self, name: &str, bytes: &[u8]) -> Result<(), EdgeError> {
        match self.store.length(name.as_bytes())? {
            Some(end) => self.store.write_at(name.as_bytes(), end, bytes),
            None => self.replace(name, bytes),
        }
    }

    fn faults(&self) -> u64 {
        0
    }
}
