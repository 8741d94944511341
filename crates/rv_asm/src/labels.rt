ghost use Rattle.std.specs.Prelude.{◌≡◌, List, ℕ, if◌then◌else◌, None, Some, OnOk};
ghost use Rattle.std.specs.Str.{bytes_eq};
ghost use Rattle.rv_asm.specs.Labels.{defined, otherwise};

use asm_text::Text;
use std::alloc::{AllocError, Global};
use std::collections::BTreeMap;

/// Where a label is defined: the line, counted from 1, and the address.
#[derive(Clone, Copy)]
pub struct Definition {
    pub line: u64,
    pub address: u64,
}

/// The first definition of each label.
#[derive(Drop)]
pub struct Labels<'a> {
    definitions: BTreeMap<&'a [u8], Definition>,
}

impl<'a> Labels<'a> {
    pub fn new(alloc: Global) -> Labels<'a>
        ensures { (name : List ℕ) → defined result name ≡ None }
    {
        Labels {
            definitions: BTreeMap::new(alloc),
        }
    }

    /// The first definition of the label.
    pub fn get(&self, name: &Text<'a>) -> Option<Definition>
        ensures { result ≡ defined self.now name.now }
    {
        self.definitions.get(&name.as_slice()).copied()
    }

    /// Adds a definition of the label, which counts unless there is an earlier one.
    pub fn define(&mut self, name: &Text<'a>, definition: Definition) -> Result<(), AllocError>
        ensures { OnOk result ((other : List ℕ) → defined self.new other
            ≡ otherwise (defined self.old other) (if bytes_eq name.now other then Some definition else None)) }
    {
        if self.get(name).is_none() {
            self.definitions.insert(name.as_slice(), definition)?;
        }
        Ok(())
    }
}
