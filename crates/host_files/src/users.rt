ghost use Rattle.std.specs.Prelude.{◌≡◌, OnOk, OnErr};
ghost use Rattle.std.specs.FinMap.{empty, insert};
ghost use Rattle.host_files.specs.Users.{user_count, is_used, with_user, without_user};

use bas_edge::Memory;
use std::alloc::{AllocError, Global};
use std::collections::BTreeMap;
use std::marker::Model;

/// How many users each file has. A file without users takes no entry.
#[derive(Drop)]
pub(crate) struct Users {
    alloc: Global,
    counts: BTreeMap<Vec<u8>, u64>,
}

impl Model for Users {
    ghost use Rattle.host_files.specs.Users as users;

    ghost Value = { users.Users };

    ghost coded = { users.users_code };

    ghost view = { λ it. users.users_in it.counts };
}

impl Users {
    /// No users.
    pub(crate) fn new(alloc: Global) -> Users
        ensures { result ≡ empty }
    {
        Users {
            alloc,
            counts: BTreeMap::new(alloc),
        }
    }

    /// How many users a file has.
    fn count(&self, name: &[u8]) -> u64
        ensures { result ≡ user_count self.now name.now }
    {
        match self.counts.get(name) {
            Some(count) => *count,
            None => 0,
        }
    }

    /// Whether a file has a user.
    pub(crate) fn has(&self, name: &[u8]) -> bool
        ensures { result ≡ is_used self.now name.now }
    {
        self.count(name) > 0
    }

    /// Sets how many users a file has.
    fn set(&mut self, name: &[u8], count: u64) -> Result<(), AllocError>
        ensures ok { OnOk result (self.new ≡ insert self.old name.now count) }
        ensures err { OnErr result (self.new ≡ self.old) }
    {
        let name = Vec::from_slice(self.alloc, name)?;
        self.counts.insert(name, count)?;
        Ok(())
    }

    /// Counts one user more of a file.
    ///
    /// # Errors
    /// `Memory`, also where the file has as many users as a `u64` counts. All is then as before.
    pub(crate) fn add(&mut self, name: &[u8]) -> Result<(), Memory>
        ensures ok { OnOk result (self.new ≡ with_user name.now self.old) }
        ensures err { OnErr result (self.new ≡ self.old) }
    {
        let Some(count) = self.count(name).checked_add(1) else {
            return Err(Memory);
        };
        self.set(name, count)?;
        Ok(())
    }

    /// Counts one user less of a file. Takes no memory.
    pub(crate) fn take(&mut self, name: &[u8])
        ensures { self.new ≡ without_user name.now self.old }
    {
        if self.count(name) <= 1 {
            self.counts.remove(name);
            return;
        }
        match self.counts.get_mut(name) {
            Some(count) => *count -= 1,
            None => unreachable!(),
        }
    }
}
