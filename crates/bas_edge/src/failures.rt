ghost use Rattle.std.specs.Prelude.{◌≡◌, ◌↔◌, IsErr, IsTrue, OnOk};
ghost use Rattle.bas_edge.specs.Errors.{failed};
ghost use Rattle.bas_edge.specs.Failures.{after_call, fails_next};
ghost use Rattle.bas_edge.specs.Faults.{HasCause};

use crate::errors::Failed;
use bas_items::Items;
use std::marker::Model;

/// Counts the calls of an object in memory, and says which of them fail.
#[derive(Debug, Drop)]
pub(crate) struct Failures {
    /// How many calls there were, held at the greatest `u64`.
    made: u64,
    /// How many of them failed.
    failed: u64,
    /// The numbers of the calls that fail, the first call being 1.
    failing: Items<u64>,
}

impl Model for Failures {
    ghost use Rattle.bas_edge.specs.Failures.{Calls};

    ghost Value = { Calls };

    ghost view = { λ it. record { made = it.made; failed = it.failed; failing = it.failing } };
}

impl Failures {
    /// The calls with these numbers fail. No call was made yet.
    pub(crate) fn new(failing: Vec<u64>) -> Failures
        ensures { result ≡ record { made = 0; failed = 0; failing = failing.items } }
    {
        Failures {
            made: 0,
            failed: 0,
            failing: Items::from_vec(failing),
        }
    }

    /// Counts a call, and answers whether it fails.
    pub(crate) fn count_call(&mut self) -> Result<(), Failed>
        ensures fails { IsErr result ↔ IsTrue (fails_next self.old) }
        ensures counted { self.new ≡ after_call self.old }
        ensures cause { HasCause failed self.old.failed self.new.failed result }
        ensures unfaulted { OnOk result (self.new.failed ≡ self.old.failed) }
    {
        let Some(number) = self.made.checked_add(1) else {
            return Ok(());
        };
        self.made = number;
        if self.failing.as_slice().contains(&number) {
            self.failed = self.failed.saturating_add(1);
            return Err(Failed);
        }
        Ok(())
    }

    /// How many calls failed.
    pub(crate) fn failed(&self) -> u64
        ensures { result ≡ self.now.failed }
    {
        self.failed
    }
}
