ghost use Rattle.std.specs.Prelude.{◌≡◌, ℕ, List, Option, IfOk, OnErr, OnOk};
ghost use Rattle.bas_edge.specs.Errors.{failed};
ghost use Rattle.bas_edge.specs.Faults.{HasCause};
ghost use Rattle.bas_edge.specs.Streams.{Takes};

use crate::errors::Failed;

/// Bytes that come from outside, one after another.
pub trait Source {
    /// The bytes not yet taken, where they are told.
    ghost left: { Self → Option (List ℕ) };

    /// How many faults there were.
    ghost fault_count: { Self → ℕ };

    /// Takes bytes to the front of the buffer and returns how many; 0 for a buffer that has room only at the end.
    /// What the buffer holds behind them is left open, and all of it after an `Err`.
    fn take(&mut self, buffer: &mut [u8]) -> Result<usize, Failed>
        ensures taken { IfOk result (λ count. Takes (left self.old) buffer.old count (left self.new) buffer.new) }
        ensures same { OnErr result (left self.new ≡ left self.old) }
        ensures cause { HasCause failed (fault_count self.old) (fault_count self.new) result }
        ensures unfaulted { OnOk result (fault_count self.new ≡ fault_count self.old) };

    /// How many faults there were, held at the greatest `u64`.
    fn faults(&self) -> u64
        ensures { result ≡ fault_count self.now };
}
