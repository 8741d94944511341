ghost use Rattle.std.specs.Prelude.{◌≡◌, ℕ, List, Option, IfOk, OnErr, IsErrOf, OnOk};
ghost use Rattle.bas_edge.specs.Faults.{HasCause};
ghost use Rattle.bas_edge.specs.Streams.{Gives};

use crate::errors::EdgeError;

/// Bytes that go outside, one after another.
pub trait Sink {
    /// All bytes given so far, where they are told.
    ghost given: { Self → Option (List ℕ) };

    /// How many faults there were.
    ghost fault_count: { Self → ℕ };

    /// Gives the first bytes of the piece and returns how many, at least 1 of a piece that isn't empty.
    fn give(&mut self, piece: &[u8]) -> Result<usize, EdgeError>
        ensures given { IfOk result (λ count. Gives (given self.old) piece.now count (given self.new)) }
        ensures same { OnErr result (given self.new ≡ given self.old) }
        ensures cause { HasCause EdgeError.Failed (fault_count self.old) (fault_count self.new) result }
        ensures unfaulted { OnOk result (fault_count self.new ≡ fault_count self.old) }
        ensures want { IsErrOf result EdgeError.Memory → fault_count self.new ≡ fault_count self.old };

    /// How many faults there were, held at the greatest `u64`.
    fn faults(&self) -> u64
        ensures { result ≡ fault_count self.now };
}
