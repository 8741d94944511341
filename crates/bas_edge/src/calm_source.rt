ghost use Rattle.std.specs.Prelude.{◌≡◌, ◌++◌, Some, min, length, take, drop, IfOk};
ghost use Rattle.bas_edge.specs.Errors.{failed};
ghost use Rattle.bas_edge.specs.Faults.{HasCause};
ghost use Rattle.bas_edge.specs.Streams.{Takes};

use crate::errors::Failed;
use crate::source::Source;
use std::marker::Model;

/// Bytes in memory as a source that never fails. Contracts see the bytes not yet taken.
#[derive(Debug, Drop)]
pub struct CalmSource {
    bytes: Vec<u8>,
    taken: usize,
}

impl Model for CalmSource {
    ghost use Rattle.std.specs.Prelude.{ℕ, List, ◌≤◌, length, drop};

    ghost Value = { List ℕ };

    ghost view = { λ source. drop source.taken source.bytes.items };

    ghost invariant = { λ source. source.taken ≤ length source.bytes.items };
}

impl CalmSource {
    /// A source of these bytes.
    pub fn new(bytes: Vec<u8>) -> CalmSource
        ensures { result ≡ bytes.items }
    {
        CalmSource { bytes, taken: 0 }
    }

    /// The bytes not yet taken.
    pub fn left(&self) -> &[u8]
        ensures { result.now ≡ self.now }
    {
        let (_, left) = self.bytes.as_slice().split_at(self.taken);
        left
    }
}

impl Source for CalmSource {
    ghost left = { λ source. Some source };

    ghost fault_count = { λ _. 0 };

    /// Takes as many bytes as are left and have room, and leaves the buffer behind them as it is.
    fn take(&mut self, buffer: &mut [u8]) -> Result<usize, Failed>
        ensures all { IfOk result (λ count. count ≡ min (length buffer.old) (length self.old)) }
        ensures filled { IfOk result (λ count. buffer.new ≡ take count self.old ++ drop count buffer.old) }
        ensures taken { IfOk result (λ count. Takes (Some self.old) buffer.old count (Some self.new) buffer.new) }
        ensures cause { HasCause failed 0 0 result }
    {
        let count = buffer.len().min(self.bytes.len() - self.taken);
        let (_, left) = self.bytes.as_slice().split_at(self.taken);
        let (next, _) = left.split_at(count);
        let (front, _) = buffer.split_at_mut(count);
        front.copy_from_slice(next);
        self.taken += count;
        Ok(count)
    }

    fn faults(&self) -> u64 {
        0
    }
}
