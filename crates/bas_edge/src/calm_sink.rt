ghost use Rattle.std.specs.Prelude.{◌≡◌, [], Some, length, IfOk, OnErr};
ghost use Rattle.bas_edge.specs.Faults.{HasCause};
ghost use Rattle.bas_edge.specs.Streams.{Gives};

use crate::errors::EdgeError;
use crate::sink::Sink;
use std::alloc::Global;
use std::marker::Model;

/// A sink that keeps all bytes in memory and never fails. Contracts see the bytes given so far.
#[derive(Debug, Drop)]
pub struct CalmSink {
    bytes: Vec<u8>,
}

impl Model for CalmSink {
    ghost use Rattle.std.specs.Prelude.{ℕ, List};

    ghost Value = { List ℕ };

    ghost view = { λ sink. sink.bytes.items };
}

impl CalmSink {
    /// A sink that was given nothing. Takes no memory until it is.
    pub fn new(alloc: Global) -> CalmSink
        ensures { result ≡ [] }
    {
        CalmSink {
            bytes: Vec::new(alloc),
        }
    }

    /// All bytes given so far.
    pub fn given(&self) -> &[u8]
        ensures { result.now ≡ self.now }
    {
        self.bytes.as_slice()
    }
}

impl Sink for CalmSink {
    ghost given = { λ sink. Some sink };

    ghost fault_count = { λ _. 0 };

    /// Gives the whole piece, or none of it for want of memory.
    fn give(&mut self, piece: &[u8]) -> Result<usize, EdgeError>
        ensures all { IfOk result (λ count. count ≡ length piece.now) }
        ensures given { IfOk result (λ count. Gives (Some self.old) piece.now count (Some self.new)) }
        ensures same { OnErr result (self.new ≡ self.old) }
        ensures cause { HasCause EdgeError.Failed 0 0 result }
    {
        self.bytes.extend_from_slice(piece)?;
        Ok(piece.len())
    }

    fn faults(&self) -> u64 {
        0
    }
}
