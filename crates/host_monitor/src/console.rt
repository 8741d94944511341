ghost use Rattle.std.specs.Prelude.{◌≡◌, IfOk, OnOk, OnErr, IsErrOf};
ghost use Rattle.bas_edge.specs.Errors.{failed};
ghost use Rattle.bas_edge.specs.Faults.{HasCause};
ghost use Rattle.bas_edge.specs.Streams.{Takes};
ghost use Rattle.abi_calls.specs.Failing.{IsPartTaken, without_front};
ghost use Rattle.host_monitor.specs.Edges.{TakesAsked};

use bas_edge::{EdgeError, Failed, Source};
use bas_items::Items;
use std::alloc::Global;
use std::marker::Model;

/// How many bytes are taken at once.
const PIECE: usize = 4096;

/// The console's input. It isn't asked again once it has ended. Contracts see the source.
#[derive(Drop)]
pub(crate) struct Console<I: Source> {
    source: I,
    ended: bool,
}

impl<I: Source> Model for Console<I> {
    ghost use Rattle.std.specs.Prelude.{◌≡◌, true, [], IfSome};

    ghost Value = { I };

    ghost coded = { I.code };

    ghost view = { λ console. console.source };

    ghost invariant = { λ console.
        console.ended ≡ true → IfSome (I.left console.source) (λ bytes. bytes ≡ []) };
}

impl<I: Source> Console<I> {
    /// A console that was not asked yet.
    pub(crate) fn new(source: I) -> Console<I>
        ensures { result ≡ source }
    {
        Console {
            source,
            ended: false,
        }
    }

    /// The source.
    pub(crate) fn source(&self) -> &I
        ensures { result.now ≡ self.now }
    {
        &self.source
    }

    /// Takes bytes to the front of the buffer, which has room, and returns how many; 0 only at the end.
    fn take(&mut self, buffer: &mut [u8]) -> Result<usize, Failed>
        ensures taken { IfOk result (λ count.
            Takes (I.left self.old) buffer.old count (I.left self.new) buffer.new) }
        ensures same { OnErr result (I.left self.new ≡ I.left self.old) }
        ensures cause { HasCause failed (I.fault_count self.old) (I.fault_count self.new) result }
        ensures unfaulted { OnOk result (I.fault_count self.new ≡ I.fault_count self.old) }
    {
        if self.ended {
            return Ok(0);
        }
        let count = self.source.take(buffer)?;
        self.ended = count == 0 && !buffer.is_empty();
        Ok(count)
    }

    #[tactic(auto, using(crate::proofs::Pieces::taking))]
    /// Takes until there are `count` bytes or the input ends. After an `Err` some of them are taken.
    pub(crate) fn take_all(&mut self, alloc: Global, count: usize) -> Result<Items<u8>, EdgeError>
        ensures asked { IfOk result (λ bytes.
            TakesAsked (I.left self.old) count bytes (I.left self.new)) }
        ensures part { IsPartTaken (I.left self.old) (I.left self.new)
            (without_front (I.left self.old) count) }
        ensures cause { HasCause EdgeError.Failed
            (I.fault_count self.old) (I.fault_count self.new) result }
        ensures unfaulted { OnOk result (I.fault_count self.new ≡ I.fault_count self.old) }
        ensures want { IsErrOf result EdgeError.Memory
            → I.fault_count self.new ≡ I.fault_count self.old }
    {
        let mut bytes = Items::new(alloc);
        let mut buffer = [0; PIECE];
        while bytes.len() < count {
            let room = (count - bytes.len()).min(PIECE);
            let (piece, _) = buffer.split_at_mut(room);
            let taken = self.take(piece)?;
            if taken == 0 {
                return Ok(bytes);
            }
            let (front, _) = piece.split_at(taken);
            bytes.extend_from_slice(front)?;
        }
        Ok(bytes)
    }
}
