ghost use Rattle.std.specs.Prelude.{◌≡◌, ℕ, Option, None, IfOk, IsTrue, OnOk, OnErr, List, ◌↔◌};
ghost use Rattle.bas_edge.specs.Faults.{HasCause};
ghost use Rattle.abi_calls.specs.declared.host.Crossing.{Crossing};
ghost use Rattle.abi_calls.specs.Objects.{Objects};
ghost use Rattle.abi_calls.specs.World.{Told};
ghost use Rattle.abi_calls.specs.Abi.{Answers, counted_up, journalled};
ghost use Rattle.abi_calls.specs.Failing.{Leaves};
ghost use Rattle.abi_calls.specs.Turn.{world_turn};
ghost use Rattle.abi_calls.specs.Sound.{IsSound};
ghost use Rattle.abi_calls.specs.Fresh.{IsFreshWorld};
ghost use Rattle.abi_calls.specs.HostErrors.{host_error, no_memory};

use crate::call::Call;
use crate::reply::Reply;
use crate::threads::Turned;
use bas_edge::{EdgeError, Memory};
use thiserror::Error;

/// Why a host gave no reply.
#[derive(Clone, Copy, Debug, PartialEq, Eq, Drop, Error)]
pub enum HostError {
    /// The outside failed; the host's count of faults rose.
    #[error("the outside failed")]
    Failed,
    /// There was no memory.
    #[error("out of memory")]
    Memory,
}

impl From<Memory> for HostError {
    ghost from_gives = { λ _ error. error ≡ no_memory };

    fn from(_memory: Memory) -> HostError {
        HostError::Memory
    }
}

impl From<EdgeError> for HostError {
    ghost from_gives = { λ edge error. error ≡ host_error edge };

    fn from(edge: EdgeError) -> HostError {
        match edge {
            EdgeError::Failed => HostError::Failed,
            EdgeError::Memory => HostError::Memory,
        }
    }
}

/// An answered call: how many turns were made before it, the call, and its reply.
#[derive(Clone, Debug, Drop)]
pub struct Crossing {
    pub turns: u64,
    pub call: Call,
    pub reply: Reply,
}

/// A host of picoprocesses: it answers calls and makes turns.
///
/// Its objects are always told. The files, the console input that is left, the output and the errors are told
/// where the outside tells them. The journal, which a host may keep, is the list of its answered calls.
pub trait Host {
    /// The objects, the lists of threads, the positions and the settings.
    ghost objects: { Self → Objects };

    /// The contents of the outside, each part as far as it is told.
    ghost told: { Self → Told };

    /// The answered calls, where the host keeps them.
    ghost journal: { Self → Option (List Crossing) };

    /// How many calls were answered, held at the greatest `u64`.
    ghost answered_count: { Self → ℕ };

    /// How many faults of the outside were met, held at the greatest `u64`.
    ghost fault_count: { Self → ℕ };

    /// Makes a turn: waiting threads that are due become ready, one ready thread is picked and does up to
    /// `slice` instructions. Takes no memory and can't fail.
    fn turn(&mut self) -> Turned
        requires { (objects self.old).lists.current ≡ None }
        ensures turned { world_turn (objects self.old) ≡ (result, objects self.new) }
        ensures told { told self.new ≡ told self.old }
        ensures journal { journal self.new ≡ journal self.old }
        ensures answered { answered_count self.new ≡ answered_count self.old }
        ensures faults { fault_count self.new ≡ fault_count self.old };

    /// Answers a call.
    ///
    /// # Errors
    /// `Failed` only where the count of faults rose in this call; `Memory`, where it did not. After either the host
    /// is used no more, and of what the call does to the contents nothing or a part is done.
    fn call(&mut self, call: &Call) -> Result<Reply, HostError>
        ensures row { IfOk result (λ reply. Answers (objects self.old) (told self.old) call.now reply (objects self.new) (told self.new)) }
        ensures journal { IfOk result (λ reply. journal self.new ≡ journalled (journal self.old) (record { turns = (objects self.old).positions.turns; call = call.now; reply = reply })) }
        ensures answered { OnOk result (answered_count self.new ≡ counted_up (answered_count self.old)) }
        ensures left { OnErr result (Leaves (objects self.old) call.now (told self.old) (told self.new)) }
        ensures same_journal { OnErr result (journal self.new ≡ journal self.old) }
        ensures same_answered { OnErr result (answered_count self.new ≡ answered_count self.old) }
        ensures cause { HasCause HostError.Failed (fault_count self.old) (fault_count self.new) result }
        ensures unfaulted { OnOk result (fault_count self.new ≡ fault_count self.old) }
        ensures want { result ≡ Err HostError.Memory → fault_count self.new ≡ fault_count self.old };

    /// How many calls were answered.
    fn answered(&self) -> u64
        ensures { result ≡ answered_count self.now };

    /// How many faults were met.
    fn faults(&self) -> u64
        ensures { result ≡ fault_count self.now };

    /// Whether nothing was done: there is no object, all positions are 0 and no call was answered.
    fn fresh(&self) -> bool
        ensures { IsTrue result ↔ IsFreshWorld (objects self.now) (answered_count self.now) };

    /// The world is sound at any moment.
    ghost sound: { (h : Self) → IsSound (objects h) };
}
