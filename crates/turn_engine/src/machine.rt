ghost use Rattle.std.specs.Prelude.{◌≡◌, ◌<◌, Some, None, true, false, IfOk, OnOk, OnErr};
ghost use Rattle.bas_edge.specs.Faults.{HasCause};
ghost use Rattle.abi_calls.specs.Turn.{world_turn};
ghost use Rattle.libos_state.specs.Pending as libos;
ghost use Rattle.libos_state.specs.Fits.{Fits};
ghost use Rattle.libos_state.specs.Records.{exit_code};
ghost use Rattle.libos_calls.specs.Left.{calls_left};
ghost use Rattle.turn_engine.specs.Moment.{moment};
ghost use Rattle.turn_engine.specs.Serves.{Serves, IsUp, TurnsTo};
ghost use Rattle.turn_engine.specs.Ends.{end_of, turns_of};
ghost use Rattle.turn_engine.specs.History.{History, Broken};
ghost use Rattle.turn_engine.specs.Halts.{Halts, HaltsTurn, ServesNoTrap, StartsQuietly};

use abi_calls::{Call, Host, HostError, Turned};
use bas_edge::Memory;
use libos_calls::{answered, enter};
use libos_state::LibOs;
use std::alloc::Global;
use thiserror::Error;

/// Why the machine can't go on. It is spent then, and so is its host.
#[derive(Clone, Copy, Debug, PartialEq, Eq, Error)]
pub enum EngineError {
    /// The outside failed; the host's count of faults rose.
    #[error("the outside failed")]
    Failed,
    /// There was no memory.
    #[error("out of memory")]
    Memory,
}

impl From<HostError> for EngineError {
    ghost use Rattle.turn_engine.specs.Errors.{of_host};

    ghost from_gives = { λ error given. given ≡ of_host error };

    fn from(error: HostError) -> EngineError {
        match error {
            HostError::Failed => EngineError::Failed,
            HostError::Memory => EngineError::Memory,
        }
    }
}

impl From<Memory> for EngineError {
    ghost use Rattle.turn_engine.specs.declared.machine.EngineError.TheVariants.{Memory as no_memory};

    ghost from_gives = { λ _ given. given ≡ no_memory };

    fn from(_error: Memory) -> EngineError {
        EngineError::Memory
    }
}

/// How a turn of the machine ended.
#[derive(Clone, Copy, Debug, PartialEq, Eq)]
pub enum TurnEnd {
    /// A thread did its instructions.
    Ran,
    /// No thread was ready, and one waits for a time.
    Idle,
    /// No thread is ready, and none will be.
    Stuck,
    /// A thread trapped and was served.
    Served,
}

/// The library OS over a host.
#[derive(Debug, Drop)]
pub struct Machine {
    pub os: LibOs,
}

impl Machine {
    /// Makes the pending call, and gives its reply to the library OS.
    fn answer<H: Host>(
        &mut self,
        alloc: Global,
        host: &mut H,
        call: &Call,
    ) -> Result<(), EngineError>
        requires asks { libos.pending self.old.os ≡ Some call.now }
        requires fits { Fits self.old.os (H.objects host.old) }
        ensures serves { OnOk result (Serves
            (moment self.old.os (H.objects host.old) (H.told host.old) (H.journal host.old) (H.answered_count host.old))
            (moment self.new.os (H.objects host.new) (H.told host.new) (H.journal host.new) (H.answered_count host.new))) }
        ensures quiet { OnOk result (StartsQuietly
            (moment self.old.os (H.objects host.old) (H.told host.old) (H.journal host.old) (H.answered_count host.old))
            (moment self.new.os (H.objects host.new) (H.told host.new) (H.journal host.new) (H.answered_count host.new))) }
        ensures unchanged { OnErr result (ServesNoTrap self.old.os → H.told host.new ≡ H.told host.old) }
        ensures halts { OnErr result (Halts
            (moment self.old.os (H.objects host.old) (H.told host.old) (H.journal host.old) (H.answered_count host.old))
            (H.told host.new)) }
        ensures nearer { OnOk result (calls_left self.new.os < calls_left self.old.os) }
        ensures history { OnOk result (History 0
            (moment self.old.os (H.objects host.old) (H.told host.old) (H.journal host.old) (H.answered_count host.old))
            (moment self.new.os (H.objects host.new) (H.told host.new) (H.journal host.new) (H.answered_count host.new))) }
        ensures broken { OnErr result (Broken 0
            (moment self.old.os (H.objects host.old) (H.told host.old) (H.journal host.old) (H.answered_count host.old))
            (H.told host.new) (H.journal host.new) (H.answered_count host.new)) }
        ensures cause { HasCause EngineError.Failed (H.fault_count host.old) (H.fault_count host.new) result }
    {
        let reply = host.call(call)?;
        answered(&mut self.os, alloc, reply)?;
        Ok(())
    }

    /// Makes the next call of the service in progress; `false` where none is in progress.
    fn step<H: Host>(&mut self, alloc: Global, host: &mut H) -> Result<bool, EngineError>
        requires fits { Fits self.old.os (H.objects host.old) }
        ensures serves { OnOk result (Serves
            (moment self.old.os (H.objects host.old) (H.told host.old) (H.journal host.old) (H.answered_count host.old))
            (moment self.new.os (H.objects host.new) (H.told host.new) (H.journal host.new) (H.answered_count host.new))) }
        ensures quiet { OnOk result (StartsQuietly
            (moment self.old.os (H.objects host.old) (H.told host.old) (H.journal host.old) (H.answered_count host.old))
            (moment self.new.os (H.objects host.new) (H.told host.new) (H.journal host.new) (H.answered_count host.new))) }
        ensures unchanged { OnErr result (ServesNoTrap self.old.os → H.told host.new ≡ H.told host.old) }
        ensures halts { OnErr result (Halts
            (moment self.old.os (H.objects host.old) (H.told host.old) (H.journal host.old) (H.answered_count host.old))
            (H.told host.new)) }
        ensures nearer { IfOk result (λ more. more ≡ true → calls_left self.new.os < calls_left self.old.os) }
        ensures settled { IfOk result (λ more. more ≡ false → self.new.os.cont ≡ None) }
        ensures history { OnOk result (History 0
            (moment self.old.os (H.objects host.old) (H.told host.old) (H.journal host.old) (H.answered_count host.old))
            (moment self.new.os (H.objects host.new) (H.told host.new) (H.journal host.new) (H.answered_count host.new))) }
        ensures broken { OnErr result (Broken 0
            (moment self.old.os (H.objects host.old) (H.told host.old) (H.journal host.old) (H.answered_count host.old))
            (H.told host.new) (H.journal host.new) (H.answered_count host.new)) }
        ensures cause { HasCause EngineError.Failed (H.fault_count host.old) (H.fault_count host.new) result }
    {
        let call = self.os.pending(alloc)?;
        match call {
            None => Ok(false),
            Some(call) => {
                self.answer(alloc, host, &call)?;
                Ok(true)
            }
        }
    }

    /// Serves the service in progress to its end.
    fn serve<H: Host>(&mut self, alloc: Global, host: &mut H) -> Result<(), EngineError>
        requires fits { Fits self.old.os (H.objects host.old) }
        ensures serves { OnOk result (Serves
            (moment self.old.os (H.objects host.old) (H.told host.old) (H.journal host.old) (H.answered_count host.old))
            (moment self.new.os (H.objects host.new) (H.told host.new) (H.journal host.new) (H.answered_count host.new))) }
        ensures quiet { OnOk result (StartsQuietly
            (moment self.old.os (H.objects host.old) (H.told host.old) (H.journal host.old) (H.answered_count host.old))
            (moment self.new.os (H.objects host.new) (H.told host.new) (H.journal host.new) (H.answered_count host.new))) }
        ensures unchanged { OnErr result (ServesNoTrap self.old.os → H.told host.new ≡ H.told host.old) }
        ensures halts { OnErr result (Halts
            (moment self.old.os (H.objects host.old) (H.told host.old) (H.journal host.old) (H.answered_count host.old))
            (H.told host.new)) }
        ensures settled { OnOk result (self.new.os.cont ≡ None) }
        ensures history { OnOk result (History 0
            (moment self.old.os (H.objects host.old) (H.told host.old) (H.journal host.old) (H.answered_count host.old))
            (moment self.new.os (H.objects host.new) (H.told host.new) (H.journal host.new) (H.answered_count host.new))) }
        ensures broken { OnErr result (Broken 0
            (moment self.old.os (H.objects host.old) (H.told host.old) (H.journal host.old) (H.answered_count host.old))
            (H.told host.new) (H.journal host.new) (H.answered_count host.new)) }
        ensures cause { HasCause EngineError.Failed (H.fault_count host.old) (H.fault_count host.new) result }
    {
        while self.step(alloc, host)? {}
        Ok(())
    }

    /// Serves what is in progress to its end: at first the start of the run.
    ///
    /// # Errors
    /// `Failed` only where the host's faults rose; `Memory`. The machine is spent then, and what the program wrote is
    /// a front of what the service writes.
    pub fn boot<H: Host>(&mut self, alloc: Global, host: &mut H) -> Result<(), EngineError>
        requires fits { Fits self.old.os (H.objects host.old) }
        ensures serves { OnOk result (Serves
            (moment self.old.os (H.objects host.old) (H.told host.old) (H.journal host.old) (H.answered_count host.old))
            (moment self.new.os (H.objects host.new) (H.told host.new) (H.journal host.new) (H.answered_count host.new))) }
        ensures quiet { OnOk result (StartsQuietly
            (moment self.old.os (H.objects host.old) (H.told host.old) (H.journal host.old) (H.answered_count host.old))
            (moment self.new.os (H.objects host.new) (H.told host.new) (H.journal host.new) (H.answered_count host.new))) }
        ensures unchanged { OnErr result (ServesNoTrap self.old.os → H.told host.new ≡ H.told host.old) }
        ensures halts { OnErr result (Halts
            (moment self.old.os (H.objects host.old) (H.told host.old) (H.journal host.old) (H.answered_count host.old))
            (H.told host.new)) }
        ensures settled { OnOk result (self.new.os.cont ≡ None) }
        ensures history { OnOk result (History 0
            (moment self.old.os (H.objects host.old) (H.told host.old) (H.journal host.old) (H.answered_count host.old))
            (moment self.new.os (H.objects host.new) (H.told host.new) (H.journal host.new) (H.answered_count host.new))) }
        ensures broken { OnErr result (Broken 0
            (moment self.old.os (H.objects host.old) (H.told host.old) (H.journal host.old) (H.answered_count host.old))
            (H.told host.new) (H.journal host.new) (H.answered_count host.new)) }
        ensures cause { HasCause EngineError.Failed (H.fault_count host.old) (H.fault_count host.new) result }
    {
        self.serve(alloc, host)
    }

    /// Makes one turn of the host, and serves the trap, if there is one, to its end. Where the machine is stuck,
    /// nothing changes.
    ///
    /// # Errors
    /// `Failed` only where the host's faults rose; `Memory`. Both come only where there is a trap to serve, and the
    /// machine is spent then.
    pub fn turn<H: Host>(&mut self, alloc: Global, host: &mut H) -> Result<TurnEnd, EngineError>
        requires up { IsUp self.old.os (H.objects host.old) }
        requires alive { exit_code self.old.os ≡ None }
        ensures ends { IfOk result (λ end. end ≡ end_of (world_turn (H.objects host.old)).0) }
        ensures serving { OnErr result (end_of (world_turn (H.objects host.old)).0 ≡ TurnEnd.Served) }
        ensures turn { IfOk result (λ end. TurnsTo end
            (moment self.old.os (H.objects host.old) (H.told host.old) (H.journal host.old) (H.answered_count host.old))
            (moment self.new.os (H.objects host.new) (H.told host.new) (H.journal host.new) (H.answered_count host.new))) }
        ensures halts { OnErr result (HaltsTurn
            (moment self.old.os (H.objects host.old) (H.told host.old) (H.journal host.old) (H.answered_count host.old))
            (H.told host.new)) }
        ensures history { IfOk result (λ end. History (turns_of end)
            (moment self.old.os (H.objects host.old) (H.told host.old) (H.journal host.old) (H.answered_count host.old))
            (moment self.new.os (H.objects host.new) (H.told host.new) (H.journal host.new) (H.answered_count host.new))) }
        ensures broken { OnErr result (Broken 1
            (moment self.old.os (H.objects host.old) (H.told host.old) (H.journal host.old) (H.answered_count host.old))
            (H.told host.new) (H.journal host.new) (H.answered_count host.new)) }
        ensures cause { HasCause EngineError.Failed (H.fault_count host.old) (H.fault_count host.new) result }
    {
        match host.turn() {
            Turned::Ran => Ok(TurnEnd::Ran),
            Turned::Idle => Ok(TurnEnd::Idle),
            Turned::Stuck => Ok(TurnEnd::Stuck),
            Turned::Exception(upcall) => {
                enter(&mut self.os, alloc, &upcall)?;
                self.serve(alloc, host)?;
                Ok(TurnEnd::Served)
            }
        }
    }
}
