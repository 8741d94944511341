ghost use Rattle.std.specs.Prelude.{◌≡◌, IfOk, OnErr};
ghost use Rattle.bas_edge.specs.Faults.{HasCause};
ghost use Rattle.turn_engine.specs.Serves.{IsUp};
ghost use Rattle.bascule_top.specs.Commands as spec;
ghost use Rattle.bascule_top.specs.Runs.{EndsRun, BreaksRun};
ghost use Rattle.bascule_top.specs.States.{over, state_of};

use abi_calls::Host;
use std::alloc::Global;
use turn_engine::{EngineError, Machine, TurnEnd};

/// How many turns a run has.
pub const TURNS: u64 = 1_000_000;

/// How a run ended.
#[derive(Clone, Copy, Debug, PartialEq, Eq)]
pub enum RunEnd {
    /// Process 1 has exited with this code.
    Exited(u8),
    /// All turns were made.
    Bound,
    /// After so many turns nothing can happen any more.
    Stuck(u64),
}

/// Makes turns until process 1 has exited, the machine is stuck or all are made.
pub fn run<H: Host>(
    alloc: Global,
    machine: &mut Machine,
    host: &mut H,
) -> Result<RunEnd, EngineError>
    requires up { IsUp machine.old.os (H.objects host.old) }
    requires unturned { (H.objects host.old).positions.turns ≡ 0 }
    ensures ends { IfOk result (λ end.
        EndsRun spec.TURNS end (over machine.old.os (state_of H.Host host.old)) (over machine.new.os (state_of H.Host host.new))) }
    ensures breaks { OnErr result (BreaksRun spec.TURNS
        (over machine.old.os (state_of H.Host host.old)) (H.told host.new) (H.journal host.new) (H.answered_count host.new)) }
    ensures cause { HasCause EngineError.Failed (H.fault_count host.old) (H.fault_count host.new) result }
{
    for turn in 0..TURNS {
        if let Some(code) = machine.os.exit_code() {
            return Ok(RunEnd::Exited(code));
        }
        match machine.turn(alloc, host)? {
            TurnEnd::Stuck => return Ok(RunEnd::Stuck(turn)),
            TurnEnd::Ran => {}
            TurnEnd::Idle => {}
            TurnEnd::Served => {}
        }
    }
    match machine.os.exit_code() {
        Some(code) => Ok(RunEnd::Exited(code)),
        None => Ok(RunEnd::Bound),
    }
}
