ghost use Rattle.std.specs.Prelude.{◌≡◌, ◌<◌, []};
ghost use Rattle.mono_model.specs.Calls as calls;
ghost use Rattle.mono_model.specs.Machine as machine;
ghost use Rattle.libos_state.specs.Entered as entered;
ghost use Rattle.libos_state.specs.Fits as fits;
ghost use Rattle.libos_state.specs.Pending.{upcall_in};

use abi_calls::Upcall;
use bas_items::Items;
use libos_state::{A0, Cont, Event, LibOs, Stage, upcall_of};
use rv_core::Context;
use std::alloc::Global;

/// The cause of a system call.
pub const SYSTEM_CALL: u8 = 8;

/// Error numbers.
pub const EBADF: u64 = 9;

pub const EFAULT: u64 = 14;

pub const EINVAL: u64 = 22;

pub const EFBIG: u64 = 27;

/// An error number as a result.
pub fn error(number: u64) -> u64
    requires { 0 < number }
    ensures { result ≡ calls.error number }
{
    number.wrapping_neg()
}

/// The registers behind a system call that gave a result.
pub fn returned(context: &Context, result_in_a0: u64) -> Context
    ensures { result ≡ machine.returned context.now result_in_a0 }
{
    let mut x = context.x;
    x[A0] = result_in_a0;
    Context {
        pc: context.pc.wrapping_add(4),
        x,
    }
}

/// A stage at which the thread is to get registers, and that keeps nothing else.
pub fn getting(alloc: Global, event: Event, stage: Stage, next: Context) -> Cont
    ensures { result ≡ record {
      event = event;
      stage = stage;
      next = next;
      names = [];
      bytes = [];
      handles = [];
      later = [];
      numbers = [];
    } }
{
    Cont {
        event,
        stage,
        next,
        names: Items::new(alloc),
        bytes: Items::new(alloc),
        handles: Items::new(alloc),
        later: Items::new(alloc),
        numbers: Items::new(alloc),
    }
}

/// What a stage that keeps nothing keeps.
pub fn bare(alloc: Global, event: Event, stage: Stage) -> Cont
    ensures { result ≡ record {
      event = event;
      stage = stage;
      next = (upcall_in event).context;
      names = [];
      bytes = [];
      handles = [];
      later = [];
      numbers = [];
    } }
{
    let next = upcall_of(&event).context;
    getting(alloc, event, stage, next)
}

/// The service of a system call whose result is known.
pub fn finishing(alloc: Global, event: Event, result_in_a0: u64) -> Cont
    ensures { result ≡ record {
      event = event;
      stage = Stage.SetContext;
      next = machine.returned (upcall_in event).context result_in_a0;
      names = [];
      bytes = [];
      handles = [];
      later = [];
      numbers = [];
    } }
{
    let next = returned(&upcall_of(&event).context, result_in_a0);
    getting(alloc, event, Stage::SetContext, next)
}

/// Begins to serve a call whose result is known.
pub fn give(os: &mut LibOs, alloc: Global, upcall: &Upcall, result_in_a0: u64)
    ensures { os.new ≡ entered.result_of os.old upcall.now result_in_a0 }
{
    let next = returned(&upcall.context, result_in_a0);
    os.cont = Some(getting(alloc, Event::Up(*upcall), Stage::SetContext, next));
}

/// Begins to serve a call at a stage that keeps nothing.
pub fn begin(os: &mut LibOs, alloc: Global, upcall: &Upcall, stage: Stage)
    ensures { os.new ≡ entered.stage_of os.old upcall.now stage }
{
    os.cont = Some(bare(alloc, Event::Up(*upcall), stage));
}

/// Whether the trap is the system call of this number.
pub fn is_call(upcall: &Upcall, number: u64) -> bool
    ensures { result ≡ fits.is_call upcall.now number }
{
    upcall.cause == SYSTEM_CALL && upcall.context.x[A0 + 7] == number
}
