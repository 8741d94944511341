ghost use Rattle.std.specs.Prelude.{◌≡◌};
ghost use Rattle.libos_state.specs.Kept.{HasRights, KeptAt};
ghost use Rattle.libos_state.specs.Pending as pending;
ghost use Rattle.libos_state.specs.declared.state.LibOs.{LibOs};

use crate::cont::{Cont, Stage};
use crate::kept::{A0, number_at, upcall_of};
use abi_calls::Call;

/// The number of the system call.
pub const BRK: u64 = 214;

/// The rights to read and to write.
pub const READ_WRITE: u8 = 3;

/// Whether the system call that a service serves is brk.
pub fn is_brk(cont: &Cont) -> bool
    ensures { result ≡ pending.is_brk cont.now }
{
    upcall_of(&cont.event).context.x[A0 + 7] == BRK
}

/// The rights of the pages that are made.
fn rights_made(cont: &Cont) -> u8
    requires { KeptAt cont.now Stage.AllocatePages }
    ensures { result ≡ pending.rights_made cont.now }
{
    if is_brk(cont) {
        READ_WRITE
    } else {
        upcall_of(&cont.event).context.x[A0 + 2] as u8
    }
}

pub fn allocate_pages(cont: &Cont) -> Call
    requires stage { cont.now.stage ≡ Stage.AllocatePages }
    requires kept { KeptAt cont.now Stage.AllocatePages }
    ensures { (os : LibOs) → result ≡ pending.asked os cont.now cont.now.stage }
{
    Call::MemoryAllocate {
        process: upcall_of(&cont.event).process,
        page: number_at(cont.numbers.as_slice(), 0),
        count: number_at(cont.numbers.as_slice(), 1),
        rights: rights_made(cont),
    }
}

pub fn free_pages(cont: &Cont) -> Call
    requires { cont.now.stage ≡ Stage.FreePages }
    ensures { (os : LibOs) → result ≡ pending.asked os cont.now cont.now.stage }
{
    Call::MemoryFree {
        process: upcall_of(&cont.event).process,
        page: number_at(cont.numbers.as_slice(), 0),
        count: number_at(cont.numbers.as_slice(), 1),
    }
}

pub fn protect_pages(cont: &Cont) -> Call
    requires stage { cont.now.stage ≡ Stage.ProtectPages }
    requires rights { HasRights cont.now }
    ensures { (os : LibOs) → result ≡ pending.asked os cont.now cont.now.stage }
{
    let upcall = upcall_of(&cont.event);
    Call::MemoryProtect {
        process: upcall.process,
        page: number_at(cont.numbers.as_slice(), 0),
        count: number_at(cont.numbers.as_slice(), 1),
        rights: upcall.context.x[A0 + 2] as u8,
    }
}
