ghost use Rattle.std.specs.Prelude.{◌≡◌, true, OnOk};
ghost use Rattle.libos_state.specs.Entered as spec;
ghost use Rattle.libos_files.specs.Served.{is_descriptor_call};

use crate::closing::{enter_close, enter_dup, enter_dup3};
use crate::lengths::{enter_fstat, enter_ftruncate, enter_lseek};
use crate::transfers::{enter_read, enter_write};
use abi_calls::Upcall;
use libos_state::{A0, LibOs, description_of};
use std::alloc::{AllocError, Global};

/// The numbers of the system calls.
pub const DUP: u64 = 23;

pub const DUP3: u64 = 24;

pub const FTRUNCATE: u64 = 46;

pub const CLOSE: u64 = 57;

pub const LSEEK: u64 = 62;

pub const READ: u64 = 63;

pub const WRITE: u64 = 64;

pub const FSTAT: u64 = 80;

/// Begins to serve a call on a descriptor.
///
/// # Errors
/// There was no memory.
pub fn enter(os: &mut LibOs, alloc: Global, upcall: &Upcall, number: u64) -> Result<(), AllocError>
    requires { is_descriptor_call number ≡ true }
    ensures { OnOk result (os.new ≡ spec.call_entered os.old upcall.now number) }
{
    let description = description_of(os, upcall.process, upcall.context.x[A0]);
    match number {
        WRITE => {
            enter_write(os, alloc, upcall, description);
            Ok(())
        }
        READ => {
            enter_read(os, alloc, upcall, description);
            Ok(())
        }
        LSEEK => {
            enter_lseek(os, alloc, upcall, description);
            Ok(())
        }
        FSTAT => enter_fstat(os, alloc, upcall, description),
        FTRUNCATE => {
            enter_ftruncate(os, alloc, upcall, description);
            Ok(())
        }
        CLOSE => enter_close(os, alloc, upcall, description),
        DUP => enter_dup(os, alloc, upcall, description),
        DUP3 => enter_dup3(os, alloc, upcall),
        _ => unreachable!(),
    }
}
