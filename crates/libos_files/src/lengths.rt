ghost use Rattle.std.specs.Prelude.{◌≡◌, ◌==◌, ◌&&◌, bit_and, IfOk, OnOk};
ghost use Rattle.abi_calls.specs.declared.reply.Reply.TheVariants.{Length};
ghost use Rattle.mono_model.specs.FileCalls as calls;
ghost use Rattle.mono_model.specs.Machine.{register};
ghost use Rattle.libos_state.specs.Answered as answered;
ghost use Rattle.libos_state.specs.Entered as spec;
ghost use Rattle.libos_state.specs.Records as records;

use crate::entered::LSEEK;
use crate::positions::{is_file, set_position};
use crate::service::{EBADF, EFBIG, EINVAL, begin, error, finishing, give, is_call};
use crate::transfers::{WRITABLE, storing};
use abi_calls::{Reply, Upcall};
use bas_items::Items;
use libos_state::Step::{Asks, Ends};
use libos_state::{A0, Change, Cont, Description, Event, LibOs, Stage, Step, upcall_of};
use std::alloc::{AllocError, Global};

/// A descriptor that is no file has no position.
const ESPIPE: u64 = 29;

/// The greatest position that lseek gives, and the greatest length.
const LAST_POSITION: u64 = 0x7FFF_FFFF_FFFF_FFFF;

/// The mode of a file that all can read and its owner can write, and that of a terminal.
const FILE_MODE: u32 = 0x81A4;

const TERMINAL_MODE: u32 = 0x2190;

/// Where lseek counts from: the begin, the position, and the end.
const FROM_BEGIN: u64 = 0;

const FROM_POSITION: u64 = 1;

const FROM_END: u64 = 2;

/// Where a signed offset leads from a base, if it leads to a position.
fn sought(base: u64, offset: u64) -> Option<u64>
    ensures { result ≡ calls.sought base offset }
{
    let goes_back = offset > LAST_POSITION;
    let (at, wraps) = base.overflowing_add(offset);
    if wraps == goes_back && at <= LAST_POSITION {
        Some(at)
    } else {
        None
    }
}

/// The description is where the offset leads from the base, which is the result.
fn seek_from(os: &mut LibOs, alloc: Global, upcall: &Upcall, id: u64, base: u64)
    ensures { os.new ≡ spec.seek_to os.old upcall.now id (calls.sought base (register upcall.now.context 11)) }
{
    match sought(base, upcall.context.x[A0 + 1]) {
        Some(at) => {
            set_position(os, alloc, id, at);
            give(os, alloc, upcall, at);
        }
        None => give(os, alloc, upcall, error(EINVAL)),
    }
}

/// Begins to serve an lseek of a file: its length is asked for where the offset counts from its end.
fn seek(os: &mut LibOs, alloc: Global, upcall: &Upcall, description: &Description)
    ensures { os.new ≡ spec.seek_by os.old upcall.now description.now (register upcall.now.context 12) }
{
    match upcall.context.x[A0 + 2] {
        FROM_BEGIN => seek_from(os, alloc, upcall, description.id, 0),
        FROM_POSITION => seek_from(os, alloc, upcall, description.id, description.position),
        FROM_END => begin(os, alloc, upcall, Stage::FileLength),
        _ => give(os, alloc, upcall, error(EINVAL)),
    }
}

/// Begins to serve lseek.
pub fn enter_lseek(os: &mut LibOs, alloc: Global, upcall: &Upcall, description: Option<Description>)
    ensures { os.new ≡ spec.lseek_entered os.old upcall.now description }
{
    match description {
        Some(description) if is_file(&description) => seek(os, alloc, upcall, &description),
        Some(_) => give(os, alloc, upcall, error(ESPIPE)),
        None => give(os, alloc, upcall, error(EBADF)),
    }
}

/// A status of 128 bytes: at 16 the mode, at 48 the size, all else zeros.
fn status(alloc: Global, of_file: bool, size: u64) -> Result<Items<u8>, AllocError>
    ensures { IfOk result (λ bytes. bytes ≡ calls.status of_file size) }
{
    let mode = if of_file { FILE_MODE } else { TERMINAL_MODE };
    let mut bytes = Items::from_slice(alloc, &[0; 16])?;
    bytes.extend_from_slice(&mode.to_le_bytes())?;
    bytes.extend_from_slice(&[0; 28])?;
    bytes.extend_from_slice(&size.to_le_bytes())?;
    bytes.extend_from_slice(&[0; 72])?;
    Ok(bytes)
}

/// Begins to serve fstat: an end of the console has no length.
pub fn enter_fstat(
    os: &mut LibOs,
    alloc: Global,
    upcall: &Upcall,
    description: Option<Description>,
) -> Result<(), AllocError>
    ensures { OnOk result (os.new ≡ spec.fstat_entered os.old upcall.now description) }
{
    match description {
        Some(description) if is_file(&description) => begin(os, alloc, upcall, Stage::FileLength),
        Some(_) => {
            let bytes = status(alloc, false, 0)?;
            let address = upcall.context.x[A0 + 1];
            os.cont = Some(storing(alloc, Event::Up(*upcall), address, bytes, 0)?);
        }
        None => give(os, alloc, upcall, error(EBADF)),
    }
    Ok(())
}

/// Whether the file has a length that can be set: it is one that is open for writing.
fn is_open_for_length(description: &Description) -> bool
    ensures { result ≡ (records.is_file description.now.kind && bit_and description.now.access 2 == 2) }
{
    is_file(description) && description.access & WRITABLE == WRITABLE
}

/// Begins to serve ftruncate.
pub fn enter_ftruncate(
    os: &mut LibOs,
    alloc: Global,
    upcall: &Upcall,
    description: Option<Description>,
)
    ensures { os.new ≡ spec.ftruncate_entered os.old upcall.now description }
{
    let Some(description) = description else {
        give(os, alloc, upcall, error(EBADF));
        return;
    };
    if is_open_for_length(&description) && upcall.context.x[A0 + 1] <= LAST_POSITION {
        begin(os, alloc, upcall, Stage::SetFileLength);
    } else {
        give(os, alloc, upcall, error(EINVAL));
    }
}

/// The length of the file is known, from whose end a position is sought or which is its status.
pub fn length_told(alloc: Global, cont: Cont, reply: &Reply) -> Result<Step, AllocError>
    ensures { IfOk result (λ step. step ≡ answered.next cont Stage.FileLength reply.now) }
{
    let Reply::Length(size) = reply else {
        return Ok(Ends);
    };
    let upcall = upcall_of(&cont.event);
    let argument = upcall.context.x[A0 + 1];
    if is_call(&upcall, LSEEK) {
        let at = sought(*size, argument).unwrap_or(error(EINVAL));
        return Ok(Asks(finishing(alloc, cont.event, at)));
    }
    let bytes = status(alloc, true, *size)?;
    Ok(Asks(storing(alloc, cont.event, argument, bytes, 0)?))
}

/// An lseek from the end of the file puts its position where the offset leads.
pub fn change_of_length(cont: &Cont, size: u64) -> Change
    ensures { result ≡ answered.change cont.now Stage.FileLength (Length size) }
{
    let upcall = upcall_of(&cont.event);
    if !is_call(&upcall, LSEEK) {
        return Change::Same;
    }
    match sought(size, upcall.context.x[A0 + 1]) {
        Some(position) => Change::PutsPosition {
            process: upcall.process,
            fd: upcall.context.x[A0],
            position,
        },
        None => Change::Same,
    }
}

/// The file has its length, or that would be too long.
pub fn length_set(alloc: Global, cont: Cont, reply: &Reply) -> Step
    ensures { result ≡ answered.next cont Stage.SetFileLength reply.now }
{
    match reply {
        Reply::Done => Asks(finishing(alloc, cont.event, 0)),
        Reply::TooBig => Asks(finishing(alloc, cont.event, error(EFBIG))),
        _ => Ends,
    }
}
