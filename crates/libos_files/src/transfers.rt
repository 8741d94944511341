ghost use Rattle.std.specs.Prelude.{◌≡◌, ◌==◌, if◌then◌else◌, [], ◌∷◌, IfOk, OnOk};
ghost use Rattle.abi_calls.specs.declared.reply.Reply.TheVariants.{Count};
ghost use Rattle.mono_model.specs.Machine.{register};
ghost use Rattle.libos_state.specs.Answered as answered;
ghost use Rattle.libos_state.specs.Entered as spec;
ghost use Rattle.libos_state.specs.Pending.{upcall_in};

use crate::entered::READ;
use crate::positions::is_file;
use crate::service::{EBADF, EFAULT, EFBIG, bare, begin, error, finishing, getting, give, is_call};
use abi_calls::{Reply, Upcall};
use bas_items::Items;
use libos_state::Step::{Asks, Ends};
use libos_state::{
    A0, Change, Cont, Description, Event, LibOs, Stage, Step, description_of, number_at, upcall_of,
};
use std::alloc::{AllocError, Global};

/// The rights of a description: to read, and to write.
const READABLE: u8 = 1;

pub const WRITABLE: u8 = 2;

/// Begins to serve a call that moves as many bytes as it asks for, at this stage; of no bytes the result is known.
fn begin_transfer(os: &mut LibOs, alloc: Global, upcall: &Upcall, stage: Stage)
    ensures { os.new ≡ (if register upcall.now.context 12 == 0 then spec.result_of os.old upcall.now 0
        else spec.stage_of os.old upcall.now stage) }
{
    if upcall.context.x[A0 + 2] == 0 {
        give(os, alloc, upcall, 0);
    } else {
        begin(os, alloc, upcall, stage);
    }
}

/// Begins to serve read.
pub fn enter_read(os: &mut LibOs, alloc: Global, upcall: &Upcall, description: Option<Description>)
    ensures { os.new ≡ spec.read_entered os.old upcall.now description }
{
    match description {
        Some(description) if description.access & READABLE == READABLE => {
            begin_transfer(os, alloc, upcall, Stage::ReadStream);
        }
        _ => give(os, alloc, upcall, error(EBADF)),
    }
}

/// Begins to serve write.
pub fn enter_write(os: &mut LibOs, alloc: Global, upcall: &Upcall, description: Option<Description>)
    ensures { os.new ≡ spec.write_entered os.old upcall.now description }
{
    match description {
        Some(description) if description.access & WRITABLE == WRITABLE => {
            begin_transfer(os, alloc, upcall, Stage::ReadBuffer);
        }
        _ => give(os, alloc, upcall, error(EBADF)),
    }
}

/// The service that stores bytes in the caller's memory, and then gives the result.
pub fn storing(
    alloc: Global,
    event: Event,
    address: u64,
    bytes: Items<u8>,
    result_in_a0: u64,
) -> Result<Cont, AllocError>
    ensures { IfOk result (λ cont. cont ≡ record {
      event = event;
      stage = Stage.StoreBytes;
      next = (upcall_in event).context;
      names = [];
      bytes = bytes;
      handles = [];
      later = [];
      numbers = address ∷ result_in_a0 ∷ [];
    }) }
{
    let numbers = Items::from_slice(alloc, &[address, result_in_a0])?;
    let mut cont = bare(alloc, event, Stage::StoreBytes);
    cont.bytes = bytes;
    cont.numbers = numbers;
    Ok(cont)
}

/// The bytes of the stream have come: they are stored, unless there are none.
pub fn bytes_read(alloc: Global, cont: Cont, reply: Reply) -> Result<Step, AllocError>
    ensures { IfOk result (λ step. step ≡ answered.next cont Stage.ReadStream reply) }
{
    let Reply::Bytes(bytes) = reply else {
        return Ok(Ends);
    };
    if bytes.is_empty() {
        return Ok(Asks(finishing(alloc, cont.event, 0)));
    }
    let address = upcall_of(&cont.event).context.x[A0 + 1];
    let count = bytes.len() as u64;
    Ok(Asks(storing(alloc, cont.event, address, bytes, count)?))
}

/// The bytes are stored, or a byte of the memory isn't there or can't be written.
pub fn bytes_stored(alloc: Global, cont: Cont, reply: &Reply) -> Step
    ensures { result ≡ answered.next cont Stage.StoreBytes reply.now }
{
    match reply {
        Reply::Done => {
            let known = number_at(cont.numbers.as_slice(), 1);
            Asks(finishing(alloc, cont.event, known))
        }
        Reply::BadAddress | Reply::NoAccess => { Asks(finishing(alloc, cont.event, error(EFAULT))) }
        _ => Ends,
    }
}

/// A read that has stored its bytes moves the position of its file.
pub fn change_of_store(cont: &Cont) -> Change
    ensures { result ≡ answered.store_change cont.now }
{
    let upcall = upcall_of(&cont.event);
    if !is_call(&upcall, READ) {
        return Change::Same;
    }
    Change::MovesPosition {
        process: upcall.process,
        fd: upcall.context.x[A0],
        count: cont.bytes.len() as u64,
    }
}

/// The bytes that are to be written have come from the caller's memory, or can't be read there.
pub fn buffer_read(alloc: Global, mut cont: Cont, reply: Reply) -> Step
    ensures { result ≡ answered.next cont Stage.ReadBuffer reply }
{
    match reply {
        Reply::Bytes(bytes) => {
            cont.bytes = bytes;
            Step::Sends(cont)
        }
        Reply::BadAddress | Reply::NoAccess => { Asks(finishing(alloc, cont.event, error(EFAULT))) }
        _ => Ends,
    }
}

/// A stage that keeps bytes.
fn keeping(alloc: Global, event: Event, stage: Stage, bytes: Items<u8>) -> Cont
    ensures { result ≡ record {
      event = event;
      stage = stage;
      next = (upcall_in event).context;
      names = [];
      bytes = bytes;
      handles = [];
      later = [];
      numbers = [];
    } }
{
    let mut cont = bare(alloc, event, stage);
    cont.bytes = bytes;
    cont
}

/// The service that writes bytes to the stream, into a file from the offset on.
fn writing(alloc: Global, event: Event, bytes: Items<u8>, offset: u64) -> Result<Cont, AllocError>
    ensures { IfOk result (λ cont. cont ≡ record {
      event = event;
      stage = Stage.WriteStream;
      next = (upcall_in event).context;
      names = [];
      bytes = bytes;
      handles = [];
      later = [];
      numbers = offset ∷ [];
    }) }
{
    let numbers = Items::from_slice(alloc, &[offset])?;
    let mut cont = keeping(alloc, event, Stage::WriteStream, bytes);
    cont.numbers = numbers;
    Ok(cont)
}

/// The service of a write whose bytes have come: where the description appends, the length of its file is asked for
/// before.
fn sending(alloc: Global, cont: Cont, description: Option<Description>) -> Result<Cont, AllocError>
    ensures { IfOk result (λ next. next ≡ answered.service_sending cont description) }
{
    match description {
        Some(description) if description.append => {
            Ok(keeping(alloc, cont.event, Stage::AppendLength, cont.bytes))
        }
        Some(description) if is_file(&description) => {
            writing(alloc, cont.event, cont.bytes, description.position)
        }
        _ => writing(alloc, cont.event, cont.bytes, 0),
    }
}

/// The bytes that a write has read go to the stream of its descriptor.
///
/// # Errors
/// There was no memory.
pub fn send(os: &mut LibOs, alloc: Global, cont: Cont) -> Result<(), AllocError>
    ensures { OnOk result (os.new ≡ answered.sends os.old cont) }
{
    let upcall = upcall_of(&cont.event);
    let description = description_of(os, upcall.process, upcall.context.x[A0]);
    os.cont = Some(sending(alloc, cont, description)?);
    Ok(())
}

/// The length of the file is known, at whose end the bytes are written.
pub fn end_told(alloc: Global, cont: Cont, reply: &Reply) -> Result<Step, AllocError>
    ensures { IfOk result (λ step. step ≡ answered.next cont Stage.AppendLength reply.now) }
{
    match reply {
        Reply::Length(end) => Ok(Asks(writing(alloc, cont.event, cont.bytes, *end)?)),
        _ => Ok(Ends),
    }
}

/// The bytes are written, or would make the file too long.
pub fn bytes_written(alloc: Global, cont: Cont, reply: &Reply) -> Step
    ensures { result ≡ answered.next cont Stage.WriteStream reply.now }
{
    match reply {
        Reply::Count(count) => Asks(finishing(alloc, cont.event, *count)),
        Reply::TooBig => Asks(finishing(alloc, cont.event, error(EFBIG))),
        _ => Ends,
    }
}

/// The position of the file stands behind the bytes that were written.
pub fn change_of_write(cont: &Cont, count: u64) -> Change
    ensures { result ≡ answered.change cont.now Stage.WriteStream (Count count) }
{
    let upcall = upcall_of(&cont.event);
    let offset = number_at(cont.numbers.as_slice(), 0);
    Change::PutsPosition {
        process: upcall.process,
        fd: upcall.context.x[A0],
        position: offset.saturating_add(count),
    }
}
