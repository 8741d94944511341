ghost use Rattle.std.specs.Prelude.{◌≡◌, ◌==◌, ◌&&◌, [], ◌∷◌, not, IfOk, OnOk};
ghost use Rattle.std.specs.List.{list_any};
ghost use Rattle.mono_model.specs.Calls as calls;
ghost use Rattle.mono_model.specs.Machine.{register};
ghost use Rattle.libos_state.specs.Answered as answered;
ghost use Rattle.libos_state.specs.Descriptors as spec;
ghost use Rattle.libos_state.specs.Entered as entered;
ghost use Rattle.libos_state.specs.Records as records;
ghost use Rattle.libos_state.specs.Records.{process_with};

use crate::descriptors::{close_descriptor, open_descriptor, pid_with};
use crate::entered::DUP3;
use crate::service::{EBADF, EINVAL, error, getting, give, is_call, returned};
use abi_calls::{Reply, Upcall};
use bas_items::Items;
use libos_state::Step::{Asks, Ends};
use libos_state::{
    A0, Change, Cont, Description, DescriptorNote, Event, LibOs, ProcessNote, Stage, Step,
    description_of, descriptor_by_number, number_at, process_by_handle, upcall_of,
};
use rv_core::Context;
use std::alloc::{AllocError, Global};

/// No descriptor is free.
const EMFILE: u64 = 24;

/// A process has the descriptors below this one at most.
const DESCRIPTORS: u64 = 32;

/// The flag of dup3 that is ignored.
const CLOSE_ON_EXEC: u64 = 0x80000;

/// The stream is closed: the thread gets the registers that were kept.
pub fn stream_closed(alloc: Global, cont: Cont, reply: &Reply) -> Step
    ensures { result ≡ answered.next cont Stage.CloseStream reply.now }
{
    match reply {
        Reply::Done => Asks(getting(alloc, cont.event, Stage::SetContext, cont.next)),
        _ => Ends,
    }
}

/// What the records lose with the stream, and what dup3 then does.
pub fn change_of_stream(cont: &Cont) -> Change
    ensures { result ≡ answered.closing_change cont.now }
{
    let upcall = upcall_of(&cont.event);
    let handle = number_at(cont.handles.as_slice(), 0);
    if is_call(&upcall, DUP3) {
        Change::Replaces {
            handle,
            process: upcall.process,
            old: upcall.context.x[A0],
            new: upcall.context.x[A0 + 1],
        }
    } else {
        Change::Closes { handle }
    }
}

/// Whether a descriptor of the process other than this one names the description.
fn names_besides(note: &ProcessNote, pid: u64, fd: u64, id: u64) -> bool
    ensures { result ≡ list_any (λ d. d.description == id) (spec.left_by pid fd note.now) }
{
    let own = note.pid == pid;
    let mut others = note
        .descriptors
        .as_slice()
        .iter()
        .filter(|named| !(own && named.number == fd));
    others.any(|named| named.description == id)
}

/// Whether another descriptor than this one names the description.
fn is_named_besides(os: &LibOs, pid: u64, fd: u64, id: u64) -> bool
    ensures { result ≡ list_any (λ n. list_any (λ d. d.description == id) (spec.left_by pid fd n)) os.now.processes }
{
    os.processes
        .as_slice()
        .iter()
        .any(|note| names_besides(note, pid, fd, id))
}

/// Whether no other descriptor names the description.
fn is_last(os: &LibOs, pid: u64, fd: u64, id: u64) -> bool
    ensures { result ≡ entered.is_last os.now pid fd id }
{
    !is_named_besides(os, pid, fd, id)
}

/// The service that closes a stream, and then gives the result.
fn closing_stream(
    alloc: Global,
    upcall: &Upcall,
    handle: u64,
    result_in_a0: u64,
) -> Result<Cont, AllocError>
    ensures { IfOk result (λ cont. cont ≡ entered.service_with_stream (entered.entered_with upcall.now) handle result_in_a0) }
{
    let handles = Items::from_slice(alloc, &[handle])?;
    let next = returned(&upcall.context, result_in_a0);
    let mut cont = getting(alloc, Event::Up(*upcall), Stage::CloseStream, next);
    cont.handles = handles;
    Ok(cont)
}

/// Begins to serve close.
pub fn enter_close(
    os: &mut LibOs,
    alloc: Global,
    upcall: &Upcall,
    description: Option<Description>,
) -> Result<(), AllocError>
    ensures { OnOk result (os.new ≡ entered.close_entered os.old upcall.now description) }
{
    let Some(description) = description else {
        give(os, alloc, upcall, error(EBADF));
        return Ok(());
    };
    let pid = pid_with(os, upcall.process);
    let fd = upcall.context.x[A0];
    if is_last(os, pid, fd, description.id) {
        os.cont = Some(closing_stream(alloc, upcall, description.handle, 0)?);
    } else {
        close_descriptor(os, alloc, pid, fd)?;
        give(os, alloc, upcall, 0);
    }
    Ok(())
}

/// The descriptor, if it is free.
fn free_at(descriptors: &[DescriptorNote], fd: u64) -> Option<u64>
    ensures { result ≡ entered.if_free_descriptor descriptors.now fd }
{
    match descriptor_by_number(descriptors, fd) {
        Some(_) => None,
        None => Some(fd),
    }
}

/// The least descriptor that is free.
fn least_free(descriptors: &[DescriptorNote]) -> Option<u64>
    ensures { result ≡ entered.least_free descriptors.now }
{
    for fd in 0..DESCRIPTORS {
        let free = free_at(descriptors, fd);
        if free.is_some() {
            return free;
        }
    }
    None
}

/// The least free descriptor of the process that has a handle.
fn free_descriptor(os: &LibOs, process: u64) -> Option<u64>
    ensures { result ≡ entered.least_free (entered.descriptors_in (process_with process os.now.processes)) }
{
    match process_by_handle(os.processes.as_slice(), process) {
        Some(note) => least_free(note.descriptors.as_slice()),
        None => least_free(&[]),
    }
}

/// The descriptor names the description, and is the result.
fn give_descriptor(
    os: &mut LibOs,
    alloc: Global,
    upcall: &Upcall,
    fd: u64,
    id: u64,
) -> Result<(), AllocError>
    ensures { OnOk result (os.new ≡ entered.result_of (spec.with_descriptor os.old (records.pid_with os.old upcall.now.process) fd id) upcall.now fd) }
{
    let pid = pid_with(os, upcall.process);
    open_descriptor(os, alloc, pid, fd, id)?;
    give(os, alloc, upcall, fd);
    Ok(())
}

/// Begins to serve dup.
pub fn enter_dup(
    os: &mut LibOs,
    alloc: Global,
    upcall: &Upcall,
    description: Option<Description>,
) -> Result<(), AllocError>
    ensures { OnOk result (os.new ≡ entered.dup_entered os.old upcall.now description) }
{
    let Some(description) = description else {
        give(os, alloc, upcall, error(EBADF));
        return Ok(());
    };
    match free_descriptor(os, upcall.process) {
        Some(fd) => give_descriptor(os, alloc, upcall, fd, description.id),
        None => {
            give(os, alloc, upcall, error(EMFILE));
            Ok(())
        }
    }
}

/// The result of dup3, where its arguments alone decide it.
fn dup3_known(context: &Context) -> Option<u64>
    ensures { result ≡ calls.dup3_known context.now }
{
    let registers = context.x;
    let flags = registers[A0 + 2];
    if !(flags == 0 || flags == CLOSE_ON_EXEC) || registers[A0] == registers[A0 + 1] {
        return Some(error(EINVAL));
    }
    None
}

/// Begins to serve a dup3 whose new descriptor names what `id` says, over what it names so far.
fn enter_over(
    os: &mut LibOs,
    alloc: Global,
    upcall: &Upcall,
    id: u64,
    over: Option<Description>,
) -> Result<(), AllocError>
    ensures { OnOk result (os.new ≡ entered.dup3_over os.old upcall.now (register upcall.now.context 11) id over) }
{
    let new = upcall.context.x[A0 + 1];
    let pid = pid_with(os, upcall.process);
    if let Some(over) = over
        && is_last(os, pid, new, over.id)
    {
        os.cont = Some(closing_stream(alloc, upcall, over.handle, new)?);
        return Ok(());
    }
    give_descriptor(os, alloc, upcall, new, id)
}

/// Begins to serve dup3.
pub fn enter_dup3(os: &mut LibOs, alloc: Global, upcall: &Upcall) -> Result<(), AllocError>
    ensures { OnOk result (os.new ≡ entered.dup3_unless os.old upcall.now (calls.dup3_known upcall.now.context)) }
{
    if let Some(known) = dup3_known(&upcall.context) {
        give(os, alloc, upcall, known);
        return Ok(());
    }
    let new = upcall.context.x[A0 + 1];
    match description_of(os, upcall.process, upcall.context.x[A0]) {
        Some(old) if new < DESCRIPTORS => {
            let over = description_of(os, upcall.process, new);
            enter_over(os, alloc, upcall, old.id, over)
        }
        _ => {
            give(os, alloc, upcall, error(EBADF));
            Ok(())
        }
    }
}
