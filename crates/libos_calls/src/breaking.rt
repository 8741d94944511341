ghost use Rattle.std.specs.Prelude.{◌≡◌, [], OnOk};
ghost use Rattle.mono_model.specs.Breaks as model;
ghost use Rattle.mono_model.specs.Machine as machine;
ghost use Rattle.libos_state.specs.Answered as answered;
ghost use Rattle.libos_state.specs.Breaks as spec;
ghost use Rattle.libos_state.specs.Entered as entered;
ghost use Rattle.libos_state.specs.Pending.{upcall_in};
ghost use Rattle.libos_state.specs.Records.{process_with};

use crate::mapping::{at_pages, pages_changed, pages_for};
use abi_calls::{Reply, Upcall};
use bas_items::Items;
use libos_files::{EINVAL, finishing};
use libos_state::{
    A0, Change, Cont, Event, LibOs, ProcessNote, Stage, Step, is_brk, process_by_handle, upcall_of,
};
use mono_model::BreakMove;
use std::alloc::{AllocError, Global};

/// Where the break stands of the process that has a handle; 0 where there is none.
fn break_of(os: &LibOs, handle: u64) -> u64
    ensures { result ≡ spec.break_of (process_with handle os.now.processes) }
{
    match process_by_handle(os.processes.as_slice(), handle) {
        Some(note) => note.break_now,
        None => 0,
    }
}

/// Where a break goes that is asked to be at an address.
fn break_move(start: u64, now: u64, address: u64) -> BreakMove
    ensures { result ≡ model.break_move start now address }
{
    let old = pages_for(now);
    let new = pages_for(address);
    if address < start {
        BreakMove::Stays
    } else if old < new {
        BreakMove::Grows {
            page: old,
            count: new - old,
        }
    } else if new < old {
        BreakMove::Shrinks {
            page: new,
            count: old - new,
        }
    } else {
        BreakMove::Within
    }
}

/// Where the trap's process moves its break: a0 is the address.
fn break_goes(os: &LibOs, upcall: &Upcall) -> BreakMove
    ensures { result ≡ spec.break_goes os.now upcall.now }
{
    match process_by_handle(os.processes.as_slice(), upcall.process) {
        Some(note) => break_move(note.break_start, note.break_now, upcall.context.x[A0]),
        None => BreakMove::Stays,
    }
}

/// The record of a process, whose break is at an address where the process has the handle.
fn note_with_break(mut note: ProcessNote, handle: u64, address: u64) -> ProcessNote
    ensures { result ≡ spec.note_with_break handle address note }
{
    if note.handle == handle {
        note.break_now = address;
    }
    note
}

/// The break of the process that has a handle is at an address.
pub fn move_break(
    os: &mut LibOs,
    alloc: Global,
    handle: u64,
    address: u64,
) -> Result<(), AllocError>
    ensures { OnOk result (os.new ≡ spec.with_break os.old handle address) }
{
    let notes = std::mem::replace(&mut os.processes, Items::new(alloc));
    let moved = notes
        .into_vec()
        .into_iter()
        .map(|note| note_with_break(note, handle, address))
        .collect(alloc)?;
    os.processes = Items::from_vec(moved);
    Ok(())
}

/// The call gives the break of its process, as the records have it.
pub fn give_break(os: &mut LibOs, alloc: Global, event: Event)
    ensures { os.new ≡ record os.old {
      cont = Some (record {
        event = event;
        stage = Stage.SetContext;
        next = machine.returned (upcall_in event).context
            (spec.break_of (process_with (upcall_in event).process os.old.processes));
        names = [];
        bytes = [];
        handles = [];
        later = [];
        numbers = [];
      });
    } }
{
    let now = break_of(os, upcall_of(&event).process);
    os.cont = Some(finishing(alloc, event, now));
}

/// Begins to serve brk: pages are made, or go, before the break moves; within its page it moves at once.
pub fn enter_break(os: &mut LibOs, alloc: Global, upcall: &Upcall) -> Result<(), AllocError>
    ensures { OnOk result (os.new ≡ entered.brk_entered os.old upcall.now) }
{
    let event = Event::Up(*upcall);
    match break_goes(os, upcall) {
        BreakMove::Grows { page, count } => {
            os.cont = Some(at_pages(alloc, event, Stage::AllocatePages, page, count)?);
        }
        BreakMove::Shrinks { page, count } => {
            os.cont = Some(at_pages(alloc, event, Stage::FreePages, page, count)?);
        }
        BreakMove::Within => {
            move_break(os, alloc, upcall.process, upcall.context.x[A0])?;
            give_break(os, alloc, event);
        }
        BreakMove::Stays => give_break(os, alloc, event),
    }
    Ok(())
}

/// The break moves, if the call is brk, where its pages are made or have gone.
pub fn break_change(cont: &Cont) -> Change
    ensures { result ≡ answered.break_change cont.now }
{
    if !is_brk(cont) {
        return Change::Same;
    }
    let upcall = upcall_of(&cont.event);
    Change::MovesBreak {
        process: upcall.process,
        address: upcall.context.x[A0],
    }
}

/// Pages have gone, or one isn't there.
pub fn pages_freed(alloc: Global, cont: Cont, reply: &Reply) -> Step
    ensures { result ≡ answered.next cont Stage.FreePages reply.now }
{
    if is_brk(&cont) {
        return Step::GivesBreak(cont);
    }
    pages_changed(alloc, cont, reply, EINVAL)
}
