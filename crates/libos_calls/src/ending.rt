ghost use Rattle.std.specs.Prelude.{◌≡◌, ◌==◌, not, filter, IfOk, OnOk};
ghost use Rattle.std.specs.List.{list_any};
ghost use Rattle.libos_state.specs.Answered.{service_leaving};
ghost use Rattle.libos_state.specs.Entered as spec;
ghost use Rattle.libos_state.specs.Records as records;

use crate::entered::tid_with;
use abi_calls::Upcall;
use bas_edge::Memory;
use bas_items::Items;
use libos_files::bare;
use libos_state::{Cont, Event, LibOs, Queued, Stage, ThreadNote, thread_by_handle};
use std::alloc::{AllocError, Global};

/// Whether the process has a thread other than this one.
pub fn has_other_thread(threads: &[ThreadNote], pid: u64, tid: u64) -> bool
    ensures { result ≡ list_any (spec.is_other_thread pid tid) threads.now }
{
    threads
        .iter()
        .any(|note| note.tid != tid && note.pid == pid)
}

/// The event of the thread that has a handle; 0 where there is none.
fn event_with(os: &LibOs, handle: u64) -> u64
    ensures { result ≡ records.event_in (records.thread_with handle os.now.threads) }
{
    match thread_by_handle(os.threads.as_slice(), handle) {
        Some(note) => note.event,
        None => 0,
    }
}

/// The other threads.
fn other_threads(
    alloc: Global,
    threads: &[ThreadNote],
    tid: u64,
) -> Result<Items<ThreadNote>, AllocError>
    ensures { IfOk result (λ left. left ≡ filter (λ n. not (n.tid == tid)) threads.now) }
{
    let left = threads
        .iter()
        .copied()
        .filter(|note| note.tid != tid)
        .collect(alloc)?;
    Ok(Items::from_vec(left))
}

/// The queue's other threads.
fn other_queued(alloc: Global, queue: &[Queued], tid: u64) -> Result<Items<Queued>, AllocError>
    ensures { IfOk result (λ left. left ≡ filter (λ q. not (q.tid == tid)) queue.now) }
{
    let left = queue
        .iter()
        .copied()
        .filter(|queued| queued.tid != tid)
        .collect(alloc)?;
    Ok(Items::from_vec(left))
}

/// A thread ends: its record and its place in the queue are forgotten.
fn forget_thread(os: &mut LibOs, alloc: Global, tid: u64) -> Result<(), AllocError>
    ensures { OnOk result (os.new ≡ spec.without_thread os.old tid) }
{
    let threads = other_threads(alloc, os.threads.as_slice(), tid)?;
    os.queue = other_queued(alloc, os.queue.as_slice(), tid)?;
    os.threads = threads;
    Ok(())
}

/// The service of a thread that ends alone, whose event is to be closed.
fn leaving(alloc: Global, upcall: &Upcall, event: u64) -> Result<Cont, AllocError>
    ensures { IfOk result (λ cont. cont ≡ service_leaving (spec.entered_with upcall.now) event) }
{
    let mut cont = bare(alloc, Event::Up(*upcall), Stage::CloseEvent);
    cont.handles = Items::from_slice(alloc, &[event])?;
    Ok(cont)
}

/// A thread ends alone: its event is to be closed.
pub fn end_thread(os: &mut LibOs, alloc: Global, upcall: &Upcall) -> Result<(), Memory>
    ensures { OnOk result (os.new ≡ spec.ends_thread os.old upcall.now) }
{
    let tid = tid_with(os, upcall.thread);
    let cont = leaving(alloc, upcall, event_with(os, upcall.thread))?;
    forget_thread(os, alloc, tid)?;
    os.cont = Some(cont);
    Ok(())
}
