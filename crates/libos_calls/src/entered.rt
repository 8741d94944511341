ghost use Rattle.std.specs.Prelude.{◌≡◌, ◌<◌, ◌^◌, ◌==◌, not, filter, IfOk, OnOk, map, ◌++◌};
ghost use Rattle.mono_model.specs.Calls.{EXIT};
ghost use Rattle.mono_model.specs.SystemCalls.{fault_code};
ghost use Rattle.mono_model.specs.Machine.{register};
ghost use Rattle.libos_state.specs.Entered as spec;
ghost use Rattle.libos_state.specs.Records as records;
ghost use Rattle.libos_state.specs.Laws.{EntersTurn};
ghost use Rattle.libos_state.specs.declared.notes.Description.{Description};
ghost use Rattle.libos_state.specs.declared.state.LibOs.{LibOs};

use crate::breaking::enter_break;
use crate::ending::{end_thread, has_other_thread};
use crate::mapping::{MMAP, MPROTECT, MUNMAP, mmap_service, mprotect_service, munmap_service};
use crate::process_end::{handles_to_close, is_open_without};
use crate::replies::closing;
use abi_calls::Upcall;
use bas_edge::Memory;
use bas_items::Items;
use libos_files::{
    CLOSE, DUP, DUP3, FSTAT, FTRUNCATE, LSEEK, READ, SYSTEM_CALL, WRITE, error, give, pid_with,
};
use libos_state::{
    A0, BRK, Description, Event, LibOs, ProcessNote, Queued, ThreadNote, process_by_handle,
    thread_by_handle, thread_by_tid,
};
use std::alloc::{AllocError, Global};

/// The numbers of the system calls.
const EXIT: u64 = 93;

const EXIT_GROUP: u64 = 94;

const SCHED_YIELD: u64 = 124;

const GETPID: u64 = 172;

const GETPPID: u64 = 173;

const GETTID: u64 = 178;

/// There is no such call.
const ENOSYS: u64 = 38;

/// The exit code of a process that a fault ends.
fn code_of_fault(cause: u8) -> u8
    ensures { result ≡ fault_code cause }
{
    match cause {
        2 => 132,
        3 => 133,
        0 => 135,
        _ => 139,
    }
}

/// The parent of the process that has a handle; 0 where there is none.
fn parent_of(os: &LibOs, handle: u64) -> u64
    ensures { result ≡ spec.parent_of (records.process_with handle os.now.processes) }
{
    match process_by_handle(os.processes.as_slice(), handle) {
        Some(note) => note.parent,
        None => 0,
    }
}

/// The thread that has a handle, by its id; 0 where there is none.
pub fn tid_with(os: &LibOs, handle: u64) -> u64
    ensures { result ≡ records.tid_with os.now handle }
{
    match thread_by_handle(os.threads.as_slice(), handle) {
        Some(note) => note.tid,
        None => 0,
    }
}

/// The result of a call that asks who calls, or of none.
fn known_result(os: &LibOs, upcall: &Upcall, number: u64) -> u64
    ensures { result ≡ spec.known_result os.now upcall.now number }
{
    match number {
        SCHED_YIELD => 0,
        GETPID => pid_with(os, upcall.process),
        GETPPID => parent_of(os, upcall.process),
        GETTID => tid_with(os, upcall.thread),
        _ => error(ENOSYS),
    }
}

/// The descriptions that a process other than this one has open.
fn descriptions_without(
    alloc: Global,
    os: &LibOs,
    pid: u64,
) -> Result<Items<Description>, AllocError>
    ensures { IfOk result (λ left.
        left ≡ filter (λ d. spec.is_open_without os.now pid d.id) os.now.descriptions) }
{
    let processes = os.processes.as_slice();
    let left = os
        .descriptions
        .as_slice()
        .iter()
        .copied()
        .filter(|note| is_open_without(processes, pid, note.id))
        .collect(alloc)?;
    Ok(Items::from_vec(left))
}

/// The threads of the other processes.
fn threads_without(
    alloc: Global,
    threads: &[ThreadNote],
    pid: u64,
) -> Result<Items<ThreadNote>, AllocError>
    ensures { IfOk result (λ left. left ≡ filter (λ n. not (n.pid == pid)) threads.now) }
{
    let left = threads
        .iter()
        .copied()
        .filter(|note| note.pid != pid)
        .collect(alloc)?;
    Ok(Items::from_vec(left))
}

/// Whether the thread of this id is of the process.
fn is_thread_of(threads: &[ThreadNote], pid: u64, tid: u64) -> bool
    ensures { result ≡ spec.is_note_of pid (records.thread_named tid threads.now) }
{
    match thread_by_tid(threads, tid) {
        Some(note) => note.pid == pid,
        None => false,
    }
}

/// The queue's threads of the other processes.
fn queue_without(
    alloc: Global,
    threads: &[ThreadNote],
    queue: &[Queued],
    pid: u64,
) -> Result<Items<Queued>, AllocError>
    ensures { IfOk result (λ left.
        left ≡ filter (λ q. not (spec.is_note_of pid (records.thread_named q.tid threads.now))) queue.now) }
{
    let left = queue
        .iter()
        .copied()
        .filter(|queued| !is_thread_of(threads, pid, queued.tid))
        .collect(alloc)?;
    Ok(Items::from_vec(left))
}

/// The record of a process, which gets its code and has no descriptors where it is the one that ends.
fn note_with_end(alloc: Global, mut note: ProcessNote, pid: u64, code: u8) -> ProcessNote
    ensures { result ≡ spec.note_ended pid code note }
{
    if note.pid == pid {
        note.code = Some(code);
        note.descriptors = Items::new(alloc);
    }
    note
}

/// The records of the processes, that of one of which has ended.
fn notes_with_end(
    alloc: Global,
    notes: Items<ProcessNote>,
    pid: u64,
    code: u8,
) -> Result<Items<ProcessNote>, AllocError>
    ensures { IfOk result (λ ended. ended ≡ map (spec.note_ended pid code) notes) }
{
    let notes = notes.into_vec().into_iter();
    let ended = notes
        .map(|note| note_with_end(alloc, note, pid, code))
        .collect(alloc)?;
    Ok(Items::from_vec(ended))
}

/// A process ends: its code is recorded, and its descriptors, its threads and what it alone has open are forgotten.
fn forget_process(os: &mut LibOs, alloc: Global, pid: u64, code: u8) -> Result<(), AllocError>
    ensures { OnOk result (os.new ≡ spec.without_process os.old pid code) }
{
    let threads = threads_without(alloc, os.threads.as_slice(), pid)?;
    let descriptions = descriptions_without(alloc, os, pid)?;
    let queue = queue_without(alloc, os.threads.as_slice(), os.queue.as_slice(), pid)?;
    let processes = std::mem::replace(&mut os.processes, Items::new(alloc));
    os.processes = notes_with_end(alloc, processes, pid, code)?;
    os.threads = threads;
    os.descriptions = descriptions;
    os.queue = queue;
    Ok(())
}

/// A process ends: its handles are to be closed.
fn end_process(os: &mut LibOs, alloc: Global, upcall: &Upcall, code: u8) -> Result<(), Memory>
    ensures { OnOk result (os.new ≡ spec.ends_process os.old upcall.now code) }
{
    let pid = pid_with(os, upcall.process);
    let handles = handles_to_close(alloc, os, pid)?;
    let numbers = Items::from_slice(alloc, &[u64::from(code)])?;
    forget_process(os, alloc, pid, code)?;
    os.cont = Some(closing(alloc, Event::Up(*upcall), handles, numbers));
    Ok(())
}

/// The thread ends where its process has another one, and else the process.
fn exit(os: &mut LibOs, alloc: Global, upcall: &Upcall) -> Result<(), Memory>
    ensures { OnOk result (os.new ≡ spec.exit_entered os.old upcall.now EXIT) }
{
    let pid = pid_with(os, upcall.process);
    let tid = tid_with(os, upcall.thread);
    if has_other_thread(os.threads.as_slice(), pid, tid) {
        end_thread(os, alloc, upcall)
    } else {
        end_process(os, alloc, upcall, (upcall.context.x[A0] % 256) as u8)
    }
}

/// Begins to serve a call that asks who calls, or none that there is: its result is known.
fn enter_known(os: &mut LibOs, alloc: Global, upcall: &Upcall, number: u64)
    ensures { os.new ≡ spec.result_of os.old upcall.now (spec.known_result os.old upcall.now number) }
{
    let known = known_result(os, upcall, number);
    give(os, alloc, upcall, known);
}

/// Begins to serve a system call.
fn enter_call(os: &mut LibOs, alloc: Global, upcall: &Upcall) -> Result<(), Memory>
    ensures { OnOk result (os.new ≡ spec.call_entered os.old upcall.now (register upcall.now.context 17)) }
{
    let registers = &upcall.context.x;
    match registers[A0 + 7] {
        number @ (SCHED_YIELD | GETPID | GETPPID | GETTID) => {
            enter_known(os, alloc, upcall, number);
            Ok(())
        }
        number @ (DUP | DUP3 | FTRUNCATE | CLOSE | LSEEK | READ | WRITE | FSTAT) => {
            Ok(libos_files::enter(os, alloc, upcall, number)?)
        }
        BRK => Ok(enter_break(os, alloc, upcall)?),
        EXIT => exit(os, alloc, upcall),
        EXIT_GROUP => end_process(os, alloc, upcall, (registers[A0] % 256) as u8),
        MUNMAP => {
            os.cont = Some(munmap_service(alloc, upcall)?);
            Ok(())
        }
        MMAP => {
            os.cont = Some(mmap_service(alloc, upcall)?);
            Ok(())
        }
        MPROTECT => {
            os.cont = Some(mprotect_service(alloc, upcall)?);
            Ok(())
        }
        number => {
            enter_known(os, alloc, upcall, number);
            Ok(())
        }
    }
}

/// Begins to serve a system call or a fault.
fn enter_trap(os: &mut LibOs, alloc: Global, upcall: &Upcall) -> Result<(), Memory>
    ensures { OnOk result (os.new ≡ spec.entered os.old upcall.now) }
{
    if upcall.cause == SYSTEM_CALL {
        enter_call(os, alloc, upcall)
    } else {
        end_process(os, alloc, upcall, code_of_fault(upcall.cause))
    }
}

/// Begins to serve a trap: over a host whose turn ended with it, the library OS then stands for the machine's next
/// turn. After an `Err` the library OS is spent.
///
/// # Errors
/// There was no memory.
pub fn enter(os: &mut LibOs, alloc: Global, upcall: &Upcall) -> Result<(), Memory>
    ensures value { OnOk result (os.new ≡ spec.entered os.old upcall.now) }
    ensures turn { OnOk result (EntersTurn os.old upcall.now os.new) }
{
    enter_trap(os, alloc, upcall)
}
