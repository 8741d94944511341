ghost use Rattle.std.specs.Prelude.{◌≡◌, ◌==◌, ◌&&◌, IfOk, Decides, map, is_some, nat_le};
ghost use Rattle.std.specs.List.{list_all};
ghost use Rattle.std.specs.Option.{option_map};
ghost use Rattle.libos_state.specs.Alone as alone;
ghost use Rattle.libos_state.specs.Alone.{FitsAlone, fits_alone};
ghost use Rattle.libos_state.specs.Fits as spec;
ghost use Rattle.libos_state.specs.Records.{process_named, thread_named, description_named};
ghost use Rattle.libos_state.specs.declared.state.LibOs.{LibOs};

use crate::begun::process_by_pid;
use crate::cont::{Cont, Event};
use crate::kept::{description_by_id, has_open, items_from, thread_by_tid};
use crate::notes::{Description, Kind, ProcessNote};
use crate::state::{Boot, LibOs};
use bas_edge::Memory;
use std::alloc::{AllocError, Global};

/// The access of a description that is read, and of one that is written.
const READ: u8 = 1;

const WRITE: u8 = 2;

/// The greatest next id.
const LAST_ID: u64 = 1 << 31;

/// Whether no number stands twice.
#[tactic(auto, using(crate::proofs::Numbers::are_distinct_drop))]
fn are_distinct(numbers: &[u64]) -> bool
    ensures { result ≡ spec.are_distinct numbers.now }
{
    for (place, number) in numbers.iter().enumerate() {
        if items_from(numbers, place + 1).contains(number) {
            return false;
        }
    }
    true
}

/// Whether each process, each thread and each description has an id of its own.
fn are_ids_distinct(alloc: Global, os: &LibOs) -> Result<bool, AllocError>
    ensures { IfOk result (λ distinct. distinct ≡ (spec.are_distinct (map (λ n. n.pid) os.now.processes)
        && (spec.are_distinct (map (λ n. n.tid) os.now.threads) && spec.are_distinct (map (λ d. d.id) os.now.descriptions)))) }
{
    let pids: Vec<u64> = os
        .processes
        .as_slice()
        .iter()
        .map(|note| note.pid)
        .collect(alloc)?;
    let tids: Vec<u64> = os
        .threads
        .as_slice()
        .iter()
        .map(|note| note.tid)
        .collect(alloc)?;
    let ids: Vec<u64> = os
        .descriptions
        .as_slice()
        .iter()
        .map(|note| note.id)
        .collect(alloc)?;
    Ok(
        are_distinct(pids.as_slice())
            && (are_distinct(tids.as_slice()) && are_distinct(ids.as_slice())),
    )
}

/// Whether the id was given.
fn is_given(os: &LibOs, id: u64) -> bool
    ensures { result ≡ spec.is_given os.now id }
{
    1 <= id && id < os.next_id
}

/// Whether the ids of the processes were given.
fn are_pids_given(os: &LibOs) -> bool
    ensures { result ≡ list_all (λ n. spec.is_given os.now n.pid) os.now.processes }
{
    os.processes
        .as_slice()
        .iter()
        .all(|note| is_given(os, note.pid))
}

/// Whether the ids of the threads were given.
fn are_tids_given(os: &LibOs) -> bool
    ensures { result ≡ list_all (λ n. spec.is_given os.now n.tid) os.now.threads }
{
    os.threads
        .as_slice()
        .iter()
        .all(|note| is_given(os, note.tid))
}

/// Whether the description of this id is there.
fn is_there(descriptions: &[Description], id: u64) -> bool
    ensures { result ≡ is_some (description_named id descriptions.now) }
{
    description_by_id(descriptions, id).is_some()
}

/// Whether the descriptors of a process name open descriptions.
fn are_described(descriptions: &[Description], note: &ProcessNote) -> bool
    ensures { result ≡ list_all (λ d. is_some (description_named d.description descriptions.now)) note.now.descriptors }
{
    note.descriptors
        .as_slice()
        .iter()
        .all(|named| is_there(descriptions, named.description))
}

/// Whether the descriptors of a process have different numbers and name open descriptions; one that has exited has none.
fn is_fit_process(alloc: Global, os: &LibOs, note: &ProcessNote) -> Result<bool, AllocError>
    ensures { IfOk result (λ fit. fit ≡ spec.is_fit_process os.now note.now) }
{
    let numbers: Vec<u64> = note
        .descriptors
        .as_slice()
        .iter()
        .map(|named| named.number)
        .collect(alloc)?;
    let ended = note.code.is_some();
    Ok(
        are_distinct(numbers.as_slice())
            && (are_described(os.descriptions.as_slice(), note)
                && (!ended || note.descriptors.is_empty())),
    )
}

/// Whether the descriptors of each process fit.
fn are_fit_processes(alloc: Global, os: &LibOs) -> Result<bool, AllocError>
    ensures { IfOk result (λ fit. fit ≡ list_all (spec.is_fit_process os.now) os.now.processes) }
{
    for note in os.processes.as_slice() {
        if !is_fit_process(alloc, os, note)? {
            return Ok(false);
        }
    }
    Ok(true)
}

/// Whether the process of this id has a record, and hasn't exited.
fn is_alive(processes: &[ProcessNote], pid: u64) -> bool
    ensures { result ≡ spec.is_alive (process_named pid processes.now) }
{
    match process_by_pid(processes, pid) {
        Some(note) => note.code.is_none(),
        None => false,
    }
}

/// Whether the threads' processes have a record, and haven't exited.
fn are_threads_alive(os: &LibOs) -> bool
    ensures { result ≡ list_all (λ n. spec.is_alive (process_named n.pid os.now.processes)) os.now.threads }
{
    let processes = os.processes.as_slice();
    os.threads
        .as_slice()
        .iter()
        .all(|note| is_alive(processes, note.pid))
}

/// Whether a process has the description open.
fn is_described(os: &LibOs, id: u64) -> bool
    ensures { result ≡ spec.is_described os.now id }
{
    os.processes
        .as_slice()
        .iter()
        .any(|note| has_open(note, id))
}

/// Whether each description has a descriptor.
fn are_all_described(os: &LibOs) -> bool
    ensures { result ≡ list_all (λ d. spec.is_described os.now d.id) os.now.descriptions }
{
    os.descriptions
        .as_slice()
        .iter()
        .all(|note| is_described(os, note.id))
}

/// Whether console input is open to be read, its output and errors to be written, and a file for either or both.
fn is_fit_access(kind: Kind, access: u8) -> bool
    ensures { result ≡ spec.is_fit_access kind access }
{
    match kind {
        Kind::ConIn => access == READ,
        Kind::ConOut | Kind::ConErr => access == WRITE,
        Kind::File => READ <= access && access <= READ | WRITE,
    }
}

/// Whether each description has the access of its kind.
fn have_fit_access(descriptions: &[Description]) -> bool
    ensures { result ≡ list_all (λ d. spec.is_fit_access d.kind d.access) descriptions.now }
{
    descriptions
        .iter()
        .all(|note| is_fit_access(note.kind, note.access))
}

/// Whether what is written to a description of this kind goes where it can.
fn is_fit_append(kind: Kind, append: bool) -> bool
    ensures { result ≡ spec.is_fit_append kind append }
{
    match kind {
        Kind::ConIn | Kind::ConOut | Kind::ConErr => !append,
        Kind::File => true,
    }
}

/// Whether no description of the console is written at a file's end.
fn have_fit_append(descriptions: &[Description]) -> bool
    ensures { result ≡ list_all (λ d. spec.is_fit_append d.kind d.append) descriptions.now }
{
    descriptions
        .iter()
        .all(|note| is_fit_append(note.kind, note.append))
}

/// Whether the process has no parent, or one that has a record and came before.
fn is_fit_parent(os: &LibOs, note: &ProcessNote) -> bool
    ensures { result ≡ spec.is_fit_parent os.now note.now }
{
    note.parent == 0
        || (note.parent < note.pid
            && process_by_pid(os.processes.as_slice(), note.parent).is_some())
}

/// Whether the parents of the processes fit.
fn have_fit_parents(os: &LibOs) -> bool
    ensures { result ≡ list_all (spec.is_fit_parent os.now) os.now.processes }
{
    os.processes
        .as_slice()
        .iter()
        .all(|note| is_fit_parent(os, note))
}

/// Whether the threads of the queue have a record.
fn are_queued_known(os: &LibOs) -> bool
    ensures { result ≡ list_all (λ q. is_some (thread_named q.tid os.now.threads)) os.now.queue }
{
    let threads = os.threads.as_slice();
    os.queue
        .as_slice()
        .iter()
        .all(|queued| thread_by_tid(threads, queued.tid).is_some())
}

/// Whether no thread stands in the queue twice.
fn is_queued_once(alloc: Global, os: &LibOs) -> Result<bool, AllocError>
    ensures { IfOk result (λ once. once ≡ spec.are_distinct (map (λ q. q.tid) os.now.queue)) }
{
    let tids: Vec<u64> = os
        .queue
        .as_slice()
        .iter()
        .map(|queued| queued.tid)
        .collect(alloc)?;
    Ok(are_distinct(tids.as_slice()))
}

/// Whether parents and the queue fit, and ids are left; `once` says whether no thread stands in the queue twice.
fn are_further_fit(os: &LibOs, once: bool) -> bool
    ensures { result ≡ (list_all (λ d. spec.is_fit_append d.kind d.append) os.now.descriptions
        && (list_all (spec.is_fit_parent os.now) os.now.processes
        && (list_all (λ q. is_some (thread_named q.tid os.now.threads)) os.now.queue
        && (once && nat_le os.now.next_id spec.LAST_ID)))) }
{
    have_fit_append(os.descriptions.as_slice())
        && (have_fit_parents(os) && (are_queued_known(os) && (once && os.next_id <= LAST_ID)))
}

/// Whether processes, threads and descriptions are linked: the threads' processes haven't exited, and each description
/// has a descriptor and the access of its kind.
fn are_linked(os: &LibOs) -> bool
    ensures { result ≡ (list_all (λ n. spec.is_alive (process_named n.pid os.now.processes)) os.now.threads
        && (list_all (λ d. spec.is_described os.now d.id) os.now.descriptions
        && list_all (λ d. spec.is_fit_access d.kind d.access) os.now.descriptions)) }
{
    are_threads_alive(os) && (are_all_described(os) && have_fit_access(os.descriptions.as_slice()))
}

/// Whether the records fit one another.
fn are_fit_records(alloc: Global, os: &LibOs) -> Result<bool, AllocError>
    ensures { IfOk result (λ fit. fit ≡ alone.fits_records os.now) }
{
    let distinct = are_ids_distinct(alloc, os)?;
    let processes = are_fit_processes(alloc, os)?;
    let once = is_queued_once(alloc, os)?;
    let linked = are_linked(os) && are_further_fit(os, once);
    Ok(distinct && are_pids_given(os) && are_tids_given(os) && processes && linked)
}

/// The handles of the processes, the threads, their events and the open descriptions.
fn handles_recorded(alloc: Global, os: &LibOs) -> Result<Vec<u64>, AllocError>
    ensures { IfOk result (λ handles. handles.items ≡ alone.handles_recorded os.now) }
{
    let threads = os.threads.as_slice();
    let descriptions = os.descriptions.as_slice().iter().map(|note| note.handle);
    let events = threads.iter().map(|note| note.event).chain(descriptions);
    let rest = threads.iter().map(|note| note.handle).chain(events);
    let processes = os.processes.as_slice().iter().map(|note| note.handle);
    processes.chain(rest).collect(alloc)
}

/// Whether no handle stands twice in the records.
fn has_handles_once(alloc: Global, os: &LibOs) -> Result<bool, AllocError>
    ensures { IfOk result (λ once. once ≡ alone.has_handles_once os.now) }
{
    let handles = handles_recorded(alloc, os)?;
    Ok(are_distinct(handles.as_slice()))
}

/// Whether there is no record, and no id was given.
fn has_no_records(os: &LibOs) -> bool
    ensures { result ≡ alone.has_no_records os.now }
{
    let forgotten = os.descriptions.is_empty() && (os.queue.is_empty() && os.next_id == 1);
    os.processes.is_empty() && (os.threads.is_empty() && forgotten)
}

/// Whether the records are those of a run that is so far.
fn is_so_far(os: &LibOs) -> bool
    ensures { result ≡ alone.fits_progress os.now os.now.boot }
{
    match os.boot {
        Boot::Up => process_by_pid(os.processes.as_slice(), 1).is_some(),
        Boot::Going | Boot::NoProgram | Boot::BadProgram(_) => has_no_records(os),
    }
}

/// Whether what is served, if anything is, belongs to a run that is so far.
fn serves_in(boot: Boot, cont: &Option<Cont>) -> bool
    ensures { result ≡ alone.serves_in boot (option_map (λ c. c.event) cont.now) }
{
    match cont {
        None => boot != Boot::Going,
        Some(cont) => match cont.event {
            Event::Boot { .. } => boot == Boot::Going,
            Event::Up(_) => boot == Boot::Up,
        },
    }
}

/// Whether the records fit and name each handle once, and with them how far the run is and what is served.
fn is_fit(os: &LibOs, alloc: Global) -> Result<bool, AllocError>
    ensures { IfOk result (λ fit. fit ≡ fits_alone os.now) }
{
    let records = are_fit_records(alloc, os)?;
    let once = has_handles_once(alloc, os)?;
    Ok(records && (once && (is_so_far(os) && serves_in(os.boot, &os.cont))))
}

impl LibOs {
    /// Whether the library OS fits by itself: each id names one record, no handle stands twice, descriptors name open
    /// descriptions and each description has one, the threads' processes are alive, and what is served belongs to how far
    /// the run is.
    ///
    /// # Errors
    /// There was no memory.
    #[tactic(auto, using(crate::proofs::Deciding::fits_decides))]
    pub fn fits(&self, alloc: Global) -> Result<bool, Memory>
        ensures value { IfOk result (λ fit. fit ≡ fits_alone self.now) }
        ensures decides { IfOk result (λ fit. Decides fit (FitsAlone self.now)) }
    {
        let fit = is_fit(self, alloc)?;
        Ok(fit)
    }
}
