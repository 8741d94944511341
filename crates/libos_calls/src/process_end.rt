ghost use Rattle.std.specs.Prelude.{◌≡◌, ◌==◌, filter, IfOk};
ghost use Rattle.std.specs.List.{list_any};
ghost use Rattle.libos_state.specs.Entered as spec;
ghost use Rattle.libos_state.specs.Records as records;

use bas_items::Items;
use libos_state::{
    Description, DescriptorNote, LibOs, ProcessNote, ThreadNote, description_by_id, has_open,
    process_by_pid,
};
use std::alloc::{AllocError, Global};

/// Whether a descriptor of a process other than this one names the description.
fn names_description(note: &ProcessNote, pid: u64, id: u64) -> bool
    ensures { result ≡ spec.names_description pid id note.now }
{
    note.pid != pid && has_open(note, id)
}

/// Whether a process other than this one has the description open.
pub fn is_open_without(processes: &[ProcessNote], pid: u64, id: u64) -> bool
    ensures { result ≡ list_any (spec.names_description pid id) processes.now }
{
    processes
        .iter()
        .any(|note| names_description(note, pid, id))
}

/// The descriptors of the process of this id; none where it has no record.
fn descriptors_of(processes: &[ProcessNote], pid: u64) -> &[DescriptorNote]
    ensures { result.now ≡ spec.descriptors_in (records.process_named pid processes.now) }
{
    match process_by_pid(processes, pid) {
        Some(note) => note.descriptors.as_slice(),
        None => &[],
    }
}

/// The ids, each once, where it stands first.
fn each_once(alloc: Global, ids: &[u64]) -> Result<Items<u64>, AllocError>
    ensures { IfOk result (λ once. once ≡ spec.each_once ids.now) }
{
    let mut once = Items::new(alloc);
    for id in ids {
        if !once.as_slice().contains(id) {
            once.push(*id)?;
        }
    }
    Ok(once)
}

/// The descriptions that the process alone has open, in the order of its descriptors.
fn opened_alone(alloc: Global, os: &LibOs, pid: u64) -> Result<Items<u64>, AllocError>
    ensures { IfOk result (λ ids. ids ≡ spec.opened_alone os.now pid) }
{
    let processes = os.processes.as_slice();
    let descriptors = descriptors_of(processes, pid).iter();
    let named: Vec<u64> = descriptors.map(|named| named.description).collect(alloc)?;
    let opened = each_once(alloc, named.as_slice())?;
    let alone = opened
        .as_slice()
        .iter()
        .copied()
        .filter(|id| !is_open_without(processes, pid, *id))
        .collect(alloc)?;
    Ok(Items::from_vec(alone))
}

/// The handle of a description's stream.
fn stream_behind(descriptions: &[Description], id: u64) -> Option<u64>
    ensures { result ≡ spec.stream_behind descriptions.now id }
{
    Some(description_by_id(descriptions, id)?.handle)
}

/// The streams of the descriptions, in their order.
fn streams_behind(
    alloc: Global,
    descriptions: &[Description],
    ids: &[u64],
) -> Result<Items<u64>, AllocError>
    ensures { IfOk result (λ streams. streams ≡ spec.streams_behind descriptions.now ids.now) }
{
    let ids = ids.iter().copied();
    let streams = ids
        .filter_map(|id| stream_behind(descriptions, id))
        .collect(alloc)?;
    Ok(Items::from_vec(streams))
}

/// The threads of the process.
fn threads_of(
    alloc: Global,
    threads: &[ThreadNote],
    pid: u64,
) -> Result<Items<ThreadNote>, AllocError>
    ensures { IfOk result (λ own. own ≡ filter (λ n. n.pid == pid) threads.now) }
{
    let own = threads
        .iter()
        .copied()
        .filter(|note| note.pid == pid)
        .collect(alloc)?;
    Ok(Items::from_vec(own))
}

/// What ends with a process: the streams of the descriptions that it alone has open, in the order of its descriptors,
/// and then its threads' events.
pub fn handles_to_close(alloc: Global, os: &LibOs, pid: u64) -> Result<Items<u64>, AllocError>
    ensures { IfOk result (λ handles. handles ≡ spec.handles_of os.now pid) }
{
    let opened = opened_alone(alloc, os, pid)?;
    let streams = streams_behind(alloc, os.descriptions.as_slice(), opened.as_slice())?;
    let threads = threads_of(alloc, os.threads.as_slice(), pid)?;
    let streams = streams.as_slice().iter().copied();
    let events = threads.as_slice().iter().map(|note| note.event);
    let handles = streams.chain(events).collect(alloc)?;
    Ok(Items::from_vec(handles))
}
