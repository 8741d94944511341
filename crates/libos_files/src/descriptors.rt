ghost use Rattle.std.specs.Prelude.{◌≡◌, ◌==◌, ◌<◌, ◌&&◌, filter, map, not, nat_lt, IfOk, OnOk};
ghost use Rattle.std.specs.Option.{option_copied};
ghost use Rattle.libos_state.specs.Answered as answered;
ghost use Rattle.libos_state.specs.Descriptors as spec;
ghost use Rattle.libos_state.specs.Records as records;
ghost use Rattle.libos_state.specs.Records.{description_with};

use bas_items::Items;
use libos_state::{
    Description, DescriptorNote, LibOs, ProcessNote, description_of, process_by_handle,
};
use std::alloc::{AllocError, Global};

/// The process that has a handle, by its id; 0 where there is none.
pub fn pid_with(os: &LibOs, handle: u64) -> u64
    ensures { result ≡ records.pid_with os.now handle }
{
    match process_by_handle(os.processes.as_slice(), handle) {
        Some(note) => note.pid,
        None => 0,
    }
}

/// The record of the open description whose stream has a handle.
fn description_by_handle(descriptions: &[Description], handle: u64) -> Option<&Description>
    ensures { option_copied result ≡ description_with handle descriptions.now }
{
    descriptions.iter().find(|note| note.handle == handle)
}

/// Leaves out the descriptors that name a description.
fn leave_naming(named: &mut Vec<DescriptorNote>, id: u64)
    ensures { named.new.items ≡ filter (λ d. not (d.description == id)) named.old.items }
{
    named.retain(|held| held.description != id);
}

/// Leaves out the descriptor of a number, of the process that it is closed in.
fn leave_numbered(named: &mut Vec<DescriptorNote>, closed_here: bool, fd: u64)
    ensures { named.new.items ≡ filter (λ d. not (closed_here && d.number == fd)) named.old.items }
{
    named.retain(|held| !(closed_here && held.number == fd));
}

/// The record of a process without the descriptors that name a description.
fn naming_others(alloc: Global, mut note: ProcessNote, id: u64) -> ProcessNote
    ensures { result ≡ spec.redescribed (spec.naming_others id) note }
{
    let mut named = std::mem::replace(&mut note.descriptors, Items::new(alloc)).into_vec();
    leave_naming(&mut named, id);
    note.descriptors = Items::from_vec(named);
    note
}

/// The record of a process without a descriptor, where it is the one in which it is closed.
fn left_by(alloc: Global, mut note: ProcessNote, pid: u64, fd: u64) -> ProcessNote
    ensures { result ≡ spec.redescribed (spec.left_by pid fd) note }
{
    let mut named = std::mem::replace(&mut note.descriptors, Items::new(alloc)).into_vec();
    leave_numbered(&mut named, note.pid == pid, fd);
    note.descriptors = Items::from_vec(named);
    note
}

/// Descriptors with one more, in the order of their numbers; one of the same number goes.
fn joined_by(
    alloc: Global,
    descriptors: &[DescriptorNote],
    fd: u64,
    id: u64,
) -> Result<Items<DescriptorNote>, AllocError>
    ensures { IfOk result (λ joined. joined ≡ spec.joined_by fd id descriptors.now) }
{
    let notes = descriptors.iter().copied();
    let above: Vec<DescriptorNote> = notes.filter(|named| fd < named.number).collect(alloc)?;
    let it = DescriptorNote {
        number: fd,
        description: id,
    };
    let mut rest = Items::from_slice(alloc, &[it])?;
    rest.extend_from_slice(above.as_slice())?;
    let notes = descriptors.iter().copied();
    let below = notes.filter(|named| named.number < fd).collect(alloc)?;
    let mut joined = Items::from_vec(below);
    joined.extend_from_slice(rest.as_slice())?;
    Ok(joined)
}

/// The descriptors of a process, with one more where it is the process that gets it.
fn joined_in(
    alloc: Global,
    note: &ProcessNote,
    pid: u64,
    fd: u64,
    id: u64,
) -> Result<Items<DescriptorNote>, AllocError>
    ensures { IfOk result (λ joined. joined ≡ spec.joined_in pid fd id note.now) }
{
    let descriptors = note.descriptors.as_slice();
    if note.pid == pid {
        return joined_by(alloc, descriptors, fd, id);
    }
    Items::from_slice(alloc, descriptors)
}

/// The record of a process with other descriptors.
fn with_descriptors(note: &ProcessNote, descriptors: Items<DescriptorNote>) -> ProcessNote
    ensures { result ≡ record note.now { descriptors = descriptors } }
{
    ProcessNote {
        pid: note.pid,
        parent: note.parent,
        handle: note.handle,
        break_start: note.break_start,
        break_now: note.break_now,
        handler: note.handler,
        code: note.code,
        descriptors,
    }
}

/// The records of the processes, one of which has one more descriptor.
fn notes_joined(
    alloc: Global,
    notes: &[ProcessNote],
    pid: u64,
    fd: u64,
    id: u64,
) -> Result<Items<ProcessNote>, AllocError>
    ensures { IfOk result (λ joined. joined ≡ map (spec.redescribed (spec.joined_in pid fd id)) notes.now) }
{
    let mut joined = Items::new(alloc);
    for note in notes {
        let descriptors = joined_in(alloc, note, pid, fd, id)?;
        joined.push(with_descriptors(note, descriptors))?;
    }
    Ok(joined)
}

/// The descriptor of the process names the description.
pub fn open_descriptor(
    os: &mut LibOs,
    alloc: Global,
    pid: u64,
    fd: u64,
    id: u64,
) -> Result<(), AllocError>
    ensures { OnOk result (os.new ≡ spec.with_descriptor os.old pid fd id) }
{
    os.processes = notes_joined(alloc, os.processes.as_slice(), pid, fd, id)?;
    Ok(())
}

/// The descriptor of the process is closed.
pub fn close_descriptor(os: &mut LibOs, alloc: Global, pid: u64, fd: u64) -> Result<(), AllocError>
    ensures { OnOk result (os.new ≡ spec.without_descriptor os.old pid fd) }
{
    let notes = std::mem::replace(&mut os.processes, Items::new(alloc));
    let notes = notes.into_vec().into_iter();
    let left = notes
        .map(|note| left_by(alloc, note, pid, fd))
        .collect(alloc)?;
    os.processes = Items::from_vec(left);
    Ok(())
}

/// The description goes, with each descriptor that names it.
fn forget_description(os: &mut LibOs, alloc: Global, id: u64) -> Result<(), AllocError>
    ensures { OnOk result (os.new ≡ record (spec.with_descriptors os.old (spec.naming_others id)) {
      descriptions = filter (λ d. not (d.id == id)) os.old.descriptions;
    }) }
{
    let descriptions = os.descriptions.as_slice().iter().copied();
    let others = descriptions.filter(|note| note.id != id).collect(alloc)?;
    let notes = std::mem::replace(&mut os.processes, Items::new(alloc));
    let notes = notes.into_vec().into_iter();
    let left = notes
        .map(|note| naming_others(alloc, note, id))
        .collect(alloc)?;
    os.processes = Items::from_vec(left);
    os.descriptions = Items::from_vec(others);
    Ok(())
}

/// The description of a stream goes, where there is one.
pub fn forget_stream(os: &mut LibOs, alloc: Global, handle: u64) -> Result<(), AllocError>
    ensures { OnOk result (os.new ≡ spec.without_stream os.old handle) }
{
    let gone = description_by_handle(os.descriptions.as_slice(), handle).copied();
    match gone {
        Some(gone) => forget_description(os, alloc, gone.id),
        None => Ok(()),
    }
}

/// A descriptor of the process names what another one does, where that is open.
pub fn duplicate(
    os: &mut LibOs,
    alloc: Global,
    process: u64,
    old: u64,
    new: u64,
) -> Result<(), AllocError>
    ensures { OnOk result (os.new ≡ answered.with_duplicate os.old process old new) }
{
    let pid = pid_with(os, process);
    match description_of(os, process, old) {
        Some(description) => open_descriptor(os, alloc, pid, new, description.id),
        None => Ok(()),
    }
}
