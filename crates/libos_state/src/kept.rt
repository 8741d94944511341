ghost use Rattle.std.specs.Prelude.{◌≡◌, ◌==◌, ℕ, ◌+◌, ◌<◌, ◌-◌, slice_index, slice_get, find, option_map, IfOk, List, take, drop, length};
ghost use Rattle.std.specs.List.{list_any};
ghost use Rattle.std.specs.Option.{option_copied};
ghost use Rattle.mono_model.specs.Machine.{register};
ghost use Rattle.libos_state.specs.Records.{process_with, thread_with, thread_named, description_named, descriptor_named, description_behind, no_context};
ghost use Rattle.libos_state.specs.Pending.{upcall_in, handle, number, argument};

use crate::cont::Event;
use crate::notes::{Description, DescriptorNote, ProcessNote, ThreadNote};
use crate::state::LibOs;
use abi_calls::Upcall;
use rv_core::Context;

/// The place of register a0 among the registers 1 to 31.
pub const A0: usize = 9;

const NO_CONTEXT: Context = Context { pc: 0, x: [0; 31] };

/// The trap that a service serves; all zeros at a start.
pub fn upcall_of(event: &Event) -> Upcall
    ensures { result ≡ upcall_in event.now }
{
    match event {
        Event::Up(upcall) => *upcall,
        Event::Boot { .. } => Upcall {
            process: 0,
            thread: 0,
            cause: 0,
            value: 0,
            context: NO_CONTEXT,
        },
    }
}

/// The thread of the trap that a service serves; 0 at a start.
pub fn thread_of(event: &Event) -> u64
    ensures { result ≡ (upcall_in event.now).thread }
{
    match event {
        Event::Up(upcall) => upcall.thread,
        Event::Boot { .. } => 0,
    }
}

/// The `place`-th number of a list, counted from 0; 0 past its end.
pub fn number_at(numbers: &[u64], place: usize) -> u64
    ensures { result ≡ slice_index numbers.now place }
{
    match numbers.get(place) {
        Some(number) => *number,
        None => 0,
    }
}

/// The first items, so many or all that there are.
#[tactic(auto, using(std::proofs::lemmas::List::take_min))]
pub fn first_items<T>(items: &[T], count: usize) -> &[T]
    ensures { result.now ≡ take count items.now }
{
    &items[..count.min(items.len())]
}

/// The items from the `place`-th on, counted from 0; none past the end.
#[tactic(auto, using(std::proofs::lemmas::List::drop_min))]
pub fn items_from<T>(items: &[T], place: usize) -> &[T]
    ensures { result.now ≡ drop place items.now }
{
    &items[place.min(items.len())..]
}

/// The record of the process that has a handle.
pub fn process_by_handle(processes: &[ProcessNote], handle: u64) -> Option<&ProcessNote>
    ensures { option_copied result ≡ process_with handle processes.now }
{
    processes.iter().find(|note| note.handle == handle)
}

/// The descriptor of this number.
pub fn descriptor_by_number(descriptors: &[DescriptorNote], number: u64) -> Option<&DescriptorNote>
    ensures { option_copied result ≡ descriptor_named number descriptors.now }
{
    descriptors.iter().find(|note| note.number == number)
}

/// The record of the thread that has a handle.
pub fn thread_by_handle(threads: &[ThreadNote], handle: u64) -> Option<&ThreadNote>
    ensures { option_copied result ≡ thread_with handle threads.now }
{
    threads.iter().find(|note| note.handle == handle)
}

/// The record of the thread of this id.
pub fn thread_by_tid(threads: &[ThreadNote], tid: u64) -> Option<&ThreadNote>
    ensures { option_copied result ≡ thread_named tid threads.now }
{
    threads.iter().find(|note| note.tid == tid)
}

/// The record of the open description of this id.
pub fn description_by_id(descriptions: &[Description], id: u64) -> Option<&Description>
    ensures { option_copied result ≡ description_named id descriptions.now }
{
    descriptions.iter().find(|note| note.id == id)
}

/// Whether a descriptor of the process names the description.
pub fn has_open(note: &ProcessNote, id: u64) -> bool
    ensures { result ≡ list_any (λ d. d.description == id) note.now.descriptors }
{
    note.descriptors
        .as_slice()
        .iter()
        .any(|named| named.description == id)
}

/// The open description behind a descriptor of the process that has a handle.
pub fn description_of(os: &LibOs, process: u64, fd: u64) -> Option<Description>
    ensures { result ≡ description_behind os.now process fd }
{
    let note = process_by_handle(os.processes.as_slice(), process)?;
    let descriptor = descriptor_by_number(note.descriptors.as_slice(), fd)?;
    description_by_id(os.descriptions.as_slice(), descriptor.description).copied()
}
