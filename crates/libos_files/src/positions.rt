ghost use Rattle.std.specs.Prelude.{◌≡◌, map};
ghost use Rattle.libos_state.specs.Descriptors as spec;
ghost use Rattle.libos_state.specs.Records as records;
ghost use Rattle.libos_state.specs.Records.{description_behind};

use bas_items::Items;
use libos_state::{Description, Kind, LibOs, description_of};
use std::alloc::Global;

/// Whether the description is open on a file.
pub fn is_file(description: &Description) -> bool
    ensures { result ≡ records.is_file description.now.kind }
{
    description.kind == Kind::File
}

/// The description of this id is at the position.
fn place(notes: &mut [Description], id: u64, position: u64)
    ensures { notes.new ≡ map (spec.note_at id position) notes.old }
{
    for note in notes.iter_mut() {
        if note.id == id {
            note.position = position;
        }
    }
}

/// The open description of this id is at the position. Its record changes where it stands.
pub fn set_position(os: &mut LibOs, alloc: Global, id: u64, position: u64)
    ensures { os.new ≡ spec.with_position os.old id position }
{
    let mut notes = std::mem::replace(&mut os.descriptions, Items::new(alloc)).into_vec();
    place(notes.as_mut_slice(), id, position);
    os.descriptions = Items::from_vec(notes);
}

/// What the descriptor names is at the position, where it is a file.
pub fn put_position(os: &mut LibOs, alloc: Global, process: u64, fd: u64, position: u64)
    ensures { os.new ≡ spec.positioned os.old position (description_behind os.old process fd) }
{
    if let Some(description) = description_of(os, process, fd)
        && is_file(&description)
    {
        set_position(os, alloc, description.id, position);
    }
}

/// What the descriptor names moves over so many bytes, where it is a file.
pub fn move_position(os: &mut LibOs, alloc: Global, process: u64, fd: u64, count: u64)
    ensures { os.new ≡ spec.moved_over os.old count (description_behind os.old process fd) }
{
    if let Some(description) = description_of(os, process, fd)
        && is_file(&description)
    {
        let behind = description.position.saturating_add(count);
        set_position(os, alloc, description.id, behind);
    }
}
