ghost use Rattle.std.specs.Prelude.{◌≡◌, IfOk, IsErrOf, OnOk};
ghost use Rattle.std.specs.Option.{ForSome};
ghost use Rattle.bas_edge.specs.Faults.{HasCause};
ghost use Rattle.bas_edge.specs.Fetched.{IsWithinLimit, fetched_of};
ghost use Rattle.bas_edge.specs.Files.{file_of};

use crate::errors::EdgeError;
use crate::shelf::Shelf;
use bas_items::Items;
use std::alloc::Global;

/// What a shelf had under a name.
#[derive(Debug, Drop)]
pub enum Fetched {
    /// The whole file.
    Bytes(Items<u8>),
    /// No file has the name.
    Absent,
    /// The file is longer than the limit, and has this length.
    Large(u64),
}

/// Reads a whole file that is at most `limit` bytes long.
pub fn fetch<F: Shelf>(
    alloc: Global,
    shelf: &mut F,
    name: &str,
    limit: u64,
) -> Result<Fetched, EdgeError>
    ensures found { IfOk result (λ fetched. ForSome (F.files shelf.old) (λ told. fetched ≡ fetched_of (file_of told name.now) limit)) }
    ensures limited { IfOk result (IsWithinLimit limit) }
    ensures same { F.files shelf.new ≡ F.files shelf.old }
    ensures cause { HasCause EdgeError.Failed (F.fault_count shelf.old) (F.fault_count shelf.new) result }
    ensures unfaulted { OnOk result (F.fault_count shelf.new ≡ F.fault_count shelf.old) }
    ensures want { IsErrOf result EdgeError.Memory → F.fault_count shelf.new ≡ F.fault_count shelf.old }
{
    let length = match shelf.length(name)? {
        Some(length) => length,
        None => return Ok(Fetched::Absent),
    };
    if length > limit {
        return Ok(Fetched::Large(length));
    }
    let mut bytes = vec![in alloc; 0; length as usize]?;
    shelf.read_at(name, 0, &mut bytes)?;
    Ok(Fetched::Bytes(Items::from_vec(bytes)))
}
