ghost use Rattle.std.specs.Prelude.{◌≡◌, ◌≤◌, true, length, IfOk, OnOk, OnErr};
ghost use Rattle.bas_edge.specs.Faults.{HasCause};
ghost use Rattle.bas_edge.specs.Files.{with_file};
ghost use Rattle.abi_calls.specs.declared.limits.TheConstants.{LONGEST_FILE};
ghost use Rattle.abi_calls.specs.Streams.{is_name};
ghost use Rattle.file_commands.specs.Changes.{IsPartly, changed};
ghost use Rattle.file_commands.specs.Copies.{LeavesPut, SaysOfPut};

use crate::copies::{Copied, CopyError};
use crate::open_file::OpenFile;
use abi_calls::limits::{LONGEST_FILE, MOST_BYTES};
use abi_calls::{Host, HostError};
use bas_edge::{Fetched, Shelf, fetch};
use std::alloc::Global;

/// Writes all the bytes into the host's file of a name, which is made where it isn't there, and emptied first where
/// it is. After an `Err` it is as before, or has a first part of the bytes.
fn write_file<H: Host>(
    alloc: Global,
    name: &[u8],
    bytes: &[u8],
    host: &mut H,
) -> Result<(), HostError>
    requires named { is_name name.now ≡ true }
    requires short { length bytes.now ≤ LONGEST_FILE }
    ensures written { OnOk result (H.told host.new ≡ changed (with_file name.now bytes.now) (H.told host.old)) }
    ensures left { OnErr result (IsPartly name.now bytes.now (H.told host.old) (H.told host.new)) }
    ensures cause { HasCause HostError.Failed (H.fault_count host.old) (H.fault_count host.new) result }
{
    let file = OpenFile::make(alloc, name, host)?;
    file.make_empty(host)?;
    let mut offset = 0;
    let mut rest = bytes;
    while !rest.is_empty() {
        let (piece, behind) = rest.split_at(rest.len().min(MOST_BYTES as usize));
        file.write(alloc, offset, piece, host)?;
        offset += piece.len() as u64;
        rest = behind;
    }
    file.close(host)
}

/// Copies the user's file `file`, of at most 16 MiB, to the host's file of a name of 1 to 80 bytes, which is made where
/// it isn't there. All else of the host is as before, and so are the user's files. After an `Err` the host's file is as
/// before, or has a first part of the user's.
pub fn put_file<H: Host, F: Shelf>(
    alloc: Global,
    file: &str,
    name: &[u8],
    host: &mut H,
    shelf: &mut F,
) -> Result<Copied, CopyError>
    requires named { is_name name.now ≡ true }
    ensures says { IfOk result (λ copied.
        SaysOfPut copied file.now name.now (F.files shelf.old) (H.told host.old) (H.told host.new)) }
    ensures left { OnErr result (LeavesPut file.now name.now (F.files shelf.old) (H.told host.old) (H.told host.new)) }
    ensures shelf { F.files shelf.new ≡ F.files shelf.old }
    ensures host_fault { HasCause CopyError.Host (H.fault_count host.old) (H.fault_count host.new) result }
    ensures shelf_fault { HasCause CopyError.Shelf (F.fault_count shelf.old) (F.fault_count shelf.new) result }
{
    let bytes = match fetch(alloc, shelf, file, LONGEST_FILE)? {
        Fetched::Bytes(bytes) => bytes,
        Fetched::Absent => return Ok(Copied::Absent),
        Fetched::Large(_) => return Ok(Copied::Large),
    };
    write_file(alloc, name, bytes.as_slice(), host)?;
    Ok(Copied::Bytes(bytes.len() as u64))
}
