ghost use Rattle.std.specs.Prelude.{◌≡◌, ◌++◌, true, IfOk, OnErr, MatchOption};
ghost use Rattle.std.specs.Prelude as spec;
ghost use Rattle.std.specs.Option.{ForSome};
ghost use Rattle.bas_edge.specs.Faults.{HasCause};
ghost use Rattle.bas_edge.specs.Files.{file_bytes};
ghost use Rattle.abi_calls.specs.Streams.{is_name};
ghost use Rattle.file_commands.specs.Changes.{IsOn};
ghost use Rattle.file_commands.specs.Copies.{HasNone, Holds, SaysOfGet};

use crate::copies::{Copied, CopyError};
use crate::open_file::OpenFile;
use abi_calls::limits::MOST_BYTES;
use abi_calls::{Host, HostError};
use bas_edge::{Memory, Shelf};
use std::alloc::Global;

/// The bytes with a piece behind them.
fn extended(mut bytes: Vec<u8>, piece: &[u8]) -> Result<Vec<u8>, Memory>
    ensures { IfOk result (λ longer. longer.items ≡ bytes.items ++ piece.now) }
{
    bytes.extend_from_slice(piece)?;
    Ok(bytes)
}

/// Reads an open file of this length to its end, or to an empty answer.
fn read_all<H: Host>(
    alloc: Global,
    file: &OpenFile,
    length: u64,
    host: &mut H,
) -> Result<Vec<u8>, HostError>
    requires on { IsOn file.now.name (H.objects host.old) file.now.stream }
    requires long { ForSome (H.told host.old).files (λ files. length ≡ spec.length (file_bytes files file.now.name)) }
    ensures read { IfOk result (λ bytes. ForSome (H.told host.old).files (λ files. bytes.items ≡ file_bytes files file.now.name)) }
    ensures same { H.told host.new ≡ H.told host.old }
    ensures cause { HasCause HostError.Failed (H.fault_count host.old) (H.fault_count host.new) result }
{
    let mut bytes = Vec::new(alloc);
    while (bytes.len() as u64) < length {
        let offset = bytes.len() as u64;
        let piece = file.read(offset, (length - offset).min(MOST_BYTES), host)?;
        if piece.is_empty() {
            return Ok(bytes);
        }
        bytes = extended(bytes, piece.as_slice())?;
    }
    Ok(bytes)
}

/// Reads the host's file of a name; `None`, where it isn't there.
fn read_file<H: Host>(
    alloc: Global,
    name: &[u8],
    host: &mut H,
) -> Result<Option<Vec<u8>>, HostError>
    requires named { is_name name.now ≡ true }
    ensures read { IfOk result (λ found.
        MatchOption found (HasNone (H.told host.old).files name.now) (λ bytes. Holds (H.told host.old).files name.now bytes.items)) }
    ensures same { H.told host.new ≡ H.told host.old }
    ensures cause { HasCause HostError.Failed (H.fault_count host.old) (H.fault_count host.new) result }
{
    let file = match OpenFile::find(alloc, name, host)? {
        Some(file) => file,
        None => return Ok(None),
    };
    let length = file.length(host)?;
    let bytes = read_all(alloc, &file, length, host)?;
    file.close(host)?;
    Ok(Some(bytes))
}

/// Copies the host's file of a name of 1 to 80 bytes to the user's file `file`, in place of the one that was there. The
/// other files of the user's are as before, and so is all of the host. After an `Err` the user's files are as before.
pub fn get_file<H: Host, F: Shelf>(
    alloc: Global,
    name: &[u8],
    file: &str,
    host: &mut H,
    shelf: &mut F,
) -> Result<Copied, CopyError>
    requires named { is_name name.now ≡ true }
    ensures says { IfOk result (λ copied.
        SaysOfGet copied name.now file.now (H.told host.old) (F.files shelf.old) (F.files shelf.new)) }
    ensures left { OnErr result (F.files shelf.new ≡ F.files shelf.old) }
    ensures host { H.told host.new ≡ H.told host.old }
    ensures host_fault { HasCause CopyError.Host (H.fault_count host.old) (H.fault_count host.new) result }
    ensures shelf_fault { HasCause CopyError.Shelf (F.fault_count shelf.old) (F.fault_count shelf.new) result }
{
    let bytes = match read_file(alloc, name, host)? {
        Some(bytes) => bytes,
        None => return Ok(Copied::Absent),
    };
    shelf.replace(file, bytes.as_slice())?;
    Ok(Copied::Bytes(bytes.len() as u64))
}
