ghost use Rattle.std.specs.Prelude.{◌≡◌, IfOk, IfSome, IfNone, OnOk, OnErr, IsErrOf};
ghost use Rattle.std.specs.Option.{ForSome};
ghost use Rattle.bas_edge.specs.Faults.{HasCause};
ghost use Rattle.bas_edge.specs.Files.{HasFile};
ghost use Rattle.abi_calls.specs.Streams.{file_open_row, file_length_row, file_set_length_row, file_delete_row, file_rename_row};
ghost use Rattle.host_files.specs.Rows.{FollowsRow, read_row, write_row};
ghost use Rattle.host_files.specs.Names.{IsRefusedName, IsFineName};
ghost use Rattle.host_files.specs.Found.{HasLength, ReadsFile};

use abi_calls::Reply;
use abi_calls::limits::{LONGEST_FILE, LONGEST_NAME, MOST_BYTES};
use bas_edge::{EdgeError, Store};
use bas_items::Items;
use std::alloc::Global;

/// How a name is refused, if it is: more than 80 bytes are too many, and no bytes are no name.
fn refusal_of(name: &[u8]) -> Option<Reply>
    ensures refused { IfSome result (IsRefusedName name.now) }
    ensures fine { IfNone result (IsFineName name.now) }
{
    if name.len() > LONGEST_NAME {
        return Some(Reply::TooBig);
    }
    if name.is_empty() {
        return Some(Reply::NotFound);
    }
    None
}

/// The length of a file that has a user. One that isn't there is read at no bytes, which a store that tells
/// nothing counts as a fault.
fn length_in_use<E: Store>(store: &mut E, name: &[u8]) -> Result<u64, EdgeError>
    requires { ForSome (E.files store.old) (λ files. HasFile files name.now) }
    ensures found { IfOk result (HasLength (E.files store.old) name.now) }
    ensures same { E.files store.new ≡ E.files store.old }
    ensures cause { HasCause EdgeError.Failed
        (E.fault_count store.old) (E.fault_count store.new) result }
    ensures unfaulted { OnOk result (E.fault_count store.new ≡ E.fault_count store.old) }
    ensures want { IsErrOf result EdgeError.Memory
        → E.fault_count store.new ≡ E.fault_count store.old }
{
    if let Some(length) = store.length(name)? {
        return Ok(length);
    }
    store.read_at(name, 0, &mut [])?;
    Ok(0)
}

/// Up to `count` bytes of a file that has a user, from `offset` on.
fn bytes_of<E: Store>(
    alloc: Global,
    store: &mut E,
    name: &[u8],
    offset: u64,
    count: usize,
) -> Result<Items<u8>, EdgeError>
    requires { ForSome (E.files store.old) (λ files. HasFile files name.now) }
    ensures read { IfOk result (ReadsFile (E.files store.old) name.now offset count) }
    ensures same { E.files store.new ≡ E.files store.old }
    ensures cause { HasCause EdgeError.Failed
        (E.fault_count store.old) (E.fault_count store.new) result }
    ensures unfaulted { OnOk result (E.fault_count store.new ≡ E.fault_count store.old) }
    ensures want { IsErrOf result EdgeError.Memory
        → E.fault_count store.new ≡ E.fault_count store.old }
{
    let length = length_in_use(store, name)?;
    let room = length.saturating_sub(offset).min(count as u64) as usize;
    let mut bytes = vec![in alloc; 0; room]?;
    if room > 0 {
        store.read_at(name, offset, bytes.as_mut_slice())?;
    }
    Ok(Items::from_vec(bytes))
}

/// StreamOpen of a file.
pub(crate) fn open_file<E: Store>(
    store: &mut E,
    name: &[u8],
    create: bool,
    exclusive: bool,
) -> Result<Reply, EdgeError>
    ensures row { IfOk result (λ reply. FollowsRow
        (λ files. file_open_row files name.now create exclusive)
        (E.files store.old) reply (E.files store.new)) }
    ensures same { OnErr result (E.files store.new ≡ E.files store.old) }
    ensures cause { HasCause EdgeError.Failed
        (E.fault_count store.old) (E.fault_count store.new) result }
    ensures unfaulted { OnOk result (E.fault_count store.new ≡ E.fault_count store.old) }
    ensures want { IsErrOf result EdgeError.Memory
        → E.fault_count store.new ≡ E.fault_count store.old }
{
    if let Some(refusal) = refusal_of(name) {
        return Ok(refusal);
    }
    let Some(_) = store.length(name)? else {
        if !create {
            return Ok(Reply::NotFound);
        }
        store.create(name)?;
        return Ok(Reply::Done);
    };
    if create && exclusive {
        return Ok(Reply::Exists);
    }
    Ok(Reply::Done)
}

/// StreamRead of a file that has a user.
pub(crate) fn read_file<E: Store>(
    alloc: Global,
    store: &mut E,
    name: &[u8],
    offset: u64,
    count: u64,
) -> Result<Reply, EdgeError>
    requires { ForSome (E.files store.old) (λ files. HasFile files name.now) }
    ensures row { IfOk result (λ reply. FollowsRow (read_row name.now offset count)
        (E.files store.old) reply (E.files store.new)) }
    ensures same { E.files store.new ≡ E.files store.old }
    ensures cause { HasCause EdgeError.Failed
        (E.fault_count store.old) (E.fault_count store.new) result }
    ensures unfaulted { OnOk result (E.fault_count store.new ≡ E.fault_count store.old) }
    ensures want { IsErrOf result EdgeError.Memory
        → E.fault_count store.new ≡ E.fault_count store.old }
{
    if count > MOST_BYTES {
        return Ok(Reply::TooBig);
    }
    let bytes = bytes_of(alloc, store, name, offset, count as usize)?;
    Ok(Reply::Bytes(bytes))
}

/// StreamWrite to a file that has a user. No bytes reach no store.
pub(crate) fn write_file<E: Store>(
    store: &mut E,
    name: &[u8],
    offset: u64,
    bytes: &[u8],
) -> Result<Reply, EdgeError>
    requires { ForSome (E.files store.old) (λ files. HasFile files name.now) }
    ensures row { IfOk result (λ reply. FollowsRow (write_row name.now offset bytes.now)
        (E.files store.old) reply (E.files store.new)) }
    ensures same { OnErr result (E.files store.new ≡ E.files store.old) }
    ensures cause { HasCause EdgeError.Failed
        (E.fault_count store.old) (E.fault_count store.new) result }
    ensures unfaulted { OnOk result (E.fault_count store.new ≡ E.fault_count store.old) }
    ensures want { IsErrOf result EdgeError.Memory
        → E.fault_count store.new ≡ E.fault_count store.old }
{
    let count = bytes.len() as u64;
    if count > MOST_BYTES {
        return Ok(Reply::TooBig);
    }
    if offset > LONGEST_FILE - count {
        return Ok(Reply::TooBig);
    }
    if bytes.is_empty() {
        return Ok(Reply::Count(0));
    }
    store.write_at(name, offset, bytes)?;
    Ok(Reply::Count(count))
}

/// StreamLength of a file that has a user.
pub(crate) fn measure_file<E: Store>(store: &mut E, name: &[u8]) -> Result<Reply, EdgeError>
    requires { ForSome (E.files store.old) (λ files. HasFile files name.now) }
    ensures row { IfOk result (λ reply. FollowsRow (λ files. file_length_row files name.now)
        (E.files store.old) reply (E.files store.new)) }
    ensures same { E.files store.new ≡ E.files store.old }
    ensures cause { HasCause EdgeError.Failed
        (E.fault_count store.old) (E.fault_count store.new) result }
    ensures unfaulted { OnOk result (E.fault_count store.new ≡ E.fault_count store.old) }
    ensures want { IsErrOf result EdgeError.Memory
        → E.fault_count store.new ≡ E.fault_count store.old }
{
    Ok(Reply::Length(length_in_use(store, name)?))
}

/// StreamSetLength of a file that has a user.
pub(crate) fn resize_file<E: Store>(
    store: &mut E,
    name: &[u8],
    length: u64,
) -> Result<Reply, EdgeError>
    requires { ForSome (E.files store.old) (λ files. HasFile files name.now) }
    ensures row { IfOk result (λ reply. FollowsRow
        (λ files. file_set_length_row files name.now length)
        (E.files store.old) reply (E.files store.new)) }
    ensures same { OnErr result (E.files store.new ≡ E.files store.old) }
    ensures cause { HasCause EdgeError.Failed
        (E.fault_count store.old) (E.fault_count store.new) result }
    ensures unfaulted { OnOk result (E.fault_count store.new ≡ E.fault_count store.old) }
    ensures want { IsErrOf result EdgeError.Memory
        → E.fault_count store.new ≡ E.fault_count store.old }
{
    if length > LONGEST_FILE {
        return Ok(Reply::TooBig);
    }
    store.set_length(name, length)?;
    Ok(Reply::Done)
}

/// StreamDelete of a file, which is in use or not.
pub(crate) fn delete_file<E: Store>(
    store: &mut E,
    name: &[u8],
    in_use: bool,
) -> Result<Reply, EdgeError>
    ensures row { IfOk result (λ reply. FollowsRow (λ files. file_delete_row files name.now in_use)
        (E.files store.old) reply (E.files store.new)) }
    ensures same { OnErr result (E.files store.new ≡ E.files store.old) }
    ensures cause { HasCause EdgeError.Failed
        (E.fault_count store.old) (E.fault_count store.new) result }
    ensures unfaulted { OnOk result (E.fault_count store.new ≡ E.fault_count store.old) }
    ensures want { IsErrOf result EdgeError.Memory
        → E.fault_count store.new ≡ E.fault_count store.old }
{
    if let Some(refusal) = refusal_of(name) {
        return Ok(refusal);
    }
    let Some(_) = store.length(name)? else {
        return Ok(Reply::NotFound);
    };
    if in_use {
        return Ok(Reply::Busy);
    }
    store.remove(name)?;
    Ok(Reply::Done)
}

/// StreamRename of a file, where one of the two is in use or neither is.
pub(crate) fn rename_file<E: Store>(
    store: &mut E,
    from: &[u8],
    to: &[u8],
    in_use: bool,
) -> Result<Reply, EdgeError>
    ensures row { IfOk result (λ reply. FollowsRow
        (λ files. file_rename_row files from.now to.now in_use)
        (E.files store.old) reply (E.files store.new)) }
    ensures same { OnErr result (E.files store.new ≡ E.files store.old) }
    ensures cause { HasCause EdgeError.Failed
        (E.fault_count store.old) (E.fault_count store.new) result }
    ensures unfaulted { OnOk result (E.fault_count store.new ≡ E.fault_count store.old) }
    ensures want { IsErrOf result EdgeError.Memory
        → E.fault_count store.new ≡ E.fault_count store.old }
{
    if let Some(refusal) = refusal_of(from) {
        return Ok(refusal);
    }
    if let Some(refusal) = refusal_of(to) {
        return Ok(refusal);
    }
    let Some(_) = store.length(from)? else {
        return Ok(Reply::NotFound);
    };
    if in_use {
        return Ok(Reply::Busy);
    }
    if from == to {
        return Ok(Reply::Done);
    }
    store.rename(from, to)?;
    Ok(Reply::Done)
}
