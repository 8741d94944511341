ghost use Rattle.std.specs.Prelude.{◌≡◌, false, IfOk, OnOk, IsErrOf};
ghost use Rattle.bas_edge.specs.Faults.{HasCause};
ghost use Rattle.abi_calls.specs.declared.call.Call.TheVariants.{StreamRead, StreamWrite, StreamLength, StreamSetLength};
ghost use Rattle.abi_calls.specs.Objects.{object_at};
ghost use Rattle.abi_calls.specs.World.{Told};
ghost use Rattle.abi_calls.specs.Abi.{is_file};
ghost use Rattle.abi_calls.specs.Failing.{Leaves};
ghost use Rattle.host_objects.specs.Objects.{objects_of};
ghost use Rattle.host_monitor.specs.Answers.{IsAnswered};

use crate::edges::Edges;
use abi_calls::limits::MOST_BYTES;
use abi_calls::{HostError, Reply, StreamName};
use host_objects::{Numbers, Objects};
use std::alloc::Global;

/// StreamRead of a stream that is no file: up to `count` bytes.
#[tactic(auto, using(crate::proofs::Rows::reads))]
pub(crate) fn read_stream<W: Edges, N: Numbers + Drop>(
    alloc: Global,
    objects: &Objects<N>,
    outside: &mut W,
    stream: u64,
    offset: u64,
    count: u64,
) -> Result<Reply, HostError>
    requires { is_file (object_at (objects_of objects.now) stream) ≡ false }
    ensures row { IfOk result (λ reply. IsAnswered (objects_of objects.now) (W.told outside.old)
        (StreamRead stream offset count) reply (objects_of objects.now) (W.told outside.new)) }
    ensures left { Leaves (objects_of objects.now) (StreamRead stream offset count)
        (W.told outside.old) (W.told outside.new) }
    ensures users { W.users outside.new ≡ W.users outside.old }
    ensures cause { HasCause HostError.Failed
        (W.fault_count outside.old) (W.fault_count outside.new) result }
    ensures unfaulted { OnOk result (W.fault_count outside.new ≡ W.fault_count outside.old) }
    ensures want { IsErrOf result HostError.Memory
        → W.fault_count outside.new ≡ W.fault_count outside.old }
{
    let Some(name) = objects.stream(stream) else {
        return Ok(Reply::BadHandle);
    };
    if count > MOST_BYTES {
        return Ok(Reply::TooBig);
    }
    let count = count as usize;
    match name {
        StreamName::File(_) => unreachable!(),
        StreamName::ConIn => Ok(Reply::Bytes(outside.take_input(alloc, count)?)),
        StreamName::ConOut | StreamName::ConErr => Ok(Reply::NoAccess),
    }
}

/// StreamWrite to a stream that is no file.
#[tactic(auto, using(crate::proofs::Rows::writes))]
pub(crate) fn write_stream<W: Edges, N: Numbers + Drop>(
    objects: &Objects<N>,
    outside: &mut W,
    stream: u64,
    offset: u64,
    bytes: &[u8],
) -> Result<Reply, HostError>
    requires { is_file (object_at (objects_of objects.now) stream) ≡ false }
    ensures row { IfOk result (λ reply. IsAnswered (objects_of objects.now) (W.told outside.old)
        (StreamWrite stream offset bytes.now) reply (objects_of objects.now) (W.told outside.new)) }
    ensures left { Leaves (objects_of objects.now) (StreamWrite stream offset bytes.now)
        (W.told outside.old) (W.told outside.new) }
    ensures users { W.users outside.new ≡ W.users outside.old }
    ensures cause { HasCause HostError.Failed
        (W.fault_count outside.old) (W.fault_count outside.new) result }
    ensures unfaulted { OnOk result (W.fault_count outside.new ≡ W.fault_count outside.old) }
    ensures want { IsErrOf result HostError.Memory
        → W.fault_count outside.new ≡ W.fault_count outside.old }
{
    let Some(name) = objects.stream(stream) else {
        return Ok(Reply::BadHandle);
    };
    let count = bytes.len() as u64;
    if count > MOST_BYTES {
        return Ok(Reply::TooBig);
    }
    match name {
        StreamName::File(_) => unreachable!(),
        StreamName::ConIn => return Ok(Reply::NoAccess),
        StreamName::ConOut => outside.put_output(bytes)?,
        StreamName::ConErr => outside.put_errors(bytes)?,
    }
    Ok(Reply::Count(count))
}

/// StreamLength of a stream that is no file.
#[tactic(auto, using(crate::proofs::Rows::measures))]
pub(crate) fn stream_length<N: Numbers + Drop>(objects: &Objects<N>, stream: u64) -> Reply
    requires { is_file (object_at (objects_of objects.now) stream) ≡ false }
    ensures { (told : Told) → IsAnswered (objects_of objects.now) told (StreamLength stream)
        result (objects_of objects.now) told }
{
    match objects.stream(stream) {
        Some(_) => Reply::NoAccess,
        None => Reply::BadHandle,
    }
}

/// StreamSetLength of a stream that is no file.
#[tactic(auto, using(crate::proofs::Rows::resizes))]
pub(crate) fn set_stream_length<N: Numbers + Drop>(
    objects: &Objects<N>,
    stream: u64,
    length: u64,
) -> Reply
    requires { is_file (object_at (objects_of objects.now) stream) ≡ false }
    ensures { (told : Told) → IsAnswered (objects_of objects.now) told
        (StreamSetLength stream length) result (objects_of objects.now) told }
{
    match objects.stream(stream) {
        Some(_) => Reply::NoAccess,
        None => Reply::BadHandle,
    }
}
