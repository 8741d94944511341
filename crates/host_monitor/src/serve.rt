ghost use Rattle.std.specs.Prelude.{◌≡◌, None, true, IfOk, OnOk, OnErr, IsErrOf};
ghost use Rattle.bas_edge.specs.Faults.{HasCause};
ghost use Rattle.abi_calls.specs.Failing.{Leaves};
ghost use Rattle.host_objects.specs.Objects.{objects_of};
ghost use Rattle.host_monitor.specs.Answers.{IsAnswered};
ghost use Rattle.host_monitor.specs.Counted.{CountsUsers, file_of_call, keeps_handles};

use crate::edges::Edges;
use crate::files::{change_handles, file_of, open_stream};
use crate::streams::{read_stream, set_stream_length, stream_length, write_stream};
use abi_calls::{Call, HostError, Reply};
use host_objects::{Numbers, Objects};
use std::alloc::Global;

/// Answers a call, from the objects alone or from the outside too.
pub(crate) fn serve<W: Edges, N: Numbers + Drop>(
    alloc: Global,
    objects: &mut Objects<N>,
    outside: &mut W,
    call: &Call,
) -> Result<Reply, HostError>
    requires counted { CountsUsers (objects_of objects.old) (W.users outside.old) }
    ensures row { IfOk result (λ reply. IsAnswered (objects_of objects.old) (W.told outside.old)
        call.now reply (objects_of objects.new) (W.told outside.new)) }
    ensures left { Leaves (objects_of objects.old) call.now
        (W.told outside.old) (W.told outside.new) }
    ensures same { OnErr result (objects_of objects.new ≡ objects_of objects.old) }
    ensures counted { CountsUsers (objects_of objects.new) (W.users outside.new) }
    ensures cause { HasCause HostError.Failed
        (W.fault_count outside.old) (W.fault_count outside.new) result }
    ensures unfaulted { OnOk result (W.fault_count outside.new ≡ W.fault_count outside.old) }
    ensures want { IsErrOf result HostError.Memory
        → W.fault_count outside.new ≡ W.fault_count outside.old }
{
    match call {
        Call::StreamOpen { name, .. } => open_stream(objects, outside, call, name),
        Call::Share { .. } | Call::Close { .. } => change_handles(objects, outside, call),
        _ => answer(alloc, objects, outside, call),
    }
}

/// Answers a call after which the same handles are open on each file.
fn answer<W: Edges, N: Numbers + Drop>(
    alloc: Global,
    objects: &mut Objects<N>,
    outside: &mut W,
    call: &Call,
) -> Result<Reply, HostError>
    requires keeps { keeps_handles call.now ≡ true }
    requires counted { CountsUsers (objects_of objects.old) (W.users outside.old) }
    ensures row { IfOk result (λ reply. IsAnswered (objects_of objects.old) (W.told outside.old)
        call.now reply (objects_of objects.new) (W.told outside.new)) }
    ensures left { Leaves (objects_of objects.old) call.now
        (W.told outside.old) (W.told outside.new) }
    ensures same { OnErr result (objects_of objects.new ≡ objects_of objects.old) }
    ensures counted { CountsUsers (objects_of objects.new) (W.users outside.new) }
    ensures cause { HasCause HostError.Failed
        (W.fault_count outside.old) (W.fault_count outside.new) result }
    ensures unfaulted { OnOk result (W.fault_count outside.new ≡ W.fault_count outside.old) }
    ensures want { IsErrOf result HostError.Memory
        → W.fault_count outside.new ≡ W.fault_count outside.old }
{
    if let Some(name) = file_of(objects, call) {
        return outside.call_file(call, name);
    }
    answer_aside(alloc, objects, outside, call)
}

/// Answers a call that is on no file, and after which the same handles are open on each file.
#[tactic(auto, using(crate::proofs::Rows::rows))]
fn answer_aside<W: Edges, N: Numbers + Drop>(
    alloc: Global,
    objects: &mut Objects<N>,
    outside: &mut W,
    call: &Call,
) -> Result<Reply, HostError>
    requires keeps { keeps_handles call.now ≡ true }
    requires aside { file_of_call (objects_of objects.old) call.now ≡ None }
    requires counted { CountsUsers (objects_of objects.old) (W.users outside.old) }
    ensures row { IfOk result (λ reply. IsAnswered (objects_of objects.old) (W.told outside.old)
        call.now reply (objects_of objects.new) (W.told outside.new)) }
    ensures left { Leaves (objects_of objects.old) call.now
        (W.told outside.old) (W.told outside.new) }
    ensures same { OnErr result (objects_of objects.new ≡ objects_of objects.old) }
    ensures counted { CountsUsers (objects_of objects.new) (W.users outside.new) }
    ensures cause { HasCause HostError.Failed
        (W.fault_count outside.old) (W.fault_count outside.new) result }
    ensures unfaulted { OnOk result (W.fault_count outside.new ≡ W.fault_count outside.old) }
    ensures want { IsErrOf result HostError.Memory
        → W.fault_count outside.new ≡ W.fault_count outside.old }
{
    match call {
        Call::StreamRead {
            stream,
            offset,
            count,
        } => read_stream(alloc, objects, outside, *stream, *offset, *count),
        Call::StreamWrite {
            stream,
            offset,
            bytes,
        } => write_stream(objects, outside, *stream, *offset, bytes.as_slice()),
        Call::StreamLength { stream } => Ok(stream_length(objects, *stream)),
        Call::StreamSetLength { stream, length } => {
            Ok(set_stream_length(objects, *stream, *length))
        }
        Call::StreamOpen { .. } | Call::StreamDelete { .. } | Call::StreamRename { .. } => {
            unreachable!()
        }
        _ => Ok(objects.call(call)?),
    }
}
