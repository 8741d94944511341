ghost use Rattle.std.specs.Prelude.{◌≡◌, false, true, Some, IfOk, OnOk, OnErr, IsErrOf};
ghost use Rattle.std.specs.Option.{option_copied};
ghost use Rattle.bas_edge.specs.Faults.{HasCause};
ghost use Rattle.bas_names.specs.declared.StreamName.TheVariants.{File};
ghost use Rattle.abi_calls.specs.declared.object.Object.TheVariants.{Stream};
ghost use Rattle.abi_calls.specs.Objects.{object_at, with_object, IsFresh};
ghost use Rattle.abi_calls.specs.Abi.{takes_memory};
ghost use Rattle.abi_calls.specs.Failing.{Leaves};
ghost use Rattle.abi_calls.specs.Sound.{is_sound_name};
ghost use Rattle.host_files.specs.Users.{is_used, without_user};
ghost use Rattle.host_objects.specs.Objects.{objects_of};
ghost use Rattle.host_monitor.specs.Answers.{IsAnswered};
ghost use Rattle.host_monitor.specs.Counted.{CountsUsers, IsUsedIn, is_on_handle, opened_name, users_on, users_without};
ghost use Rattle.host_monitor.specs.Counted as counted;

use crate::edges::Edges;
use abi_calls::{Call, HostError, Reply, StreamName};
use bas_edge::Memory;
use bas_items::Items;
use host_objects::{Numbers, Objects};

/// The file that a handle is open on.
fn file_at<N: Numbers + Drop>(objects: &Objects<N>, handle: u64) -> Option<&[u8]>
    ensures { option_copied result
        ≡ counted.file_at (object_at (objects_of objects.now) handle) }
{
    match objects.stream(handle) {
        Some(StreamName::File(name)) => Some(name.as_slice()),
        _ => None,
    }
}

/// The file that a call is on: the one that it names, or that of its handle.
pub(crate) fn file_of<'a, N: Numbers + Drop>(
    objects: &'a Objects<N>,
    call: &'a Call,
) -> Option<&'a [u8]>
    ensures { option_copied result ≡ counted.file_of_call (objects_of objects.now) call.now }
{
    match call {
        Call::StreamOpen {
            name: StreamName::File(name),
            ..
        } => Some(name.as_slice()),
        Call::StreamDelete { name } => Some(name.as_slice()),
        Call::StreamRename { from, .. } => Some(from.as_slice()),
        Call::StreamRead { stream, .. }
        | Call::StreamWrite { stream, .. }
        | Call::StreamLength { stream }
        | Call::StreamSetLength { stream, .. }
        | Call::Share { stream } => file_at(objects, *stream),
        Call::Close { handle } => file_at(objects, *handle),
        _ => None,
    }
}

/// Whether a reply is that a call is done.
fn is_done(reply: &Reply) -> bool
    ensures { result ≡ counted.is_done reply.now }
{
    matches!(reply, Reply::Done)
}

/// Gives a new handle on a stream. After an `Err` all is as before.
fn add_handle<N: Numbers + Drop>(objects: &mut Objects<N>, name: &StreamName) -> Result<u64, Memory>
    requires { is_sound_name name.now ≡ true }
    ensures fresh { IfOk result (IsFresh (objects_of objects.old)) }
    ensures added { IfOk result (λ handle. objects_of objects.new
        ≡ with_object (objects_of objects.old) handle (Stream name.now)) }
    ensures same { OnErr result (objects_of objects.new ≡ objects_of objects.old) }
{
    let copy = name.clone()?;
    objects.add_stream(copy)
}

/// Counts one user less of a file.
#[tactic(auto, using(crate::proofs::FileRows::same_closed))]
fn release<W: Edges>(outside: &mut W, name: &[u8])
    requires { is_used (W.users outside.old) name.now ≡ true }
    ensures users { W.users outside.new ≡ without_user name.now (W.users outside.old) }
    ensures told { W.told outside.new ≡ W.told outside.old }
    ensures unfaulted { W.fault_count outside.new ≡ W.fault_count outside.old }
{
    match outside.call_file(&Call::Close { handle: 0 }, name) {
        Ok(_) => (),
        Err(_) => unreachable!(),
    }
}

/// StreamOpen.
pub(crate) fn open_stream<W: Edges, N: Numbers + Drop>(
    objects: &mut Objects<N>,
    outside: &mut W,
    call: &Call,
    name: &StreamName,
) -> Result<Reply, HostError>
    requires opens { opened_name call.now ≡ Some name.now }
    requires counted { CountsUsers (objects_of objects.old) (W.users outside.old) }
    ensures row { IfOk result (λ reply. IsAnswered (objects_of objects.old) (W.told outside.old)
        call.now reply (objects_of objects.new) (W.told outside.new)) }
    ensures left { Leaves (objects_of objects.old) call.now
        (W.told outside.old) (W.told outside.new) }
    ensures same { OnErr result (objects_of objects.new ≡ objects_of objects.old) }
    ensures counted { CountsUsers (objects_of objects.new) (W.users outside.new) }
    ensures cause { HasCause HostError.Failed
        (W.fault_count outside.old) (W.fault_count outside.new) result }
    ensures unfaulted { OnOk result (W.fault_count outside.new ≡ W.fault_count outside.old) }
    ensures want { IsErrOf result HostError.Memory
        → W.fault_count outside.new ≡ W.fault_count outside.old }
{
    if let StreamName::File(file) = name {
        return open_file(objects, outside, call, name, file);
    }
    let handle = add_handle(objects, name)?;
    Ok(Reply::Handle(handle))
}

/// StreamOpen of a file. Where there is no memory for the handle, the user that was counted is taken back.
fn open_file<W: Edges, N: Numbers + Drop>(
    objects: &mut Objects<N>,
    outside: &mut W,
    call: &Call,
    name: &StreamName,
    file: &Items<u8>,
) -> Result<Reply, HostError>
    requires opens { opened_name call.now ≡ Some name.now }
    requires is_file { name.now ≡ File file.now }
    requires counted { CountsUsers (objects_of objects.old) (W.users outside.old) }
    ensures row { IfOk result (λ reply. IsAnswered (objects_of objects.old) (W.told outside.old)
        call.now reply (objects_of objects.new) (W.told outside.new)) }
    ensures left { Leaves (objects_of objects.old) call.now
        (W.told outside.old) (W.told outside.new) }
    ensures same { OnErr result (objects_of objects.new ≡ objects_of objects.old) }
    ensures counted { CountsUsers (objects_of objects.new) (W.users outside.new) }
    ensures cause { HasCause HostError.Failed
        (W.fault_count outside.old) (W.fault_count outside.new) result }
    ensures unfaulted { OnOk result (W.fault_count outside.new ≡ W.fault_count outside.old) }
    ensures want { IsErrOf result HostError.Memory
        → W.fault_count outside.new ≡ W.fault_count outside.old }
{
    let reply = outside.call_file(call, file.as_slice())?;
    if !is_done(&reply) {
        return Ok(reply);
    }
    match add_handle(objects, name) {
        Ok(handle) => Ok(Reply::Handle(handle)),
        Err(error) => {
            release(outside, file.as_slice());
            Err(HostError::from(error))
        }
    }
}

/// Counts the user that a Share brings and a Close takes, where the call is on a file.
fn count_user<W: Edges, N: Numbers + Drop>(
    objects: &Objects<N>,
    outside: &mut W,
    call: &Call,
) -> Result<(), HostError>
    requires on_handle { is_on_handle call.now ≡ true }
    requires counted { CountsUsers (objects_of objects.now) (W.users outside.old) }
    ensures users { OnOk result (W.users outside.new ≡ users_on
        (counted.file_of_call (objects_of objects.now) call.now) (W.users outside.old) call.now) }
    ensures told { W.told outside.new ≡ W.told outside.old }
    ensures same { OnErr result (W.users outside.new ≡ W.users outside.old) }
    ensures cause { HasCause HostError.Failed
        (W.fault_count outside.old) (W.fault_count outside.new) result }
    ensures unfaulted { OnOk result (W.fault_count outside.new ≡ W.fault_count outside.old) }
    ensures want { IsErrOf result HostError.Memory
        → W.fault_count outside.new ≡ W.fault_count outside.old }
{
    if let Some(name) = file_of(objects, call) {
        outside.call_file(call, name)?;
    }
    Ok(())
}

/// Takes back the user that a Share has brought.
fn uncount_user<W: Edges, N: Numbers + Drop>(objects: &Objects<N>, outside: &mut W, call: &Call)
    requires used { IsUsedIn (counted.file_of_call (objects_of objects.now) call.now)
        (W.users outside.old) }
    ensures users { W.users outside.new ≡ users_without
        (counted.file_of_call (objects_of objects.now) call.now) (W.users outside.old) }
    ensures told { W.told outside.new ≡ W.told outside.old }
    ensures unfaulted { W.fault_count outside.new ≡ W.fault_count outside.old }
{
    if let Some(name) = file_of(objects, call) {
        release(outside, name);
    }
}

/// Share and Close.
pub(crate) fn change_handles<W: Edges, N: Numbers + Drop>(
    objects: &mut Objects<N>,
    outside: &mut W,
    call: &Call,
) -> Result<Reply, HostError>
    requires on_handle { is_on_handle call.now ≡ true }
    requires counted { CountsUsers (objects_of objects.old) (W.users outside.old) }
    ensures row { IfOk result (λ reply. IsAnswered (objects_of objects.old) (W.told outside.old)
        call.now reply (objects_of objects.new) (W.told outside.new)) }
    ensures told { W.told outside.new ≡ W.told outside.old }
    ensures same { OnErr result (objects_of objects.new ≡ objects_of objects.old) }
    ensures counted { CountsUsers (objects_of objects.new) (W.users outside.new) }
    ensures cause { HasCause HostError.Failed
        (W.fault_count outside.old) (W.fault_count outside.new) result }
    ensures unfaulted { OnOk result (W.fault_count outside.new ≡ W.fault_count outside.old) }
    ensures want { IsErrOf result HostError.Memory
        → W.fault_count outside.new ≡ W.fault_count outside.old }
{
    count_user(objects, outside, call)?;
    match objects.call(call) {
        Ok(reply) => Ok(reply),
        Err(error) => {
            uncount_user(objects, outside, call);
            Err(HostError::from(error))
        }
    }
}
