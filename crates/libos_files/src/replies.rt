ghost use Rattle.std.specs.Prelude.{◌≡◌, true, IfOk};
ghost use Rattle.libos_state.specs.Answered as spec;
ghost use Rattle.libos_files.specs.Served.{is_stream_stage};

use crate::closing::{change_of_stream, stream_closed};
use crate::lengths::{change_of_length, length_set, length_told};
use crate::transfers::{
    buffer_read, bytes_read, bytes_stored, bytes_written, change_of_store, change_of_write,
    end_told,
};
use abi_calls::Reply;
use libos_state::{Change, Cont, Stage, Step};
use std::alloc::{AllocError, Global};

/// Whether the stage is of a call on a descriptor.
pub fn is_stream_stage(stage: Stage) -> bool
    ensures { result ≡ is_stream_stage stage }
{
    matches!(
        stage,
        Stage::CloseStream
            | Stage::ReadStream
            | Stage::StoreBytes
            | Stage::ReadBuffer
            | Stage::AppendLength
            | Stage::WriteStream
            | Stage::FileLength
            | Stage::SetFileLength
    )
}

/// What the service of a call on a descriptor does on a reply: one row for each stage. It keeps the reply's bytes where
/// it needs them.
///
/// # Errors
/// There was no memory.
pub fn step_of(alloc: Global, cont: Cont, reply: Reply) -> Result<Step, AllocError>
    requires { is_stream_stage cont.stage ≡ true }
    ensures { IfOk result (λ step. step ≡ spec.next cont cont.stage reply) }
{
    match cont.stage {
        Stage::CloseStream => Ok(stream_closed(alloc, cont, &reply)),
        Stage::ReadStream => bytes_read(alloc, cont, reply),
        Stage::StoreBytes => Ok(bytes_stored(alloc, cont, &reply)),
        Stage::ReadBuffer => Ok(buffer_read(alloc, cont, reply)),
        Stage::AppendLength => end_told(alloc, cont, &reply),
        Stage::WriteStream => Ok(bytes_written(alloc, cont, &reply)),
        Stage::FileLength => length_told(alloc, cont, &reply),
        Stage::SetFileLength => Ok(length_set(alloc, cont, &reply)),
        _ => unreachable!(),
    }
}

/// What the reply changes of the records.
pub fn change_of(cont: &Cont, reply: &Reply) -> Change
    requires { is_stream_stage cont.now.stage ≡ true }
    ensures { result ≡ spec.change cont.now cont.now.stage reply.now }
{
    match (cont.stage, reply) {
        (Stage::CloseStream, Reply::Done) => change_of_stream(cont),
        (Stage::StoreBytes, Reply::Done) => change_of_store(cont),
        (Stage::WriteStream, Reply::Count(count)) => change_of_write(cont, *count),
        (Stage::FileLength, Reply::Length(size)) => change_of_length(cont, *size),
        _ => Change::Same,
    }
}
