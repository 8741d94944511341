ghost use Rattle.std.specs.Prelude.{◌≡◌, IfOk};
ghost use Rattle.abi_calls.specs.declared.call.Call.TheVariants.{MemoryWrite};
ghost use Rattle.libos_state.specs.Pending as spec;
ghost use Rattle.libos_state.specs.Records.{description_behind};
ghost use Rattle.libos_state.specs.declared.state.LibOs.{LibOs};

use crate::cont::{Cont, Stage};
use crate::kept::{A0, description_of, number_at, upcall_of};
use crate::state::LibOs;
use abi_calls::Call;
use bas_edge::Memory;

/// The most bytes that one call moves.
pub const PIECE: u64 = 65_536;

fn stream_handle(os: &LibOs, cont: &Cont) -> u64
    ensures { result ≡ spec.wanted_stream os.now cont.now }
{
    let upcall = upcall_of(&cont.event);
    match description_of(os, upcall.process, upcall.context.x[A0]) {
        Some(description) => description.handle,
        None => 0,
    }
}

fn stream_position(os: &LibOs, cont: &Cont) -> u64
    ensures { result ≡ spec.wanted_position os.now cont.now }
{
    let upcall = upcall_of(&cont.event);
    match description_of(os, upcall.process, upcall.context.x[A0]) {
        Some(description) => description.position,
        None => 0,
    }
}

pub fn read_stream(os: &LibOs, cont: &Cont) -> Call
    requires { cont.now.stage ≡ Stage.ReadStream }
    ensures { result ≡ spec.asked os.now cont.now cont.now.stage }
{
    Call::StreamRead {
        stream: stream_handle(os, cont),
        offset: stream_position(os, cont),
        count: upcall_of(&cont.event).context.x[A0 + 2].min(PIECE),
    }
}

pub fn store_bytes(cont: &Cont) -> Result<Call, Memory>
    ensures { IfOk result (λ call.
        call ≡ MemoryWrite (spec.upcall_in cont.now.event).process (spec.number cont.now 0) cont.now.bytes) }
{
    Ok(Call::MemoryWrite {
        process: upcall_of(&cont.event).process,
        address: number_at(cont.numbers.as_slice(), 0),
        bytes: cont.bytes.clone()?,
    })
}

pub fn read_buffer(cont: &Cont) -> Call
    requires { cont.now.stage ≡ Stage.ReadBuffer }
    ensures { (os : LibOs) → result ≡ spec.asked os cont.now cont.now.stage }
{
    let upcall = upcall_of(&cont.event);
    let registers = upcall.context.x;
    Call::MemoryRead {
        process: upcall.process,
        address: registers[A0 + 1],
        count: registers[A0 + 2].min(PIECE),
    }
}

pub fn write_stream(os: &LibOs, cont: &Cont) -> Result<Call, Memory>
    ensures { IfOk result (λ call. call ≡ spec.asked os.now cont.now Stage.WriteStream) }
{
    Ok(Call::StreamWrite {
        stream: stream_handle(os, cont),
        offset: number_at(cont.numbers.as_slice(), 0),
        bytes: cont.bytes.clone()?,
    })
}

/// The length of the file that the descriptor in a0 names.
pub fn file_length(os: &LibOs, cont: &Cont) -> Call
    ensures append { result ≡ spec.asked os.now cont.now Stage.AppendLength }
    ensures file { result ≡ spec.asked os.now cont.now Stage.FileLength }
{
    Call::StreamLength {
        stream: stream_handle(os, cont),
    }
}

pub fn set_file_length(os: &LibOs, cont: &Cont) -> Call
    requires { cont.now.stage ≡ Stage.SetFileLength }
    ensures { result ≡ spec.asked os.now cont.now cont.now.stage }
{
    Call::StreamSetLength {
        stream: stream_handle(os, cont),
        length: upcall_of(&cont.event).context.x[A0 + 1],
    }
}
