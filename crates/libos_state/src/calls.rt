ghost use Rattle.std.specs.Prelude.{◌≡◌, false, IfOk};
ghost use Rattle.abi_calls.specs.declared.call.Call.TheVariants.{Close};
ghost use Rattle.libos_state.specs.Pending as spec;
ghost use Rattle.libos_state.specs.Kept.{IsKept, KeptAt};
ghost use Rattle.libos_state.specs.declared.state.LibOs.{LibOs};
ghost use Rattle.libos_state.specs.Stages.{is_at_end};

use crate::cont::{Cont, Stage};
use crate::file_calls::{
    file_length, read_buffer, read_stream, set_file_length, store_bytes, write_stream,
};
use crate::kept::{number_at, thread_of, upcall_of};
use crate::page_calls::{allocate_pages, free_pages, protect_pages};
use crate::start_calls::{
    allocate_run, allocate_stack, close_program, configure, create_thread, open_console,
    open_program, program_length, protect_run, read_program, start_thread, write_block, write_run,
};
use crate::state::LibOs;
use abi_calls::Call;
use bas_edge::Memory;
use std::alloc::Global;

fn set_context(cont: &Cont) -> Call
    requires { cont.now.stage ≡ Stage.SetContext }
    ensures { (os : LibOs) → result ≡ spec.asked os cont.now cont.now.stage }
{
    Call::ThreadContext {
        thread: thread_of(&cont.event),
        context: cont.next,
    }
}

fn resume(cont: &Cont) -> Call
    requires { cont.now.stage ≡ Stage.Resume }
    ensures { (os : LibOs) → result ≡ spec.asked os cont.now cont.now.stage }
{
    Call::ThreadResume {
        thread: thread_of(&cont.event),
    }
}

fn close_first(cont: &Cont) -> Call
    ensures { result ≡ Close (spec.handle cont.now 0) }
{
    Call::Close {
        handle: number_at(cont.handles.as_slice(), 0),
    }
}

fn exit_thread(cont: &Cont) -> Call
    requires { cont.now.stage ≡ Stage.ExitThread }
    ensures { (os : LibOs) → result ≡ spec.asked os cont.now cont.now.stage }
{
    Call::ThreadExit {
        thread: thread_of(&cont.event),
    }
}

fn exit_process(cont: &Cont) -> Call
    requires { cont.now.stage ≡ Stage.ExitProcess }
    ensures { (os : LibOs) → result ≡ spec.asked os cont.now cont.now.stage }
{
    Call::ProcessExit {
        process: upcall_of(&cont.event).process,
        code: (number_at(cont.numbers.as_slice(), 0) % 256) as u8,
    }
}

/// The call of a stage before the thread gets registers.
fn asked_before(os: &LibOs, alloc: Global, cont: &Cont) -> Result<Call, Memory>
    requires before { is_at_end cont.now.stage ≡ false }
    requires kept { KeptAt cont.now cont.now.stage }
    ensures { IfOk result (λ call. call ≡ spec.asked os.now cont.now cont.now.stage) }
{
    match cont.stage {
        Stage::SetContext | Stage::Resume => unreachable!(),
        Stage::CloseStream | Stage::CloseEvent | Stage::CloseHandles => Ok(close_first(cont)),
        Stage::ExitThread => Ok(exit_thread(cont)),
        Stage::ExitProcess => Ok(exit_process(cont)),
        Stage::ReadStream => Ok(read_stream(os, cont)),
        Stage::StoreBytes => store_bytes(cont),
        Stage::ReadBuffer => Ok(read_buffer(cont)),
        Stage::AppendLength | Stage::FileLength => Ok(file_length(os, cont)),
        Stage::WriteStream => write_stream(os, cont),
        Stage::SetFileLength => Ok(set_file_length(os, cont)),
        Stage::AllocatePages => Ok(allocate_pages(cont)),
        Stage::FreePages => Ok(free_pages(cont)),
        Stage::ProtectPages => Ok(protect_pages(cont)),
        Stage::Configure => configure(os),
        Stage::OpenConsole => Ok(open_console(cont)),
        Stage::OpenProgram => open_program(alloc, cont),
        Stage::ProgramLength => Ok(program_length(cont)),
        Stage::ReadProgram => Ok(read_program(cont)),
        Stage::CloseProgram => Ok(close_program(cont)),
        Stage::CreateProcess => Ok(Call::ProcessCreate),
        Stage::AllocateRun => allocate_run(alloc, cont),
        Stage::WriteRun => write_run(alloc, cont),
        Stage::ProtectRun => protect_run(alloc, cont),
        Stage::AllocateStack => Ok(allocate_stack(cont)),
        Stage::WriteBlock => write_block(alloc, cont),
        Stage::CreateThread => create_thread(alloc, cont),
        Stage::CreateEvent => Ok(Call::EventCreate),
        Stage::StartThread => Ok(start_thread(cont)),
    }
}

/// The call of a service's stage.
fn asked(os: &LibOs, alloc: Global, cont: &Cont) -> Result<Call, Memory>
    requires { KeptAt cont.now cont.now.stage }
    ensures { IfOk result (λ call. call ≡ spec.asked os.now cont.now cont.now.stage) }
{
    match cont.stage {
        Stage::SetContext => Ok(set_context(cont)),
        Stage::Resume => Ok(resume(cont)),
        _ => asked_before(os, alloc, cont),
    }
}

impl LibOs {
    /// The call that the service in progress makes next; `None` exactly where none is in progress.
    ///
    /// # Errors
    /// There was no memory.
    pub fn pending(&self, alloc: Global) -> Result<Option<Call>, Memory>
        requires { IsKept self.now }
        ensures { IfOk result (λ call. call ≡ spec.pending self.now) }
    {
        match &self.cont {
            None => Ok(None),
            Some(cont) => {
                let call = asked(self, alloc, cont)?;
                Ok(Some(call))
            }
        }
    }
}
