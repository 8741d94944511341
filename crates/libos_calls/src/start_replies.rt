ghost use Rattle.std.specs.Prelude.{◌≡◌, ◌≢◌, ◌+◌, true, IfOk, OnOk, [], ◌∷◌, ◌++◌, length};
ghost use Rattle.elf_loader.specs.Image.{loaded};
ghost use Rattle.libos_state.specs.Pending as pending;
ghost use Rattle.libos_state.specs.Pending.{number, run_piece};
ghost use Rattle.libos_state.specs.declared.cont.Cont.{Cont};
ghost use Rattle.libos_state.specs.Answered as spec;
ghost use Rattle.libos_state.specs.Fits as fits;
ghost use Rattle.libos_state.specs.Fits.{KeepsProgram, KeepsRun, KeepsPlace};
ghost use Rattle.libos_state.specs.Kept.{KeptAt};
ghost use Rattle.libos_calls.specs.Left.{IsLengthSmall};

use crate::breaking::break_change;
use abi_calls::Reply;
use bas_edge::Memory;
use bas_items::Items;
use libos_files::is_stream_stage;
use libos_program::{PAGE, count_of_runs, end_of, refusal_of};
use libos_state::Step::{Asks, Ends, Stops};
use libos_state::{
    Boot, Change, Cont, Description, DescriptorNote, Kind, PIECE, ProcessNote, Stage, Step,
    ThreadNote, first_items, number_at, run_in,
};
use std::alloc::{AllocError, Global};

/// How many ends the console has.
const CONSOLES: usize = 3;

/// The access of a description that is read, and of one that is written.
const READ: u8 = 1;

const WRITE: u8 = 2;

/// The handles with one more.
fn with_handle(alloc: Global, handles: &[u64], handle: u64) -> Result<Items<u64>, AllocError>
    ensures { IfOk result (λ longer. longer ≡ handles.now ++ handle ∷ []) }
{
    let mut longer = Items::from_slice(alloc, handles)?;
    longer.push(handle)?;
    Ok(longer)
}

/// A start that keeps these handles and nothing else.
fn with_handles(alloc: Global, mut cont: Cont, stage: Stage, handles: Items<u64>) -> Cont
    ensures { result ≡ spec.starting cont stage [] handles [] }
{
    cont.stage = stage;
    cont.bytes = Items::new(alloc);
    cont.handles = handles;
    cont.numbers = Items::new(alloc);
    cont
}

/// A start that keeps its bytes and handles.
fn at_stage(alloc: Global, mut cont: Cont, stage: Stage) -> Cont
    ensures { result ≡ spec.starting cont stage cont.bytes cont.handles [] }
{
    cont.stage = stage;
    cont.numbers = Items::new(alloc);
    cont
}

/// The next end of the console is open.
fn end_opened(alloc: Global, cont: Cont, handle: u64) -> Result<Cont, AllocError>
    ensures { IfOk result (λ next. next ≡ spec.start_opening cont (cont.handles ++ handle ∷ [])) }
{
    let handles = with_handle(alloc, cont.handles.as_slice(), handle)?;
    if handles.len() == CONSOLES {
        return Ok(with_handles(alloc, cont, Stage::OpenProgram, handles));
    }
    Ok(with_handles(alloc, cont, Stage::OpenConsole, handles))
}

/// The program's length is known.
fn length_known(alloc: Global, mut cont: Cont, length: u64) -> Result<Cont, AllocError>
    ensures { IfOk result (λ next. next ≡ spec.start_reading cont length) }
{
    cont.bytes = Items::new(alloc);
    if length == 0 {
        return Ok(at_stage(alloc, cont, Stage::CloseProgram));
    }
    cont.numbers = Items::from_slice(alloc, &[length])?;
    cont.stage = Stage::ReadProgram;
    Ok(cont)
}

/// More of the program was read.
fn piece_read(alloc: Global, mut cont: Cont, piece: &Items<u8>) -> Result<Cont, AllocError>
    requires { cont.stage ≡ Stage.ReadProgram }
    ensures { IfOk result (λ next. next ≡ spec.start_with_piece cont piece.now) }
{
    if piece.is_empty() {
        return Ok(at_stage(alloc, cont, Stage::CloseProgram));
    }
    cont.bytes.extend_from_slice(piece.as_slice())?;
    if number_at(cont.numbers.as_slice(), 0) <= cont.bytes.len() as u64 {
        return Ok(at_stage(alloc, cont, Stage::CloseProgram));
    }
    Ok(cont)
}

/// So many bytes of the run are written, of all that it has.
fn written_to(alloc: Global, mut cont: Cont, written: u64, size: u64) -> Result<Cont, AllocError>
    requires stage { cont.stage ≡ Stage.WriteRun }
    requires size { size ≡ length (pending.run_in cont).bytes }
    ensures { IfOk result (λ next. next ≡ spec.start_writing cont written) }
{
    let run = number_at(cont.numbers.as_slice(), 0);
    if written < size {
        cont.numbers = Items::from_slice(alloc, &[run, written])?;
        return Ok(cont);
    }
    cont.numbers = Items::from_slice(alloc, &[run])?;
    cont.stage = Stage::ProtectRun;
    Ok(cont)
}

/// The process is made, whose memory gets the program's runs.
fn child_made(alloc: Global, mut cont: Cont, handle: u64) -> Result<Cont, AllocError>
    ensures { IfOk result (λ next. next
        ≡ spec.starting cont Stage.AllocateRun cont.bytes (cont.handles ++ handle ∷ []) (0 ∷ [])) }
{
    cont.handles = with_handle(alloc, cont.handles.as_slice(), handle)?;
    cont.numbers = Items::from_slice(alloc, &[0])?;
    cont.stage = Stage::AllocateRun;
    Ok(cont)
}

/// The run has its pages, of which none is written.
fn run_allocated(alloc: Global, mut cont: Cont) -> Result<Cont, AllocError>
    ensures { IfOk result (λ next.
        next ≡ spec.starting cont Stage.WriteRun cont.bytes cont.handles (number cont 0 ∷ 0 ∷ [])) }
{
    let run = number_at(cont.numbers.as_slice(), 0);
    cont.numbers = Items::from_slice(alloc, &[run, 0])?;
    cont.stage = Stage::WriteRun;
    Ok(cont)
}

/// The thread is made.
fn thread_made(alloc: Global, mut cont: Cont, handle: u64) -> Result<Cont, AllocError>
    ensures { IfOk result (λ next. next
        ≡ spec.starting cont Stage.CreateEvent cont.bytes (cont.handles ++ handle ∷ []) []) }
{
    cont.handles = with_handle(alloc, cont.handles.as_slice(), handle)?;
    Ok(at_stage(alloc, cont, Stage::CreateEvent))
}

/// The thread's event is made.
fn event_made(alloc: Global, mut cont: Cont, handle: u64) -> Result<Cont, AllocError>
    ensures { IfOk result (λ next. next
        ≡ spec.starting cont Stage.StartThread cont.bytes (cont.handles ++ handle ∷ []) []) }
{
    cont.handles = with_handle(alloc, cont.handles.as_slice(), handle)?;
    Ok(at_stage(alloc, cont, Stage::StartThread))
}

/// A piece of the run is written.
fn piece_written(alloc: Global, cont: Cont) -> Result<Cont, Memory>
    requires stage { cont.stage ≡ Stage.WriteRun }
    requires kept { KeepsPlace cont }
    ensures { IfOk result (λ next.
        next ≡ spec.start_writing cont (number cont 1 + length (run_piece cont))) }
{
    let run = run_in(alloc, &cont)?;
    let written = number_at(cont.numbers.as_slice(), 1);
    let size = run.count * PAGE;
    let piece = PIECE.min(size.saturating_sub(written));
    Ok(written_to(alloc, cont, written + piece, size)?)
}

/// The run has its rights: the next one follows, or the stack.
fn run_loaded(alloc: Global, mut cont: Cont) -> Result<Cont, Memory>
    requires stage { cont.stage ≡ Stage.ProtectRun }
    requires kept { KeepsRun cont }
    ensures { IfOk result (λ next. next ≡ spec.start_loading cont (number cont 0 + 1)) }
{
    let count = count_of_runs(alloc, cont.bytes.as_slice())?;
    let run = number_at(cont.numbers.as_slice(), 0);
    if run + 1 < count {
        cont.numbers = Items::from_slice(alloc, &[run + 1])?;
        cont.stage = Stage::AllocateRun;
        return Ok(cont);
    }
    Ok(at_stage(alloc, cont, Stage::AllocateStack))
}

/// The description of an end of the console.
fn console_description(id: u64, handle: u64, kind: Kind, access: u8) -> Description
    ensures { result ≡ spec.console_description id handle kind access }
{
    Description {
        id,
        handle,
        kind,
        access,
        append: false,
        position: 0,
    }
}

/// The open descriptions of the console.
fn console_descriptions(alloc: Global, handles: &[u64]) -> Result<Items<Description>, AllocError>
    ensures { IfOk result (λ notes. (c : Cont) → c.handles ≡ handles.now
        → notes ≡ spec.console_descriptions c) }
{
    let input = console_description(1, number_at(handles, 0), Kind::ConIn, READ);
    let output = console_description(2, number_at(handles, 1), Kind::ConOut, WRITE);
    let errors = console_description(3, number_at(handles, 2), Kind::ConErr, WRITE);
    Items::from_slice(alloc, &[input, output, errors])
}

/// The descriptors of the first process: 0, 1 and 2 are the console.
fn console_descriptors(alloc: Global) -> Result<Items<DescriptorNote>, AllocError>
    ensures { IfOk result (λ notes. notes ≡ spec.console_descriptors) }
{
    let input = DescriptorNote {
        number: 0,
        description: 1,
    };
    let output = DescriptorNote {
        number: 1,
        description: 2,
    };
    let errors = DescriptorNote {
        number: 2,
        description: 3,
    };
    Items::from_slice(alloc, &[input, output, errors])
}

/// The records of the run's first process, of its thread and of the console.
fn first_records(alloc: Global, cont: &Cont) -> Result<Change, Memory>
    requires { KeepsProgram cont.now }
    ensures { IfOk result (λ change. change ≡ spec.change cont.now Stage.StartThread Reply.Done) }
{
    let handles = cont.handles.as_slice();
    let end = end_of(alloc, cont.bytes.as_slice())?;
    let descriptions = console_descriptions(alloc, handles)?;
    let descriptors = console_descriptors(alloc)?;
    Ok(Change::Begins {
        process: ProcessNote {
            pid: 1,
            parent: 0,
            handle: number_at(handles, 3),
            break_start: end,
            break_now: end,
            handler: 0,
            code: None,
            descriptors,
        },
        thread: ThreadNote {
            tid: 1,
            pid: 1,
            handle: number_at(handles, 4),
            event: number_at(handles, 5),
            saved: None,
        },
        descriptions,
    })
}

/// What a reply changes of the records.
pub fn change_of(alloc: Global, cont: &Cont, reply: &Reply) -> Result<Change, Memory>
    requires { KeptAt cont.now cont.now.stage }
    ensures { IfOk result (λ change. change ≡ spec.change cont.now cont.now.stage reply.now) }
{
    if is_stream_stage(cont.stage) {
        return Ok(libos_files::change_of(cont, reply));
    }
    match (cont.stage, reply) {
        (Stage::AllocatePages | Stage::FreePages, Reply::Done) => Ok(break_change(cont)),
        (Stage::StartThread, Reply::Done) => first_records(alloc, cont),
        _ => Ok(Change::Same),
    }
}

/// What the start does with the bytes of the closed file: they are a program, or it stops with the loader's refusal.
fn program_read(alloc: Global, mut cont: Cont) -> Result<Step, Memory>
    ensures { IfOk result (λ step. step ≡ spec.load_step cont (loaded cont.bytes)) }
{
    if let Some(cause) = refusal_of(alloc, cont.bytes.as_slice())? {
        return Ok(Step::Stops(Boot::BadProgram(cause)));
    }
    cont.handles = Items::from_slice(alloc, first_items(cont.handles.as_slice(), CONSOLES))?;
    Ok(Step::Asks(at_stage(alloc, cont, Stage::CreateProcess)))
}

/// What the start does where the program's file is open, or can't be opened.
fn program_opened(alloc: Global, cont: Cont, reply: &Reply) -> Result<Step, AllocError>
    ensures { IfOk result (λ step. step ≡ spec.next cont Stage.OpenProgram reply.now) }
{
    let Reply::Handle(handle) = reply else {
        return Ok(Step::Stops(Boot::NoProgram));
    };
    let handles = with_handle(alloc, cont.handles.as_slice(), *handle)?;
    Ok(Step::Asks(with_handles(alloc, cont, Stage::ProgramLength, handles)))
}

/// What the start does where the program's length is known.
fn length_told(alloc: Global, cont: Cont, reply: &Reply) -> Result<Step, AllocError>
    ensures value { IfOk result (λ step. step ≡ spec.next cont Stage.ProgramLength reply.now) }
    ensures small { OnOk result (IsLengthSmall reply.now) }
{
    let Reply::Length(length) = reply else {
        return Ok(Step::Ends);
    };
    let next = length_known(alloc, cont, *length)?;
    Ok(Step::Asks(next))
}

/// Whether the stage is of the start of a run.
pub fn is_of_start(stage: Stage) -> bool
    ensures { result ≡ fits.is_of_start stage }
{
    match stage {
        Stage::SetContext
        | Stage::Resume
        | Stage::CloseStream
        | Stage::CloseEvent
        | Stage::ExitThread
        | Stage::CloseHandles
        | Stage::ExitProcess
        | Stage::ReadStream
        | Stage::StoreBytes
        | Stage::ReadBuffer
        | Stage::AppendLength
        | Stage::WriteStream
        | Stage::FileLength
        | Stage::SetFileLength
        | Stage::AllocatePages
        | Stage::FreePages
        | Stage::ProtectPages => false,
        _ => true,
    }
}

/// What the start does where the host has the settings.
fn settings_taken(alloc: Global, cont: Cont, reply: &Reply) -> Step
    ensures { result ≡ spec.next cont Stage.Configure reply.now }
{
    match reply {
        Reply::Done => Asks(with_handles(alloc, cont, Stage::OpenConsole, Items::new(alloc))),
        _ => Ends,
    }
}

/// What the start does where the stack's pages are made.
fn stack_made(alloc: Global, cont: Cont, reply: &Reply) -> Step
    ensures { result ≡ spec.next cont Stage.AllocateStack reply.now }
{
    match reply {
        Reply::Done => Asks(at_stage(alloc, cont, Stage::WriteBlock)),
        _ => Ends,
    }
}

/// What the start does where the argument block is written.
fn block_written(alloc: Global, cont: Cont, reply: &Reply) -> Step
    ensures { result ≡ spec.next cont Stage.WriteBlock reply.now }
{
    match reply {
        Reply::Done => Asks(at_stage(alloc, cont, Stage::CreateThread)),
        _ => Ends,
    }
}

/// What the start does on a reply from the making of the process on: one row for each stage.
fn making_step(alloc: Global, cont: Cont, reply: Reply) -> Result<Step, Memory>
    requires start { fits.is_of_start cont.stage ≡ true }
    requires loaded { cont.stage ≢ Stage.Configure × cont.stage ≢ Stage.OpenConsole × cont.stage ≢ Stage.OpenProgram
        × cont.stage ≢ Stage.ProgramLength × cont.stage ≢ Stage.ReadProgram × cont.stage ≢ Stage.CloseProgram }
    requires kept { KeptAt cont cont.stage }
    ensures { IfOk result (λ step. step ≡ spec.next cont cont.stage reply) }
{
    match cont.stage {
        Stage::CreateProcess => match reply {
            Reply::Handle(handle) => Ok(Asks(child_made(alloc, cont, handle)?)),
            _ => Ok(Ends),
        },
        Stage::AllocateRun => match reply {
            Reply::Done => Ok(Asks(run_allocated(alloc, cont)?)),
            _ => Ok(Ends),
        },
        Stage::WriteRun => match reply {
            Reply::Done => Ok(Asks(piece_written(alloc, cont)?)),
            _ => Ok(Ends),
        },
        Stage::ProtectRun => match reply {
            Reply::Done => Ok(Asks(run_loaded(alloc, cont)?)),
            _ => Ok(Ends),
        },
        Stage::AllocateStack => Ok(stack_made(alloc, cont, &reply)),
        Stage::WriteBlock => Ok(block_written(alloc, cont, &reply)),
        Stage::CreateThread => match reply {
            Reply::Handle(handle) => Ok(Asks(thread_made(alloc, cont, handle)?)),
            _ => Ok(Ends),
        },
        Stage::CreateEvent => match reply {
            Reply::Handle(handle) => Ok(Asks(event_made(alloc, cont, handle)?)),
            _ => Ok(Ends),
        },
        Stage::StartThread => match reply {
            Reply::Done => Ok(Stops(Boot::Up)),
            _ => Ok(Ends),
        },
        _ => unreachable!(),
    }
}

/// What the start of a run does on a reply: one row for each stage. It keeps the reply's bytes where it needs them.
pub fn start_step(alloc: Global, cont: Cont, reply: Reply) -> Result<Step, Memory>
    requires start { fits.is_of_start cont.stage ≡ true }
    requires kept { KeptAt cont cont.stage }
    ensures value { IfOk result (λ step. step ≡ spec.next cont cont.stage reply) }
    ensures small { OnOk result (cont.stage ≡ Stage.ProgramLength → IsLengthSmall reply) }
{
    match cont.stage {
        Stage::Configure => Ok(settings_taken(alloc, cont, &reply)),
        Stage::OpenConsole => match reply {
            Reply::Handle(handle) => Ok(Asks(end_opened(alloc, cont, handle)?)),
            _ => Ok(Ends),
        },
        Stage::OpenProgram => Ok(program_opened(alloc, cont, &reply)?),
        Stage::ProgramLength => Ok(length_told(alloc, cont, &reply)?),
        Stage::ReadProgram => match reply {
            Reply::Bytes(bytes) => Ok(Asks(piece_read(alloc, cont, &bytes)?)),
            _ => Ok(Ends),
        },
        Stage::CloseProgram => match reply {
            Reply::Done => program_read(alloc, cont),
            _ => Ok(Ends),
        },
        _ => making_step(alloc, cont, reply),
    }
}
