ghost use Rattle.std.specs.Prelude.{◌≡◌, ◌^◌, ◌≤◌, IfOk, length, true, nat_le, ◌∷◌, replicate};
ghost use Rattle.std.specs.List.{list_all};
ghost use Rattle.mono_model.specs.Starting.{stack_pointer};
ghost use Rattle.libos_state.specs.declared.state.LibOs.{LibOs};
ghost use Rattle.libos_state.specs.Pending as spec;
ghost use Rattle.guest_space.specs.Regions.{extent_end};
ghost use Rattle.elf_loader.specs.Image.{extent_of};
ghost use Rattle.libos_state.specs.Fits.{KeepsRun, KeepsPlace};
ghost use Rattle.libos_state.specs.Kept.{KeptAt};
ghost use Rattle.libos_state.specs.declared.cont.Cont.{Cont};

use crate::cont::{Cont, Stage};
use crate::file_calls::PIECE;
use crate::kept::number_at;
use crate::page_calls::READ_WRITE;
use crate::state::LibOs;
use abi_calls::{Call, Positions, StreamName};
use bas_edge::Memory;
use bas_items::Items;
use guest_space::Extent;
use libos_program::{PAGE, block, block_address, bytes_from, entry_of, run_at};
use rv_core::Context;
use std::alloc::Global;

/// The stack's first page, and how many it has.
pub const STACK_PAGE: u64 = (1 << 26) - 16;

const STACK_PAGES: u64 = 16;

const NO_POSITIONS: Positions = Positions {
    turns: 0,
    pick: 0,
    random: 0,
};

/// The end of the console that is opened next.
fn console_name(opened: usize) -> StreamName
    ensures { result ≡ spec.console_name opened }
{
    match opened {
        0 => StreamName::ConIn,
        1 => StreamName::ConOut,
        _ => StreamName::ConErr,
    }
}

/// The name of the program.
fn program_name(cont: &Cont) -> &[u8]
    ensures { result.now ≡ spec.program_name cont.now }
{
    match cont.names.as_slice().first() {
        Some(name) => name.as_slice(),
        None => &[],
    }
}

/// The program's arguments.
fn arguments(cont: &Cont) -> &[Items<u8>]
    ensures { result.now ≡ spec.arguments cont.now }
{
    match cont.names.as_slice().split_first() {
        Some((_, args)) => args,
        None => &[],
    }
}

/// The run that is loaded.
pub fn run_in(alloc: Global, cont: &Cont) -> Result<Extent, Memory>
    requires { KeepsRun cont.now }
    ensures run { IfOk result (λ run. run ≡ extent_of (spec.run_in cont.now)) }
    ensures small { IfOk result (λ run. extent_end run ≤ 2 ^ 26) }
{
    let number = number_at(cont.numbers.as_slice(), 0);
    run_at(alloc, cont.bytes.as_slice(), number)
}

/// The next bytes of the run that is loaded, of which so many are written.
fn run_piece(alloc: Global, cont: &Cont, run: &Extent) -> Result<Items<u8>, Memory>
    requires kept { KeepsPlace cont.now }
    requires run { run.now ≡ extent_of (spec.run_in cont.now) }
    requires small { extent_end run.now ≤ 2 ^ 26 }
    ensures { IfOk result (λ piece. piece ≡ spec.run_piece cont.now) }
{
    let written = number_at(cont.numbers.as_slice(), 1);
    let rest = (run.count * PAGE).saturating_sub(written);
    bytes_from(
        alloc,
        cont.bytes.as_slice(),
        run.page * PAGE + written,
        rest.min(PIECE),
    )
}

/// The registers that the program begins with.
fn first_context(entry: u64, args: &[Items<u8>]) -> Context
    requires few { length args.now ≤ 16 }
    requires short { list_all (λ arg. nat_le (length arg) 80) args.now ≡ true }
    ensures { result ≡ record { pc = entry; x = 0 ∷ stack_pointer args.now ∷ replicate 29 0 } }
{
    let mut x = [0; 31];
    x[1] = block_address(args);
    Context { pc: entry, x }
}

/// The file of the program, or the process that is made.
fn file_or_child(cont: &Cont) -> u64
    ensures { result ≡ spec.file_or_child cont.now }
{
    number_at(cont.handles.as_slice(), 3)
}

pub fn configure(os: &LibOs) -> Result<Call, Memory>
    ensures { IfOk result (λ call. (c : Cont) → c.stage ≡ Stage.Configure
        → call ≡ spec.asked os.now c c.stage) }
{
    let settings = os.settings.clone()?;
    Ok(Call::Configure {
        settings,
        positions: NO_POSITIONS,
    })
}

pub fn open_console(cont: &Cont) -> Call
    requires { cont.now.stage ≡ Stage.OpenConsole }
    ensures { (os : LibOs) → result ≡ spec.asked os cont.now cont.now.stage }
{
    Call::StreamOpen {
        name: console_name(cont.handles.len()),
        create: false,
        exclusive: false,
    }
}

pub fn open_program(alloc: Global, cont: &Cont) -> Result<Call, Memory>
    requires { cont.now.stage ≡ Stage.OpenProgram }
    ensures { IfOk result (λ call. (os : LibOs) → call ≡ spec.asked os cont.now cont.now.stage) }
{
    let name = Items::from_slice(alloc, program_name(cont))?;
    Ok(Call::StreamOpen {
        name: StreamName::File(name),
        create: false,
        exclusive: false,
    })
}

pub fn program_length(cont: &Cont) -> Call
    requires { cont.now.stage ≡ Stage.ProgramLength }
    ensures { (os : LibOs) → result ≡ spec.asked os cont.now cont.now.stage }
{
    Call::StreamLength {
        stream: file_or_child(cont),
    }
}

pub fn read_program(cont: &Cont) -> Call
    requires { cont.now.stage ≡ Stage.ReadProgram }
    ensures { (os : LibOs) → result ≡ spec.asked os cont.now cont.now.stage }
{
    let read = cont.bytes.len() as u64;
    let length = number_at(cont.numbers.as_slice(), 0);
    Call::StreamRead {
        stream: file_or_child(cont),
        offset: read,
        count: PIECE.min(length.saturating_sub(read)),
    }
}

pub fn close_program(cont: &Cont) -> Call
    requires { cont.now.stage ≡ Stage.CloseProgram }
    ensures { (os : LibOs) → result ≡ spec.asked os cont.now cont.now.stage }
{
    Call::Close {
        handle: file_or_child(cont),
    }
}

pub fn allocate_run(alloc: Global, cont: &Cont) -> Result<Call, Memory>
    requires kept { KeptAt cont.now cont.now.stage }
    requires stage { cont.now.stage ≡ Stage.AllocateRun }
    ensures { IfOk result (λ call. (os : LibOs) → call ≡ spec.asked os cont.now cont.now.stage) }
{
    let run = run_in(alloc, cont)?;
    Ok(Call::MemoryAllocate {
        process: file_or_child(cont),
        page: run.page,
        count: run.count,
        rights: READ_WRITE,
    })
}

pub fn write_run(alloc: Global, cont: &Cont) -> Result<Call, Memory>
    requires kept { KeptAt cont.now cont.now.stage }
    requires stage { cont.now.stage ≡ Stage.WriteRun }
    ensures { IfOk result (λ call. (os : LibOs) → call ≡ spec.asked os cont.now cont.now.stage) }
{
    let run = run_in(alloc, cont)?;
    let bytes = run_piece(alloc, cont, &run)?;
    Ok(Call::MemoryWrite {
        process: file_or_child(cont),
        address: run.page * PAGE + number_at(cont.numbers.as_slice(), 1),
        bytes,
    })
}

pub fn protect_run(alloc: Global, cont: &Cont) -> Result<Call, Memory>
    requires kept { KeptAt cont.now cont.now.stage }
    requires stage { cont.now.stage ≡ Stage.ProtectRun }
    ensures { IfOk result (λ call. (os : LibOs) → call ≡ spec.asked os cont.now cont.now.stage) }
{
    let run = run_in(alloc, cont)?;
    Ok(Call::MemoryProtect {
        process: file_or_child(cont),
        page: run.page,
        count: run.count,
        rights: run.rights,
    })
}

pub fn allocate_stack(cont: &Cont) -> Call
    requires { cont.now.stage ≡ Stage.AllocateStack }
    ensures { (os : LibOs) → result ≡ spec.asked os cont.now cont.now.stage }
{
    Call::MemoryAllocate {
        process: file_or_child(cont),
        page: STACK_PAGE,
        count: STACK_PAGES,
        rights: READ_WRITE,
    }
}

pub fn write_block(alloc: Global, cont: &Cont) -> Result<Call, Memory>
    requires kept { KeptAt cont.now cont.now.stage }
    requires stage { cont.now.stage ≡ Stage.WriteBlock }
    ensures { IfOk result (λ call. (os : LibOs) → call ≡ spec.asked os cont.now cont.now.stage) }
{
    let args = arguments(cont);
    let bytes = block(alloc, args)?;
    Ok(Call::MemoryWrite {
        process: file_or_child(cont),
        address: block_address(args),
        bytes,
    })
}

pub fn create_thread(alloc: Global, cont: &Cont) -> Result<Call, Memory>
    requires kept { KeptAt cont.now cont.now.stage }
    requires stage { cont.now.stage ≡ Stage.CreateThread }
    ensures { IfOk result (λ call. (os : LibOs) → call ≡ spec.asked os cont.now cont.now.stage) }
{
    let entry = entry_of(alloc, cont.bytes.as_slice())?;
    Ok(Call::ThreadCreate {
        process: file_or_child(cont),
        context: first_context(entry, arguments(cont)),
    })
}

pub fn start_thread(cont: &Cont) -> Call
    requires { cont.now.stage ≡ Stage.StartThread }
    ensures { (os : LibOs) → result ≡ spec.asked os cont.now cont.now.stage }
{
    Call::ThreadResume {
        thread: number_at(cont.handles.as_slice(), 4),
    }
}
