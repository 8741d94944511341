ghost use Rattle.std.specs.Prelude.{◌≡◌, ◌+◌, ◌*◌, ◌<◌, ◌==◌, false, [], ◌∷◌, IfOk};
ghost use Rattle.mono_model.specs.Calls as calls;
ghost use Rattle.mono_model.specs.Machine.{register};
ghost use Rattle.mono_model.specs.Mapping as pages;
ghost use Rattle.libos_state.specs.Answered as answered;
ghost use Rattle.libos_state.specs.Entered as entered;
ghost use Rattle.libos_state.specs.Fits.{KeepsPages};
ghost use Rattle.libos_state.specs.Kept.{KeptAt};
ghost use Rattle.libos_state.specs.Pending.{upcall_in, number};
ghost use Rattle.libos_state.specs.declared.state.LibOs.{LibOs};

use abi_calls::{Reply, Upcall};
use bas_items::Items;
use libos_files::{EINVAL, bare, error, finishing};
use libos_program::PAGE;
use libos_state::Step::{Asks, Ends};
use libos_state::{A0, Cont, Event, STACK_PAGE, Stage, Step, is_brk, number_at};
use rv_core::Context;
use std::alloc::{AllocError, Global};

/// The numbers of the system calls.
pub const MUNMAP: u64 = 215;

pub const MMAP: u64 = 222;

pub const MPROTECT: u64 = 226;

/// There is no room for so many pages.
pub const ENOMEM: u64 = 12;

/// The rights to read, to write and to run.
const ALL_RIGHTS: u64 = 7;

/// The flags of a mapping that is private and of no file.
const PRIVATE_ANONYMOUS: u64 = 0x22;

/// The first page that mmap gives.
const FIRST_MAPPED: u64 = 65_536;

/// The most pages of a process.
const MOST_PAGES: u64 = 1024;

/// How many pages so many bytes take.
pub fn pages_for(bytes: u64) -> u64
    ensures { result ≡ pages.pages_for bytes }
{
    bytes.div_ceil(PAGE)
}

/// The result of munmap, where its arguments alone decide it.
fn munmap_known(context: &Context) -> Option<u64>
    ensures { result ≡ calls.munmap_known context.now }
{
    let registers = context.x;
    if registers[A0] % PAGE != 0 || registers[A0 + 1] == 0 {
        return Some(error(EINVAL));
    }
    None
}

/// The result of mprotect, where its arguments alone decide it.
fn mprotect_known(context: &Context) -> Option<u64>
    ensures { result ≡ calls.mprotect_known context.now }
{
    let registers = context.x;
    if registers[A0] % PAGE != 0 || registers[A0 + 2] > ALL_RIGHTS {
        return Some(error(EINVAL));
    }
    if registers[A0 + 1] == 0 {
        return Some(0);
    }
    None
}

/// The result of mmap, where its arguments alone decide it.
fn mmap_known(context: &Context) -> Option<u64>
    ensures { result ≡ calls.mmap_known context.now }
{
    let registers = context.x;
    if registers[A0 + 1] == 0
        || registers[A0 + 2] > ALL_RIGHTS
        || registers[A0 + 3] != PRIVATE_ANONYMOUS
    {
        return Some(error(EINVAL));
    }
    if pages_for(registers[A0 + 1]) > MOST_PAGES {
        return Some(error(ENOMEM));
    }
    None
}

/// A stage that keeps a page and a count of pages.
pub fn at_pages(
    alloc: Global,
    event: Event,
    stage: Stage,
    page: u64,
    count: u64,
) -> Result<Cont, AllocError>
    ensures { IfOk result (λ cont. cont ≡ record {
      event = event;
      stage = stage;
      next = (upcall_in event).context;
      names = [];
      bytes = [];
      handles = [];
      later = [];
      numbers = page ∷ count ∷ [];
    }) }
{
    let numbers = Items::from_slice(alloc, &[page, count])?;
    let mut cont = bare(alloc, event, stage);
    cont.numbers = numbers;
    Ok(cont)
}

/// The service of a call on pages: the result that its arguments alone decide, or a stage with these pages.
fn on_pages(
    alloc: Global,
    upcall: &Upcall,
    known: Option<u64>,
    stage: Stage,
    page: u64,
    count: u64,
) -> Result<Cont, AllocError>
    ensures { IfOk result (λ cont. (os : LibOs)
        → entered.on_pages os upcall.now known stage page count ≡ record os { cont = Some cont }) }
{
    match known {
        Some(result_in_a0) => Ok(finishing(alloc, Event::Up(*upcall), result_in_a0)),
        None => at_pages(alloc, Event::Up(*upcall), stage, page, count),
    }
}

/// The service of munmap.
pub fn munmap_service(alloc: Global, upcall: &Upcall) -> Result<Cont, AllocError>
    ensures { IfOk result (λ cont. (os : LibOs) → entered.munmap_entered os upcall.now ≡ record os { cont = Some cont }) }
{
    let context = &upcall.context;
    let page = context.x[A0] / PAGE;
    let count = pages_for(context.x[A0 + 1]);
    let known = munmap_known(context);
    on_pages(alloc, upcall, known, Stage::FreePages, page, count)
}

/// The service of mmap.
pub fn mmap_service(alloc: Global, upcall: &Upcall) -> Result<Cont, AllocError>
    ensures { IfOk result (λ cont. (os : LibOs) → entered.mmap_entered os upcall.now ≡ record os { cont = Some cont }) }
{
    let context = &upcall.context;
    let page = FIRST_MAPPED;
    let count = pages_for(context.x[A0 + 1]);
    let known = mmap_known(context);
    on_pages(alloc, upcall, known, Stage::AllocatePages, page, count)
}

/// The service of mprotect.
pub fn mprotect_service(alloc: Global, upcall: &Upcall) -> Result<Cont, AllocError>
    ensures { IfOk result (λ cont. (os : LibOs) → entered.mprotect_entered os upcall.now ≡ record os { cont = Some cont }) }
{
    let context = &upcall.context;
    let page = context.x[A0] / PAGE;
    let count = pages_for(context.x[A0 + 1]);
    let known = mprotect_known(context);
    on_pages(alloc, upcall, known, Stage::ProtectPages, page, count)
}

/// A page of the run is there: the run from the next page on is tried, if it ends below the stack.
fn next_run(alloc: Global, cont: Cont) -> Result<Cont, AllocError>
    requires { KeepsPages cont }
    ensures { IfOk result (λ next. next ≡ answered.service_mapping cont (number cont 0 + 1) (number cont 1)) }
{
    let page = number_at(cont.numbers.as_slice(), 0) + 1;
    let count = number_at(cont.numbers.as_slice(), 1);
    if page + count > STACK_PAGE {
        return Ok(finishing(alloc, cont.event, error(ENOMEM)));
    }
    at_pages(alloc, cont.event, Stage::AllocatePages, page, count)
}

/// The pages of mmap are made, or their run has a page that is there, or they are too many.
fn run_mapped(alloc: Global, cont: Cont, reply: &Reply) -> Result<Step, AllocError>
    requires { KeepsPages cont }
    ensures { IfOk result (λ step. step ≡ answered.mapping_step cont reply.now) }
{
    match reply {
        Reply::Done => {
            let address = number_at(cont.numbers.as_slice(), 0) * PAGE;
            Ok(Asks(finishing(alloc, cont.event, address)))
        }
        Reply::Exists => Ok(Asks(next_run(alloc, cont)?)),
        Reply::NoRoom => Ok(Asks(finishing(alloc, cont.event, error(ENOMEM)))),
        _ => Ok(Ends),
    }
}

/// Pages are made, or can't be had.
pub fn pages_made(alloc: Global, cont: Cont, reply: &Reply) -> Result<Step, AllocError>
    requires { KeptAt cont Stage.AllocatePages }
    ensures { IfOk result (λ step. step ≡ answered.next cont Stage.AllocatePages reply.now) }
{
    if is_brk(&cont) {
        return Ok(Step::GivesBreak(cont));
    }
    run_mapped(alloc, cont, reply)
}

/// Pages that are there have changed, or one isn't there, which is this error.
pub fn pages_changed(alloc: Global, cont: Cont, reply: &Reply, refused: u64) -> Step
    requires { 0 < refused }
    ensures { result ≡ answered.changed_step cont refused reply.now }
{
    match reply {
        Reply::Done => Asks(finishing(alloc, cont.event, 0)),
        Reply::BadAddress => Asks(finishing(alloc, cont.event, error(refused))),
        _ => Ends,
    }
}
