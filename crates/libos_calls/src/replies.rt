ghost use Rattle.std.specs.Prelude.{◌≡◌, ◌<◌, true, false, IfOk, OnOk, IfSome, drop};
ghost use Rattle.libos_state.specs.declared.state.LibOs.{LibOs};
ghost use Rattle.libos_state.specs.declared.cont.Cont.{Cont};
ghost use Rattle.libos_state.specs.Answered as spec;
ghost use Rattle.libos_state.specs.Fits as fits;
ghost use Rattle.libos_state.specs.Kept.{IsKept, KeptAt};
ghost use Rattle.libos_state.specs.Laws.{KeepsMeaning};
ghost use Rattle.libos_state.specs.Stages.{is_at_end};
ghost use Rattle.libos_state.specs.declared.step.Change.TheVariants.{Begins};
ghost use Rattle.libos_files.specs.Served.{is_stream_stage};
ghost use Rattle.libos_calls.specs.Left.{calls_left, IsLengthSmall, is_ending};

use crate::breaking::{give_break, move_break, pages_freed};
use crate::mapping::{ENOMEM, pages_changed, pages_made};
use crate::start_replies::{change_of, is_of_start, start_step};
use abi_calls::Reply;
use bas_edge::Memory;
use bas_items::Items;
use libos_files::{
    bare, duplicate, forget_stream, is_stream_stage, move_position, put_position, send,
};
use libos_state::Step::{Asks, Ends};
use libos_state::{
    Change, Cont, Description, Event, LibOs, ProcessNote, Stage, Step, ThreadNote, items_from,
};
use std::alloc::{AllocError, Global};

/// The service of a process that ends, with the handles that are still to be closed.
pub fn closing(alloc: Global, event: Event, handles: Items<u64>, numbers: Items<u64>) -> Cont
    ensures { (c : Cont) → c.event ≡ event → c.numbers ≡ numbers
        → result ≡ spec.service_closing c handles }
{
    if handles.is_empty() {
        let mut cont = bare(alloc, event, Stage::ExitProcess);
        cont.numbers = numbers;
        return cont;
    }
    let mut cont = bare(alloc, event, Stage::CloseHandles);
    cont.handles = handles;
    cont.numbers = numbers;
    cont
}

/// The event of the thread that ends is closed, and then the thread exits.
fn event_closed(alloc: Global, cont: Cont, reply: &Reply) -> Step
    ensures { result ≡ spec.next cont Stage.CloseEvent reply.now }
{
    match reply {
        Reply::Done => Asks(bare(alloc, cont.event, Stage::ExitThread)),
        _ => Ends,
    }
}

/// A handle of the process that ends is closed.
fn handle_closed(alloc: Global, cont: Cont) -> Result<Cont, AllocError>
    ensures { IfOk result (λ next. next ≡ spec.service_closing cont (drop 1 cont.handles)) }
{
    let rest = Items::from_slice(alloc, items_from(cont.handles.as_slice(), 1))?;
    Ok(closing(alloc, cont.event, rest, cont.numbers))
}

/// What the service of a trap that is no call on a descriptor does on a reply before its thread gets registers: one row
/// for each stage.
fn trap_step(alloc: Global, cont: Cont, reply: Reply) -> Result<Step, Memory>
    requires trap { fits.is_of_start cont.stage ≡ false }
    requires streamless { is_stream_stage cont.stage ≡ false }
    requires before { is_at_end cont.stage ≡ false }
    requires kept { KeptAt cont cont.stage }
    ensures { IfOk result (λ step. step ≡ spec.next cont cont.stage reply) }
{
    match (cont.stage, reply) {
        (Stage::CloseEvent, reply) => Ok(event_closed(alloc, cont, &reply)),
        (Stage::CloseHandles, Reply::Done) => Ok(Asks(handle_closed(alloc, cont)?)),
        (Stage::AllocatePages, reply) => Ok(pages_made(alloc, cont, &reply)?),
        (Stage::FreePages, reply) => Ok(pages_freed(alloc, cont, &reply)),
        (Stage::ProtectPages, reply) => Ok(pages_changed(alloc, cont, &reply, ENOMEM)),
        _ => Ok(Ends),
    }
}

/// What a service does on a reply before its thread gets registers.
fn step_of(alloc: Global, cont: Cont, reply: Reply) -> Result<Step, Memory>
    requires before { is_at_end cont.stage ≡ false }
    requires kept { KeptAt cont cont.stage }
    ensures value { IfOk result (λ step. step ≡ spec.next cont cont.stage reply) }
    ensures small { OnOk result (cont.stage ≡ Stage.ProgramLength → IsLengthSmall reply) }
{
    if is_of_start(cont.stage) {
        start_step(alloc, cont, reply)
    } else if is_stream_stage(cont.stage) {
        Ok(libos_files::step_of(alloc, cont, reply)?)
    } else {
        trap_step(alloc, cont, reply)
    }
}

/// The records begin: the run's first process and its thread, and what is open.
fn begin_records(
    os: &mut LibOs,
    alloc: Global,
    process: ProcessNote,
    thread: ThreadNote,
    descriptions: Items<Description>,
) -> Result<(), AllocError>
    ensures { OnOk result (os.new ≡ spec.with_change os.old (Begins process thread descriptions)) }
{
    let mut processes = Items::new(alloc);
    processes.push(process)?;
    os.threads = Items::from_slice(alloc, &[thread])?;
    os.processes = processes;
    os.descriptions = descriptions;
    os.next_id = 2;
    Ok(())
}

/// Changes the records.
fn change_records(os: &mut LibOs, alloc: Global, change: Change) -> Result<(), AllocError>
    ensures { OnOk result (os.new ≡ spec.with_change os.old change) }
{
    match change {
        Change::Same => Ok(()),
        Change::Closes { handle } => forget_stream(os, alloc, handle),
        Change::Replaces {
            handle,
            process,
            old,
            new,
        } => {
            forget_stream(os, alloc, handle)?;
            duplicate(os, alloc, process, old, new)
        }
        Change::PutsPosition {
            process,
            fd,
            position,
        } => {
            put_position(os, alloc, process, fd, position);
            Ok(())
        }
        Change::MovesPosition { process, fd, count } => {
            move_position(os, alloc, process, fd, count);
            Ok(())
        }
        Change::MovesBreak { process, address } => move_break(os, alloc, process, address),
        Change::Begins {
            process,
            thread,
            descriptions,
        } => begin_records(os, alloc, process, thread, descriptions),
    }
}

/// The service goes on, or ends.
fn take_step(os: &mut LibOs, alloc: Global, step: Step) -> Result<(), AllocError>
    ensures { OnOk result (os.new ≡ spec.with_step os.old step) }
{
    match step {
        Step::Asks(cont) => os.cont = Some(cont),
        Step::GivesBreak(cont) => give_break(os, alloc, cont.event),
        Step::Sends(cont) => send(os, alloc, cont)?,
        Step::Ends => os.cont = None,
        Step::Stops(boot) => {
            os.boot = boot;
            os.cont = None;
        }
    }
    Ok(())
}

/// Takes the reply to a call before the thread gets registers, a stage at a time.
#[tactic(auto, using(crate::proofs::Steps::step_rules))]
fn take_before(os: &mut LibOs, alloc: Global, reply: Reply) -> Result<(), Memory>
    requires before { IfSome os.old.cont (λ c. is_at_end c.stage ≡ false) }
    requires kept { IsKept os.old }
    ensures value { OnOk result (os.new ≡ spec.answered os.old reply) }
    ensures small { OnOk result (IfSome os.old.cont
        (λ c. c.stage ≡ Stage.ProgramLength → IsLengthSmall reply)) }
{
    let Some(cont) = os.cont.take() else {
        return Ok(());
    };
    let change = change_of(alloc, &cont, &reply)?;
    let step = step_of(alloc, cont, reply)?;
    change_records(os, alloc, change)?;
    take_step(os, alloc, step)?;
    Ok(())
}

/// Whether the service in progress gives its thread registers, or makes it ready.
fn is_ending(os: &LibOs) -> bool
    ensures { result ≡ is_ending os.now.cont }
{
    match &os.cont {
        Some(cont) => matches!(cont.stage, Stage::SetContext | Stage::Resume),
        None => false,
    }
}

/// The thread has its registers, or is ready: the service goes on where it stands, or ends.
fn take_at_end(os: &mut LibOs, reply: &Reply)
    requires { is_ending os.old.cont ≡ true }
    ensures { os.new ≡ spec.answered os.old reply.now }
{
    match &mut os.cont {
        Some(cont) if cont.stage == Stage::SetContext && matches!(reply, Reply::Done) => {
            cont.stage = Stage::Resume;
        }
        _ => os.cont = None,
    }
}

/// Takes the reply to the pending call, a stage at a time.
fn take_reply(os: &mut LibOs, alloc: Global, reply: Reply) -> Result<(), Memory>
    requires { IsKept os.old }
    ensures value { OnOk result (os.new ≡ spec.answered os.old reply) }
    ensures small { OnOk result (IfSome os.old.cont
        (λ c. c.stage ≡ Stage.ProgramLength → IsLengthSmall reply)) }
{
    if is_ending(os) {
        take_at_end(os, &reply);
        return Ok(());
    }
    take_before(os, alloc, reply)
}

/// Takes the reply to the pending call: the library OS stands for the same machine, and is nearer to the end of the
/// service. After an `Err` the library OS is spent.
///
/// # Errors
/// There was no memory.
pub fn answered(os: &mut LibOs, alloc: Global, reply: Reply) -> Result<(), Memory>
    requires { IsKept os.old }
    ensures value { OnOk result (os.new ≡ spec.answered os.old reply) }
    ensures kept { OnOk result (KeepsMeaning os.old reply os.new) }
    ensures nearer { OnOk result (0 < calls_left os.old → calls_left os.new < calls_left os.old) }
{
    take_reply(os, alloc, reply)
}
