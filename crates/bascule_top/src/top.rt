ghost use Rattle.std.specs.Prelude.{◌≡◌, ◌≢◌, ℕ, None, Some, true, IfOk, OnErr};
ghost use Rattle.bas_edge.specs.Faults.{HasCause, Rose};
ghost use Rattle.abi_calls.specs.Fresh.{IsFreshWorld};
ghost use Rattle.bascule_top.specs.Assembly.{Assembly};
ghost use Rattle.bascule_top.specs.Copying.{Copying};
ghost use Rattle.bascule_top.specs.Commands.{UsesHost, UsesShelf, command_of, words_of, is_launch, start_settings};
ghost use Rattle.bascule_top.specs.Words.{launch_of};
ghost use Rattle.bas_outcomes.specs.declared.outcome.Outcome.TheVariants.{NoProgram};
ghost use Rattle.bascule_top.specs.Begun.{Begun};
ghost use Rattle.bascule_top.specs.Outcomes.{Headline, Says, GivesUp, opening};
ghost use Rattle.bascule_top.specs.Histories.{ComesTo, Historic};
ghost use Rattle.bascule_top.specs.States.{over, state_of};
ghost use Rattle.bascule_top.specs.Carried.{CarriesOut, IsRefused};
ghost use Rattle.bas_outcomes.specs.Notes.{NotedAs};

use crate::assembly::assemble_file;
use crate::command::{Command, read_command};
use crate::copying::{get, put};
use crate::run::{RunEnd, TURNS, run};
use abi_calls::{Host, Settings};
use bas_edge::{EdgeError, Memory, Shelf, Sink};
use bas_items::Items;
use bas_outcomes::{Outcome, tell};
use libos_state::{Boot, LibOs};
use std::alloc::Global;
use turn_engine::{EngineError, Machine};

/// The settings of a start.
fn settings_of_start(alloc: Global) -> Settings
    ensures { result ≡ start_settings }
{
    Settings {
        start: 0,
        step: 1000,
        salt: 0,
        slice: 1000,
        picks: Items::new(alloc),
        randoms: Items::new(alloc),
    }
}

/// There is no file of the name.
fn no_program(alloc: Global, name: &[u8]) -> Result<Outcome, Memory>
    ensures { IfOk result (λ outcome. outcome ≡ NoProgram name.now) }
{
    Ok(Outcome::NoProgram(Items::from_slice(alloc, name)?))
}

/// A program's arguments as lists of bytes.
fn arguments(alloc: Global, args: &[String]) -> Result<Items<Items<u8>>, Memory>
    ensures { IfOk result (λ texts. texts ≡ words_of args.now) }
{
    let mut texts = Items::new(alloc);
    for arg in args {
        texts.push(Items::from_slice(alloc, arg.as_bytes())?)?;
    }
    Ok(texts)
}

/// Makes the library OS that opens the program, and serves the start to its end.
fn begin<H: Host>(
    alloc: Global,
    name: &str,
    args: &[String],
    host: &mut H,
) -> Result<Machine, EngineError>
    requires fresh { IsFreshWorld (H.objects host.old) (H.answered_count host.old) }
    requires named { is_launch (launch_of name.now args.now) ≡ true }
    ensures begun { IfOk result (λ machine.
        Begun (launch_of name.now args.now) (over (opening (launch_of name.now args.now)) (state_of H.Host host.old)) (over machine.os (state_of H.Host host.new))) }
    ensures given_up { OnErr result (GivesUp (launch_of name.now args.now) (state_of H.Host host.old) (state_of H.Host host.new)) }
    ensures cause { HasCause EngineError.Failed (H.fault_count host.old) (H.fault_count host.new) result }
{
    let texts = arguments(alloc, args)?;
    let os = LibOs::boot(alloc, name.as_bytes(), texts, settings_of_start(alloc))?;
    let mut machine = Machine { os };
    machine.boot(alloc, host)?;
    Ok(machine)
}

/// Starts a program, and makes its run.
fn start<H: Host>(
    alloc: Global,
    name: &str,
    args: &[String],
    host: &mut H,
) -> Result<Outcome, EngineError>
    requires fresh { IsFreshWorld (H.objects host.old) (H.answered_count host.old) }
    requires named { is_launch (launch_of name.now args.now) ≡ true }
    ensures says { IfOk result (λ outcome. Says outcome (launch_of name.now args.now) (H.told host.old) (H.objects host.new) (H.told host.new)) }
    ensures history { IfOk result (λ outcome. ComesTo outcome (launch_of name.now args.now) (state_of H.Host host.old) (state_of H.Host host.new)) }
    ensures given_up { OnErr result (GivesUp (launch_of name.now args.now) (state_of H.Host host.old) (state_of H.Host host.new)) }
    ensures cause { HasCause EngineError.Failed (H.fault_count host.old) (H.fault_count host.new) result }
{
    let mut machine = begin(alloc, name, args, host)?;
    match machine.os.booted() {
        Boot::Going => unreachable!(),
        Boot::NoProgram => Ok(no_program(alloc, name.as_bytes())?),
        Boot::BadProgram(cause) => Ok(Outcome::BadProgram(cause)),
        Boot::Up => match run(alloc, &mut machine, host)? {
            RunEnd::Exited(code) => Ok(Outcome::Exited(code)),
            RunEnd::Bound => Ok(Outcome::Bound(TURNS)),
            RunEnd::Stuck(turns) => Ok(Outcome::Stuck(turns)),
        },
    }
}

/// Carries out the command that the words are, and writes no note.
fn carry_out<H: Host, F: Shelf>(
    alloc: Global,
    words: &[String],
    host: &mut H,
    shelf: &mut F,
) -> Outcome
    ensures headline { Headline result (command_of (words_of words.now)) (state_of H.Host host.old) (state_of H.Host host.new) }
    ensures history { Historic result (command_of (words_of words.now)) (state_of H.Host host.old) (state_of H.Host host.new) }
    ensures assembly { Assembly result (command_of (words_of words.now)) (F.files shelf.old) (F.files shelf.new) }
    ensures copying { Copying result (command_of (words_of words.now))
        (H.told host.old) (H.told host.new) (F.files shelf.old) (F.files shelf.new) }
    ensures used { IsRefused result (command_of (words_of words.now)) (state_of H.Host host.old) }
    ensures unnoted { result ≢ Outcome.NotesFault }
    ensures fault { result ≡ Outcome.HostFault → Rose (H.fault_count host.old) (H.fault_count host.new) }
    ensures shelf_fault { result ≡ Outcome.ShelfFault → Rose (F.fault_count shelf.old) (F.fault_count shelf.new) }
    ensures host_unused { (UsesHost (command_of (words_of words.now)) → ⊥) → host.new ≡ host.old }
    ensures shelf_unused { (UsesShelf (command_of (words_of words.now)) → ⊥) → shelf.new ≡ shelf.old }
{
    match read_command(words) {
        None => Outcome::BadWords,
        Some(Command::Start { name, args }) => {
            if !host.fresh() {
                return Outcome::AlreadyUsed;
            }
            match start(alloc, name, args, host) {
                Ok(outcome) => outcome,
                Err(EngineError::Failed) => Outcome::HostFault,
                Err(EngineError::Memory) => Outcome::OutOfMemory,
            }
        }
        Some(Command::Put { file, name }) => {
            if !host.fresh() {
                return Outcome::AlreadyUsed;
            }
            put(alloc, file, name, host, shelf)
        }
        Some(Command::Get { name, file }) => {
            if !host.fresh() {
                return Outcome::AlreadyUsed;
            }
            get(alloc, name, file, host, shelf)
        }
        Some(Command::Asm { text, file }) => match assemble_file(alloc, text, file, shelf) {
            Ok(answer) => answer,
            Err(EdgeError::Failed) => Outcome::ShelfFault,
            Err(EdgeError::Memory) => Outcome::OutOfMemory,
        },
    }
}

/// Carries out the command that the words are, over a host and the user's files, and tells the outcome in one line of
/// the notes; an exit is told by its code alone. A command that uses the host is refused as `AlreadyUsed` where the host
/// was used before; then host and files are as before.
///
/// `start NAME ARG..`: the program of this name, 1 to 80 bytes, runs with its name as its first argument and up to 15
/// further ones of up to 80 bytes each behind it, for at most 1,000,000 turns of at most 1,000 instructions each. Where
/// the host tells its files and its input, the outcome is that of the monolithic machine's run over them; the host's
/// files, input and objects are those of the run's last state, and its output and errors, each where it is told, are what
/// stood there and then what the run wrote. On every host each
/// turn and each answered call was the next one of the run, and its journal and its count of answered calls grew by
/// these calls. `HostFault` comes only where the host's count of faults rose; `OutOfMemory` may come in place of any
/// other outcome of a start. After either the host is used no more: the last turn of the history was made, but not
/// served to its end; what was written before it is written, and a first part of what it writes.
///
/// `asm TEXT FILE`: the assembly text in the user's file TEXT, of at most 1 MiB, is assembled, and the user's file FILE
/// is replaced by the executable file. `ShelfFault` comes only where the shelf's count of faults rose, and
/// `OutOfMemory` may come in place of any other outcome. Where the shelf tells its files, they are as before after all
/// but `Done`.
///
/// `put FILE NAME`: the user's file FILE, of at most 16 MiB, is copied to the host's file NAME, 1 to 80 bytes, which is
/// made where it isn't there. All else of the host and the user's files are as before. After a fault or want of memory
/// the host's file is as before, or has a first part of FILE.
///
/// `get NAME FILE`: the host's file NAME is copied to the user's file FILE, in place of the one that was there. All that
/// the host tells and the user's other files are as before; after any outcome but `Done` FILE is as before too.
///
/// Where the notes fail, the outcome becomes `NotesFault`, and where there is no memory for the line, `OutOfMemory`; then
/// the notes have a first part of the line, and all stands that the outcome before leaves. `NotesFault` comes only where
/// the notes' count of faults rose.
pub fn bascule<H: Host, F: Shelf, N: Sink>(
    alloc: Global,
    words: &[String],
    host: &mut H,
    shelf: &mut F,
    notes: &mut N,
) -> Outcome
    ensures carried_out { NotedAs result (N.given notes.old) (N.given notes.new) (λ outcome.
        CarriesOut outcome (command_of (words_of words.now))
        (state_of H.Host host.old) (state_of H.Host host.new) (F.files shelf.old) (F.files shelf.new)) }
    ensures quiet { (code : ℕ) → result ≡ Outcome.Exited code → notes.new ≡ notes.old }
    ensures fault { result ≡ Outcome.HostFault → Rose (H.fault_count host.old) (H.fault_count host.new) }
    ensures shelf_fault { result ≡ Outcome.ShelfFault → Rose (F.fault_count shelf.old) (F.fault_count shelf.new) }
    ensures notes_fault { result ≡ Outcome.NotesFault → Rose (N.fault_count notes.old) (N.fault_count notes.new) }
    ensures host_unused { (UsesHost (command_of (words_of words.now)) → ⊥) → host.new ≡ host.old }
    ensures shelf_unused { (UsesShelf (command_of (words_of words.now)) → ⊥) → shelf.new ≡ shelf.old }
{
    let outcome = carry_out(alloc, words, host, shelf);
    tell(alloc, outcome, notes)
}
