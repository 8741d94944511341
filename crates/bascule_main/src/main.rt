//! The program: the words that it is run with, and the streams and files of the system as what the host stands on.
#![tactic(auto)]

use bas_edge::EdgeError;
use bascule_top::{Outcome, bascule, tell};
use host_monitor::Monitor;
use host_objects::Counting;
use std::alloc::AllocError;
use std::env;
use std::io::ErrorKind;
use std::process::ExitCode;
use std::rt::Env;

mod current;
mod files;
mod folder;
mod streams;
#[cfg(test)]
mod tests;

use current::CurrentFolder;
use folder::Folder;
use streams::{Reading, Writing};

/// The words behind the program's name. There are none where one of them isn't UTF-8.
fn words<R: Env + AllocGlobal>(rt: &R) -> Result<Vec<String>, AllocError> {
    match env::args(rt) {
        Ok(words) => words.skip(1).collect(rt.alloc()),
        Err(error) if error.kind() == ErrorKind::OutOfMemory => Err(AllocError),
        Err(_) => Ok(Vec::new(rt.alloc())),
    }
}

/// Does what the words say, over the streams and the files of the system. The notes go to standard error, as the
/// console's errors of a run do; they come behind them, and neither waits in a buffer.
fn run(rt: &HostRuntime) -> Result<Outcome, EdgeError> {
    let alloc = rt.alloc();
    let words = words(rt)?;
    let input = Reading::new(rt.stdin());
    let output = Writing::new(rt.stdout());
    let errors = Writing::new(rt.stderr());
    let store = Folder::new(alloc, rt)?;
    let numbers = Counting::new(alloc);
    let mut host = Monitor::new(alloc, input, output, errors, store, numbers, false)?;
    let mut shelf = CurrentFolder::new(rt);
    let mut notes = Writing::new(rt.stderr());
    Ok(bascule(alloc, words.as_slice(), &mut host, &mut shelf, &mut notes))
}

/// Tells an outcome that comes before there is a host.
fn told(rt: &HostRuntime, outcome: Outcome) -> Outcome {
    tell(rt.alloc(), outcome, &mut Writing::new(rt.stderr()))
}

fn main(rt: HostRuntime) -> ExitCode {
    let outcome = match run(&rt) {
        Ok(outcome) => outcome,
        Err(EdgeError::Failed) => told(&rt, Outcome::HostFault),
        Err(EdgeError::Memory) => told(&rt, Outcome::OutOfMemory),
    };
    ExitCode::from(outcome.code())
}
