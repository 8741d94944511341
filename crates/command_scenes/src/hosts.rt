use crate::scene::Scene;
use abi_calls::{Call, Host, Reply};
use anyhow::Result;
use bas_edge::{Shelf, Sink, Source, Store};
use bascule_top::bascule;
use scene_script::{
    Edge, Failure, Files, Holds, Left, Memories, Shows, files_left, host_over, left_by,
    memories_of, shelf_of, sink_of,
};
use std::alloc::{AllocError, Global};

/// What the commands of a scene came to.
#[derive(Drop)]
pub struct Seen {
    pub statuses: Vec<u8>,
    pub notes: Vec<u8>,
    pub left: Left,
    pub texts: Files,
    pub counts: Counts,
}

/// What was counted.
#[derive(Clone, Copy, Debug)]
pub struct Counts {
    /// How many calls the host answered, and how many turns it made.
    pub calls: u64,
    pub turns: u64,
    /// Whether something failed.
    pub failed: bool,
}

/// Carries out the commands one after another, and gives their statuses.
fn carry_out<H: Host, F: Shelf, N: Sink>(
    alloc: Global,
    commands: &[Vec<String>],
    host: &mut H,
    shelf: &mut F,
    notes: &mut N,
) -> Result<Vec<u8>, AllocError> {
    let mut statuses = Vec::new(alloc);
    for words in commands {
        let outcome = bascule(alloc, words.as_slice(), host, shelf, notes);
        statuses.push(outcome.code())?;
    }
    Ok(statuses)
}

/// What was counted, the turns by a further call of the host.
fn counted<H: Host, F: Shelf, N: Sink>(host: &mut H, shelf: &F, notes: &N) -> Counts {
    let calls = host.answered();
    let failed = host.faults() != 0 || shelf.faults() != 0 || notes.faults() != 0;
    let turns = match host.call(&Call::Positions) {
        Ok(Reply::Places(positions)) => positions.turns,
        _ => 0,
    };
    Counts {
        calls,
        turns,
        failed,
    }
}

/// Carries out the commands of the scene over one host that stands on these.
fn play_over<
    I: Source + Shows + Drop,
    O: Sink + Shows + Drop,
    P: Sink + Shows + Drop,
    E: Store + Holds + Drop,
    F: Shelf + Holds,
    N: Sink + Shows,
>(
    alloc: Global,
    scene: &Scene,
    memories: Memories<I, O, P, E>,
    shelf: &mut F,
    notes: &mut N,
) -> Result<Seen> {
    let mut host = host_over(alloc, memories, false)?;
    let statuses = carry_out(alloc, scene.commands.as_slice(), &mut host, shelf, notes)?;
    let counts = counted(&mut host, shelf, notes);
    let names = scene.all_names()?;
    Ok(Seen {
        statuses,
        notes: Vec::from_slice(alloc, notes.shown())?,
        left: left_by(alloc, &host, &names)?,
        texts: files_left(alloc, &names, shelf)?,
        counts,
    })
}

/// Carries out the commands of the scene over one host in memory, where these calls fail.
pub fn play(alloc: Global, scene: &Scene, failures: &[Failure]) -> Result<Seen> {
    let memories = memories_of(alloc, &scene.start, failures)?;
    let mut shelf = shelf_of(alloc, &scene.texts, failures)?;
    let mut notes = sink_of(alloc, failures, Edge::Notes)?;
    play_over(alloc, scene, memories, &mut shelf, &mut notes)
}
