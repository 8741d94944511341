use crate::start::{Edge, Failure, edge_of};
use anyhow::Result;
use std::alloc::Global;

/// How many calls of an edge are made to fail at most, one in each turn.
const MOST_CALLS: u64 = 1_000;

/// What a scene came to.
#[derive(Drop)]
pub struct Played {
    /// What came, in lines.
    pub text: String,
    /// Whether something failed.
    pub failed: bool,
}

/// A scene that can be played again and again.
pub trait Play {
    /// Plays it with these calls failing.
    fn play(&self, failures: &[Failure]) -> Result<Played>;

    /// Forgets all but the files.
    fn go_on(&mut self);
}

/// What the scene comes to with each call of the edge failing in turn, until none fails: what differs from what came before.
fn with_failures<S: Play>(alloc: Global, scene: &S, edge: Edge) -> Result<String> {
    let mut all = String::new(alloc);
    let mut last = String::new(alloc);
    for call in 1..MOST_CALLS {
        let played = scene.play([Failure { edge, call }].as_slice())?;
        if played.text != last {
            all.push_str(played.text.as_str())?;
        }
        if !played.failed {
            break;
        }
        last = played.text;
    }
    Ok(all)
}

/// Plays the scene with each call of the edge of this name failing in turn, until none fails, and gives what differs
/// from what came before. Then all but the files is forgotten.
pub fn play_each<S: Play>(alloc: Global, scene: &mut S, edge: &str) -> Result<String> {
    let text = with_failures(alloc, scene, edge_of(edge)?)?;
    scene.go_on();
    Ok(text)
}
