use crate::hosts::Seen;
use crate::scene::Scene;
use scene_script::{add_changes, add_left, add_line};
use std::alloc::{AllocError, Global};
use std::fmt::Write;

/// Adds the statuses, and the counts where nothing failed.
fn add_counts(text: &mut String, seen: &Seen) -> Result<(), AllocError> {
    text.push_str("status")?;
    for status in &seen.statuses {
        write!(text, " {status}")?;
    }
    if seen.counts.failed {
        return text.push_str("\n");
    }
    let (calls, turns) = (seen.counts.calls, seen.counts.turns);
    writeln!(text, ", {calls} calls, {turns} turns")
}

/// What the commands of a scene came to, in lines: the statuses, what was written, what is left of the input, and
/// the files that have changed.
pub fn told(alloc: Global, scene: &Scene, seen: &Seen) -> Result<String, AllocError> {
    let mut text = String::new(alloc);
    add_counts(&mut text, seen)?;
    add_line(&mut text, "notes", seen.notes.as_slice())?;
    add_left(&mut text, &scene.start, &seen.left)?;
    add_changes(&mut text, "text", &scene.texts, &seen.texts)?;
    Ok(text)
}
