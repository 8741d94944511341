ghost use Rattle.std.specs.Prelude.{◌≡◌, ◌≢◌, ℕ, OnErr, OnOk};
ghost use Rattle.bas_edge.specs.Faults.{HasCause, Rose};
ghost use Rattle.bas_edge.specs.Streams.{gained};
ghost use Rattle.bas_outcomes.specs.Notes.{GainsPart, IsNoted};
ghost use Rattle.bas_outcomes.specs.Texts.{line_of};

use crate::outcome::Outcome;
use crate::text::line;
use bas_edge::{EdgeError, Sink};
use std::alloc::Global;

/// Gives the whole text to the sink. After an `Err` it has a first part of it.
#[tactic(auto, using(crate::proofs::Giving::giving))]
fn give_all<N: Sink>(sink: &mut N, text: &[u8]) -> Result<(), EdgeError>
    ensures all { OnOk result (N.given sink.new ≡ gained (N.given sink.old) text.now) }
    ensures part { OnErr result (GainsPart (N.given sink.old) text.now (N.given sink.new)) }
    ensures cause { HasCause EdgeError.Failed (N.fault_count sink.old) (N.fault_count sink.new) result }
{
    let mut rest = text;
    while !rest.is_empty() {
        let given = sink.give(rest)?;
        let (_, behind) = rest.split_at(given);
        rest = behind;
    }
    Ok(())
}

/// Writes the line of an outcome to the notes.
fn write_line<N: Sink>(alloc: Global, outcome: &Outcome, notes: &mut N) -> Result<(), EdgeError>
    ensures all { OnOk result (N.given notes.new ≡ gained (N.given notes.old) (line_of outcome.now)) }
    ensures part { OnErr result (GainsPart (N.given notes.old) (line_of outcome.now) (N.given notes.new)) }
    ensures cause { HasCause EdgeError.Failed (N.fault_count notes.old) (N.fault_count notes.new) result }
{
    let line = line(alloc, outcome)?;
    give_all(notes, line.as_slice())
}

/// Tells an outcome in one line, `bascule: ` and its text; an exit is told by its code alone. The outcome stays, unless
/// the notes failed, which makes it `NotesFault`, or there was no memory for the line, which makes it `OutOfMemory`. Then
/// the notes have a first part of the line.
pub fn tell<N: Sink>(alloc: Global, outcome: Outcome, notes: &mut N) -> Outcome
    ensures noted { IsNoted outcome result (N.given notes.old) (N.given notes.new) }
    ensures quiet { (code : ℕ) → result ≡ Outcome.Exited code → notes.new ≡ notes.old }
    ensures fault { outcome ≢ Outcome.NotesFault → result ≡ Outcome.NotesFault → Rose (N.fault_count notes.old) (N.fault_count notes.new) }
{
    if let Outcome::Exited(_) = outcome {
        return outcome;
    }
    match write_line(alloc, &outcome, notes) {
        Ok(()) => outcome,
        Err(EdgeError::Failed) => Outcome::NotesFault,
        Err(EdgeError::Memory) => Outcome::OutOfMemory,
    }
}
