//! The lists of threads that a scheduler keeps: ready, waiting and suspended ones, and the current one; and what fixes
//! the schedule, the clock and the random words of a run.
#![tactic(auto)]

mod keys;
mod schedule;
mod settings;

pub use schedule::Schedule;
pub use settings::{Positions, Settings};
