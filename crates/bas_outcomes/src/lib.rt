//! How a command can end: its outcomes, their exit statuses, and the line that tells each.
#![tactic(auto)]

mod note;
mod outcome;
mod text;

pub use note::tell;
pub use outcome::{Outcome, Report};
