//! The top call: a command, carried out over a host and the user's files.
#![tactic(auto)]

mod assembly;
mod command;
mod copying;
mod laws;
mod run;
mod top;

pub use bas_outcomes::{Outcome, Report, tell};
pub use laws::hello_runs;
pub use top::bascule;
