//! The monolithic machine: what a run is, with no host, handle or call between its parts.
#![tactic(auto)]

mod breaks;
mod laws;

pub use breaks::BreakMove;
pub use laws::{free_runs_have_no_pages, lowest_free_run_is_lowest};
