//! What a start makes of a program's file and its arguments: where the runs of the program lie, their bytes, and the
//! argument block.
#![tactic(auto)]

mod argument_block;
mod program;

pub use argument_block::{block, block_address};
pub use program::{PAGE, bytes_from, count_of_runs, end_of, entry_of, refusal_of, run_at};
