//! A host over the outside: it keeps the objects of a world, and reaches the console and the files.
#![tactic(auto)]

mod console;
mod edges;
mod files;
mod laws;
mod monitor;
mod output;
mod outside;
mod serve;
mod streams;

pub use laws::told_and_faults;
pub use monitor::Monitor;
