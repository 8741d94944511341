//! The objects of a host: processes with their pages, threads, events and open streams, each under a number,
//! the lists of threads, and the calls and turns that need nothing of the outside.
#![tactic(auto)]

mod calls;
mod counting;
mod handles;
mod kinds;
mod memory;
mod numbers;
mod objects;
mod processes;
mod settings;
mod streams;
mod system;
mod table;
mod threads;
mod turns;

pub use counting::Counting;
pub use numbers::Numbers;
pub use objects::Objects;
