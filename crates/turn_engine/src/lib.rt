//! The machine: the library OS over a host, turn by turn.
#![tactic(auto)]

mod machine;

pub use machine::{EngineError, Machine, TurnEnd};
