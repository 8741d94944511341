//! The memory of a process: pages of 4,096 bytes with rights, which the processor reads, writes and runs.
#![tactic(auto)]

mod access;
mod error;
mod held;
mod page;
mod pages;
mod place;
mod run;
mod word;

pub use error::PageError;
pub use pages::Pages;
