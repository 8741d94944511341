//! The files of a host over a store: the calls on files, and how many users each file has.
#![tactic(auto)]

mod files;
mod rows;
mod serve;
mod users;

pub use files::Files;
