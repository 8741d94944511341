//! Copies of a file from the user's files to the host's, and back.
#![tactic(auto)]

mod copies;
mod get;
mod open_file;
mod put;

pub use copies::{Copied, CopyError};
pub use get::get_file;
pub use put::put_file;
