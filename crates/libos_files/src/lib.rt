//! The calls on descriptors and open files: how a service of one begins, and what it does with each reply.
#![tactic(auto)]

mod closing;
mod descriptors;
mod entered;
mod lengths;
mod positions;
mod replies;
mod service;
mod transfers;

pub use descriptors::{duplicate, forget_stream, pid_with};
pub use entered::{CLOSE, DUP, DUP3, FSTAT, FTRUNCATE, LSEEK, READ, WRITE, enter};
pub use positions::{move_position, put_position};
pub use replies::{change_of, is_stream_stage, step_of};
pub use service::{EINVAL, SYSTEM_CALL, bare, error, finishing, getting, give, returned};
pub use transfers::send;
