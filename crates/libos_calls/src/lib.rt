//! The library OS's services: how one begins, the call that it makes next, and what it does with the reply.
#![tactic(auto)]

mod breaking;
mod ending;
mod entered;
mod mapping;
mod process_end;
mod replies;
mod start_replies;

pub use entered::enter;
pub use replies::answered;
