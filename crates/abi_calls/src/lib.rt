//! The calls of the host's interface and their replies, the worlds that they act on, and the trait of a host.
#![tactic(auto)]

mod call;
mod host;
mod laws;
pub mod limits;
mod object;
mod reply;
mod threads;

pub use bas_names::StreamName;
pub use call::Call;
pub use host::{Crossing, Host, HostError};
pub use laws::{rules_of_a_host, turn_keeps_names};
pub use object::Object;
pub use reply::Reply;
pub use threads::{Turned, Upcall};
pub use turn_sched::{Positions, Settings};
