//! Lists that contracts see as the list of their elements, for the fields of public types.
#![tactic(auto)]

mod items;

pub use items::Items;
