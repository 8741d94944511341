//! Tests of the crates at the bottom, through their public calls: a crate that has tests itself is proved twice.
#![tactic(auto)]

#[cfg(test)]
mod edges;
#[cfg(test)]
mod elf;
#[cfg(test)]
mod fields;
#[cfg(test)]
mod names;
#[cfg(test)]
mod processor;
#[cfg(test)]
mod rewriting;
#[cfg(test)]
mod schedules;
#[cfg(test)]
mod texts;
