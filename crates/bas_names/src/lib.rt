//! Names of streams, and rules that put another beginning in the place of a name's own.
#![tactic(auto)]

ghost use Rattle.std.specs.Prelude.{◌≡◌};

use bas_items::Items;
use std::alloc::AllocError;
use thiserror::Error;

mod escaping;
mod laws;
mod substituting;

pub use escaping::escape;
pub use laws::{lists_in_turn, one_passage};
pub use substituting::substitute;

/// What a stream is opened by: a file's name, or one of the console's three ends.
#[derive(Clone, Debug, PartialEq, Eq, Drop)]
pub enum StreamName {
    File(Items<u8>),
    ConIn,
    ConOut,
    ConErr,
}

/// A rule on names that begin with `from`: `to` takes the place of `from`, and without a `to` the name is
/// denied.
#[derive(Clone, Debug, PartialEq, Eq, Drop)]
pub struct Rule {
    pub from: Items<u8>,
    pub to: Option<Items<u8>>,
}

/// Why there is no name.
#[derive(Clone, Copy, Debug, PartialEq, Eq, Error)]
pub enum NameError {
    /// The name would have more than 80 bytes.
    #[error("the name is too long")]
    TooLong,
    /// The name would have no byte.
    #[error("the name is empty")]
    Empty,
    /// Memory ran out.
    #[error("out of memory")]
    Memory,
}

impl From<AllocError> for NameError {
    ghost use Rattle.bas_names.specs.declared.NameError.TheVariants.{Memory};

    ghost from_gives = { λ _ e. e ≡ Memory };

    fn from(_e: AllocError) -> NameError {
        NameError::Memory
    }
}
