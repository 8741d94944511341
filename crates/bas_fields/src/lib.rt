//! Fields of bytes, and numbers as text: each value has one spelling.
#![tactic(auto)]

mod cursor;
mod laws;
mod numbers;
mod pieces;

pub use cursor::{Cursor, FieldError, put_u64};
pub use laws::{one_field, one_spelling};
pub use numbers::{decimal, hex_text, hexadecimal, read_decimal};
pub use pieces::{write_bytes, write_u64};
