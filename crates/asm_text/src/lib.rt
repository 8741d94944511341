//! The text of an assembly program, as bytes: its lines, quotes and operands, and what names, numbers and registers
//! are spelled.
#![tactic(auto)]

mod numbers;
mod registers;
mod text;

pub use numbers::{is_number, number_of};
pub use registers::register_of;
pub use text::{
    Quoting, Text, first_line, is_closed, is_name, operands, quoted, split_at_mark, trim,
    trim_start,
};
