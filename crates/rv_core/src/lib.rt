//! The processor: RV64I with FENCE.I, over any memory of bytes with rights.
#![tactic(auto)]

mod cells;
mod context;
mod decoder;
mod encoder;
mod fields;
mod hart;
mod instr;
mod listing;
mod memo;
mod opcodes;
mod register_file;
mod rows;

pub use cells::{Cells, CodeCells};
pub use context::{Context, Ended, Trap};
pub use decoder::decode;
pub use encoder::encode;
pub use hart::{slice, slice_with, step};
pub use instr::{Instr, OPS, Op};
pub use listing::Layout;
pub use memo::Memo;
