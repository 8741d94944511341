//! An assembler for RV64I: from a text to an executable file of ELF-64.
#![tactic(auto)]

ghost use Rattle.std.specs.Prelude.{◌≡◌};
ghost use Rattle.rv_asm.specs.Causes.{HasCause};
ghost use Rattle.rv_asm.specs.Program.{Tells, Follows, assembled, outcomes};

use bas_items::Items;
use std::alloc::{AllocError, Global};
use thiserror::Error;

mod encoding;
mod file;
mod labels;
mod laws;
mod line;
mod mnemonics;
mod operands;
mod program;
mod refusal;
mod statement;

pub use laws::addresses_are_places;

/// Why a line is refused: the first of these that fits.
#[derive(Clone, Copy, Debug, PartialEq, Eq, Error)]
pub enum AsmCause {
    /// A quoted text isn't closed, has another escape than `\n`, `\t`, `\0`, `\\` and `\"`, or shares its operand
    /// with something else; or what stands before the first `:` is no name; or the line isn't UTF-8.
    #[error("Text")]
    Text,
    /// The instruction is unknown.
    #[error("Mnemonic")]
    Mnemonic,
    /// The directive is unknown.
    #[error("Directive")]
    Directive,
    /// The number or a kind of the operands is wrong.
    #[error("Operand")]
    Operand,
    /// A text that begins with a digit or `-` spells no number.
    #[error("Number")]
    Number,
    /// An earlier line defines the label.
    #[error("Twice")]
    Twice,
    /// A name is undefined.
    #[error("Label")]
    Label,
    /// A value doesn't fit.
    #[error("Range")]
    Range,
    /// The line takes the bytes behind the headers past 1 MiB.
    #[error("Big")]
    Big,
}

/// Why there is no file.
#[derive(Clone, Copy, Debug, PartialEq, Eq, Error)]
pub enum AsmError {
    /// The first line that is refused, counted from 1, and why.
    #[error("line {0}: {1}")]
    Line(u64, AsmCause),
    /// Memory ran out.
    #[error("out of memory")]
    Memory,
}

impl From<AllocError> for AsmError {
    ghost use Rattle.rv_asm.specs.declared.AsmError.TheVariants.{Memory};

    ghost from_gives = { λ _ e. e ≡ Memory };

    fn from(_e: AllocError) -> AsmError {
        AsmError::Memory
    }
}

/// The executable file of an assembly text: the bytes of its lines in a row, behind a file header and a program
/// header. Otherwise the first line that is refused, with the first cause that fits, in the order of `AsmCause`.
pub fn assemble(alloc: Global, text: &[u8]) -> Result<Items<u8>, AsmError>
    ensures exact { Tells result (assembled text.now) }
    ensures lines { Follows (outcomes text.now) result }
    ensures causes { HasCause text.now result }
{
    let labels = program::define_labels(alloc, text)?;
    let bytes = program::bytes_of(alloc, text, &labels)?;
    Ok(file::file_of(alloc, bytes.as_slice())?)
}
