ghost use Rattle.std.specs.Prelude.{◌≡◌, ◌≢◌, List, ℕ, Ok, Err, IfOk, OnOk, MatchResult, option_map};
ghost use Rattle.asm_text.specs.Text.{lines};
ghost use Rattle.rv_asm.specs.declared.AsmError.TheVariants.{Memory};
ghost use Rattle.rv_asm.specs.Labels.{defined, otherwise, own_definition};
ghost use Rattle.rv_asm.specs.Encoding.{base};
ghost use Rattle.rv_asm.specs.Answers.{nearest_address, nearest_definition};
ghost use Rattle.rv_asm.specs.Words.{HasPlaced};
ghost use Rattle.rv_asm.specs.Line.{read, line_end, line_bytes};
ghost use Rattle.rv_asm.specs.Program.{definition_of, outcomes_in, gathered};

use crate::AsmError;
use crate::encoding::BASE;
use crate::labels::Labels;
use crate::line::read;
use crate::refusal::LineError;
use asm_text::first_line;
use std::alloc::{AllocError, Global};

/// Adds the definition of the line's label, and gives the address behind the line, or the greatest.
fn define_line<'a>(
    alloc: Global,
    line: &'a [u8],
    number: u64,
    address: u64,
    labels: &mut Labels<'a>,
) -> Result<u64, AllocError>
    ensures labels { OnOk result ((name : List ℕ) → defined labels.new name
        ≡ otherwise (defined labels.old name) (own_definition number address (read line.now).label name)) }
    ensures address { IfOk result (λ next. next ≡ nearest_address (line_end address (read line.now))) }
{
    let said = read(alloc, line)?;
    said.define(number, address, labels)?;
    Ok(said.end(address))
}

/// The first definition of each label of the text, at the nearest address of 64 bits.
pub fn define_labels<'a>(alloc: Global, text: &'a [u8]) -> Result<Labels<'a>, AllocError>
    ensures { IfOk result (λ labels. (name : List ℕ) → defined labels name
        ≡ option_map nearest_definition (definition_of text.now name)) }
{
    let mut labels = Labels::new(alloc);
    let mut address = BASE;
    let mut number = 1;
    let mut rest = Some(text);
    while let Some(text) = rest {
        let (line, more) = first_line(text);
        address = define_line(alloc, line, number, address, &mut labels)?;
        number += 1;
        rest = more;
    }
    Ok(labels)
}

/// Appends the bytes of the line and gives the address behind it, or the greatest, or else the first cause for
/// which it is refused.
fn append_line<'a>(
    alloc: Global,
    line: &'a [u8],
    number: u64,
    address: u64,
    labels: &Labels<'a>,
    bytes: &mut Vec<u8>,
) -> Result<u64, LineError>
    ensures { HasPlaced (line_bytes (defined labels.now) number address (read line.now))
        (nearest_address (line_end address (read line.now))) bytes.old.items bytes.new.items result }
{
    let said = read(alloc, line)?;
    said.append(labels, number, address, bytes)?;
    Ok(said.end(address))
}

/// The bytes of the text under its labels, or the first line that is refused.
pub fn bytes_of<'a>(alloc: Global, text: &'a [u8], labels: &Labels<'a>) -> Result<Vec<u8>, AsmError>
    ensures { MatchResult result
        (λ v. gathered 1 (outcomes_in (defined labels.now) 1 base (lines text.now)) ≡ Ok v.items)
        (λ error. (error ≢ Memory) → gathered 1 (outcomes_in (defined labels.now) 1 base (lines text.now)) ≡ Err error) }
{
    let mut bytes = Vec::new(alloc);
    let mut address = BASE;
    let mut number = 1;
    let mut rest = Some(text);
    while let Some(text) = rest {
        let (line, more) = first_line(text);
        address = match append_line(alloc, line, number, address, labels, &mut bytes) {
            Ok(next) => next,
            Err(error) => return Err(error.at(number)),
        };
        number += 1;
        rest = more;
    }
    Ok(bytes)
}
