ghost use Rattle.std.specs.Prelude.{◌≡◌, ◌++◌, IfOk, decimal};
ghost use Rattle.bas_names.specs.Escape.{escaped};
ghost use Rattle.bas_outcomes.specs.Texts.{cause_of, line_of, report_of, text_of};

use crate::outcome::{Outcome, Report};
use bas_edge::Memory;
use bas_fields::decimal;
use bas_names::{NameError, escape};
use elf_loader::ElfError;
use rv_asm::AsmCause;
use std::alloc::{AllocError, Global};

/// The name of a cause for which an assembly text is refused.
fn cause_text(cause: AsmCause) -> &'static [u8]
    ensures { result.now ≡ cause_of cause }
{
    match cause {
        AsmCause::Text => b"Text",
        AsmCause::Mnemonic => b"Mnemonic",
        AsmCause::Directive => b"Directive",
        AsmCause::Operand => b"Operand",
        AsmCause::Number => b"Number",
        AsmCause::Twice => b"Twice",
        AsmCause::Label => b"Label",
        AsmCause::Range => b"Range",
        AsmCause::Big => b"Big",
    }
}

/// A text of three parts.
fn joined(alloc: Global, first: &[u8], second: &[u8], third: &[u8]) -> Result<Vec<u8>, AllocError>
    ensures { IfOk result (λ text. text.items ≡ first.now ++ second.now ++ third.now) }
{
    let mut text = Vec::from_slice(alloc, first)?;
    text.extend_from_slice(second)?;
    text.extend_from_slice(third)?;
    Ok(text)
}

/// A number in decimal digits between two texts.
fn around_number(alloc: Global, before: &[u8], n: u64, behind: &[u8]) -> Result<Vec<u8>, Memory>
    ensures { IfOk result (λ text. text.items ≡ before.now ++ decimal n ++ behind.now) }
{
    let digits = decimal(alloc, n)?;
    Ok(joined(alloc, before, digits.as_slice(), behind)?)
}

/// A name behind a text, escaped.
fn before_name(alloc: Global, before: &[u8], name: &[u8]) -> Result<Vec<u8>, Memory>
    ensures { IfOk result (λ text. text.items ≡ before.now ++ escaped name.now) }
{
    match escape(alloc, name) {
        Ok(escaped) => Ok(joined(alloc, before, escaped.as_slice(), b"")?),
        Err(NameError::Memory) => Err(Memory),
        Err(_) => unreachable!(),
    }
}

/// The text of a report.
fn report_text(alloc: Global, report: Report) -> Result<Vec<u8>, Memory>
    ensures { IfOk result (λ text. text.items ≡ report_of report) }
{
    match report {
        Report::Put(count) => around_number(alloc, b"put ", count, b" bytes"),
        Report::Got(count) => around_number(alloc, b"got ", count, b" bytes"),
        Report::Assembled(count) => around_number(alloc, b"assembled ", count, b" bytes"),
    }
}

/// The text of a line that the assembler refuses.
fn refused_line(alloc: Global, line: u64, cause: AsmCause) -> Result<Vec<u8>, Memory>
    ensures { IfOk result (λ text. text.items ≡ text_of (Outcome.BadText line cause)) }
{
    let mut text = around_number(alloc, b"line ", line, b": ")?;
    text.extend_from_slice(cause_text(cause))?;
    Ok(text)
}

/// The text of a program's file that the loader refuses.
fn refused_program(alloc: Global, cause: ElfError) -> Result<Vec<u8>, Memory>
    ensures { IfOk result (λ text. text.items ≡ text_of (Outcome.BadProgram cause)) }
{
    let name: &[u8] = match cause {
        ElfError::Short => b"Short",
        ElfError::Magic => b"Magic",
        ElfError::Class => b"Class",
        ElfError::Order => b"Order",
        ElfError::Kind => b"Kind",
        ElfError::Machine => b"Machine",
        ElfError::Table => b"Table",
        ElfError::Interp => b"Interp",
        ElfError::Big => b"Big",
        ElfError::Entry => b"Entry",
        ElfError::Segment(number) => {
            return around_number(alloc, b"bad program: Segment ", number, b"");
        }
        ElfError::Overlap(number) => {
            return around_number(alloc, b"bad program: Overlap ", number, b"");
        }
    };
    Ok(joined(alloc, b"bad program: ", name, b"")?)
}

/// The text of an outcome.
fn text(alloc: Global, outcome: &Outcome) -> Result<Vec<u8>, Memory>
    ensures { IfOk result (λ text. text.items ≡ text_of outcome.now) }
{
    let words: &[u8] = match outcome {
        Outcome::Done(report) => return report_text(alloc, *report),
        Outcome::Bound(turns) => return around_number(alloc, b"bound after ", *turns, b" turns"),
        Outcome::Stuck(turns) => return around_number(alloc, b"stuck after ", *turns, b" turns"),
        Outcome::NoFile(name) => return before_name(alloc, b"no file ", name.as_slice()),
        Outcome::Large(name) => return before_name(alloc, b"too large ", name.as_slice()),
        Outcome::NoProgram(name) => return before_name(alloc, b"no program ", name.as_slice()),
        Outcome::BadText(line, cause) => return refused_line(alloc, *line, *cause),
        Outcome::BadProgram(cause) => return refused_program(alloc, *cause),
        Outcome::BadWords => b"bad words",
        Outcome::AlreadyUsed => b"host already used",
        Outcome::HostFault => b"host fault",
        Outcome::ShelfFault => b"shelf fault",
        Outcome::OutOfMemory => b"out of memory",
        Outcome::NotesFault => b"notes fault",
        Outcome::Exited(_) => b"",
    };
    Ok(Vec::from_slice(alloc, words)?)
}

/// The line of an outcome; an exit has none.
pub fn line(alloc: Global, outcome: &Outcome) -> Result<Vec<u8>, Memory>
    ensures { IfOk result (λ line. line.items ≡ line_of outcome.now) }
{
    match outcome {
        Outcome::Exited(_) => Ok(Vec::new(alloc)),
        _ => {
            let text = text(alloc, outcome)?;
            Ok(joined(alloc, b"bascule: ", text.as_slice(), b"\n")?)
        }
    }
}
