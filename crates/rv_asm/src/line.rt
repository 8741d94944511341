ghost use Rattle.std.specs.Prelude.{◌≡◌, List, ℕ, IfOk, OnOk};
ghost use Rattle.std.specs.Option.{option_copied};
ghost use Rattle.std.specs.List.{list_any};
ghost use Rattle.std.specs.Str.{is_utf8};
ghost use Rattle.rv_asm.specs.Answers.{Answers, nearest_address, nearest_said, nearest_line};
ghost use Rattle.rv_asm.specs.Labels.{defined, otherwise, own_definition};
ghost use Rattle.rv_asm.specs.Words.{HasAppended};
ghost use Rattle.rv_asm.specs.Line.{uncommented, label_text, statement_text, first_word, operand_texts, shares_quote, has_fault, label_of, statement_in, read, line_end, is_twice, line_bytes};

use crate::AsmCause;
use crate::encoding::address_behind;
use crate::labels::{Definition, Labels};
use crate::refusal::LineError;
use crate::statement::{Statement, statement_of, word_named};
use asm_text::{Text, is_closed, is_name, operands, quoted, split_at_mark, trim, trim_start};
use std::alloc::{AllocError, Global};

/// What a line says.
#[derive(Drop)]
pub struct Line<'a> {
    /// The label that it defines, also where the line is refused.
    pub label: Option<Text<'a>>,
    /// Its statement, if it has one, or the first cause for which the line is refused by itself.
    pub statement: Result<Option<Statement<'a>>, AsmCause>,
}

/// The line without its comment.
#[tactic(auto, unfolding(crate::specs::Line::uncommented))]
fn uncommented(line: &[u8]) -> &[u8]
    ensures { result.now ≡ uncommented line.now }
{
    split_at_mark(b"#", line).0
}

/// What stands before the first `:`, if there is one.
#[tactic(auto, unfolding(crate::specs::Line::label_text))]
fn label_text(text: &[u8]) -> Option<&[u8]>
    ensures { option_copied result ≡ label_text text.now }
{
    match split_at_mark(b":", text) {
        (label, Some(_rest)) => Some(trim_start(label)),
        (_all, None) => None,
    }
}

/// What stands behind the first `:`, or all.
#[tactic(auto, unfolding(crate::specs::Line::statement_text))]
fn statement_text(text: &[u8]) -> &[u8]
    ensures { result.now ≡ statement_text text.now }
{
    trim(split_at_mark(b":", text).1.unwrap_or(text))
}

#[tactic(auto, unfolding(crate::specs::Line::first_word))]
fn first_word(statement: &[u8]) -> &[u8]
    ensures { result.now ≡ first_word statement.now }
{
    split_at_mark(b" \t", statement).0
}

#[tactic(auto, unfolding(crate::specs::Line::operand_texts))]
fn operand_texts<'a>(alloc: Global, statement: &'a [u8]) -> Result<Vec<Text<'a>>, AllocError>
    ensures { IfOk result (λ v. v.items ≡ operand_texts statement.now) }
{
    operands(
        alloc,
        trim(split_at_mark(b" \t", statement).1.unwrap_or(b"")),
    )
}

/// Whether the operand has a quote and isn't one quoted text.
fn shares_quote(alloc: Global, operand: &Text) -> Result<bool, AllocError>
    ensures { IfOk result (λ shares. shares ≡ shares_quote operand.now) }
{
    let text = operand.as_slice();
    if !text.contains(&b'"') {
        return Ok(false);
    }
    Ok(quoted(alloc, text)?.is_none())
}

fn any_shares_quote(alloc: Global, operands: &[Text]) -> Result<bool, AllocError>
    ensures { IfOk result (λ any. any ≡ list_any shares_quote operands.now) }
{
    for operand in operands {
        if shares_quote(alloc, operand)? {
            return Ok(true);
        }
    }
    Ok(false)
}

/// Whether quotes aren't closed or have a wrong escape, the label is no name, or a quoted text shares its operand.
#[tactic(auto, unfolding(crate::specs::Line::has_fault))]
fn has_fault(alloc: Global, text: &[u8], operands: &[Text]) -> Result<bool, AllocError>
    ensures { IfOk result (λ fault. fault ≡ has_fault text.now operands.now) }
{
    if !is_closed(text) {
        return Ok(true);
    }
    if let Some(label) = label_text(text) {
        if !is_name(label) {
            return Ok(true);
        }
    }
    any_shares_quote(alloc, operands)
}

/// The label that a text is.
#[tactic(auto, unfolding(crate::specs::Line::label_of))]
fn label_of<'a>(text: Option<&'a [u8]>) -> Option<Text<'a>>
    ensures { result ≡ label_of (option_copied text.entry) }
{
    let name = text?;
    if !is_name(name) {
        return None;
    }
    Some(Text::new(name))
}

fn is_utf8(bytes: &[u8]) -> bool
    ensures { result ≡ is_utf8 bytes.now }
{
    str::from_utf8(bytes).is_ok()
}

/// The statement of a word and its operands; none where there is no word.
#[tactic(auto, unfolding(crate::specs::Line::statement_in))]
fn statement_in<'a>(
    alloc: Global,
    word: &[u8],
    operands: &[Text<'a>],
) -> Result<Option<Statement<'a>>, LineError>
    ensures { Answers result (nearest_said (statement_in word.now operands.now)) }
{
    if word.is_empty() {
        return Ok(None);
    }
    let named = word_named(word)?;
    Ok(Some(statement_of(alloc, named, operands)?))
}

/// What the line says.
#[tactic(auto, unfolding(crate::specs::Line::read))]
pub fn read<'a>(alloc: Global, line: &'a [u8]) -> Result<Line<'a>, AllocError>
    ensures { IfOk result (λ said. said ≡ nearest_line (read line.now)) }
{
    let text = uncommented(line);
    let label = label_of(label_text(text));
    let statement = statement_text(text);
    let operands = operand_texts(alloc, statement)?;
    if !is_utf8(line) || has_fault(alloc, text, &operands)? {
        let statement = Err(AsmCause::Text);
        return Ok(Line { label, statement });
    }
    match statement_in(alloc, first_word(statement), &operands) {
        Ok(statement) => Ok(Line {
            label,
            statement: Ok(statement),
        }),
        Err(LineError::Refused(cause)) => Ok(Line {
            label,
            statement: Err(cause),
        }),
        Err(LineError::Memory) => Err(AllocError),
    }
}

impl<'a> Line<'a> {
    /// The address behind the line, or the greatest.
    pub fn end(&self, at: u64) -> u64
        ensures { result ≡ nearest_address (line_end at self.now) }
    {
        match &self.statement {
            Ok(Some(statement)) => address_behind(at, statement.size(at)),
            Ok(None) | Err(_) => at,
        }
    }

    /// Adds the line's definition of its label, which counts unless there is an earlier one.
    pub fn define(&self, number: u64, at: u64, labels: &mut Labels<'a>) -> Result<(), AllocError>
        ensures { OnOk result ((name : List ℕ) → defined labels.new name
            ≡ otherwise (defined labels.old name) (own_definition number at self.now.label name)) }
    {
        match &self.label {
            Some(name) => {
                let definition = Definition {
                    line: number,
                    address: at,
                };
                labels.define(name, definition)
            }
            None => Ok(()),
        }
    }

    /// Whether an earlier line defines the label.
    fn is_twice(&self, labels: &Labels<'a>, number: u64) -> bool
        ensures { result ≡ is_twice (defined labels.now) number self.now.label }
    {
        let Some(label) = &self.label else {
            return false;
        };
        match labels.get(label) {
            Some(definition) => definition.line < number,
            None => false,
        }
    }

    /// Appends the bytes of the line, or gives the first cause for which it is refused.
    #[tactic(auto, unfolding(crate::specs::Line::line_bytes))]
    pub fn append(
        &self,
        labels: &Labels<'a>,
        number: u64,
        at: u64,
        out: &mut Vec<u8>,
    ) -> Result<(), LineError>
        ensures { HasAppended (line_bytes (defined labels.now) number at self.now)
            out.old.items out.new.items result }
    {
        let statement = match &self.statement {
            Ok(statement) => statement,
            Err(cause) => return Err(LineError::Refused(*cause)),
        };
        if self.is_twice(labels, number) {
            return Err(LineError::Refused(AsmCause::Twice));
        }
        match statement {
            Some(statement) => statement.append(labels, at, out),
            None => Ok(()),
        }
    }
}
