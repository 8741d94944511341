ghost use Rattle.std.specs.Prelude.{◌≡◌, if◌then◌else◌, Ok, Err, OnOk, map};
ghost use Rattle.std.specs.Option.{ok_or};
ghost use Rattle.std.specs.List.{list_all};
ghost use Rattle.asm_text.specs.Numbers.{is_number};
ghost use Rattle.asm_text.specs.Registers.{register_of};
ghost use Rattle.rv_asm.specs.Operands.{base, is_of, with_operand, no_fields, are_of, fields_of, is_spelled, bytes_in, unless_refused, Each, Numbers, Quoted};
ghost use Rattle.rv_asm.specs.Answers.{Answers, nearest_value};

use crate::AsmCause;
use crate::refusal::LineError;
use asm_text::{Text, is_name, is_number, number_of, quoted, register_of, split_at_mark};
use bas_items::Items;
use std::alloc::Global;

/// What an operand has to be, and which field of the statement it gives.
#[derive(Clone, Copy)]
pub enum Kind {
    /// The register `rd`.
    Rd,
    /// The register `rs1`.
    Rs1,
    /// The register `rs2`.
    Rs2,
    /// A number.
    Number,
    /// A number, and the register `rs1` in parentheses.
    Address,
    /// The name of a label.
    Label,
}

/// What the operands of a statement give.
#[derive(Drop)]
pub struct Fields<'a> {
    pub rd: u8,
    pub rs1: u8,
    pub rs2: u8,
    /// The text of the number.
    pub number: Text<'a>,
    pub label: Text<'a>,
}

fn register(text: &[u8]) -> Result<u8, AsmCause>
    ensures { result ≡ ok_or (register_of text.now) AsmCause.Operand }
{
    register_of(text).ok_or(AsmCause::Operand)
}

/// The register in parentheses behind a number.
#[tactic(auto, unfolding(crate::specs::Operands::base))]
fn base(text: &[u8]) -> Result<u8, AsmCause>
    ensures { result ≡ ok_or (base text.now) AsmCause.Operand }
{
    let (_number, behind) = split_at_mark(b"(", text);
    let base = behind.ok_or(AsmCause::Operand)?.strip_suffix(b")");
    register(base.ok_or(AsmCause::Operand)?)
}

/// The text, if it is of the kind number.
fn number<'a>(text: &'a [u8]) -> Result<Text<'a>, AsmCause>
    ensures { result ≡ if is_number text.now then Ok text.now else Err AsmCause.Operand }
{
    if !is_number(text) {
        return Err(AsmCause::Operand);
    }
    Ok(Text::new(text))
}

impl<'a> Fields<'a> {
    /// The fields of no operands.
    fn new() -> Fields<'a>
        ensures { result ≡ no_fields }
    {
        Fields {
            rd: 0,
            rs1: 0,
            rs2: 0,
            number: Text::new(b"0"),
            label: Text::new(b""),
        }
    }

    /// Adds what an operand of the kind gives, if it is of the kind.
    fn add(&mut self, kind: Kind, operand: &Text<'a>) -> Result<(), AsmCause>
        ensures kind { result ≡ if is_of kind operand.now then Ok tt else Err AsmCause.Operand }
        ensures field { OnOk result (self.new ≡ with_operand kind operand.now self.old) }
    {
        let text = operand.as_slice();
        match kind {
            Kind::Rd => self.rd = register(text)?,
            Kind::Rs1 => self.rs1 = register(text)?,
            Kind::Rs2 => self.rs2 = register(text)?,
            Kind::Number => self.number = number(text)?,
            Kind::Address => {
                number(text)?;
                self.rs1 = base(text)?;
                self.number = Text::new(split_at_mark(b"(", text).0);
            }
            Kind::Label => {
                if !is_name(text) {
                    return Err(AsmCause::Operand);
                }
                self.label = Text::new(text);
            }
        }
        Ok(())
    }
}

/// What operands give, if they are of these kinds.
fn fields_of<'a>(kinds: &[Kind], operands: &[Text<'a>]) -> Result<Fields<'a>, AsmCause>
    ensures { result ≡ if are_of kinds.now operands.now
        then Ok (fields_of kinds.now operands.now) else Err AsmCause.Operand }
{
    if kinds.len() != operands.len() {
        return Err(AsmCause::Operand);
    }
    let mut fields = Fields::new();
    for (i, kind) in kinds.iter().enumerate() {
        fields.add(*kind, &operands[i])?;
    }
    Ok(fields)
}

/// What operands of these kinds give, and the value of their number.
pub fn read<'a>(kinds: &[Kind], operands: &[Text<'a>]) -> Result<(Fields<'a>, i128), AsmCause>
    ensures { result ≡ unless_refused (Each kinds.now) operands.now
        (fields_of kinds.now operands.now, nearest_value (fields_of kinds.now operands.now).number) }
{
    let fields = fields_of(kinds, operands)?;
    let number = number_of(fields.number.as_slice()).ok_or(AsmCause::Number)?;
    Ok((fields, number))
}

fn all_numbers(operands: &[Text]) -> bool
    ensures { result ≡ list_all is_number operands.now }
{
    operands.iter().all(|text| is_number(text.as_slice()))
}

/// The values of texts, if each spells a number.
fn values(alloc: Global, texts: &[Text]) -> Result<Items<i128>, LineError>
    ensures { Answers result (if list_all is_spelled texts.now
        then Ok (map nearest_value texts.now) else Err AsmCause.Number) }
{
    let mut values = Items::new(alloc);
    for text in texts {
        values.push(number_of(text.as_slice()).ok_or(AsmCause::Number)?)?;
    }
    Ok(values)
}

/// The values of one number or more.
pub fn numbers(alloc: Global, operands: &[Text]) -> Result<Items<i128>, LineError>
    ensures { Answers result (unless_refused Numbers operands.now (map nearest_value operands.now)) }
{
    if operands.is_empty() || !all_numbers(operands) {
        return Err(LineError::Refused(AsmCause::Operand));
    }
    values(alloc, operands)
}

/// The bytes of one quoted text.
pub fn bytes(alloc: Global, operands: &[Text]) -> Result<Items<u8>, LineError>
    ensures { Answers result (unless_refused Quoted operands.now (bytes_in operands.now)) }
{
    let [text] = operands else {
        return Err(LineError::Refused(AsmCause::Operand));
    };
    Ok(quoted(alloc, text.as_slice())?.ok_or(AsmCause::Operand)?)
}
