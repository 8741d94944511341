ghost use Rattle.std.specs.Prelude.{◌≡◌};
ghost use Rattle.std.specs.Option.{ok_or};
ghost use Rattle.rv_asm.specs.Operands.{Each, unless_refused};
ghost use Rattle.rv_asm.specs.Answers.{Answers, nearest_statement};
ghost use Rattle.rv_asm.specs.Mnemonics.{shape_of};
ghost use Rattle.rv_asm.specs.Statement.{word_named, unknown, kinds_by, pseudo_kinds, directive_syntax, syntax_of, statement_of};

use crate::AsmCause;
use crate::mnemonics::{
    Directive, Pseudo, Shape, directive_named, op_named, pseudo_named, shape_of,
};
use crate::operands::{Fields, Kind, bytes, numbers, read};
use crate::refusal::LineError;
use asm_text::Text;
use bas_items::Items;
use rv_core::Op;
use std::alloc::Global;

/// What the first word of a statement names.
#[derive(Clone, Copy)]
pub enum Word {
    Instruction(Op),
    Pseudo(Pseudo),
    Directive(Directive),
}

/// The size of a number in memory.
#[derive(Clone, Copy)]
pub enum Width {
    Byte,
    Word,
    Dword,
}

/// What a line puts into the program.
#[derive(Drop)]
pub enum Statement<'a> {
    /// An instruction that names no label, with its registers rd, rs1 and rs2 and its immediate.
    Plain(Op, u8, u8, u8, i128),
    /// LUI or AUIPC: the instruction, its destination and the number of a page.
    Upper(Op, u8, i128),
    /// A branch: the instruction, its two sources and the label.
    Branch(Op, u8, u8, Text<'a>),
    /// JAL: its destination and the label.
    Jump(u8, Text<'a>),
    /// The register gets the number.
    LoadNumber(u8, i128),
    /// The register gets the label's address.
    LoadAddress(u8, Text<'a>),
    /// Bytes as they stand.
    Bytes(Items<u8>),
    /// Numbers of one size.
    Numbers(Width, Items<i128>),
    /// So many zeros.
    Zeros(i128),
    /// Zeros up to a multiple of this power of 2.
    Align(i128),
}

/// What a first word names.
#[tactic(auto, unfolding(crate::specs::Statement::word_named))]
pub fn word_named(word: &[u8]) -> Result<Word, AsmCause>
    ensures { result ≡ ok_or (word_named word.now) (unknown word.now) }
{
    if word.starts_with(b".") {
        let directive = directive_named(word).ok_or(AsmCause::Directive)?;
        return Ok(Word::Directive(directive));
    }
    if let Some(op) = op_named(word) {
        return Ok(Word::Instruction(op));
    }
    let pseudo = pseudo_named(word).ok_or(AsmCause::Mnemonic)?;
    Ok(Word::Pseudo(pseudo))
}

/// The kinds of the operands of an instruction.
fn kinds_by(shape: Shape) -> &'static [Kind]
    ensures { result.now ≡ kinds_by shape }
{
    match shape {
        Shape::Registers => &[Kind::Rd, Kind::Rs1, Kind::Rs2],
        Shape::Immediate => &[Kind::Rd, Kind::Rs1, Kind::Number],
        Shape::Upper => &[Kind::Rd, Kind::Number],
        Shape::Load => &[Kind::Rd, Kind::Address],
        Shape::Store => &[Kind::Rs2, Kind::Address],
        Shape::Branch => &[Kind::Rs1, Kind::Rs2, Kind::Label],
        Shape::Jump => &[Kind::Rd, Kind::Label],
        Shape::Alone => &[],
    }
}

/// The kinds of the operands of what stands for instructions.
fn pseudo_kinds(pseudo: Pseudo) -> &'static [Kind]
    ensures { result.now ≡ pseudo_kinds pseudo }
{
    match pseudo {
        Pseudo::Li => &[Kind::Rd, Kind::Number],
        Pseudo::La => &[Kind::Rd, Kind::Label],
        Pseudo::Mv => &[Kind::Rd, Kind::Rs1],
        Pseudo::J | Pseudo::Call => &[Kind::Label],
        Pseudo::Ret | Pseudo::Nop => &[],
    }
}

/// An instruction with operands.
fn instruction<'a>(op: Op, operands: &[Text<'a>]) -> Result<Statement<'a>, AsmCause>
    ensures { result ≡ unless_refused (Each (kinds_by (shape_of op))) operands.now
        (nearest_statement (statement_of (Word.Instruction op) operands.now)) }
{
    let shape = shape_of(op);
    let (fields, n) = read(kinds_by(shape), operands)?;
    let Fields {
        rd,
        rs1,
        rs2,
        number: _,
        label,
    } = fields;
    match shape {
        Shape::Upper => Ok(Statement::Upper(op, rd, n)),
        Shape::Branch => Ok(Statement::Branch(op, rs1, rs2, label)),
        Shape::Jump => Ok(Statement::Jump(rd, label)),
        Shape::Registers | Shape::Immediate | Shape::Load | Shape::Store | Shape::Alone => {
            Ok(Statement::Plain(op, rd, rs1, rs2, n))
        }
    }
}

/// What stands for instructions, with operands.
fn pseudo<'a>(pseudo: Pseudo, operands: &[Text<'a>]) -> Result<Statement<'a>, AsmCause>
    ensures { result ≡ unless_refused (Each (pseudo_kinds pseudo)) operands.now
        (nearest_statement (statement_of (Word.Pseudo pseudo) operands.now)) }
{
    let (fields, n) = read(pseudo_kinds(pseudo), operands)?;
    let Fields {
        rd,
        rs1,
        rs2: _,
        number: _,
        label,
    } = fields;
    match pseudo {
        Pseudo::Li => Ok(Statement::LoadNumber(rd, n)),
        Pseudo::La => Ok(Statement::LoadAddress(rd, label)),
        Pseudo::Mv => Ok(Statement::Plain(Op::Addi, rd, rs1, 0, 0)),
        Pseudo::J => Ok(Statement::Jump(0, label)),
        Pseudo::Call => Ok(Statement::Jump(1, label)),
        Pseudo::Ret => Ok(Statement::Plain(Op::Jalr, 0, 1, 0, 0)),
        Pseudo::Nop => Ok(Statement::Plain(Op::Addi, 0, 0, 0, 0)),
    }
}

/// A directive with operands.
fn directive<'a>(
    alloc: Global,
    directive: Directive,
    operands: &[Text<'a>],
) -> Result<Statement<'a>, LineError>
    ensures { Answers result (unless_refused (directive_syntax directive) operands.now
        (nearest_statement (statement_of (Word.Directive directive) operands.now))) }
{
    match directive {
        Directive::Ascii => Ok(Statement::Bytes(bytes(alloc, operands)?)),
        Directive::Byte => Ok(Statement::Numbers(Width::Byte, numbers(alloc, operands)?)),
        Directive::Word => Ok(Statement::Numbers(Width::Word, numbers(alloc, operands)?)),
        Directive::Dword => Ok(Statement::Numbers(Width::Dword, numbers(alloc, operands)?)),
        Directive::Zero => Ok(Statement::Zeros(read(&[Kind::Number], operands)?.1)),
        Directive::Align => Ok(Statement::Align(read(&[Kind::Number], operands)?.1)),
    }
}

/// The statement of a word with operands, or the cause for which these are refused.
pub fn statement_of<'a>(
    alloc: Global,
    word: Word,
    operands: &[Text<'a>],
) -> Result<Statement<'a>, LineError>
    ensures { Answers result (unless_refused (syntax_of word) operands.now
        (nearest_statement (statement_of word operands.now))) }
{
    match word {
        Word::Instruction(op) => Ok(instruction(op, operands)?),
        Word::Pseudo(named) => Ok(pseudo(named, operands)?),
        Word::Directive(named) => directive(alloc, named, operands),
    }
}
