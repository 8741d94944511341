ghost use Rattle.std.specs.Prelude.{◌≡◌, ◌≤◌, ◌<◌, ◌+◌, ◌-◌, ◌^◌, ◌++◌, ◌∷◌, [], true, false, ◌&&◌, min, pos, negsuc, ◌-ℤ◌, ◌≤ℤ◌, IfOk, OnOk, option_map, replicate};
ghost use Rattle.std.specs.Option.{ok_or};
ghost use Rattle.std.specs.List.{flat_map, list_all};
ghost use Rattle.rv_core.specs.Encoding.{encoded, is_signed_by, is_below};
ghost use Rattle.rv_asm.specs.declared.AsmCause.TheVariants.{Label};
ghost use Rattle.rv_asm.specs.Words.{words_list, HasWords, HasAppended};
ghost use Rattle.rv_asm.specs.Encoding.{base, width_size, fits_width, is_short, padding, count_of, statement_size, residue, low_part, high_part, page_immediate, instr, two_instructions, number_instructions, instructions_of, fits_word, fits_values, is_undefined, word_bytes, number_bytes, data_of, bytes_of};
ghost use Rattle.rv_asm.specs.Answers.{farthest, nearest_address};
ghost use Rattle.rv_asm.specs.Labels.{defined};

use crate::AsmCause;
use crate::labels::{Definition, Labels};
use crate::refusal::LineError;
use crate::statement::{Statement, Width};
use rv_core::{Instr, Op, encode};
use std::alloc::AllocError;

/// The address of the first byte behind the headers.
pub const BASE: u64 = 0x10078;

/// The greatest address that the bytes may end at.
const LIMIT: u64 = BASE + (1 << 20);

/// The words of no instruction, of one or of two.
#[derive(Clone, Copy)]
pub enum Words {
    Empty,
    One(u32),
    Two(u32, u32),
}

/// The address behind so many bytes, or the greatest.
pub fn address_behind(at: u64, size: u64) -> u64
    ensures { result ≡ nearest_address (at + size) }
{
    at.saturating_add(size)
}

impl Width {
    fn size(self) -> usize
        ensures { result ≡ width_size self }
    {
        match self {
            Width::Byte => 1,
            Width::Word => 4,
            Width::Dword => 8,
        }
    }

    /// Whether the number fits, with a sign or without.
    fn fits(self, number: i128) -> bool
        ensures { result ≡ fits_width self number }
    {
        let half: i128 = match self {
            Width::Byte => 1 << 7,
            Width::Word => 1 << 31,
            Width::Dword => 1 << 63,
        };
        -half <= number && number < 2 * half
    }
}

/// Whether ADDI can add the number.
fn is_short(number: i128) -> bool
    ensures { result ≡ is_short number }
{
    -2048 <= number && number < 2048
}

/// How many zeros there are up to a multiple of 2^`n`.
fn padding(at: u64, n: u64) -> u64
    requires { n < 13 }
    ensures { result ≡ padding at n }
{
    let multiple = 1u64 << n;
    (multiple - at % multiple) % multiple
}

/// The number modulo twice `half`, from minus `half` on.
fn residue(half: u32, number: i128) -> i128
    requires low { 0 < half }
    requires high { half ≤ 2 ^ 31 }
    ensures value { result ≡ residue half number }
    ensures lower { negsuc (2 ^ 31) ≤ℤ result }
    ensures upper { result ≤ℤ pos (2 ^ 31) }
{
    let half = i128::from(half);
    let whole = half + half;
    let rest = number.rem_euclid(whole);
    if rest < half { rest } else { rest - whole }
}

#[tactic(auto, unfolding(crate::specs::Encoding::low_part))]
fn low_part(number: i128) -> i128
    ensures value { result ≡ low_part number }
    ensures lower { negsuc (2 ^ 31) ≤ℤ result }
    ensures upper { result ≤ℤ pos (2 ^ 31) }
{
    residue(1 << 11, number)
}

fn high_part(number: i128) -> i128
    requires low { negsuc (2 ^ 64) ≤ℤ number }
    requires high { number ≤ℤ pos (2 ^ 64) }
    ensures value { result ≡ high_part number }
    ensures lower { negsuc (2 ^ 31) ≤ℤ result }
    ensures upper { result ≤ℤ pos (2 ^ 31) }
{
    residue(1 << 31, number - low_part(number))
}

/// The word of the instruction with these fields.
fn word(op: Op, rd: u8, rs1: u8, rs2: u8, imm: i128) -> Result<u32, AsmCause>
    ensures { result ≡ ok_or (encoded (instr op rd rs1 rs2 imm)) AsmCause.Range }
{
    let Ok(imm) = i64::try_from(imm) else {
        return Err(AsmCause::Range);
    };
    let instr = Instr {
        op,
        rd,
        rs1,
        rs2,
        imm,
    };
    encode(&instr).ok_or(AsmCause::Range)
}

/// How far a label is from `at`.
fn distance(found: Option<Definition>, at: u64) -> Result<i128, AsmCause>
    ensures value { result ≡ ok_or (option_map (λ d. pos d.address -ℤ pos at) found) Label }
    ensures low { IfOk result (λ d. negsuc (2 ^ 64) ≤ℤ d) }
    ensures high { IfOk result (λ d. d ≤ℤ pos (2 ^ 64)) }
{
    let definition = found.ok_or(AsmCause::Label)?;
    Ok(i128::from(definition.address) - i128::from(at))
}

/// The one word of an instruction.
fn one(op: Op, rd: u8, rs1: u8, rs2: u8, imm: i128) -> Result<Words, AsmCause>
    ensures { HasWords result false (fits_word (instr op rd rs1 rs2 imm) && true) (instr op rd rs1 rs2 imm ∷ []) }
{
    Ok(Words::One(word(op, rd, rs1, rs2, imm)?))
}

/// The word of LUI or AUIPC with the number of a page.
#[tactic(auto, unfolding(crate::specs::Encoding::page_immediate))]
fn upper(op: Op, rd: u8, page: i128) -> Result<Words, AsmCause>
    ensures { HasWords result false (is_below (2 ^ 20) page && (fits_word (instr op rd 0 0 (page_immediate page)) && true))
        (instr op rd 0 0 (page_immediate page) ∷ []) }
{
    if page < 0 || page >= 1 << 20 {
        return Err(AsmCause::Range);
    }
    one(op, rd, 0, 0, residue(1 << 31, page * (1 << 12)))
}

/// The words of an instruction with the high part of a number, and of one that adds the low part.
fn two(upper: Op, lower: Op, rd: u8, number: i128) -> Result<Words, AsmCause>
    requires low { negsuc (2 ^ 64) ≤ℤ number }
    requires high { number ≤ℤ pos (2 ^ 64) }
    ensures { HasWords result false (list_all fits_word (two_instructions upper lower rd number))
        (two_instructions upper lower rd number) }
{
    let upper = word(upper, rd, 0, 0, high_part(number))?;
    let lower = word(lower, rd, rd, 0, low_part(number))?;
    Ok(Words::Two(upper, lower))
}

/// The words by which a register gets a number.
fn number_words(rd: u8, number: i128) -> Result<Words, AsmCause>
    ensures { HasWords result false
        (is_signed_by (2 ^ 31) number && list_all fits_word (number_instructions rd number)) (number_instructions rd number) }
{
    if number < -(1 << 31) || number >= 1 << 31 {
        return Err(AsmCause::Range);
    }
    if is_short(number) {
        return one(Op::Addi, rd, 0, 0, number);
    }
    two(Op::Lui, Op::Addiw, rd, number)
}

/// No words, where the values of data fit.
fn empty_if(fits: bool) -> Result<Words, AsmCause>
    ensures { HasWords result false (fits && true) [] }
{
    if fits {
        Ok(Words::Empty)
    } else {
        Err(AsmCause::Range)
    }
}

fn all_fit(width: Width, numbers: &[i128]) -> bool
    ensures { result ≡ list_all (fits_width width) numbers.now }
{
    numbers.iter().all(|number| width.fits(*number))
}

impl Words {
    /// Appends the bytes of the words.
    fn append_to(self, out: &mut Vec<u8>) -> Result<(), AllocError>
        ensures { OnOk result (out.new.items ≡ out.old.items ++ flat_map word_bytes (words_list self)) }
    {
        match self {
            Words::Empty => Ok(()),
            Words::One(word) => out.extend_from_slice(word.to_le_bytes().as_slice()),
            Words::Two(first, second) => {
                out.extend_from_slice(first.to_le_bytes().as_slice())?;
                out.extend_from_slice(second.to_le_bytes().as_slice())
            }
        }
    }
}

/// Appends so many zeros.
fn append_zeros(count: u64, out: &mut Vec<u8>) -> Result<(), AllocError>
    ensures { OnOk result (out.new.items ≡ out.old.items ++ replicate count 0) }
{
    for _ in 0..count {
        out.push(0)?;
    }
    Ok(())
}

/// Appends the low bytes of the number in two's complement.
fn append_number(width: Width, number: i128, out: &mut Vec<u8>) -> Result<(), AllocError>
    ensures { OnOk result (out.new.items ≡ out.old.items ++ number_bytes width number) }
{
    let bytes = number.to_le_bytes();
    out.extend_from_slice(&bytes[..width.size()])
}

/// Appends the bytes of the numbers.
fn append_numbers(width: Width, numbers: &[i128], out: &mut Vec<u8>) -> Result<(), AllocError>
    ensures { OnOk result (out.new.items ≡ out.old.items ++ flat_map (number_bytes width) numbers.now) }
{
    for number in numbers {
        append_number(width, *number, out)?;
    }
    Ok(())
}

impl<'a> Statement<'a> {
    /// How many bytes it takes at an address, or the greatest number.
    pub fn size(&self, at: u64) -> u64
        ensures { result ≡ min farthest (statement_size at self.now) }
    {
        match self {
            Statement::Plain(_, _, _, _, _)
            | Statement::Upper(_, _, _)
            | Statement::Branch(_, _, _, _)
            | Statement::Jump(_, _) => 4,
            Statement::LoadNumber(_, number) => { if is_short(*number) { 4 } else { 8 } }
            Statement::LoadAddress(_, _) => 8,
            Statement::Bytes(bytes) => bytes.len() as u64,
            Statement::Numbers(width, numbers) => {
                (width.size() as u64).saturating_mul(numbers.len() as u64)
            }
            Statement::Zeros(count) => (*count).clamp(0, i128::from(u64::MAX)) as u64,
            Statement::Align(n) => {
                if *n < 0 || *n >= 13 {
                    return 0;
                }
                padding(at, *n as u64)
            }
        }
    }

    /// The words of its instructions, or the first cause for which its labels and values refuse it.
    #[tactic(auto, unfolding(crate::specs::Encoding::instructions_of))]
    fn words(&self, labels: &Labels<'a>, at: u64) -> Result<Words, AsmCause>
        ensures { HasWords result (is_undefined (defined labels.now) self.now) (fits_values (defined labels.now) at self.now)
            (instructions_of (defined labels.now) at self.now) }
    {
        match self {
            Statement::Plain(op, rd, rs1, rs2, imm) => one(*op, *rd, *rs1, *rs2, *imm),
            Statement::Upper(op, rd, page) => upper(*op, *rd, *page),
            Statement::Branch(op, rs1, rs2, label) => {
                one(*op, 0, *rs1, *rs2, distance(labels.get(label), at)?)
            }
            Statement::Jump(rd, label) => {
                one(Op::Jal, *rd, 0, 0, distance(labels.get(label), at)?)
            }
            Statement::LoadNumber(rd, number) => number_words(*rd, *number),
            Statement::LoadAddress(rd, label) => {
                two(Op::Auipc, Op::Addi, *rd, distance(labels.get(label), at)?)
            }
            Statement::Bytes(_) => Ok(Words::Empty),
            Statement::Numbers(width, numbers) => empty_if(all_fit(*width, numbers.as_slice())),
            Statement::Zeros(count) => empty_if(*count >= 0),
            Statement::Align(n) => empty_if(0 <= *n && *n < 13),
        }
    }

    /// Appends the bytes that aren't instructions.
    #[tactic(auto, unfolding(crate::specs::Encoding::data_of))]
    fn append_data(&self, at: u64, out: &mut Vec<u8>) -> Result<(), AllocError>
        requires { statement_size at self.now < farthest }
        ensures { OnOk result (out.new.items ≡ out.old.items ++ data_of at self.now) }
    {
        match self {
            Statement::Bytes(bytes) => out.extend_from_slice(bytes.as_slice()),
            Statement::Numbers(width, numbers) => append_numbers(*width, numbers.as_slice(), out),
            Statement::Zeros(_) | Statement::Align(_) => append_zeros(self.size(at), out),
            Statement::Plain(_, _, _, _, _)
            | Statement::Upper(_, _, _)
            | Statement::Branch(_, _, _, _)
            | Statement::Jump(_, _)
            | Statement::LoadNumber(_, _)
            | Statement::LoadAddress(_, _) => Ok(()),
        }
    }

    /// Appends its bytes, or gives the first cause for which its labels, values and size refuse it.
    #[tactic(auto, unfolding(crate::specs::Encoding::bytes_of))]
    pub fn append(&self, labels: &Labels<'a>, at: u64, out: &mut Vec<u8>) -> Result<(), LineError>
        ensures { HasAppended (bytes_of (defined labels.now) at self.now) out.old.items out.new.items result }
    {
        let words = self.words(labels, at)?;
        if address_behind(at, self.size(at)) > LIMIT {
            return Err(LineError::Refused(AsmCause::Big));
        }
        words.append_to(out)?;
        self.append_data(at, out)?;
        Ok(())
    }
}
