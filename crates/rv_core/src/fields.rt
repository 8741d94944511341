ghost use Rattle.std.specs.Prelude.{◌≡◌, ◌<◌, ◌≤◌, ◌^◌, ◌+◌};
ghost use Rattle.rv_core.specs.Listing.{bits, signed_by, branch_distance, jump_distance, fields_of};

use crate::instr::{Instr, Op};
use crate::listing::Layout;

/// Bits `high` to `low` of `word`, as a number.
#[inline]
pub(crate) fn bits(word: u32, high: u32, low: u32) -> u32
    requires order { low ≤ high }
    requires within { high < 32 }
    requires part { high < low + 31 }
    ensures { result ≡ bits word high low }
{
    (word >> low) % (1 << (high + 1 - low))
}

/// A number below twice `half` in two's complement.
#[inline]
fn signed_by(half: u32, n: u32) -> i64
    requires { half ≤ 2 ^ 31 }
    ensures { result ≡ signed_by half n }
{
    if n < half {
        i64::from(n)
    } else {
        i64::from(n) - 2 * i64::from(half)
    }
}

/// The distance of a branch.
#[inline]
fn branch_distance(word: u32) -> i64
    ensures { result ≡ branch_distance word }
{
    let n = bits(word, 31, 31) * (1 << 12)
        + bits(word, 7, 7) * (1 << 11)
        + bits(word, 30, 25) * (1 << 5)
        + bits(word, 11, 8) * 2;
    signed_by(1 << 12, n)
}

/// The distance of a jump.
#[inline]
fn jump_distance(word: u32) -> i64
    ensures { result ≡ jump_distance word }
{
    let n = bits(word, 31, 31) * (1 << 20)
        + bits(word, 19, 12) * (1 << 12)
        + bits(word, 20, 20) * (1 << 11)
        + bits(word, 30, 21) * 2;
    signed_by(1 << 20, n)
}

/// The instruction `op` with the fields that `word` holds.
#[inline]
pub(crate) fn fields_of(word: u32, op: Op) -> Instr
    ensures { result ≡ fields_of word op }
{
    let rd = bits(word, 11, 7) as u8;
    let rs1 = bits(word, 19, 15) as u8;
    let rs2 = bits(word, 24, 20) as u8;
    match op.layout() {
        Layout::U(_) => {
            let imm = signed_by(1 << 31, bits(word, 31, 12) * (1 << 12));
            Instr::new(op, rd, 0, 0, imm)
        }
        Layout::J(_) => Instr::new(op, rd, 0, 0, jump_distance(word)),
        Layout::I(..) => {
            let imm = signed_by(1 << 11, bits(word, 31, 20));
            Instr::new(op, rd, rs1, 0, imm)
        }
        Layout::S(..) => {
            let imm = signed_by(1 << 11, bits(word, 31, 25) * (1 << 5) + bits(word, 11, 7));
            Instr::new(op, 0, rs1, rs2, imm)
        }
        Layout::B(..) => Instr::new(op, 0, rs1, rs2, branch_distance(word)),
        Layout::R(..) => Instr::new(op, rd, rs1, rs2, 0),
        Layout::Shift(..) => Instr::new(op, rd, rs1, 0, i64::from(bits(word, 25, 20))),
        Layout::ShiftW(..) => Instr::new(op, rd, rs1, 0, i64::from(bits(word, 24, 20))),
        Layout::Ignored(..) | Layout::Whole(_) => Instr::new(op, 0, 0, 0, 0),
    }
}
