ghost use Rattle.std.specs.Prelude.{◌≡◌, ◌<◌, ◌≤◌, ◌^◌, ◌+◌, IsTrue, IfSome};
ghost use Rattle.rv_core.specs.Listing.{NamesRegisters, form, decoded};
ghost use Rattle.rv_core.specs.Encoding.{is_signed_by, is_below, unsigned_by, has_registers, registers, encoded_as, encoded};

use crate::fields::bits;
use crate::instr::Instr;
use crate::listing::Layout;

/// Whether `imm` is from minus `half` up to `half`, without `half`.
fn is_signed_by(half: u32, imm: i64) -> bool
    ensures { result ≡ is_signed_by half imm }
{
    -i64::from(half) <= imm && imm < i64::from(half)
}

/// Whether `imm` is from 0 up to `bound`, without `bound`.
fn is_below(bound: u32, imm: i64) -> bool
    ensures { result ≡ is_below bound imm }
{
    0 <= imm && imm < i64::from(bound)
}

/// `imm` in two's complement, as a number below twice `half`.
fn unsigned_by(half: u32, imm: i64) -> u32
    requires half { half ≤ 2 ^ 31 }
    requires fits { IsTrue (is_signed_by half imm) }
    ensures value { result ≡ unsigned_by half imm }
    ensures bound { result < half + half }
{
    if imm < 0 {
        (imm + 2 * i64::from(half)) as u32
    } else {
        imm as u32
    }
}

/// Whether the registers that a layout has are below 32, and the others 0.
fn has_registers(i: &Instr, rd: bool, rs1: bool, rs2: bool) -> bool
    ensures { result ≡ has_registers rd rs1 rs2 i.now }
{
    let limit = |has: bool| if has { 32 } else { 1 };
    i.rd < limit(rd) && i.rs1 < limit(rs1) && i.rs2 < limit(rs2)
}

/// The register fields at their places.
fn registers(i: &Instr) -> u32
    requires { NamesRegisters i.now }
    ensures { result ≡ registers i.now }
{
    u32::from(i.rd) * (1 << 7) + u32::from(i.rs1) * (1 << 15) + u32::from(i.rs2) * (1 << 20)
}

/// The word under the layout U.
fn encode_u(i: &Instr, opcode: u32) -> Option<u32>
    requires { opcode < 2 ^ 7 }
    ensures { result ≡ encoded_as (Layout.U opcode) i.now }
{
    if !has_registers(i, true, false, false) || !is_signed_by(1 << 31, i.imm) {
        return None;
    }
    let n = unsigned_by(1 << 31, i.imm);
    if n % (1 << 12) != 0 {
        return None;
    }
    Some(opcode + registers(i) + n)
}

/// The word under the layout J.
fn encode_j(i: &Instr, opcode: u32) -> Option<u32>
    requires { opcode < 2 ^ 7 }
    ensures { result ≡ encoded_as (Layout.J opcode) i.now }
{
    if !has_registers(i, true, false, false) || !is_signed_by(1 << 20, i.imm) {
        return None;
    }
    let n = unsigned_by(1 << 20, i.imm);
    if n % 2 != 0 {
        return None;
    }
    let distance = bits(n, 19, 12) * (1 << 12)
        + bits(n, 11, 11) * (1 << 20)
        + bits(n, 10, 1) * (1 << 21)
        + bits(n, 20, 20) * (1 << 31);
    Some(opcode + registers(i) + distance)
}

/// The word under the layout I.
fn encode_i(i: &Instr, opcode: u32, f3: u32) -> Option<u32>
    requires opcode { opcode < 2 ^ 7 }
    requires f3 { f3 < 2 ^ 3 }
    ensures { result ≡ encoded_as (Layout.I opcode f3) i.now }
{
    if !has_registers(i, true, true, false) || !is_signed_by(1 << 11, i.imm) {
        return None;
    }
    let n = unsigned_by(1 << 11, i.imm);
    Some(opcode + f3 * (1 << 12) + registers(i) + n * (1 << 20))
}

/// The word under the layout S.
fn encode_s(i: &Instr, opcode: u32, f3: u32) -> Option<u32>
    requires opcode { opcode < 2 ^ 7 }
    requires f3 { f3 < 2 ^ 3 }
    ensures { result ≡ encoded_as (Layout.S opcode f3) i.now }
{
    if !has_registers(i, false, true, true) || !is_signed_by(1 << 11, i.imm) {
        return None;
    }
    let n = unsigned_by(1 << 11, i.imm);
    let offset = bits(n, 4, 0) * (1 << 7) + bits(n, 11, 5) * (1 << 25);
    Some(opcode + f3 * (1 << 12) + registers(i) + offset)
}

/// The word under the layout B.
fn encode_b(i: &Instr, opcode: u32, f3: u32) -> Option<u32>
    requires opcode { opcode < 2 ^ 7 }
    requires f3 { f3 < 2 ^ 3 }
    ensures { result ≡ encoded_as (Layout.B opcode f3) i.now }
{
    if !has_registers(i, false, true, true) || !is_signed_by(1 << 12, i.imm) {
        return None;
    }
    let n = unsigned_by(1 << 12, i.imm);
    if n % 2 != 0 {
        return None;
    }
    let distance = bits(n, 11, 11) * (1 << 7)
        + bits(n, 4, 1) * (1 << 8)
        + bits(n, 10, 5) * (1 << 25)
        + bits(n, 12, 12) * (1 << 31);
    Some(opcode + f3 * (1 << 12) + registers(i) + distance)
}

/// The word under the layout R.
fn encode_r(i: &Instr, opcode: u32, f3: u32, f7: u32) -> Option<u32>
    requires opcode { opcode < 2 ^ 7 }
    requires f3 { f3 < 2 ^ 3 }
    requires f7 { f7 < 2 ^ 7 }
    ensures { result ≡ encoded_as (Layout.R opcode f3 f7) i.now }
{
    if !has_registers(i, true, true, true) || i.imm != 0 {
        return None;
    }
    Some(opcode + f3 * (1 << 12) + f7 * (1 << 25) + registers(i))
}

/// The word of a shift of 64 bits by an amount.
fn encode_shift(i: &Instr, opcode: u32, f3: u32, f6: u32) -> Option<u32>
    requires opcode { opcode < 2 ^ 7 }
    requires f3 { f3 < 2 ^ 3 }
    requires f6 { f6 < 2 ^ 6 }
    ensures { result ≡ encoded_as (Layout.Shift opcode f3 f6) i.now }
{
    if !has_registers(i, true, true, false) || !is_below(64, i.imm) {
        return None;
    }
    Some(opcode + f3 * (1 << 12) + f6 * (1 << 26) + registers(i) + i.imm as u32 * (1 << 20))
}

/// The word of a shift of 32 bits by an amount.
fn encode_shift_32(i: &Instr, opcode: u32, f3: u32, f7: u32) -> Option<u32>
    requires opcode { opcode < 2 ^ 7 }
    requires f3 { f3 < 2 ^ 3 }
    requires f7 { f7 < 2 ^ 7 }
    ensures { result ≡ encoded_as (Layout.ShiftW opcode f3 f7) i.now }
{
    if !has_registers(i, true, true, false) || !is_below(32, i.imm) {
        return None;
    }
    Some(opcode + f3 * (1 << 12) + f7 * (1 << 25) + registers(i) + i.imm as u32 * (1 << 20))
}

/// The word of an instruction without fields.
fn encode_fixed(i: &Instr, word: u32) -> Option<u32>
    ensures { result ≡ encoded_as (Layout.Whole word) i.now }
{
    if !has_registers(i, false, false, false) || i.imm != 0 {
        return None;
    }
    Some(word)
}

/// The word under the layout of the instruction.
fn encode_by_layout(instr: &Instr) -> Option<u32>
    ensures { result ≡ encoded_as (form instr.now.op) instr.now }
{
    match instr.op.layout() {
        Layout::U(opcode) => encode_u(instr, opcode),
        Layout::J(opcode) => encode_j(instr, opcode),
        Layout::I(opcode, f3) => encode_i(instr, opcode, f3),
        Layout::S(opcode, f3) => encode_s(instr, opcode, f3),
        Layout::B(opcode, f3) => encode_b(instr, opcode, f3),
        Layout::R(opcode, f3, f7) => encode_r(instr, opcode, f3, f7),
        Layout::Shift(opcode, f3, f6) => encode_shift(instr, opcode, f3, f6),
        Layout::ShiftW(opcode, f3, f7) => encode_shift_32(instr, opcode, f3, f7),
        Layout::Ignored(opcode, f3) => encode_fixed(instr, opcode + f3 * (1 << 12)),
        Layout::Whole(word) => encode_fixed(instr, word),
    }
}

/// The word that spells `instr`; `None` exactly where a field is out of range, or one that the instruction
/// doesn't have isn't 0. The word decodes to `instr`.
#[tactic(auto, unfolding(crate::specs::Encoding::encoded))]
pub fn encode(instr: &Instr) -> Option<u32>
    ensures value { result ≡ encoded instr.now }
    ensures inverse { IfSome result (λ word. decoded word ≡ Some instr.now) }
{
    encode_by_layout(instr)
}
