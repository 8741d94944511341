ghost use Rattle.std.specs.Prelude.{◌≡◌, ℕ};
ghost use Rattle.rv_core.specs.Listing.{op_at, op_of};

use crate::fields::bits;
use crate::instr::Op;

/// The branch with this funct3.
#[inline]
fn branch_of(f3: u32) -> Option<Op>
    ensures { (w f6 f7 : ℕ) → result ≡ op_at w 0x63 f3 f6 f7 }
{
    match f3 {
        0 => Some(Op::Beq),
        1 => Some(Op::Bne),
        4 => Some(Op::Blt),
        5 => Some(Op::Bge),
        6 => Some(Op::Bltu),
        7 => Some(Op::Bgeu),
        _ => None,
    }
}

/// The load with this funct3.
#[inline]
fn load_of(f3: u32) -> Option<Op>
    ensures { (w f6 f7 : ℕ) → result ≡ op_at w 0x03 f3 f6 f7 }
{
    match f3 {
        0 => Some(Op::Lb),
        1 => Some(Op::Lh),
        2 => Some(Op::Lw),
        3 => Some(Op::Ld),
        4 => Some(Op::Lbu),
        5 => Some(Op::Lhu),
        6 => Some(Op::Lwu),
        _ => None,
    }
}

/// The store with this funct3.
#[inline]
fn store_of(f3: u32) -> Option<Op>
    ensures { (w f6 f7 : ℕ) → result ≡ op_at w 0x23 f3 f6 f7 }
{
    match f3 {
        0 => Some(Op::Sb),
        1 => Some(Op::Sh),
        2 => Some(Op::Sw),
        3 => Some(Op::Sd),
        _ => None,
    }
}

/// The instruction on a register and an immediate.
#[inline]
fn immediate_of(f3: u32, f6: u32) -> Option<Op>
    ensures { (w f7 : ℕ) → result ≡ op_at w 0x13 f3 f6 f7 }
{
    match f3 {
        0 => Some(Op::Addi),
        1 if f6 == 0x00 => Some(Op::Slli),
        2 => Some(Op::Slti),
        3 => Some(Op::Sltiu),
        4 => Some(Op::Xori),
        5 if f6 == 0x00 => Some(Op::Srli),
        5 if f6 == 0x10 => Some(Op::Srai),
        6 => Some(Op::Ori),
        7 => Some(Op::Andi),
        _ => None,
    }
}

/// The instruction on two registers.
#[inline]
fn register_of(f3: u32, f7: u32) -> Option<Op>
    ensures { (w f6 : ℕ) → result ≡ op_at w 0x33 f3 f6 f7 }
{
    match (f3, f7) {
        (0, 0x00) => Some(Op::Add),
        (0, 0x20) => Some(Op::Sub),
        (1, 0x00) => Some(Op::Sll),
        (2, 0x00) => Some(Op::Slt),
        (3, 0x00) => Some(Op::Sltu),
        (4, 0x00) => Some(Op::Xor),
        (5, 0x00) => Some(Op::Srl),
        (5, 0x20) => Some(Op::Sra),
        (6, 0x00) => Some(Op::Or),
        (7, 0x00) => Some(Op::And),
        _ => None,
    }
}

/// The instruction on 32 bits of a register and an immediate.
#[inline]
fn immediate_32_of(f3: u32, f7: u32) -> Option<Op>
    ensures { (w f6 : ℕ) → result ≡ op_at w 0x1b f3 f6 f7 }
{
    match f3 {
        0 => Some(Op::Addiw),
        1 if f7 == 0x00 => Some(Op::Slliw),
        5 if f7 == 0x00 => Some(Op::Srliw),
        5 if f7 == 0x20 => Some(Op::Sraiw),
        _ => None,
    }
}

/// The instruction on 32 bits of two registers.
#[inline]
fn register_32_of(f3: u32, f7: u32) -> Option<Op>
    ensures { (w f6 : ℕ) → result ≡ op_at w 0x3b f3 f6 f7 }
{
    match (f3, f7) {
        (0, 0x00) => Some(Op::Addw),
        (0, 0x20) => Some(Op::Subw),
        (1, 0x00) => Some(Op::Sllw),
        (5, 0x00) => Some(Op::Srlw),
        (5, 0x20) => Some(Op::Sraw),
        _ => None,
    }
}

/// The fence with this funct3.
#[inline]
fn fence_of(f3: u32) -> Option<Op>
    ensures { (w f6 f7 : ℕ) → result ≡ op_at w 0x0f f3 f6 f7 }
{
    match f3 {
        0 => Some(Op::Fence),
        1 => Some(Op::FenceI),
        _ => None,
    }
}

/// The instruction that is this one word.
#[inline]
fn system_of(word: u32) -> Option<Op>
    ensures { (f3 f6 f7 : ℕ) → result ≡ op_at word 0x73 f3 f6 f7 }
{
    match word {
        0x0000_0073 => Some(Op::Ecall),
        0x0010_0073 => Some(Op::Ebreak),
        _ => None,
    }
}

/// The instruction whose layout the word has.
#[inline]
pub(crate) fn op_of(word: u32) -> Option<Op>
    ensures { result ≡ op_of word }
{
    let f3 = bits(word, 14, 12);
    let f7 = bits(word, 31, 25);
    match bits(word, 6, 0) {
        0x37 => Some(Op::Lui),
        0x17 => Some(Op::Auipc),
        0x6f => Some(Op::Jal),
        0x67 if f3 == 0 => Some(Op::Jalr),
        0x63 => branch_of(f3),
        0x03 => load_of(f3),
        0x23 => store_of(f3),
        0x13 => immediate_of(f3, bits(word, 31, 26)),
        0x33 => register_of(f3, f7),
        0x1b => immediate_32_of(f3, f7),
        0x3b => register_32_of(f3, f7),
        0x0f => fence_of(f3),
        0x73 => system_of(word),
        _ => None,
    }
}
