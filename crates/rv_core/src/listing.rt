ghost use Rattle.std.specs.Prelude.{◌≡◌};
ghost use Rattle.rv_core.specs.Listing.{form, HasRoom};

use crate::instr::Op;

/// How an instruction is spelled as a word: its opcode (bits 6 to 0), then its funct3 (14 to 12) and
/// funct7 (31 to 25) where it has them.
#[derive(Clone, Copy, Debug, PartialEq, Eq)]
pub enum Layout {
    /// A destination, and the upper 20 bits of an immediate.
    U(u32),
    /// A destination and the distance of a jump.
    J(u32),
    /// A destination, a source and an immediate of 12 bits.
    I(u32, u32),
    /// Two sources and an immediate of 12 bits.
    S(u32, u32),
    /// Two sources and the distance of a branch.
    B(u32, u32),
    /// A destination and two sources.
    R(u32, u32, u32),
    /// A destination, a source and an amount of 6 bits, below a number of 6 bits (31 to 26).
    Shift(u32, u32, u32),
    /// A destination, a source and an amount of 5 bits.
    ShiftW(u32, u32, u32),
    /// Further fields, which are ignored.
    Ignored(u32, u32),
    /// One word.
    Whole(u32),
}

impl Op {
    /// The listing of instructions: how each is spelled.
    #[inline]
    pub fn layout(self) -> Layout
        ensures listed { result ≡ form self }
        ensures room { HasRoom result }
    {
        match self {
            Op::Lui => Layout::U(0x37),
            Op::Auipc => Layout::U(0x17),
            Op::Jal => Layout::J(0x6f),
            Op::Jalr => Layout::I(0x67, 0),
            Op::Beq => Layout::B(0x63, 0),
            Op::Bne => Layout::B(0x63, 1),
            Op::Blt => Layout::B(0x63, 4),
            Op::Bge => Layout::B(0x63, 5),
            Op::Bltu => Layout::B(0x63, 6),
            Op::Bgeu => Layout::B(0x63, 7),
            Op::Lb => Layout::I(0x03, 0),
            Op::Lh => Layout::I(0x03, 1),
            Op::Lw => Layout::I(0x03, 2),
            Op::Ld => Layout::I(0x03, 3),
            Op::Lbu => Layout::I(0x03, 4),
            Op::Lhu => Layout::I(0x03, 5),
            Op::Lwu => Layout::I(0x03, 6),
            Op::Sb => Layout::S(0x23, 0),
            Op::Sh => Layout::S(0x23, 1),
            Op::Sw => Layout::S(0x23, 2),
            Op::Sd => Layout::S(0x23, 3),
            Op::Addi => Layout::I(0x13, 0),
            Op::Slti => Layout::I(0x13, 2),
            Op::Sltiu => Layout::I(0x13, 3),
            Op::Xori => Layout::I(0x13, 4),
            Op::Ori => Layout::I(0x13, 6),
            Op::Andi => Layout::I(0x13, 7),
            Op::Slli => Layout::Shift(0x13, 1, 0x00),
            Op::Srli => Layout::Shift(0x13, 5, 0x00),
            Op::Srai => Layout::Shift(0x13, 5, 0x10),
            Op::Add => Layout::R(0x33, 0, 0x00),
            Op::Sub => Layout::R(0x33, 0, 0x20),
            Op::Sll => Layout::R(0x33, 1, 0x00),
            Op::Slt => Layout::R(0x33, 2, 0x00),
            Op::Sltu => Layout::R(0x33, 3, 0x00),
            Op::Xor => Layout::R(0x33, 4, 0x00),
            Op::Srl => Layout::R(0x33, 5, 0x00),
            Op::Sra => Layout::R(0x33, 5, 0x20),
            Op::Or => Layout::R(0x33, 6, 0x00),
            Op::And => Layout::R(0x33, 7, 0x00),
            Op::Addiw => Layout::I(0x1b, 0),
            Op::Slliw => Layout::ShiftW(0x1b, 1, 0x00),
            Op::Srliw => Layout::ShiftW(0x1b, 5, 0x00),
            Op::Sraiw => Layout::ShiftW(0x1b, 5, 0x20),
            Op::Addw => Layout::R(0x3b, 0, 0x00),
            Op::Subw => Layout::R(0x3b, 0, 0x20),
            Op::Sllw => Layout::R(0x3b, 1, 0x00),
            Op::Srlw => Layout::R(0x3b, 5, 0x00),
            Op::Sraw => Layout::R(0x3b, 5, 0x20),
            Op::Fence => Layout::Ignored(0x0f, 0),
            Op::FenceI => Layout::Ignored(0x0f, 1),
            Op::Ecall => Layout::Whole(0x0000_0073),
            Op::Ebreak => Layout::Whole(0x0010_0073),
        }
    }
}
