ghost use Rattle.std.specs.Prelude.{◌≡◌, ◌*◌, ◌%◌, ◌^◌, ◌<◌};
ghost use Rattle.rv_core.specs.Rows.{row, sign_extended, shift_right_32};
ghost use Rattle.rv_core.specs.Memory.{IsSize};
ghost use Rattle.rv_core.specs.Rows.{HasSize};

use crate::instr::Op;

/// What an instruction does to the registers, the program counter and memory.
#[derive(Clone, Copy)]
pub(crate) enum Effect {
    /// The destination gets a value.
    Sets(u64),
    /// The destination gets the address of the next instruction, and the program counter goes to an address.
    Jumps(u64),
    /// The program counter goes to an address if the test holds.
    Branches(bool, u64),
    /// The destination gets the bytes at an address: how many, and whether their sign is extended.
    Loads(u64, u8, bool),
    /// The bytes at an address, how many, get the low bytes of a value.
    Stores(u64, u8, u64),
    /// Only the program counter goes on.
    Nothing,
    /// A trap with its cause and value.
    Traps(u8, u64),
}

/// The low 32 bits.
#[inline(always)]
fn low(value: u64) -> u32
    ensures { result ≡ value % 2 ^ 32 }
{
    (value % (1 << 32)) as u32
}

/// The low `size` bytes as a signed number, extended to 64 bits.
#[inline(always)]
pub(crate) fn extend(value: u64, size: u8) -> u64
    requires { IsSize size }
    ensures { result ≡ sign_extended (8 * size) value }
{
    match size {
        1 => i64::from(((value % (1 << 8)) as u8).cast_signed()).cast_unsigned(),
        2 => i64::from(((value % (1 << 16)) as u16).cast_signed()).cast_unsigned(),
        4 => i64::from(low(value).cast_signed()).cast_unsigned(),
        _ => value,
    }
}

/// The low 32 bits as a signed number, shifted to the right by `count` and extended to 64 bits.
#[inline(always)]
fn shift_right_32(value: u64, count: u64) -> u64
    requires { count < 32 }
    ensures { result ≡ shift_right_32 value count }
{
    i64::from(low(value).cast_signed() >> count).cast_unsigned()
}

/// What an instruction at `pc` does: `i` is its immediate modulo 2^64, `a` and `b` are what its first and
/// second source registers hold.
#[inline(always)]
pub(crate) fn effect_of(op: Op, pc: u64, i: u64, a: u64, b: u64) -> Effect
    ensures row { result ≡ row op pc i a b }
    ensures size { HasSize result }
{
    match op {
        Op::Lui => Effect::Sets(i),
        Op::Auipc => Effect::Sets(pc.wrapping_add(i)),
        Op::Jal => Effect::Jumps(pc.wrapping_add(i)),
        Op::Jalr => Effect::Jumps(a.wrapping_add(i) - a.wrapping_add(i) % 2),
        Op::Beq => Effect::Branches(a == b, pc.wrapping_add(i)),
        Op::Bne => Effect::Branches(a != b, pc.wrapping_add(i)),
        Op::Blt => Effect::Branches(a.cast_signed() < b.cast_signed(), pc.wrapping_add(i)),
        Op::Bge => Effect::Branches(a.cast_signed() >= b.cast_signed(), pc.wrapping_add(i)),
        Op::Bltu => Effect::Branches(a < b, pc.wrapping_add(i)),
        Op::Bgeu => Effect::Branches(a >= b, pc.wrapping_add(i)),
        Op::Lb => Effect::Loads(a.wrapping_add(i), 1, true),
        Op::Lh => Effect::Loads(a.wrapping_add(i), 2, true),
        Op::Lw => Effect::Loads(a.wrapping_add(i), 4, true),
        Op::Ld => Effect::Loads(a.wrapping_add(i), 8, false),
        Op::Lbu => Effect::Loads(a.wrapping_add(i), 1, false),
        Op::Lhu => Effect::Loads(a.wrapping_add(i), 2, false),
        Op::Lwu => Effect::Loads(a.wrapping_add(i), 4, false),
        Op::Sb => Effect::Stores(a.wrapping_add(i), 1, b),
        Op::Sh => Effect::Stores(a.wrapping_add(i), 2, b),
        Op::Sw => Effect::Stores(a.wrapping_add(i), 4, b),
        Op::Sd => Effect::Stores(a.wrapping_add(i), 8, b),
        Op::Addi => Effect::Sets(a.wrapping_add(i)),
        Op::Slti => Effect::Sets(u64::from(a.cast_signed() < i.cast_signed())),
        Op::Sltiu => Effect::Sets(u64::from(a < i)),
        Op::Xori => Effect::Sets(a ^ i),
        Op::Ori => Effect::Sets(a | i),
        Op::Andi => Effect::Sets(a & i),
        Op::Slli => Effect::Sets(a << (i % 64)),
        Op::Srli => Effect::Sets(a >> (i % 64)),
        Op::Srai => Effect::Sets((a.cast_signed() >> (i % 64)).cast_unsigned()),
        Op::Add => Effect::Sets(a.wrapping_add(b)),
        Op::Sub => Effect::Sets(a.wrapping_sub(b)),
        Op::Sll => Effect::Sets(a << (b % 64)),
        Op::Slt => Effect::Sets(u64::from(a.cast_signed() < b.cast_signed())),
        Op::Sltu => Effect::Sets(u64::from(a < b)),
        Op::Xor => Effect::Sets(a ^ b),
        Op::Srl => Effect::Sets(a >> (b % 64)),
        Op::Sra => Effect::Sets((a.cast_signed() >> (b % 64)).cast_unsigned()),
        Op::Or => Effect::Sets(a | b),
        Op::And => Effect::Sets(a & b),
        Op::Addiw => Effect::Sets(extend(a.wrapping_add(i), 4)),
        Op::Slliw => Effect::Sets(extend(u64::from(low(a)) << (i % 32), 4)),
        Op::Srliw => Effect::Sets(extend(u64::from(low(a)) >> (i % 32), 4)),
        Op::Sraiw => Effect::Sets(shift_right_32(a, i % 32)),
        Op::Addw => Effect::Sets(extend(a.wrapping_add(b), 4)),
        Op::Subw => Effect::Sets(extend(a.wrapping_sub(b), 4)),
        Op::Sllw => Effect::Sets(extend(u64::from(low(a)) << (b % 32), 4)),
        Op::Srlw => Effect::Sets(extend(u64::from(low(a)) >> (b % 32), 4)),
        Op::Sraw => Effect::Sets(shift_right_32(a, b % 32)),
        Op::Fence | Op::FenceI => Effect::Nothing,
        Op::Ecall => Effect::Traps(8, 0),
        Op::Ebreak => Effect::Traps(3, pc),
    }
}
