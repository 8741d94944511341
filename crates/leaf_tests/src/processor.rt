ghost use Rattle.std.specs.Prelude.{◌≡◌, ◌≤◌, ◌<◌, ◌^◌, IfSome};
ghost use Rattle.rv_core.specs.Memory.{byte_at, number_at};

use rv_core::{Cells, Context, Ended, Instr, Op, Trap, decode, encode, slice, step};
use std::process::Abort;

/// A word that can be run, and eight bytes after it that can be read; nothing can be written.
#[derive(Clone, Copy)]
struct Rom {
    start: u64,
    bytes: [u8; 12],
}

impl Rom {
    fn new(start: u64, word: u32, data: [u8; 8]) -> Rom {
        let [a, b, c, d] = word.to_le_bytes();
        let [e, f, g, h, i, j, k, l] = data;
        Rom {
            start,
            bytes: [a, b, c, d, e, f, g, h, i, j, k, l],
        }
    }

    fn byte(&self, right: u8, at: u64) -> Option<u8>
        ensures { result ≡ byte_at (⟦<Rom as Cells>⟧.memory self.now) right at }
    {
        let place = at.wrapping_sub(self.start);
        let rights = if place < 4 { 4 } else { 1 };
        if place < 12 && rights & right == right {
            Some(self.bytes[place as usize])
        } else {
            None
        }
    }

    fn number(&self, right: u8, at: u64, size: u8) -> Option<u64>
        requires { size ≤ 8 }
        ensures value { result ≡ number_at (⟦<Rom as Cells>⟧.memory self.now) right at size }
        ensures bound { IfSome result (λ number. number < 256 ^ size) }
    {
        if size == 0 {
            return Some(0);
        }
        match (
            self.byte(right, at),
            self.number(right, at.wrapping_add(1), size - 1),
        ) {
            (Some(low), Some(high)) => Some(u64::from(low) + high * 256),
            _ => None,
        }
    }
}

impl Cells for Rom {
    ghost use Rattle.std.specs.Prelude.{◌+◌, ◌-◌, ◌%◌, if◌then◌else◌, nat_lt, slice_index, Some, None};
    ghost use Rattle.rv_core.specs.Memory.{Cell};

    ghost memory = { λ rom a.
        let place = (a + (2 ^ 64 - rom.start)) % 2 ^ 64 in
        if nat_lt place 12 then Some (record {
          byte = slice_index rom.bytes place;
          rights = (if nat_lt place 4 then 4 else 1);
        }) else None };

    fn fetch(&self, at: u64) -> Option<u32> {
        match self.number(4, at, 4) {
            Some(word) => Some(word as u32),
            None => None,
        }
    }

    fn load(&self, at: u64, size: u8) -> Option<u64> {
        self.number(1, at, size)
    }

    fn store(&mut self, _at: u64, _size: u8, _value: u64) -> bool {
        false
    }
}

const START: u64 = 0x1_0000;

const NEXT: u64 = START + 4;

const DATA: [u8; 8] = [0xf0, 0xde, 0xbc, 0x9a, 0x78, 0x56, 0x34, 0x12];

const LEAST: u64 = 1 << 63;

const GREATEST: u64 = LEAST - 1;

const LEAST_32: u64 = 0xffff_ffff_8000_0000;

/// Registers that hold nothing but `a` in x1 and `b` in x2.
fn registers(pc: u64, a: u64, b: u64) -> Context {
    let mut cx = Context { pc, x: [0; 31] };
    cx.x[0] = a;
    cx.x[1] = b;
    cx
}

/// The instruction at `START`, with `a` in x1 and `b` in x2.
fn run(instr: Instr, a: u64, b: u64) -> Option<(Context, Option<Trap>)> {
    let word = encode(&instr)?;
    let mut cx = registers(START, a, b);
    let trap = step(&mut cx, &mut Rom::new(START, word, DATA));
    Some((cx, trap))
}

/// A word and an instruction that spell one another, or one that spells nothing.
fn spells(rt: &impl Abort, word: Option<u32>, instr: Option<Instr>) {
    if let Some(word) = word {
        assert_eq!(rt; decode(word), instr, "{word}");
    }
    if let Some(instr) = instr {
        assert_eq!(rt; encode(&instr), word, "{instr:?}");
    }
}

/// An instruction on x1 and x2 leads to these registers, or to a trap.
fn leads(rt: &impl Abort, instr: Instr, a: u64, b: u64, want: (Context, Option<Trap>)) {
    assert_eq!(rt; run(instr, a, b), Some(want), "{instr:?} {a} {b}");
}

/// A word at an address traps, and changes nothing.
fn word_traps(rt: &impl Abort, pc: u64, word: u32, trap: Trap) {
    let mut cx = registers(pc, 1, 2);
    assert_eq!(rt; step(&mut cx, &mut Rom::new(START, word, DATA)), Some(trap));
    assert_eq!(rt; cx, registers(pc, 1, 2));
}

/// A run of at most `n` instructions ends so, and with these registers.
fn ends(rt: &impl Abort, cx: &mut Context, rom: &mut Rom, n: u32, ended: Ended, want: Context) {
    assert_eq!(rt; slice(cx, rom, n), ended);
    assert_eq!(rt; *cx, want);
}

/// Words and the instructions that they spell; words and instructions that spell nothing.
#[test]
fn words(rt: HostRuntime) {
    let table = [
        (Some(0x0010_0513), Some((Op::Addi, 10, 0, 0, 1))),
        (Some(0x0000_0597), Some((Op::Auipc, 11, 0, 0, 0))),
        (Some(0x0205_8593), Some((Op::Addi, 11, 11, 0, 32))),
        (Some(0x8000_0537), Some((Op::Lui, 10, 0, 0, -0x8000_0000))),
        (Some(0x7fff_f537), Some((Op::Lui, 10, 0, 0, 0x7fff_f000))),
        (Some(0xffdf_f0ef), Some((Op::Jal, 1, 0, 0, -4))),
        (Some(0x0000_8067), Some((Op::Jalr, 0, 1, 0, 0))),
        (Some(0xfee7_9ee3), Some((Op::Bne, 0, 15, 14, -4))),
        (Some(0x8000_0063), Some((Op::Beq, 0, 0, 0, -4096))),
        (Some(0x7e00_0fe3), Some((Op::Beq, 0, 0, 0, 4094))),
        (Some(0x0081_3083), Some((Op::Ld, 1, 2, 0, 8))),
        (Some(0x00a1_3423), Some((Op::Sd, 0, 2, 10, 8))),
        (Some(0x8000_0023), Some((Op::Sb, 0, 0, 0, -2048))),
        (Some(0x43f5_5513), Some((Op::Srai, 10, 10, 0, 63))),
        (Some(0x41f5_551b), Some((Op::Sraiw, 10, 10, 0, 31))),
        (Some(0x40c5_8533), Some((Op::Sub, 10, 11, 12, 0))),
        (Some(0x40c5_d53b), Some((Op::Sraw, 10, 11, 12, 0))),
        (Some(0x0000_000f), Some((Op::Fence, 0, 0, 0, 0))),
        (Some(0x0000_100f), Some((Op::FenceI, 0, 0, 0, 0))),
        (Some(0x0000_0073), Some((Op::Ecall, 0, 0, 0, 0))),
        (Some(0x0010_0073), Some((Op::Ebreak, 0, 0, 0, 0))),
        (Some(0x0000_0000), None),
        (Some(0x0205_151b), None), // slliw by 32
        (Some(0x4000_1013), None), // slli with srai's bits
        (Some(0x02c5_8533), None), // mul
        (Some(0x0000_1067), None),
        (Some(0x0000_2063), None),
        (Some(0x0000_7003), None),
        (Some(0x0000_4023), None),
        (Some(0x0000_200f), None),
        (Some(0x0020_0073), None),
        (Some(0xffff_ffff), None),
        (None, Some((Op::Addi, 32, 0, 0, 0))),
        (None, Some((Op::Addi, 1, 0, 1, 0))),
        (None, Some((Op::Addi, 1, 0, 0, 2048))),
        (None, Some((Op::Addi, 1, 0, 0, -2049))),
        (None, Some((Op::Beq, 0, 0, 0, 3))),
        (None, Some((Op::Beq, 0, 0, 0, 4096))),
        (None, Some((Op::Jal, 0, 0, 0, 1 << 20))),
        (None, Some((Op::Lui, 1, 0, 0, 1))),
        (None, Some((Op::Lui, 1, 0, 0, 1 << 31))),
        (None, Some((Op::Slli, 1, 1, 0, 64))),
        (None, Some((Op::Slli, 1, 1, 0, -1))),
        (None, Some((Op::Slliw, 1, 1, 0, 32))),
        (None, Some((Op::Add, 1, 1, 1, 1))),
        (None, Some((Op::Ecall, 1, 0, 0, 0))),
    ];
    for (word, fields) in table {
        let instr = match fields {
            Some((op, rd, rs1, rs2, imm)) => Some(Instr::new(op, rd, rs1, rs2, imm)),
            None => None,
        };
        spells(&rt, word, instr);
    }
    // A fence's further fields are ignored.
    assert_eq!(rt;
        decode(0x0ff0_000f),
        Some(Instr::new(Op::Fence, 0, 0, 0, 0))
    );
}

/// What x3 holds after an instruction on x1 and x2 that goes on to the next.
#[test]
fn values(rt: HostRuntime) {
    let table = [
        (Op::Addi, 1, 0, 1, u64::MAX, 0, 0),
        (Op::Addi, 1, 0, -2048, 0, 0, u64::MAX - 2047),
        (Op::Slti, 1, 0, 0, LEAST, 0, 1),
        (Op::Slti, 1, 0, -1, 0, 0, 0),
        (Op::Sltiu, 1, 0, -1, 0, 0, 1),
        (Op::Sltiu, 1, 0, 5, 5, 0, 0),
        (Op::Xori, 1, 0, -1, 1, 0, u64::MAX - 1),
        (Op::Ori, 1, 0, -2048, 1, 0, u64::MAX - 2046),
        (Op::Andi, 1, 0, 255, u64::MAX, 0, 255),
        (Op::Slli, 1, 0, 0, 3, 0, 3),
        (Op::Slli, 1, 0, 31, 3, 0, 3 << 31),
        (Op::Slli, 1, 0, 32, 3, 0, 3 << 32),
        (Op::Slli, 1, 0, 63, 3, 0, LEAST),
        (Op::Srli, 1, 0, 31, LEAST, 0, 1 << 32),
        (Op::Srli, 1, 0, 63, LEAST, 0, 1),
        (Op::Srai, 1, 0, 0, LEAST, 0, LEAST),
        (Op::Srai, 1, 0, 32, LEAST, 0, LEAST_32),
        (Op::Srai, 1, 0, 63, LEAST, 0, u64::MAX),
        (Op::Srai, 1, 0, 62, GREATEST, 0, 1),
        (Op::Addiw, 1, 0, 1, 0x7fff_ffff, 0, LEAST_32),
        (Op::Addiw, 1, 0, 0, 0xffff_ffff_0000_0000, 0, 0),
        (Op::Slliw, 1, 0, 31, 3, 0, LEAST_32),
        (Op::Slliw, 1, 0, 0, 0x1_0000_0003, 0, 3),
        (Op::Srliw, 1, 0, 0, LEAST_32, 0, LEAST_32),
        (Op::Srliw, 1, 0, 31, LEAST_32, 0, 1),
        (Op::Sraiw, 1, 0, 31, 0x8000_0000, 0, u64::MAX),
        (Op::Sraiw, 1, 0, 30, 0x7fff_ffff, 0, 1),
        (Op::Lui, 0, 0, -4096, 0, 0, u64::MAX - 4095),
        (Op::Auipc, 0, 0, -0x2_0000, 0, 0, u64::MAX - 0xffff),
        (Op::Add, 1, 2, 0, u64::MAX, 1, 0),
        (Op::Sub, 1, 2, 0, 0, 1, u64::MAX),
        (Op::Sll, 1, 2, 0, 3, 63, LEAST),
        (Op::Sll, 1, 2, 0, 3, 64, 3),
        (Op::Slt, 1, 2, 0, LEAST, GREATEST, 1),
        (Op::Slt, 1, 2, 0, GREATEST, LEAST, 0),
        (Op::Sltu, 1, 2, 0, LEAST, GREATEST, 0),
        (Op::Sltu, 1, 2, 0, 5, 5, 0),
        (Op::Xor, 1, 2, 0, 6, 3, 5),
        (Op::Srl, 1, 2, 0, LEAST, 127, 1),
        (Op::Sra, 1, 2, 0, LEAST, 63, u64::MAX),
        (Op::Or, 1, 2, 0, 6, 3, 7),
        (Op::And, 1, 2, 0, 6, 3, 2),
        (Op::Addw, 1, 2, 0, 0x7fff_ffff, 1, LEAST_32),
        (Op::Subw, 1, 2, 0, LEAST, 1, u64::MAX),
        (Op::Sllw, 1, 2, 0, 3, 31, LEAST_32),
        (Op::Sllw, 1, 2, 0, 3, 32, 3),
        (Op::Srlw, 1, 2, 0, LEAST_32, 31, 1),
        (Op::Sraw, 1, 2, 0, 0x8000_0000, 63, u64::MAX),
        (Op::Lb, 1, 0, 4, START, 0, 0xffff_ffff_ffff_fff0),
        (Op::Lb, 1, 0, 8, START, 0, 0x78),
        (Op::Lbu, 1, 0, 4, START, 0, 0xf0),
        (Op::Lh, 1, 0, 4, START, 0, 0xffff_ffff_ffff_def0),
        (Op::Lh, 1, 0, 8, START, 0, 0x5678),
        (Op::Lhu, 1, 0, 4, START, 0, 0xdef0),
        (Op::Lw, 1, 0, 4, START, 0, 0xffff_ffff_9abc_def0),
        (Op::Lw, 1, 0, 8, START, 0, 0x1234_5678),
        (Op::Lwu, 1, 0, 4, START, 0, 0x9abc_def0),
        (Op::Ld, 1, 0, 4, START, 0, 0x1234_5678_9abc_def0),
        (Op::Lw, 1, 0, 5, START, 0, 0x789a_bcde),
    ];
    for (op, rs1, rs2, imm, a, b, want) in table {
        let mut cx = registers(NEXT, a, b);
        cx.x[2] = want;
        leads(&rt, Instr::new(op, 3, rs1, rs2, imm), a, b, (cx, None));
    }
}

/// Where an instruction leads: the program counter and x1, or a trap that changes neither. A branch's
/// target that isn't a multiple of 4 counts only where the branch is taken.
#[test]
fn ways(rt: HostRuntime) {
    let table = [
        (Op::Ld, 3, 1, 0, 0, START, 7, Err((5, START))),
        (Op::Ld, 3, 1, 0, 8, START, 7, Err((5, START + 8))),
        (Op::Lb, 3, 1, 0, -1, START, 7, Err((5, START - 1))),
        (Op::Sd, 0, 1, 2, 4, START, 7, Err((7, NEXT))),
        (Op::Beq, 0, 1, 2, -8, 5, 5, Ok((START - 8, 5))),
        (Op::Beq, 0, 1, 2, 6, 5, 5, Err((0, START + 6))),
        (Op::Beq, 0, 1, 2, -8, 5, 6, Ok((NEXT, 5))),
        (Op::Beq, 0, 1, 2, 6, 5, 6, Ok((NEXT, 5))),
        (Op::Bne, 0, 1, 2, -8, 5, 5, Ok((NEXT, 5))),
        (Op::Bne, 0, 1, 2, 6, 5, 5, Ok((NEXT, 5))),
        (Op::Bne, 0, 1, 2, -8, 5, 6, Ok((START - 8, 5))),
        (Op::Bne, 0, 1, 2, 6, 5, 6, Err((0, START + 6))),
        (
            Op::Blt,
            0,
            1,
            2,
            -8,
            LEAST,
            GREATEST,
            Ok((START - 8, LEAST)),
        ),
        (Op::Blt, 0, 1, 2, 6, LEAST, GREATEST, Err((0, START + 6))),
        (Op::Blt, 0, 1, 2, -8, 5, 5, Ok((NEXT, 5))),
        (Op::Blt, 0, 1, 2, 6, 5, 5, Ok((NEXT, 5))),
        (Op::Bge, 0, 1, 2, -8, LEAST, GREATEST, Ok((NEXT, LEAST))),
        (Op::Bge, 0, 1, 2, 6, LEAST, GREATEST, Ok((NEXT, LEAST))),
        (Op::Bge, 0, 1, 2, -8, 5, 5, Ok((START - 8, 5))),
        (Op::Bge, 0, 1, 2, 6, 5, 5, Err((0, START + 6))),
        (Op::Bltu, 0, 1, 2, -8, LEAST, GREATEST, Ok((NEXT, LEAST))),
        (Op::Bltu, 0, 1, 2, 6, LEAST, GREATEST, Ok((NEXT, LEAST))),
        (
            Op::Bltu,
            0,
            1,
            2,
            -8,
            GREATEST,
            LEAST,
            Ok((START - 8, GREATEST)),
        ),
        (Op::Bltu, 0, 1, 2, 6, GREATEST, LEAST, Err((0, START + 6))),
        (
            Op::Bgeu,
            0,
            1,
            2,
            -8,
            LEAST,
            GREATEST,
            Ok((START - 8, LEAST)),
        ),
        (Op::Bgeu, 0, 1, 2, 6, LEAST, GREATEST, Err((0, START + 6))),
        (Op::Bgeu, 0, 1, 2, -8, GREATEST, LEAST, Ok((NEXT, GREATEST))),
        (Op::Bgeu, 0, 1, 2, 6, GREATEST, LEAST, Ok((NEXT, GREATEST))),
        (Op::Jalr, 1, 1, 0, 0, 0x2001, 0, Ok((0x2000, NEXT))),
        (Op::Jalr, 1, 1, 0, 0, 0x2002, 0, Err((0, 0x2002))),
        (Op::Jal, 1, 0, 0, -0x1_0000, 0, 0, Ok((0, NEXT))),
    ];
    for (op, rd, rs1, rs2, imm, a, b, end) in table {
        let want = match end {
            Ok((to, link)) => (registers(to, link, b), None),
            Err((cause, value)) => (registers(START, a, b), Some(Trap { cause, value })),
        };
        leads(&rt, Instr::new(op, rd, rs1, rs2, imm), a, b, want);
    }
}

/// Traps before an instruction's own, and a run past the last address.
#[test]
fn traps(rt: HostRuntime) {
    let table = [
        (START, 0x0000_0073, 8, 0),
        (START, 0x0010_0073, 3, START),
        (START, 0x0000_0000, 2, 0),
        (START, 0xffff_ffff, 2, 0xffff_ffff),
        (START + 2, 0x0000_0013, 0, START + 2),
        (NEXT, 0x0000_0013, 1, NEXT),
        (START - 4, 0x0000_0013, 1, START - 4),
    ];
    for (pc, word, cause, value) in table {
        word_traps(&rt, pc, word, Trap { cause, value });
    }

    // addi x1, x1, 1 at the last word; the data that follow from address 0 on can't be run.
    let mut rom = Rom::new(u64::MAX - 3, 0x0010_8093, DATA);
    let mut cx = registers(u64::MAX - 3, 1, 2);
    ends(
        &rt,
        &mut cx,
        &mut rom,
        0,
        Ended::Ran,
        registers(u64::MAX - 3, 1, 2),
    );
    ends(&rt, &mut cx, &mut rom, 1, Ended::Ran, registers(0, 2, 2));
    cx.pc = u64::MAX - 3;
    let trap = Trap { cause: 1, value: 0 };
    ends(
        &rt,
        &mut cx,
        &mut rom,
        9,
        Ended::Trapped(trap),
        registers(0, 3, 2),
    );
}
