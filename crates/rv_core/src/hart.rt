ghost use Rattle.std.specs.Prelude.{◌≡◌, ◌<◌, IfSome};
ghost use Rattle.rv_core.specs.Memory.{Memory, IsSize, fetched};
ghost use Rattle.rv_core.specs.Listing.{NamesRegisters, decoded};
ghost use Rattle.rv_core.specs.Rows.{HasSize};
ghost use Rattle.rv_core.specs.RegisterFile.{HasZero, registers_of};
ghost use Rattle.rv_core.specs.Machine.{with_register, at, next, jumps, stores, outcome, executed, executed_word, instruction, instructions, Gives, Ends};

use crate::cells::{Cells, CodeCells};
use crate::context::{Context, Ended, Trap};
use crate::decoder::decode;
use crate::instr::Instr;
use crate::memo::{Memo, Noted, decode_at};
use crate::register_file::RegisterFile;
use crate::rows::{Effect, effect_of, extend};

/// Gives `value` to register `rd`, and goes on to the next instruction.
#[inline(always)]
fn set(file: &mut RegisterFile, rd: u8, value: u64)
    requires rd { rd < 32 }
    requires zero { HasZero file.old }
    ensures zero { HasZero file.new }
    ensures outcome { registers_of file.new ≡ at (with_register (registers_of file.old) rd value) (next (registers_of file.old)) }
{
    file.write(rd, value);
    file.pc = file.pc.wrapping_add(4);
}

/// Jumps to `to`, with the address of the next instruction in register `rd`.
#[inline(always)]
fn jump(file: &mut RegisterFile, rd: u8, to: u64) -> Option<Trap>
    requires rd { rd < 32 }
    requires zero { HasZero file.old }
    ensures zero { HasZero file.new }
    ensures outcome { (m : Memory) → Gives (jumps (registers_of file.old) m rd to)
        (registers_of file.old) m result (registers_of file.new) m }
{
    if to % 4 != 0 {
        return Some(Trap {
            cause: 0,
            value: to,
        });
    }
    file.write(rd, file.pc.wrapping_add(4));
    file.pc = to;
    None
}

/// Loads the `size` bytes at `from` into register `rd`, as a signed number if `sign` is set.
#[inline(always)]
fn load<C: Cells>(
    file: &mut RegisterFile,
    cells: &C,
    rd: u8,
    from: u64,
    size: u8,
    sign: bool,
) -> Option<Trap>
    requires rd { rd < 32 }
    requires size { IsSize size }
    requires zero { HasZero file.old }
    ensures zero { HasZero file.new }
    ensures outcome { Gives (outcome (registers_of file.old) (C.memory cells.now) rd (Effect.Loads from size sign))
        (registers_of file.old) (C.memory cells.now) result (registers_of file.new) (C.memory cells.now) }
{
    match cells.load(from, size) {
        Some(value) => {
            set(file, rd, if sign { extend(value, size) } else { value });
            None
        }
        None => Some(Trap {
            cause: 5,
            value: from,
        }),
    }
}

/// Stores the low `size` bytes of `value` at `to`.
#[inline(always)]
fn store<C: Cells>(
    file: &mut RegisterFile,
    cells: &mut C,
    to: u64,
    size: u8,
    value: u64,
) -> Option<Trap>
    requires size { IsSize size }
    requires zero { HasZero file.old }
    ensures zero { HasZero file.new }
    ensures outcome { Gives (stores (registers_of file.old) (C.memory cells.old) to size value)
        (registers_of file.old) (C.memory cells.old) result (registers_of file.new) (C.memory cells.new) }
{
    if !cells.store(to, size, value) {
        return Some(Trap {
            cause: 7,
            value: to,
        });
    }
    file.pc = file.pc.wrapping_add(4);
    None
}

/// Does what an instruction with the destination `rd` does.
#[inline(always)]
fn apply<C: Cells>(file: &mut RegisterFile, cells: &mut C, rd: u8, effect: Effect) -> Option<Trap>
    requires rd { rd < 32 }
    requires size { HasSize effect }
    requires zero { HasZero file.old }
    ensures zero { HasZero file.new }
    ensures outcome { Gives (outcome (registers_of file.old) (C.memory cells.old) rd effect)
        (registers_of file.old) (C.memory cells.old) result (registers_of file.new) (C.memory cells.new) }
{
    match effect {
        Effect::Sets(value) => {
            set(file, rd, value);
            None
        }
        Effect::Jumps(to) => jump(file, rd, to),
        Effect::Branches(true, to) => jump(file, 0, to),
        Effect::Branches(false, _) | Effect::Nothing => {
            file.pc = file.pc.wrapping_add(4);
            None
        }
        Effect::Loads(from, size, sign) => load(file, cells, rd, from, size, sign),
        Effect::Stores(to, size, value) => store(file, cells, to, size, value),
        Effect::Traps(cause, value) => Some(Trap { cause, value }),
    }
}

/// Does one instruction.
#[inline(always)]
fn execute<C: Cells>(file: &mut RegisterFile, cells: &mut C, instr: &Instr) -> Option<Trap>
    requires registers { NamesRegisters instr.now }
    requires zero { HasZero file.old }
    ensures zero { HasZero file.new }
    ensures outcome { Gives (executed (registers_of file.old) (C.memory cells.old) instr.now)
        (registers_of file.old) (C.memory cells.old) result (registers_of file.new) (C.memory cells.new) }
{
    let a = file.read(instr.rs1);
    let b = file.read(instr.rs2);
    let effect = effect_of(instr.op, file.pc, instr.imm.cast_unsigned(), a, b);
    apply(file, cells, instr.rd, effect)
}

/// Does the instruction that a fetched word spells.
#[inline(always)]
fn perform<C: Cells>(
    file: &mut RegisterFile,
    cells: &mut C,
    word: u32,
    instr: Option<Instr>,
) -> Option<Trap>
    requires decoded { instr ≡ decoded word }
    requires registers { IfSome instr NamesRegisters }
    requires zero { HasZero file.old }
    ensures zero { HasZero file.new }
    ensures outcome { Gives (executed_word (registers_of file.old) (C.memory cells.old) word (decoded word))
        (registers_of file.old) (C.memory cells.old) result (registers_of file.new) (C.memory cells.new) }
{
    match instr {
        Some(instr) => execute(file, cells, &instr),
        None => Some(Trap {
            cause: 2,
            value: u64::from(word),
        }),
    }
}

/// Does the instruction at the program counter.
#[inline(always)]
fn step_in<C: Cells>(file: &mut RegisterFile, cells: &mut C) -> Option<Trap>
    requires { HasZero file.old }
    ensures zero { HasZero file.new }
    ensures outcome { Gives (instruction (registers_of file.old) (C.memory cells.old))
        (registers_of file.old) (C.memory cells.old) result (registers_of file.new) (C.memory cells.new) }
{
    if file.pc % 4 != 0 {
        return Some(Trap {
            cause: 0,
            value: file.pc,
        });
    }
    let Some(word) = cells.fetch(file.pc) else {
        return Some(Trap {
            cause: 1,
            value: file.pc,
        });
    };
    perform(file, cells, word, decode(word))
}

/// Does the instruction at the program counter. A trap leaves registers, program counter and memory as they
/// were: cause 0 for an address of an instruction that isn't a multiple of 4, 1 for a word that can't be
/// fetched, 2 for an illegal word, 3 for EBREAK, 5 and 7 for a refused load and store, 8 for ECALL.
#[inline]
pub fn step<C: Cells>(cx: &mut Context, cells: &mut C) -> Option<Trap>
    ensures { Gives (instruction cx.old (C.memory cells.old))
        cx.old (C.memory cells.old) result cx.new (C.memory cells.new) }
{
    let mut file = RegisterFile::new(cx);
    let trap = step_in(&mut file, cells);
    file.give_back(cx);
    trap
}

/// Does steps until one traps or `n` are done.
#[inline(always)]
#[tactic(auto, unfolding(crate::specs::Machine::instructions))]
fn steps<C: Cells>(file: &mut RegisterFile, cells: &mut C, n: u32) -> Ended
    requires { HasZero file.old }
    ensures { Ends (instructions n (registers_of file.old) (C.memory cells.old))
        result (registers_of file.new) (C.memory cells.new) }
{
    for _done in 0..n {
        if let Some(trap) = step_in(file, cells) {
            return Ended::Trapped(trap);
        }
    }
    Ended::Ran
}

/// Does steps until one traps or `n` are done.
#[inline]
pub fn slice<C: Cells>(cx: &mut Context, cells: &mut C, n: u32) -> Ended
    ensures { Ends (instructions n cx.old (C.memory cells.old)) result cx.new (C.memory cells.new) }
{
    let mut file = RegisterFile::new(cx);
    let ended = steps(&mut file, cells, n);
    file.give_back(cx);
    ended
}

/// Fetches the word at an address, from the code that is held if it is there.
#[inline(always)]
fn fetch<C: CodeCells>(cells: &mut C, at: u64) -> Option<u32>
    ensures word { result ≡ fetched (C.memory cells.old) at }
    ensures same { C.memory cells.new ≡ C.memory cells.old }
{
    match cells.fetch_held(at) {
        Some(word) => Some(word),
        None => cells.fetch_anew(at),
    }
}

/// Does the instruction at the program counter, as `step_in` does.
#[inline(always)]
fn step_with<C: CodeCells>(
    file: &mut RegisterFile,
    cells: &mut C,
    slots: &mut [Noted],
) -> Option<Trap>
    requires { HasZero file.old }
    ensures zero { HasZero file.new }
    ensures outcome { Gives (instruction (registers_of file.old) (C.memory cells.old))
        (registers_of file.old) (C.memory cells.old) result (registers_of file.new) (C.memory cells.new) }
{
    let pc = file.pc;
    if pc % 4 != 0 {
        return Some(Trap {
            cause: 0,
            value: pc,
        });
    }
    let Some(word) = fetch(cells, pc) else {
        return Some(Trap {
            cause: 1,
            value: pc,
        });
    };
    perform(file, cells, word, decode_at(slots, pc, word))
}

/// Does steps until one traps or `n` are done, as `steps` does: with code that is held, and words that are decoded
/// once. A trap is made anew from its cause and value: as a whole, it would be carried through the loop.
#[inline(always)]
#[tactic(auto, unfolding(crate::specs::Machine::instructions))]
fn steps_with<C: CodeCells>(
    file: &mut RegisterFile,
    cells: &mut C,
    slots: &mut [Noted],
    n: u32,
) -> Ended
    requires { HasZero file.old }
    ensures { Ends (instructions n (registers_of file.old) (C.memory cells.old))
        result (registers_of file.new) (C.memory cells.new) }
{
    for _step in 0..n {
        if let Some(Trap { cause, value }) = step_with(file, cells, slots) {
            return Ended::Trapped(Trap { cause, value });
        }
    }
    Ended::Ran
}

/// Does steps until one traps or `n` are done, as `slice` does: with code that is held, and words that are decoded
/// once.
#[inline]
pub fn slice_with<C: CodeCells>(cx: &mut Context, cells: &mut C, memo: &mut Memo, n: u32) -> Ended
    ensures { Ends (instructions n cx.old (C.memory cells.old)) result cx.new (C.memory cells.new) }
{
    let mut file = RegisterFile::new(cx);
    let ended = steps_with(&mut file, cells, memo.slots(), n);
    file.give_back(cx);
    ended
}
