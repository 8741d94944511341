use guest_memory::Pages;
use rv_core::{Context, Ended, Instr, Memo, Op, Trap, encode, step};
use std::alloc::Global;
use std::process::Abort;
use std::test::Fail;

/// The first address of the first of two pages of code.
const CODE: u64 = 0x1_0000;

/// The address of a program of sixteen words, eight in either page.
const START: u64 = CODE + 4096 - 32;

/// The word of `addi x10, x10, 16`, twice.
const SIXTEEN: u64 = 0x0105_0513_0105_0513;

/// Puts the word of an instruction at an address.
fn put(pages: &mut Pages, at: u64, instr: Instr) -> Result<(), Fail> {
    if let Some(word) = encode(&instr) {
        pages.write(at, &word.to_le_bytes())?;
    }
    Ok(())
}

/// Sixteen words that add `step` to x10, the last of which jumps to the first.
fn put_program(pages: &mut Pages, step: i64) -> Result<(), Fail> {
    for k in 0..15 {
        put(pages, START + 4 * k, Instr::new(Op::Addi, 10, 10, 0, step))?;
    }
    put(pages, START + 60, Instr::new(Op::Jal, 0, 0, 0, -60))
}

/// The program that adds 1, with another instruction at an address.
fn program(alloc: Global, at: u64, instr: Instr) -> Result<Pages, Fail> {
    let mut pages = Pages::new(alloc);
    pages.allocate(16, 2, 7)?;
    put_program(&mut pages, 1)?;
    put(&mut pages, at, instr)?;
    Ok(pages)
}

/// Registers at the program's start, with an address in x5 and a value to store in x6.
fn registers(to: u64) -> Context {
    let mut cx = Context {
        pc: START,
        x: [0; 31],
    };
    cx.x[4] = to;
    cx.x[5] = SIXTEEN;
    cx
}

/// Does at most `n` steps one by one, each with a word that is fetched and decoded for it.
fn steps(pages: &mut Pages, cx: &mut Context, n: u32) -> Ended {
    for _done in 0..n {
        if let Some(trap) = step(cx, pages) {
            return Ended::Trapped(trap);
        }
    }
    Ended::Ran
}

/// A store of `op` at an address, to another, does the same to a run with a memo and to single steps.
fn runs_alike(
    rt: &impl Abort,
    alloc: Global,
    memo: &mut Memo,
    op: Op,
    at: u64,
    to: u64,
) -> Result<(), Fail> {
    let store = Instr::new(op, 0, 5, 6, 0);
    let mut run = program(alloc, at, store)?;
    let mut stepped = program(alloc, at, store)?;
    let (mut cx, mut cx_stepped) = (registers(to), registers(to));
    let ended = run.run_with(&mut cx, memo, 50);
    assert_eq!(rt;
        ended,
        steps(&mut stepped, &mut cx_stepped, 50),
        "{op:?} {at} {to}"
    );
    assert_eq!(rt; cx, cx_stepped, "{op:?} {at} {to}");
    let (mut bytes, mut bytes_stepped) = ([0; 64], [0; 64]);
    run.read(START, &mut bytes)?;
    stepped.read(START, &mut bytes_stepped)?;
    assert!(rt; bytes == bytes_stepped, "{op:?} {at} {to}");
    Ok(())
}

/// Stores of 1, 2, 4 and 8 bytes from two words before the store to two words behind it, at each misalignment, in
/// the middle of a page and at its end.
fn all_run_alike(rt: &impl Abort, alloc: Global, memo: &mut Memo) -> Result<(), Fail> {
    for op in [Op::Sb, Op::Sh, Op::Sw, Op::Sd] {
        for at in [START + 12, START + 28] {
            for offset in 0..17 {
                let to = at.wrapping_sub(8).wrapping_add(offset);
                runs_alike(rt, alloc, memo, op, at, to)?;
            }
        }
    }
    Ok(())
}

#[test]
fn stores_into_the_program(rt: HostRuntime) -> Result<(), Fail> {
    let mut memo = Memo::new(rt.alloc())?;
    assert!(rt; memo.has_slots());
    all_run_alike(&rt, rt.alloc(), &mut memo)
}

/// A memo without slots takes no memory, and decodes each word.
#[test]
fn stores_into_the_program_without_slots(rt: HostRuntime) -> Result<(), Fail> {
    let mut memo = Memo::empty(rt.alloc());
    assert!(rt; !memo.has_slots());
    all_run_alike(&rt, rt.alloc(), &mut memo)
}

/// A run of `n` instructions ends so, with this sum in x10.
fn adds(
    rt: &impl Abort,
    pages: &mut Pages,
    cx: &mut Context,
    memo: &mut Memo,
    n: u32,
    end: (Ended, u64),
) {
    let ended = pages.run_with(cx, memo, n);
    assert_eq!(rt; (ended, cx.x[9]), end);
}

/// What is stored to the next instruction is what is done next; what is stored to the one before, in the next round.
#[test]
fn the_next_fetch_sees_a_store(rt: HostRuntime) -> Result<(), Fail> {
    let mut memo = Memo::new(rt.alloc())?;
    let store = Instr::new(Op::Sw, 0, 5, 6, 0);
    let mut pages = program(rt.alloc(), START + 12, store)?;
    let mut cx = registers(START + 16);
    adds(&rt, &mut pages, &mut cx, &mut memo, 4, (Ended::Ran, 3));
    adds(&rt, &mut pages, &mut cx, &mut memo, 1, (Ended::Ran, 19));
    let mut pages = program(rt.alloc(), START + 12, store)?;
    let mut cx = registers(START + 8);
    adds(&rt, &mut pages, &mut cx, &mut memo, 16, (Ended::Ran, 14));
    adds(&rt, &mut pages, &mut cx, &mut memo, 3, (Ended::Ran, 32));
    // The trap of the second instruction, an ECALL, leaves the first one done.
    let mut pages = program(rt.alloc(), START + 4, Instr::new(Op::Ecall, 0, 0, 0, 0))?;
    let mut cx = registers(START);
    let ecall = Ended::Trapped(Trap { cause: 8, value: 0 });
    adds(&rt, &mut pages, &mut cx, &mut memo, 2, (ecall, 1));
    assert_eq!(rt; cx.pc, START + 4);
    Ok(())
}

/// Between turns a page loses its right to run and regains it, moves as another is mapped below it, and is freed and
/// mapped again with other code.
#[test]
fn the_page_of_the_code_changes(rt: HostRuntime) -> Result<(), Fail> {
    let mut memo = Memo::new(rt.alloc())?;
    let nop = Instr::new(Op::Addi, 10, 10, 0, 1);
    let mut pages = program(rt.alloc(), START, nop)?;
    let mut cx = registers(START);
    let refused = Ended::Trapped(Trap {
        cause: 1,
        value: START + 4,
    });
    adds(&rt, &mut pages, &mut cx, &mut memo, 1, (Ended::Ran, 1));
    pages.protect(16, 1, 3)?;
    adds(&rt, &mut pages, &mut cx, &mut memo, 1, (refused, 1));
    pages.protect(16, 1, 7)?;
    adds(&rt, &mut pages, &mut cx, &mut memo, 1, (Ended::Ran, 2));
    pages.allocate(15, 1, 7)?;
    adds(&rt, &mut pages, &mut cx, &mut memo, 1, (Ended::Ran, 3));
    pages.free(16, 1)?;
    cx.pc = START + 4;
    adds(&rt, &mut pages, &mut cx, &mut memo, 1, (refused, 3));
    pages.allocate(16, 1, 7)?;
    put_program(&mut pages, 5)?;
    adds(&rt, &mut pages, &mut cx, &mut memo, 9, (Ended::Ran, 48));
    Ok(())
}
