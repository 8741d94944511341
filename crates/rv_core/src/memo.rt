ghost use Rattle.std.specs.Prelude.{◌≡◌, Some, IfSome};
ghost use Rattle.std.proofs.Props.{props};
ghost use Rattle.rv_core.specs.Listing.{NamesRegisters, decoded};

use crate::decoder::decode;
use crate::instr::{Instr, Op};
use std::alloc::{AllocError, Global};

/// How many words a memo notes.
const SLOTS: usize = 2048;

/// A word and the instruction that it spells.
#[derive(Clone, Copy)]
pub(crate) struct Noted {
    word: u32,
    instr: Instr,
    ghost spells: { decoded word ≡ Some instr } by { Prim.hlevel props },
}

/// Words that were met and the instructions that they spell, so that they needn't be decoded again. It knows
/// nothing of any memory: an instruction is taken from it only for the very word that was met.
#[derive(Drop)]
pub struct Memo {
    slots: Vec<Noted>,
}

impl Memo {
    /// A memo without slots: each word is decoded when it is met. Takes no memory.
    pub fn empty(alloc: Global) -> Memo {
        Memo {
            slots: Vec::new(alloc),
        }
    }

    /// A memo in which each slot notes the word of `nop`.
    pub fn new(alloc: Global) -> Result<Memo, AllocError> {
        let nop = Noted {
            word: 0x13,
            instr: Instr::new(Op::Addi, 0, 0, 0, 0),
        };
        Ok(Memo {
            slots: vec![in alloc; nop; SLOTS]?,
        })
    }

    /// Whether there are slots.
    pub fn has_slots(&self) -> bool {
        !self.slots.is_empty()
    }

    /// The slots.
    #[inline(always)]
    pub(crate) fn slots(&mut self) -> &mut [Noted] {
        self.slots.as_mut_slice()
    }
}

/// The instruction that `word`, met at `at`, spells; `None` exactly where the word is illegal. One that is decoded anew
/// is made again from its fields: as a whole, it would be carried through memory, and with it each that a slot notes.
#[inline(always)]
pub(crate) fn decode_at(slots: &mut [Noted], at: u64, word: u32) -> Option<Instr>
    ensures value { result ≡ decoded word }
    ensures registers { IfSome result NamesRegisters }
{
    let place = (at / 4) as usize % SLOTS;
    if let Some(slot) = slots.get(place) {
        if slot.word == word {
            return Some(slot.instr);
        }
    }
    let instr = note(slots, place, word)?;
    Some(Instr::new(instr.op, instr.rd, instr.rs1, instr.rs2, instr.imm))
}

/// Decodes `word`, and notes it in the slot at `place`, if there is one.
#[cold]
fn note(slots: &mut [Noted], place: usize, word: u32) -> Option<Instr>
    ensures value { result ≡ decoded word }
    ensures registers { IfSome result NamesRegisters }
{
    let instr = decode(word)?;
    if let Some(slot) = slots.get_mut(place) {
        *slot = Noted { word, instr };
    }
    Some(instr)
}
