ghost use Rattle.std.specs.Prelude.{◌≡◌, IfSome, IsTrue};
ghost use Rattle.rv_core.specs.declared.instr.Op.{Op};
ghost use Rattle.rv_core.specs.Listing.{Decodes, NamesRegisters, decoded, form, has_form};
ghost use Rattle.rv_core.specs.Encoding.{encoded, IsFence};

use crate::fields::fields_of;
use crate::instr::Instr;
use crate::opcodes::op_of;

/// The instruction that `word` spells; `None` exactly where the word is illegal.
#[inline]
pub fn decode(word: u32) -> Option<Instr>
    ensures value { result ≡ decoded word }
    ensures listing { Decodes word result }
    ensures unique { (o : Op) → IsTrue (has_form word (form o)) → IfSome result (λ i. i.op ≡ o) }
    ensures registers { IfSome result NamesRegisters }
    ensures inverse { IfSome result (λ i. ¬ IsFence i.op → encoded i ≡ Some word) }
{
    match op_of(word) {
        Some(op) => Some(fields_of(word, op)),
        None => None,
    }
}
