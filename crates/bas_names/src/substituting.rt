ghost use Rattle.std.specs.Prelude.{◌≡◌, ◌++◌, ◌∷◌, [], List, ℕ, ◌<◌, length, IfOk};
ghost use Rattle.bas_names.specs.Names.{Passes, Tells, passed, sub};

use crate::{NameError, Rule};
use bas_items::Items;
use std::alloc::{AllocError, Global};

/// The most bytes of a name.
const LONGEST_NAME: usize = 80;

fn joined(alloc: Global, front: &[u8], back: &[u8]) -> Result<Items<u8>, AllocError>
    ensures { IfOk result (λ text. text ≡ front.now ++ back.now) }
{
    let mut text = Items::from_slice(alloc, front)?;
    text.extend_from_slice(back)?;
    Ok(text)
}

fn passed(alloc: Global, rules: &[Rule], name: &[u8]) -> Result<Option<Items<u8>>, AllocError>
    ensures { IfOk result (λ new. new ≡ passed rules.now name.now) }
{
    for rule in rules {
        if name.starts_with(rule.from.as_slice()) {
            let Some(to) = &rule.to else {
                return Ok(None);
            };
            let new = joined(alloc, to.as_slice(), &name[rule.from.len()..])?;
            return Ok(Some(new));
        }
    }
    Ok(Some(Items::from_slice(alloc, name)?))
}

/// The name behind one list of rules. The first rule whose `from` is a prefix of the name counts: its `to`
/// takes the place of `from`, and without a `to` the name is denied, which is `None`. With no such rule the
/// name stays. What comes of it has to have 1 to 80 bytes.
pub fn substitute(
    alloc: Global,
    rules: &[Rule],
    name: &[u8],
) -> Result<Option<Items<u8>>, NameError>
    ensures exact { Tells result (sub (rules.now ∷ []) name.now) }
    ensures first_match { IfOk result (Passes rules.now name.now) }
    ensures too_long { result ≡ Err NameError.TooLong
        → (new : List ℕ) × Passes rules.now name.now (Some new) × (80 < length new) }
    ensures empty { result ≡ Err NameError.Empty → Passes rules.now name.now (Some []) }
{
    let Some(new) = passed(alloc, rules, name)? else {
        return Ok(None);
    };
    if new.len() > LONGEST_NAME {
        return Err(NameError::TooLong);
    }
    if new.is_empty() {
        return Err(NameError::Empty);
    }
    Ok(Some(new))
}
