ghost use Rattle.std.specs.Prelude.{◌≡◌, ◌+◌, ◌↔◌, ◌++◌, ℕ, List, Option, length};
ghost use Rattle.bas_names.specs.Names.{Passes, passed, sub, sub_from, continued};
ghost use Rattle.bas_names.specs.declared.Rule.{Rule};

/// A list of rules gives one answer to each name: the function computes what the first rule that matches does.
pub fn one_passage()
    ensures { (rules : List Rule) (name : List ℕ) (new : Option (List ℕ))
        → (Passes rules name new ↔ (passed rules name ≡ new)) }
{}

/// A name passes through lists one after another: what the upper ones let through goes on through the lower ones.
pub fn lists_in_turn()
    ensures { (upper lower : List (List Rule)) (name : List ℕ)
        → sub (upper ++ lower) name ≡ continued (sub upper name) (λ new. sub_from lower (1 + length upper) new) }
{}
