ghost use Rattle.std.specs.Prelude.{◌≡◌, ◌++◌, ◌^◌, ◌<◌, ◌≤◌, ℕ, List};
ghost use Rattle.std.specs.Int.{to_le_bytes, w64};
ghost use Rattle.bas_fields.specs.Numbers.{Spells};

/// In a base a number has one spelling, and a spelling is of one number.
pub fn one_spelling()
    ensures one_text { (base n : ℕ) (text other : List ℕ)
        → 2 ≤ base → Spells base text n → Spells base other n → text ≡ other }
    ensures one_number { (base m n : ℕ) (text : List ℕ)
        → base ≤ 36 → Spells base text m → Spells base text n → m ≡ n }
{}

/// Bytes that begin with a number's field begin with no other number's, and what follows is the same.
pub fn one_field()
    ensures { (m n : ℕ) (rest other : List ℕ) → m < 2 ^ 64 → n < 2 ^ 64
        → to_le_bytes w64 m ++ rest ≡ to_le_bytes w64 n ++ other → (m ≡ n) × (rest ≡ other) }
{}
