ghost use Rattle.std.specs.Prelude.{◌≡◌, ◌≢◌, ◌⊎◌, ℕ, ◌^◌, ◌<◌, ◌↔◌, decimal, length, slice_index, IfOk, IfSome, IfNone, IsFalse, IsTrue, Ok};
ghost use Rattle.hex.specs.Hex.{encode_lower, decode_of};
ghost use Rattle.bas_fields.specs.Numbers.{Spells, hexadecimal_text};

use bas_edge::Memory;
use std::alloc::Global;

/// The greatest number that is read.
const GREATEST: u64 = 0x7fff_ffff_ffff_ffff;

/// The number in decimal digits, without leading zeros.
pub fn decimal(alloc: Global, n: u64) -> Result<Vec<u8>, Memory>
    ensures exact { IfOk result (λ text. text.items ≡ decimal n) }
    ensures spelled { IfOk result (λ text. Spells 10 text.items n) }
{
    Ok(n.to_string(alloc)?.into_bytes())
}

/// The number in hexadecimal digits, in lower case and without leading zeros.
pub fn hexadecimal(alloc: Global, n: u64) -> Result<Vec<u8>, Memory>
    ensures exact { IfOk result (λ text. text.items ≡ hexadecimal_text n) }
    ensures spelled { IfOk result (λ text. Spells 16 text.items n) }
{
    Ok(format!(in alloc; "{n:x}")?.into_bytes())
}

/// Two hexadecimal digits for each byte, in lower case.
pub fn hex_text(alloc: Global, bytes: &[u8]) -> Result<Vec<u8>, Memory>
    ensures exact { IfOk result (λ text. text.items ≡ encode_lower bytes.now) }
    ensures reversible { IfOk result (λ text. decode_of text.items ≡ Ok bytes.now) }
{
    Ok(hex::encode(alloc, bytes)?.into_bytes())
}

/// Whether the text begins neither with a plus sign nor with a zero before another byte.
fn begins_plainly(text: &[u8]) -> bool
    ensures plain { IsTrue result → slice_index text.now 0 ≢ 43 }
    ensures shortest { IsTrue result → slice_index text.now 0 ≡ 48 → length text.now ≡ 1 }
    ensures other { IsFalse result → (slice_index text.now 0 ≡ 43) ⊎ ((slice_index text.now 0 ≡ 48) × (1 < length text.now)) }
{
    match text.first() {
        Some(b'+') => false,
        Some(b'0') => text.len() == 1,
        _ => true,
    }
}

/// The number that the text spells in decimal digits, without a sign and without leading zeros, up to
/// 2 ^ 63 - 1. Of every other text there is none.
pub fn read_decimal(text: &str) -> Option<u64>
    ensures exact { (n : ℕ) → (result ≡ Some n) ↔ ((n < 2 ^ 63) × (text.now ≡ decimal n)) }
    ensures spelled { IfSome result (Spells 10 text.now) }
    ensures refused { IfNone result ((n : ℕ) → n < 2 ^ 63 → ¬ Spells 10 text.now n) }
{
    if !begins_plainly(text.as_bytes()) {
        return None;
    }
    match text.parse::<u64>() {
        Ok(number) if number <= GREATEST => Some(number),
        _ => None,
    }
}
