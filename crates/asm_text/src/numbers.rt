ghost use Rattle.std.specs.Prelude.{◌≡◌, ◌≤◌, ◌^◌, ◌-◌, min, option_map, IfSome, pos, negsuc, ◌≤ℤ◌};
ghost use Rattle.asm_text.specs.Numbers.{magnitude, number_of, largest, nearest, is_number};

/// A number past this counts as this, and fits nowhere.
const LARGEST: u128 = 1 << 64;

/// The number of one or more digits, or `LARGEST` where it is greater.
fn magnitude(base: u32, digits: &[u8]) -> Option<u128>
    requires low { 2 ≤ base }
    requires high { base ≤ 16 }
    ensures value { result ≡ option_map (min largest) (magnitude base digits.now) }
    ensures bound { IfSome result (λ n. n ≤ 2 ^ 64) }
{
    if digits.is_empty() {
        return None;
    }
    let mut number = 0;
    for byte in digits {
        let digit = char::from(*byte).to_digit(base)?;
        number = LARGEST.min(number * u128::from(base) + u128::from(digit));
    }
    Some(number)
}

/// The number that the text spells: decimal with an optional `-`, or `0x` and hexadecimal digits. One past 2^64 in
/// size counts as 2^64 with its sign.
pub fn number_of(text: &[u8]) -> Option<i128>
    ensures value { result ≡ option_map nearest (number_of text.now) }
    ensures low { IfSome result (λ n. negsuc (2 ^ 64 - 1) ≤ℤ n) }
    ensures high { IfSome result (λ n. n ≤ℤ pos (2 ^ 64)) }
{
    if text.starts_with(b"0x") {
        Some(magnitude(16, &text[2..])? as i128)
    } else if text.starts_with(b"-") {
        Some(-(magnitude(10, &text[1..])? as i128))
    } else {
        Some(magnitude(10, text)? as i128)
    }
}

/// Whether the text is of the kind number: it begins with a digit or `-`.
pub fn is_number(text: &[u8]) -> bool
    ensures { result ≡ is_number text.now }
{
    match text.split_first() {
        Some((first, _rest)) => first.is_ascii_digit() || *first == b'-',
        None => false,
    }
}
