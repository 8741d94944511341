ghost use Rattle.std.specs.Prelude.{◌≡◌, ◌==◌, ◌≢◌, ◌≤◌, ◌∷◌, None, ◌<◌, length, map, option_map, IfOk, IfSome, MatchOption};
ghost use Rattle.std.specs.Option.{option_copied};
ghost use Rattle.std.specs.List.{list_all, position_or_len};
ghost use Rattle.asm_text.specs.Text.{lines, lines_left, before, behind, escape_of, is_outside, quoting_behind, is_closed, length_before, parts, operands, unquoted, quoted, is_blank, trim_start, trim_end, trim, begins_name, continues_name, is_name};

use bas_items::Items;
use std::alloc::{AllocError, Global};
use std::marker::Model;

/// A part of the text, which contracts see as the list of its bytes.
#[derive(Drop)]
pub struct Text<'a> {
    bytes: &'a [u8],
}

impl<'a> Model for Text<'a> {
    ghost use Rattle.std.specs.Prelude.{List, ℕ};

    ghost Value = { List ℕ };

    ghost view = { λ text. text.bytes.now };
}

impl<'a> Text<'a> {
    pub fn new(bytes: &'a [u8]) -> Text<'a>
        ensures { result ≡ bytes.now }
    {
        Text { bytes }
    }

    pub fn as_slice(&self) -> &'a [u8]
        ensures { result.now ≡ self.now }
    {
        self.bytes
    }
}

/// Where a place stands to quotes.
#[derive(Clone, Copy)]
pub enum Quoting {
    Outside,
    Inside,
    /// Behind a backslash.
    Escaped,
    /// Behind a wrong escape.
    Broken,
}

/// The byte that a backslash and `letter` stand for.
fn escape_of(letter: u8) -> Option<u8>
    ensures { result ≡ escape_of letter }
{
    match letter {
        b'n' => Some(b'\n'),
        b't' => Some(b'\t'),
        b'0' => Some(0),
        b'\\' => Some(b'\\'),
        b'"' => Some(b'"'),
        _ => None,
    }
}

impl Quoting {
    fn is_outside(self) -> bool
        ensures { result ≡ is_outside self }
    {
        match self {
            Quoting::Outside => true,
            Quoting::Inside | Quoting::Escaped | Quoting::Broken => false,
        }
    }

    /// Where the place behind `byte` stands.
    fn behind(self, byte: u8) -> Quoting
        ensures { result ≡ quoting_behind self byte }
    {
        match self {
            Quoting::Outside if byte == b'"' => Quoting::Inside,
            Quoting::Outside => Quoting::Outside,
            Quoting::Inside if byte == b'"' => Quoting::Outside,
            Quoting::Inside if byte == b'\\' => Quoting::Escaped,
            Quoting::Inside => Quoting::Inside,
            Quoting::Escaped if escape_of(byte).is_some() => Quoting::Inside,
            Quoting::Escaped | Quoting::Broken => Quoting::Broken,
        }
    }
}

/// Whether all quotes are closed, with no wrong escape.
pub fn is_closed(text: &[u8]) -> bool
    ensures { result ≡ is_closed text.now }
{
    let mut quoting = Quoting::Outside;
    for byte in text {
        quoting = quoting.behind(*byte);
    }
    quoting.is_outside()
}

/// How many bytes stand before the first of the marks that is outside quotes.
fn length_before(marks: &[u8], text: &[u8]) -> usize
    ensures value { result ≡ length_before marks.now Quoting.Outside text.now }
    ensures bound { result ≤ length text.now }
{
    let mut quoting = Quoting::Outside;
    for (i, byte) in text.iter().enumerate() {
        if quoting.is_outside() && marks.contains(byte) {
            return i;
        }
        quoting = quoting.behind(*byte);
    }
    text.len()
}

/// What stands before the first of the marks that is outside quotes, and what stands behind it. Without one, all and
/// nothing.
pub fn split_at_mark<'a>(marks: &[u8], text: &'a [u8]) -> (&'a [u8], Option<&'a [u8]>)
    ensures front { result.0.now ≡ before marks.now text.now }
    ensures rest { option_copied result.1 ≡ behind marks.now text.now }
    ensures shorter { IfSome result.1 (λ rest. length rest.now < length text.now) }
{
    let place = length_before(marks, text);
    if place == text.len() {
        return (text, None);
    }
    (&text[..place], Some(&text[place + 1..]))
}

/// The place of the first line feed, or the end.
fn line_feed(text: &[u8]) -> usize
    ensures value { result ≡ position_or_len (λ c. c == 10) text.now }
    ensures bound { result ≤ length text.now }
{
    for (i, byte) in text.iter().enumerate() {
        if *byte == b'\n' {
            return i;
        }
    }
    text.len()
}

/// The first line of the text, and what stands behind its line feed, if it ends with one.
pub fn first_line(text: &[u8]) -> (&[u8], Option<&[u8]>)
    ensures lines { lines text.now ≡ result.0.now ∷ lines_left result.1 }
    ensures shorter { MatchOption result.1 (length result.0.now ≤ length text.now) (λ rest. length rest.now < length text.now) }
{
    let end = line_feed(text);
    if end == text.len() {
        return (text, None);
    }
    (&text[..end], Some(&text[end + 1..]))
}

fn is_blank(byte: u8) -> bool
    ensures { result ≡ is_blank byte }
{
    byte == b' ' || byte == b'\t'
}

/// The text without the blanks in front.
pub fn trim_start(mut text: &[u8]) -> &[u8]
    ensures { result.now ≡ trim_start text.entry.now }
{
    while let Some((first, rest)) = text.split_first() {
        if !is_blank(*first) {
            break;
        }
        text = rest;
    }
    text
}

fn trim_end(mut text: &[u8]) -> &[u8]
    ensures { result.now ≡ trim_end text.entry.now }
{
    while let Some((last, rest)) = text.split_last() {
        if !is_blank(*last) {
            break;
        }
        text = rest;
    }
    text
}

/// The text without the blanks at its ends.
pub fn trim(text: &[u8]) -> &[u8]
    ensures { result.now ≡ trim text.now }
{
    trim_end(trim_start(text))
}

fn begins_name(byte: u8) -> bool
    ensures { result ≡ begins_name byte }
{
    byte.is_ascii_alphabetic() || byte == b'_' || byte == b'.'
}

fn continues_name(byte: u8) -> bool
    ensures { result ≡ continues_name byte }
{
    byte.is_ascii_alphanumeric() || byte == b'_'
}

fn all_continue(text: &[u8]) -> bool
    ensures { result ≡ list_all continues_name text.now }
{
    text.iter().all(|byte| continues_name(*byte))
}

/// Whether this is a name: a letter, `_` or `.`, and then letters, digits and `_`.
pub fn is_name(text: &[u8]) -> bool
    ensures { result ≡ is_name text.now }
{
    match text.split_first() {
        Some((first, rest)) => begins_name(*first) && all_continue(rest),
        None => false,
    }
}

/// The byte that the front of a quoted text stands for, and what is behind it.
fn unescape(first: u8, rest: &[u8]) -> Option<(u8, &[u8])>
    requires { first ≢ 34 }
    ensures byte { MatchOption result (unquoted (first ∷ rest.now) ≡ None)
        (λ p. unquoted (first ∷ rest.now) ≡ option_map (λ bytes. p.0 ∷ bytes) (unquoted p.1.now)) }
    ensures shorter { IfSome result (λ p. length p.1.now ≤ length rest.now) }
{
    if first != b'\\' {
        return Some((first, rest));
    }
    let (letter, behind) = rest.split_first()?;
    Some((escape_of(*letter)?, behind))
}

/// The bytes of an operand that is one quoted text.
pub fn quoted(alloc: Global, operand: &[u8]) -> Result<Option<Items<u8>>, AllocError>
    ensures { IfOk result (λ r. r ≡ quoted operand.now) }
{
    let Some((b'"', mut text)) = operand.split_first() else {
        return Ok(None);
    };
    let mut bytes = Items::new(alloc);
    while let Some((first, rest)) = text.split_first() {
        if *first == b'"' {
            return Ok(rest.is_empty().then_some(bytes));
        }
        let Some((byte, behind)) = unescape(*first, rest) else {
            return Ok(None);
        };
        bytes.push(byte)?;
        text = behind;
    }
    Ok(None)
}

/// The parts between commas outside quotes, each without the blanks at its ends.
fn parts<'a>(alloc: Global, text: &'a [u8]) -> Result<Vec<Text<'a>>, AllocError>
    ensures { IfOk result (λ v. v.items ≡ map trim (parts Quoting.Outside text.now)) }
{
    let mut parts = Vec::new(alloc);
    let mut rest = Some(text);
    while let Some(text) = rest {
        let (part, more) = split_at_mark(b",", text);
        parts.push(Text::new(trim(part)))?;
        rest = more;
    }
    Ok(parts)
}

/// The operands behind the first word of a statement: what stands between commas outside quotes, without the blanks
/// at its ends. Of no text there are none.
pub fn operands<'a>(alloc: Global, text: &'a [u8]) -> Result<Vec<Text<'a>>, AllocError>
    ensures { IfOk result (λ v. v.items ≡ operands text.now) }
{
    if text.is_empty() {
        return Ok(Vec::new(alloc));
    }
    parts(alloc, text)
}
