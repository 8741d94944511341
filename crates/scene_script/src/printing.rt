use crate::leaving::Left;
use crate::start::{Files, Start};
use percent_encoding::{AsciiSet, CONTROLS, percent_encode};
use std::alloc::AllocError;
use std::fmt::Write;

/// The most bytes that are written out; of more the sum is.
const MOST_SHOWN: usize = 1_000;

/// The bytes that are escaped: `%`, and all that no ASCII text has.
fn escaped() -> AsciiSet {
    CONTROLS.add(b'%')
}

/// A number that the bytes give, other for other bytes as a rule.
fn sum_of(bytes: &[u8]) -> u32 {
    let mut sum: u32 = 0;
    for byte in bytes {
        sum = sum.wrapping_mul(31).wrapping_add(u32::from(*byte));
    }
    sum
}

/// Adds the bytes, escaped.
pub fn add_escaped(text: &mut String, bytes: &[u8]) -> Result<(), AllocError> {
    percent_encode(bytes, escaped()).append_to(text)
}

/// Adds how many bytes there are, and the bytes or, where they are many, their sum.
pub fn add_bytes(text: &mut String, bytes: &[u8]) -> Result<(), AllocError> {
    let count = bytes.len();
    write!(text, ", {count} bytes")?;
    if count > MOST_SHOWN {
        let sum = sum_of(bytes);
        write!(text, ", sum {sum}")
    } else if count > 0 {
        text.push_str(": ")?;
        add_escaped(text, bytes)
    } else {
        Ok(())
    }
}

/// Adds a line of a word and bytes, where there are any.
pub fn add_line(text: &mut String, word: &str, bytes: &[u8]) -> Result<(), AllocError> {
    if bytes.is_empty() {
        return Ok(());
    }
    text.push_str(word)?;
    add_bytes(text, bytes)?;
    text.push_str("\n")
}

/// Adds a word and a name.
fn add_name(text: &mut String, word: &str, name: &[u8]) -> Result<(), AllocError> {
    text.push_str(word)?;
    text.push_str(" ")?;
    add_escaped(text, name)
}

/// Adds a line for each file that is there now with other bytes than before.
fn add_changed(
    text: &mut String,
    word: &str,
    before: &Files,
    now: &Files,
) -> Result<(), AllocError> {
    for (name, bytes) in now.iter() {
        if before.get(name.as_slice()) == Some(bytes) {
            continue;
        }
        add_name(text, word, name.as_slice())?;
        add_bytes(text, bytes.as_slice())?;
        text.push_str("\n")?;
    }
    Ok(())
}

/// Adds a line for each file that was there before and isn't now.
fn add_gone(text: &mut String, word: &str, before: &Files, now: &Files) -> Result<(), AllocError> {
    for (name, _) in before.iter() {
        if now.get(name.as_slice()).is_none() {
            add_name(text, word, name.as_slice())?;
            text.push_str(" is gone\n")?;
        }
    }
    Ok(())
}

/// Adds a line for each file that has changed, and one for each that has gone.
pub fn add_changes(
    text: &mut String,
    word: &str,
    before: &Files,
    now: &Files,
) -> Result<(), AllocError> {
    add_changed(text, word, before, now)?;
    add_gone(text, word, before, now)
}

/// Adds what a host has left: what was written, what is left of the input, and the files that have changed.
pub fn add_left(text: &mut String, start: &Start, left: &Left) -> Result<(), AllocError> {
    add_line(text, "output", left.output.as_slice())?;
    add_line(text, "errors", left.errors.as_slice())?;
    if !start.input.is_empty() {
        writeln!(text, "{} bytes of the input are left", left.input)?;
    }
    add_changes(text, "file", &start.files, &left.files)
}
