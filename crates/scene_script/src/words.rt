use anyhow::Result;
use percent_encoding::percent_decode;
use std::alloc::Global;

/// What parts the words of a line, and the pieces of a word.
const BLANK: char = ' ';

const JOIN: char = '+';

const TIMES: char = '*';

/// How often a piece comes, and the piece: a count, `*` and the piece, or the piece alone, which comes once.
pub fn counted(piece: &str) -> Result<(u32, &str)> {
    match piece.split_once(TIMES) {
        Some((count, text)) => Ok((count.parse::<u32>()?, text)),
        None => Ok((1, piece)),
    }
}

/// Adds the bytes of a piece: an escaped text, or a count, `*` and an escaped text that comes so often.
fn add_piece(alloc: Global, piece: &str, bytes: &mut Vec<u8>) -> Result<()> {
    let (count, text) = counted(piece)?;
    let mut once = Vec::new(alloc);
    percent_decode(text.as_bytes()).append_to(&mut once)?;
    for _ in 0..count {
        bytes.extend_from_slice(once.as_slice())?;
    }
    Ok(())
}

/// The bytes that a word stands for: those of its pieces, between which stands `+`.
pub fn bytes_of(alloc: Global, word: &str) -> Result<Vec<u8>> {
    let mut bytes = Vec::new(alloc);
    for piece in word.split(JOIN) {
        add_piece(alloc, piece, &mut bytes)?;
    }
    Ok(bytes)
}

/// The first word of a line, and what stands behind it.
pub fn parted(line: &str) -> (&str, &str) {
    match line.split_once(BLANK) {
        Some((word, rest)) => (word, rest),
        None => (line, ""),
    }
}

/// The name and the bytes of a file.
pub fn file_in(alloc: Global, rest: &str) -> Result<(Vec<u8>, Vec<u8>)> {
    let (name, bytes) = parted(rest);
    let name = bytes_of(alloc, name)?;
    let bytes = bytes_of(alloc, bytes)?;
    Ok((name, bytes))
}
