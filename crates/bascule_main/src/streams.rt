ghost use Rattle.std.specs.Prelude.{◌≡◌, None};
ghost use Rattle.std.specs.Io.{ReadsAtMost, WritesAtMost};

use bas_edge::{EdgeError, Failed, Sink, Source};
use std::io::{self, ErrorKind, Read, Write};

/// How often a call that was interrupted is made again.
const MOST_INTERRUPTIONS: u32 = 1_000;

fn is_interrupted(answer: &io::Result<usize>) -> bool {
    match answer {
        Ok(_) => false,
        Err(error) => error.kind() == ErrorKind::Interrupted,
    }
}

/// Reads once, again where the call was interrupted.
fn read_some<R: Read>(reader: &mut R, buffer: &mut [u8]) -> io::Result<usize>
    ensures { ReadsAtMost result buffer.new }
{
    for _ in 0..MOST_INTERRUPTIONS {
        let answer = reader.read(buffer);
        if !is_interrupted(&answer) {
            return answer;
        }
    }
    reader.read(buffer)
}

/// Writes once, again where the call was interrupted.
fn write_some<W: Write>(writer: &mut W, piece: &[u8]) -> io::Result<usize>
    ensures { WritesAtMost result piece.now }
{
    for _ in 0..MOST_INTERRUPTIONS {
        let answer = writer.write(piece);
        if !is_interrupted(&answer) {
            return answer;
        }
    }
    writer.write(piece)
}

/// A reader as a source. It tells nothing of the bytes that it has left; a read of no bytes is their end.
#[derive(Drop)]
pub struct Reading<R> {
    reader: R,
    /// How many faults there were, held at the greatest `u64`.
    faults: u64,
}

impl<R: Read> Reading<R> {
    /// A source over this reader, without a fault.
    pub fn new(reader: R) -> Reading<R>
        ensures { ⟦<Reading<R> as Source>⟧.fault_count result ≡ 0 }
    {
        Reading { reader, faults: 0 }
    }
}

impl<R: Read> Source for Reading<R> {
    ghost left = { λ _. None };

    ghost fault_count = { λ source. source.faults };

    fn take(&mut self, buffer: &mut [u8]) -> Result<usize, Failed> {
        match read_some(&mut self.reader, buffer) {
            Ok(count) => Ok(count),
            Err(_) => {
                self.faults = self.faults.saturating_add(1);
                Err(Failed)
            }
        }
    }

    fn faults(&self) -> u64 {
        self.faults
    }
}

/// A writer as a sink. It tells nothing of the bytes that it was given; taking none of a piece is a fault.
#[derive(Drop)]
pub struct Writing<W> {
    writer: W,
    /// How many faults there were, held at the greatest `u64`.
    faults: u64,
}

impl<W: Write> Writing<W> {
    /// A sink over this writer, without a fault. The writer has to pass on what it takes without a `flush`.
    pub fn new(writer: W) -> Writing<W>
        ensures { ⟦<Writing<W> as Sink>⟧.fault_count result ≡ 0 }
    {
        Writing { writer, faults: 0 }
    }
}

impl<W: Write> Sink for Writing<W> {
    ghost given = { λ _. None };

    ghost fault_count = { λ sink. sink.faults };

    fn give(&mut self, piece: &[u8]) -> Result<usize, EdgeError> {
        match write_some(&mut self.writer, piece) {
            Ok(count) if count > 0 || piece.is_empty() => Ok(count),
            _ => {
                self.faults = self.faults.saturating_add(1);
                Err(EdgeError::Failed)
            }
        }
    }

    fn faults(&self) -> u64 {
        self.faults
    }
}
