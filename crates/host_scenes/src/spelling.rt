use crate::runs::Runs;
use abi_calls::{Call, Crossing, Positions, Reply, Settings, StreamName};
use rv_core::Context;
use scene_script::{add_bytes, add_escaped};
use std::alloc::{AllocError, Global};
use std::fmt::Write;

/// Adds a list of numbers.
fn add_numbers(alloc: Global, text: &mut String, numbers: &[u64]) -> Result<(), AllocError> {
    if numbers.is_empty() {
        return text.push_str(" -");
    }
    let mut runs = Runs::new(alloc, ",", "*");
    for number in numbers {
        runs.add(format!(in alloc; "{number}")?)?;
    }
    text.push_str(" ")?;
    text.push_str(runs.into_text()?.as_str())
}

/// Adds registers, but for the zeros at the end.
fn add_context(alloc: Global, text: &mut String, context: &Context) -> Result<(), AllocError> {
    let mut numbers = Vec::new(alloc);
    numbers.push(context.pc)?;
    numbers.extend_from_slice(&context.x)?;
    while numbers.last() == Some(&0) {
        numbers.pop();
    }
    add_numbers(alloc, text, numbers.as_slice())
}

/// Adds what a stream is opened by.
fn add_stream_name(text: &mut String, name: &StreamName) -> Result<(), AllocError> {
    match name {
        StreamName::File(name) => {
            text.push_str(" File:")?;
            add_escaped(text, name.as_slice())
        }
        StreamName::ConIn => text.push_str(" ConIn"),
        StreamName::ConOut => text.push_str(" ConOut"),
        StreamName::ConErr => text.push_str(" ConErr"),
    }
}

/// Adds the name of a file.
fn add_name(text: &mut String, name: &[u8]) -> Result<(), AllocError> {
    text.push_str(" ")?;
    add_escaped(text, name)
}

/// Adds settings.
fn add_settings(alloc: Global, text: &mut String, settings: &Settings) -> Result<(), AllocError> {
    let (start, step) = (settings.start, settings.step);
    write!(text, " {start} {step} {} {}", settings.salt, settings.slice)?;
    add_numbers(alloc, text, settings.picks.as_slice())?;
    add_numbers(alloc, text, settings.randoms.as_slice())
}

/// Adds positions.
fn add_positions(text: &mut String, positions: &Positions) -> Result<(), AllocError> {
    let (turns, pick) = (positions.turns, positions.pick);
    write!(text, " {turns} {pick} {}", positions.random)
}

/// The word of a call.
fn word_of(call: &Call) -> &'static str {
    match call {
        Call::MemoryAllocate { .. } => "MemoryAllocate",
        Call::MemoryFree { .. } => "MemoryFree",
        Call::MemoryProtect { .. } => "MemoryProtect",
        Call::MemoryRead { .. } => "MemoryRead",
        Call::MemoryWrite { .. } => "MemoryWrite",
        Call::ThreadCreate { .. } => "ThreadCreate",
        Call::ThreadResume { .. } => "ThreadResume",
        Call::ThreadExit { .. } => "ThreadExit",
        Call::ThreadContext { .. } => "ThreadContext",
        Call::EventCreate => "EventCreate",
        Call::StreamOpen { .. } => "StreamOpen",
        Call::StreamRead { .. } => "StreamRead",
        Call::StreamWrite { .. } => "StreamWrite",
        Call::StreamLength { .. } => "StreamLength",
        Call::StreamSetLength { .. } => "StreamSetLength",
        Call::StreamDelete { .. } => "StreamDelete",
        Call::StreamRename { .. } => "StreamRename",
        Call::Share { .. } => "Share",
        Call::Close { .. } => "Close",
        Call::ProcessCreate => "ProcessCreate",
        Call::ProcessExit { .. } => "ProcessExit",
        Call::ProcessStatus { .. } => "ProcessStatus",
        Call::Configure { .. } => "Configure",
        Call::Positions => "Positions",
    }
}

/// The numbers that a call begins with, in the order of its arguments.
fn numbers_in(alloc: Global, call: &Call) -> Result<Vec<u64>, AllocError> {
    let mut numbers = Vec::new(alloc);
    match call {
        Call::MemoryAllocate {
            process: handle,
            page,
            count,
            rights,
        }
        | Call::MemoryProtect {
            process: handle,
            page,
            count,
            rights,
        } => {
            numbers.extend_from_slice(&[*handle, *page, *count, u64::from(*rights)])?;
        }
        Call::MemoryFree {
            process: handle,
            page: place,
            count,
        }
        | Call::MemoryRead {
            process: handle,
            address: place,
            count,
        }
        | Call::StreamRead {
            stream: handle,
            offset: place,
            count,
        } => {
            numbers.extend_from_slice(&[*handle, *place, *count])?;
        }
        Call::MemoryWrite {
            process: handle,
            address: place,
            ..
        }
        | Call::StreamWrite {
            stream: handle,
            offset: place,
            ..
        }
        | Call::StreamSetLength {
            stream: handle,
            length: place,
        } => {
            numbers.extend_from_slice(&[*handle, *place])?;
        }
        Call::ProcessExit { process, code } => {
            numbers.extend_from_slice(&[*process, u64::from(*code)])?;
        }
        Call::ThreadCreate {
            process: handle,
            ..
        }
        | Call::ThreadResume { thread: handle }
        | Call::ThreadExit { thread: handle }
        | Call::ThreadContext { thread: handle, .. }
        | Call::StreamLength { stream: handle }
        | Call::Share { stream: handle }
        | Call::Close { handle }
        | Call::ProcessStatus { process: handle } => numbers.push(*handle)?,
        Call::EventCreate
        | Call::StreamOpen { .. }
        | Call::StreamDelete { .. }
        | Call::StreamRename { .. }
        | Call::ProcessCreate
        | Call::Configure { .. }
        | Call::Positions => (),
    }
    Ok(numbers)
}

/// Adds the arguments of a call that are no numbers.
fn add_rest(alloc: Global, text: &mut String, call: &Call) -> Result<(), AllocError> {
    match call {
        Call::MemoryWrite { bytes, .. } | Call::StreamWrite { bytes, .. } => {
            add_bytes(text, bytes.as_slice())
        }
        Call::ThreadCreate { context, .. } | Call::ThreadContext { context, .. } => {
            add_context(alloc, text, context)
        }
        Call::StreamOpen {
            name,
            create,
            exclusive,
        } => {
            add_stream_name(text, name)?;
            write!(text, " {create} {exclusive}")
        }
        Call::StreamDelete { name } => add_name(text, name.as_slice()),
        Call::StreamRename { from, to } => {
            add_name(text, from.as_slice())?;
            add_name(text, to.as_slice())
        }
        Call::Configure {
            settings,
            positions,
        } => {
            add_settings(alloc, text, settings)?;
            add_positions(text, positions)
        }
        _ => Ok(()),
    }
}

/// Adds a call: its word, and its arguments by their places.
fn add_call(alloc: Global, text: &mut String, call: &Call) -> Result<(), AllocError> {
    text.push_str(word_of(call))?;
    for number in numbers_in(alloc, call)? {
        write!(text, " {number}")?;
    }
    add_rest(alloc, text, call)
}

/// Adds a reply.
pub fn add_reply(text: &mut String, reply: &Reply) -> Result<(), AllocError> {
    match reply {
        Reply::Done => text.push_str("Done"),
        Reply::Handle(handle) => write!(text, "Handle {handle}"),
        Reply::Bytes(bytes) => {
            text.push_str("Bytes")?;
            add_bytes(text, bytes.as_slice())
        }
        Reply::Count(count) => write!(text, "Count {count}"),
        Reply::Length(length) => write!(text, "Length {length}"),
        Reply::Running => text.push_str("Running"),
        Reply::Exited(code) => write!(text, "Exited {code}"),
        Reply::Places(positions) => {
            text.push_str("Places")?;
            add_positions(text, positions)
        }
        Reply::BadHandle => text.push_str("BadHandle"),
        Reply::NotFound => text.push_str("NotFound"),
        Reply::Exists => text.push_str("Exists"),
        Reply::Busy => text.push_str("Busy"),
        Reply::NoAccess => text.push_str("NoAccess"),
        Reply::BadAddress => text.push_str("BadAddress"),
        Reply::NoRoom => text.push_str("NoRoom"),
        Reply::TooBig => text.push_str("TooBig"),
    }
}

/// Adds the answered calls of a journal, each as a line.
pub fn add_journal(
    alloc: Global,
    text: &mut String,
    crossings: &[Crossing],
) -> Result<(), AllocError> {
    for crossing in crossings {
        write!(text, "journal {} ", crossing.turns)?;
        add_call(alloc, text, &crossing.call)?;
        text.push_str(": ")?;
        add_reply(text, &crossing.reply)?;
        text.push_str("\n")?;
    }
    Ok(())
}
