use crate::arguments::{Arguments, Names};
use abi_calls::{Call, Positions, Settings};
use anyhow::{Result, bail};
use scene_script::parted;
use std::alloc::Global;

/// A call on memory.
fn memory_call(word: &[u8], arguments: &mut Arguments<'_>) -> Result<Option<Call>> {
    let call = match word {
        b"MemoryAllocate" => Call::MemoryAllocate {
            process: arguments.number()?,
            page: arguments.number()?,
            count: arguments.number()?,
            rights: arguments.byte()?,
        },
        b"MemoryFree" => Call::MemoryFree {
            process: arguments.number()?,
            page: arguments.number()?,
            count: arguments.number()?,
        },
        b"MemoryProtect" => Call::MemoryProtect {
            process: arguments.number()?,
            page: arguments.number()?,
            count: arguments.number()?,
            rights: arguments.byte()?,
        },
        b"MemoryRead" => Call::MemoryRead {
            process: arguments.number()?,
            address: arguments.number()?,
            count: arguments.number()?,
        },
        b"MemoryWrite" => Call::MemoryWrite {
            process: arguments.number()?,
            address: arguments.number()?,
            bytes: arguments.bytes()?,
        },
        _ => return Ok(None),
    };
    Ok(Some(call))
}

/// A call on a thread or an event.
fn thread_call(word: &[u8], arguments: &mut Arguments<'_>) -> Result<Option<Call>> {
    let call = match word {
        b"ThreadCreate" => Call::ThreadCreate {
            process: arguments.number()?,
            context: arguments.context()?,
        },
        b"ThreadResume" => Call::ThreadResume {
            thread: arguments.number()?,
        },
        b"ThreadExit" => Call::ThreadExit {
            thread: arguments.number()?,
        },
        b"ThreadContext" => Call::ThreadContext {
            thread: arguments.number()?,
            context: arguments.context()?,
        },
        b"EventCreate" => Call::EventCreate,
        _ => return Ok(None),
    };
    Ok(Some(call))
}

/// A call on a stream or a file.
fn stream_call(word: &[u8], arguments: &mut Arguments<'_>) -> Result<Option<Call>> {
    let call = match word {
        b"StreamOpen" => Call::StreamOpen {
            name: arguments.stream_name()?,
            create: arguments.flag()?,
            exclusive: arguments.flag()?,
        },
        b"StreamRead" => Call::StreamRead {
            stream: arguments.number()?,
            offset: arguments.number()?,
            count: arguments.number()?,
        },
        b"StreamWrite" => Call::StreamWrite {
            stream: arguments.number()?,
            offset: arguments.number()?,
            bytes: arguments.bytes()?,
        },
        b"StreamLength" => Call::StreamLength {
            stream: arguments.number()?,
        },
        b"StreamSetLength" => Call::StreamSetLength {
            stream: arguments.number()?,
            length: arguments.number()?,
        },
        b"StreamDelete" => Call::StreamDelete {
            name: arguments.bytes()?,
        },
        b"StreamRename" => Call::StreamRename {
            from: arguments.bytes()?,
            to: arguments.bytes()?,
        },
        b"Share" => Call::Share {
            stream: arguments.number()?,
        },
        _ => return Ok(None),
    };
    Ok(Some(call))
}

/// Settings.
fn settings(arguments: &mut Arguments<'_>) -> Result<Settings> {
    Ok(Settings {
        start: arguments.number()?,
        step: arguments.number()?,
        salt: arguments.number()?,
        slice: arguments.short()?,
        picks: arguments.numbers()?,
        randoms: arguments.numbers()?,
    })
}

/// Positions.
fn positions(arguments: &mut Arguments<'_>) -> Result<Positions> {
    Ok(Positions {
        turns: arguments.number()?,
        pick: arguments.number()?,
        random: arguments.number()?,
    })
}

/// A call on a process, on any handle or on the whole.
fn process_call(word: &[u8], arguments: &mut Arguments<'_>) -> Result<Option<Call>> {
    let call = match word {
        b"Close" => Call::Close {
            handle: arguments.number()?,
        },
        b"ProcessCreate" => Call::ProcessCreate,
        b"ProcessExit" => Call::ProcessExit {
            process: arguments.number()?,
            code: arguments.byte()?,
        },
        b"ProcessStatus" => Call::ProcessStatus {
            process: arguments.number()?,
        },
        b"Configure" => Call::Configure {
            settings: settings(arguments)?,
            positions: positions(arguments)?,
        },
        b"Positions" => Call::Positions,
        _ => return Ok(None),
    };
    Ok(Some(call))
}

/// The call of a word.
fn call_in(word: &str, arguments: &mut Arguments<'_>) -> Result<Call> {
    let name = word.as_bytes();
    if let Some(call) = memory_call(name, arguments)? {
        return Ok(call);
    }
    if let Some(call) = thread_call(name, arguments)? {
        return Ok(call);
    }
    if let Some(call) = stream_call(name, arguments)? {
        return Ok(call);
    }
    if let Some(call) = process_call(name, arguments)? {
        return Ok(call);
    }
    bail!("no call {word}")
}

/// The call in a line, in which these names stand for numbers.
pub fn call_of(alloc: Global, names: &Names, line: &str) -> Result<Call> {
    let (word, rest) = parted(line);
    let mut arguments = Arguments::new(alloc, names, rest);
    let call = call_in(word, &mut arguments)?;
    arguments.end()?;
    Ok(call)
}
