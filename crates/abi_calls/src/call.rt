use bas_items::Items;
use bas_names::StreamName;
use rv_core::Context;
use turn_sched::{Positions, Settings};

/// A call of the host's interface. Handles are numbers of at least 1; rights are 1 to read, 2 to write and
/// 4 to run, added up; a page has 4,096 bytes.
#[derive(Clone, Debug, Drop)]
pub enum Call {
    /// Makes pages of zeros.
    MemoryAllocate {
        process: u64,
        page: u64,
        count: u64,
        rights: u8,
    },
    /// Frees pages.
    MemoryFree {
        process: u64,
        page: u64,
        count: u64,
    },
    /// Gives pages other rights.
    MemoryProtect {
        process: u64,
        page: u64,
        count: u64,
        rights: u8,
    },
    /// Reads bytes that can be read.
    MemoryRead {
        process: u64,
        address: u64,
        count: u64,
    },
    /// Writes bytes that can be written.
    MemoryWrite {
        process: u64,
        address: u64,
        bytes: Items<u8>,
    },
    /// Makes a suspended thread.
    ThreadCreate {
        process: u64,
        context: Context,
    },
    /// Makes a suspended or current thread ready.
    ThreadResume {
        thread: u64,
    },
    /// Ends a thread with its handle.
    ThreadExit {
        thread: u64,
    },
    /// Sets the registers of a suspended or current thread.
    ThreadContext {
        thread: u64,
        context: Context,
    },
    /// Makes an event that isn't set.
    EventCreate,
    /// Opens a file or an end of the console.
    StreamOpen {
        name: StreamName,
        create: bool,
        exclusive: bool,
    },
    /// Reads up to `count` bytes, of a file from `offset` on.
    StreamRead {
        stream: u64,
        offset: u64,
        count: u64,
    },
    /// Writes bytes, into a file from `offset` on.
    StreamWrite {
        stream: u64,
        offset: u64,
        bytes: Items<u8>,
    },
    /// Asks for the length of a file.
    StreamLength {
        stream: u64,
    },
    /// Cuts a file to a length, or fills it up to it with zeros.
    StreamSetLength {
        stream: u64,
        length: u64,
    },
    /// Removes a file on which no handle is open.
    StreamDelete {
        name: Items<u8>,
    },
    /// Gives a file another name, in place of a file that had it.
    StreamRename {
        from: Items<u8>,
        to: Items<u8>,
    },
    /// Makes a further handle on what a stream is open on.
    Share {
        stream: u64,
    },
    /// Ends the handle of an event, a stream or a process that has exited.
    Close {
        handle: u64,
    },
    /// Makes a process without memory.
    ProcessCreate,
    /// Ends a process with its memory and its threads.
    ProcessExit {
        process: u64,
        code: u8,
    },
    /// Asks whether a process has exited, and with which code.
    ProcessStatus {
        process: u64,
    },
    /// Sets the settings and the positions, before the first turn.
    Configure {
        settings: Settings,
        positions: Positions,
    },
    /// Asks how many turns were made, and how many words of the tapes were used.
    Positions,
}
