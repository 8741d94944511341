use crate::cont::Cont;
use crate::notes::{Description, ProcessNote, ThreadNote};
use crate::state::Boot;
use bas_items::Items;

/// What a service does on a reply.
#[derive(Debug, Drop)]
pub enum Step {
    /// It keeps these, and makes its next call.
    Asks(Cont),
    /// The system call of this service gives the break of its process, as the records then have it.
    GivesBreak(Cont),
    /// It keeps the bytes that a write has read, which go to the stream of its descriptor: where that appends, the
    /// length of the file is asked for first.
    Sends(Cont),
    /// It ends.
    Ends,
    /// It ends, and with it the start of the run, which has come so far.
    Stops(Boot),
}

/// What a reply changes of the records.
#[derive(Debug, Drop)]
pub enum Change {
    /// Nothing.
    Same,
    /// The description of this stream ends, with each descriptor that names it.
    Closes {
        handle: u64,
    },
    /// So it does, and a descriptor of the process then names what another one does, where that is open.
    Replaces {
        handle: u64,
        process: u64,
        old: u64,
        new: u64,
    },
    /// The position of the file that a descriptor of the process is open on, if it is open on one.
    PutsPosition {
        process: u64,
        fd: u64,
        position: u64,
    },
    /// It moves over so many bytes.
    MovesPosition {
        process: u64,
        fd: u64,
        count: u64,
    },
    /// The break of the process that has this handle.
    MovesBreak {
        process: u64,
        address: u64,
    },
    /// The run's first process and its thread are known, and what is open.
    Begins {
        process: ProcessNote,
        thread: ThreadNote,
        descriptions: Items<Description>,
    },
}
