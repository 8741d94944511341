use bas_items::Items;
use rv_core::Context;

/// What an open description is open on.
#[derive(Clone, Copy, Debug, PartialEq, Eq)]
pub enum Kind {
    /// The console's input.
    ConIn,
    /// The console's output.
    ConOut,
    /// The console's errors.
    ConErr,
    /// A file.
    File,
}

/// An open description.
#[derive(Clone, Copy, Debug, PartialEq, Eq)]
pub struct Description {
    pub id: u64,
    /// The handle of its stream.
    pub handle: u64,
    pub kind: Kind,
    /// 1 to read, 2 to write, added up.
    pub access: u8,
    /// Whether each write goes to the end of the file.
    pub append: bool,
    /// Where a file is read or written next.
    pub position: u64,
}

/// A descriptor of a process, and the open description that it names.
#[derive(Clone, Copy, Debug, PartialEq, Eq)]
pub struct DescriptorNote {
    pub number: u64,
    pub description: u64,
}

/// A process that the library OS knows.
#[derive(Debug, Drop)]
pub struct ProcessNote {
    pub pid: u64,
    /// The process that made it; 0 where there is none.
    pub parent: u64,
    pub handle: u64,
    /// Where the break stood at first, and where it stands.
    pub break_start: u64,
    pub break_now: u64,
    /// The address of its handler of faults; 0 where it has none.
    pub handler: u64,
    /// The exit code, once it has exited.
    pub code: Option<u8>,
    pub descriptors: Items<DescriptorNote>,
}

/// A thread that the library OS knows.
#[derive(Clone, Copy, Debug, PartialEq, Eq)]
pub struct ThreadNote {
    pub tid: u64,
    pub pid: u64,
    pub handle: u64,
    /// The handle of the event that wakes it.
    pub event: u64,
    /// The registers at the fault that its process's handler is handling.
    pub saved: Option<Context>,
}

/// A thread that waits until it is woken at an address.
#[derive(Clone, Copy, Debug, PartialEq, Eq)]
pub struct Queued {
    pub tid: u64,
    pub address: u64,
}
