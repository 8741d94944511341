use rv_core::Context;

/// What a host hands up of a thread that trapped: its cause and value, and its registers as they were before
/// the instruction.
#[derive(Clone, Copy, Debug, PartialEq, Eq)]
pub struct Upcall {
    pub process: u64,
    pub thread: u64,
    pub cause: u8,
    pub value: u64,
    pub context: Context,
}

/// How a turn ended.
#[derive(Clone, Copy, Debug, PartialEq, Eq)]
pub enum Turned {
    /// A thread did its instructions.
    Ran,
    /// No thread was ready, and one waits for a time.
    Idle,
    /// No thread is ready, and none will be.
    Stuck,
    /// A thread trapped, and is current.
    Exception(Upcall),
}
