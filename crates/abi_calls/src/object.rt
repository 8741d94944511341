use bas_names::StreamName;
use rv_core::Context;

/// What a handle names. `M` is the memory of a process.
#[derive(Debug, Drop)]
pub enum Object<M> {
    /// A process with its memory; once it has exited, with its exit code and no memory.
    Process { memory: M, code: Option<u8> },
    /// A thread of the process of this handle, with its registers.
    Thread { process: u64, context: Context },
    /// An event, set or not.
    Event { set: bool },
    /// An open file or an end of the console.
    Stream(StreamName),
    /// The end of a pipe, by its number, that is read.
    ReadEnd(u64),
    /// The end of a pipe, by its number, that is written.
    WriteEnd(u64),
}
