use abi_calls::Upcall;
use bas_items::Items;
use rv_core::Context;

/// What a service serves.
#[derive(Debug, Drop)]
pub enum Event {
    /// The start of a run: the name of the program and its further arguments.
    Boot {
        program: Items<u8>,
        args: Items<Items<u8>>,
    },
    /// The trap of a thread.
    Up(Upcall),
}

/// Which call a service makes next.
#[derive(Clone, Copy, Debug, PartialEq, Eq)]
pub enum Stage {
    /// The thread gets its registers.
    SetContext,
    /// The thread becomes ready.
    Resume,
    /// The stream of a description that ends is closed.
    CloseStream,
    /// The event of the thread that ends is closed.
    CloseEvent,
    /// The thread ends.
    ExitThread,
    /// A handle of the process that ends is closed.
    CloseHandles,
    /// The process ends.
    ExitProcess,
    /// The bytes are read from the stream.
    ReadStream,
    /// The bytes are written to the caller's memory.
    StoreBytes,
    /// The bytes to be written are read from the caller's memory.
    ReadBuffer,
    /// The length of the file is asked for, at whose end the bytes are written.
    AppendLength,
    /// The bytes are written to the stream.
    WriteStream,
    /// The length of the file is asked for, from whose end a position is sought or which is its status.
    FileLength,
    /// The file gets another length.
    SetFileLength,
    /// Pages of the caller's process are made.
    AllocatePages,
    /// Pages of the caller's process go.
    FreePages,
    /// Pages of the caller's process get other rights.
    ProtectPages,
    /// The host gets the settings.
    Configure,
    /// The console's input, output and errors are opened.
    OpenConsole,
    /// The program's file is opened.
    OpenProgram,
    /// The program's length is asked for.
    ProgramLength,
    /// The program is read.
    ReadProgram,
    /// The program's file is closed.
    CloseProgram,
    /// The process is made.
    CreateProcess,
    /// The pages of a run of the program are made.
    AllocateRun,
    /// The bytes of the run are written.
    WriteRun,
    /// The run gets its rights.
    ProtectRun,
    /// The pages of the stack are made.
    AllocateStack,
    /// The argument block is written.
    WriteBlock,
    /// The thread is made.
    CreateThread,
    /// The thread's event is made.
    CreateEvent,
    /// The new thread becomes ready.
    StartThread,
}

/// What a service keeps between two calls. A list that the stage doesn't need is empty, and `next` is then the
/// event's context.
#[derive(Debug, Drop)]
pub struct Cont {
    pub event: Event,
    pub stage: Stage,
    /// The registers that the thread gets.
    pub next: Context,
    /// The name of the program, and its arguments.
    pub names: Items<Items<u8>>,
    /// Bytes that were read.
    pub bytes: Items<u8>,
    /// Handles of objects that the service made or is to close.
    pub handles: Items<u64>,
    /// Handles of other processes, to be closed behind the one that ends. No stage keeps any yet.
    pub later: Items<u64>,
    /// An exit code, an offset, an address and a result, a length, a page and a count of pages, the number of a run, or
    /// that and how far it is written.
    pub numbers: Items<u64>,
}
