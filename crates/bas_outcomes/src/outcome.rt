ghost use Rattle.std.specs.Prelude.{◌≡◌};
ghost use Rattle.bas_outcomes.specs.Status.{status_of};

use bas_items::Items;
use elf_loader::ElfError;
use rv_asm::AsmCause;

/// What a command that runs no program has done.
#[derive(Clone, Copy, Debug, PartialEq, Eq)]
pub enum Report {
    /// A file of so many bytes was put into the host's files.
    Put(u64),
    /// A file of so many bytes was got from the host's files.
    Got(u64),
    /// A file of so many bytes was assembled.
    Assembled(u64),
}

/// How a command ended.
#[derive(Debug, Drop)]
pub enum Outcome {
    /// Process 1 has exited with this code.
    Exited(u8),
    /// A command that runs no program is done.
    Done(Report),
    /// So many turns were made, and process 1 has not exited.
    Bound(u64),
    /// After so many turns nothing could happen any more: no thread is ready, and none will be.
    Stuck(u64),
    /// The words are no command.
    BadWords,
    /// There is no file of this name.
    NoFile(Items<u8>),
    /// The file of this name is past its limit.
    Large(Items<u8>),
    /// The program of this name can't be opened.
    NoProgram(Items<u8>),
    /// The loader refuses the program's file for this cause.
    BadProgram(ElfError),
    /// The assembler refuses this line of the text, counted from 1.
    BadText(u64, AsmCause),
    /// The command needs a host that was not used, and this one was.
    AlreadyUsed,
    /// The outside of the host failed.
    HostFault,
    /// The outside that has the user's files failed.
    ShelfFault,
    /// The outside that takes the notes failed.
    NotesFault,
    /// There was no memory.
    OutOfMemory,
}

impl Outcome {
    /// The exit status that tells the outcome. Takes no memory.
    pub fn code(&self) -> u8
        ensures { result ≡ status_of self.now }
    {
        match self {
            Outcome::Exited(code) => *code,
            Outcome::Done(_) => 0,
            Outcome::Bound(_) => 230,
            Outcome::Stuck(_) => 231,
            Outcome::BadWords => 233,
            Outcome::NoFile(_) => 234,
            Outcome::Large(_) => 235,
            Outcome::NoProgram(_) => 239,
            Outcome::BadProgram(_) => 240,
            Outcome::BadText(_, _) => 244,
            Outcome::AlreadyUsed => 245,
            Outcome::HostFault => 246,
            Outcome::ShelfFault => 247,
            Outcome::NotesFault => 248,
            Outcome::OutOfMemory => 249,
        }
    }
}
