use crate::cont::Cont;
use crate::notes::{Description, ProcessNote, Queued, ThreadNote};
use abi_calls::Settings;
use bas_items::Items;
use elf_loader::ElfError;

/// How far the start of the run is.
#[derive(Clone, Copy, Debug, PartialEq, Eq)]
pub enum Boot {
    /// It is going on.
    Going,
    /// The run has begun.
    Up,
    /// The program's file can't be opened.
    NoProgram,
    /// The file is no program, by the loader's refusal.
    BadProgram(ElfError),
}

/// The library OS: the system calls, over the host's interface.
#[derive(Debug, Drop)]
pub struct LibOs {
    pub settings: Settings,
    pub boot: Boot,
    /// The next id of a process or a thread.
    pub next_id: u64,
    pub processes: Items<ProcessNote>,
    pub threads: Items<ThreadNote>,
    pub descriptions: Items<Description>,
    /// The threads that wait until they are woken, in the order in which they came.
    pub queue: Items<Queued>,
    /// The service in progress.
    pub cont: Option<Cont>,
}
