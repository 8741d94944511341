ghost use Rattle.std.specs.Prelude.{◌≡◌};
ghost use Rattle.std.specs.Option.{option_copied};
ghost use Rattle.abi_calls.specs.Objects.{running, object_at, number_of};
ghost use Rattle.abi_calls.specs.Objects as kinds;
ghost use Rattle.abi_calls.specs.Processes as processes;
ghost use Rattle.host_objects.specs.System.{system_objects};
ghost use Rattle.host_objects.specs.Objects.{untouched};

use crate::handles::Handles;
use crate::kinds::{is_process, is_running, is_thread};
use crate::numbers::Numbers;
use abi_calls::{Object, Positions, Settings};
use bas_items::Items;
use guest_memory::Pages;
use rv_core::Memo;
use std::alloc::Global;
use turn_sched::Schedule;

/// What calls and turns act on: the objects by handle, the lists of threads, the positions and the settings.
#[derive(Drop)]
pub(crate) struct System<N: Numbers> {
    pub(crate) handles: Handles<N, Object<Pages>>,
    pub(crate) schedule: Schedule,
    pub(crate) positions: Positions,
    pub(crate) settings: Settings,
    /// Words that threads met, with their instructions: it has slots from the first process on, and all share it.
    pub(crate) memo: Memo,
    pub(crate) alloc: Global,
}

/// How many objects of each kind there are.
#[derive(Clone, Copy)]
pub(crate) struct Census {
    /// The processes whose handle is live, exited ones too.
    pub(crate) processes: usize,
    /// The processes that haven't exited.
    pub(crate) running: usize,
    pub(crate) threads: usize,
}

impl<N: Numbers + Drop> System<N> {
    /// No object, at position 0 and with the least settings. Takes no memory.
    pub(crate) fn new(alloc: Global, numbers: N) -> System<N>
        ensures { system_objects result ≡ untouched }
    {
        System {
            handles: Handles::new(alloc, numbers),
            schedule: Schedule::new(alloc),
            positions: Positions {
                turns: 0,
                pick: 0,
                random: 0,
            },
            settings: Settings {
                start: 0,
                step: 0,
                salt: 0,
                slice: 1,
                picks: Items::new(alloc),
                randoms: Items::new(alloc),
            },
            memo: Memo::empty(alloc),
            alloc,
        }
    }

    /// The memory of a process that hasn't exited.
    pub(crate) fn memory(&self, process: u64) -> Option<&Pages>
        ensures { option_copied result ≡ running (object_at (system_objects self.now) process) }
    {
        match self.handles.get(process) {
            Some(Object::Process { memory, code: None }) => Some(memory),
            _ => None,
        }
    }

    /// How many objects of each kind there are.
    pub(crate) fn census(&self) -> Census
        ensures processes { result.processes
            ≡ number_of kinds.is_process (system_objects self.now).live }
        ensures running { result.running
            ≡ number_of processes.is_running (system_objects self.now).live }
        ensures threads { result.threads
            ≡ number_of kinds.is_thread (system_objects self.now).live }
    {
        let mut processes = 0;
        let mut running = 0;
        let mut threads = 0;
        for object in self.handles.values() {
            processes += usize::from(is_process(object));
            running += usize::from(is_running(object));
            threads += usize::from(is_thread(object));
        }
        Census {
            processes,
            running,
            threads,
        }
    }
}
