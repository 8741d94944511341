ghost use Rattle.std.specs.Prelude.{◌≡◌, true, IfOk, IfSome, IfNone, OnErr};
ghost use Rattle.abi_calls.specs.declared.call.Call.TheVariants.{Close, ProcessCreate, ProcessExit, ProcessStatus, Configure};
ghost use Rattle.abi_calls.specs.Objects.{object_at, is_thread_of};
ghost use Rattle.abi_calls.specs.Processes.{without_threads};
ghost use Rattle.abi_calls.specs.Sound.{IsSound};
ghost use Rattle.host_objects.specs.System.{system_objects};
ghost use Rattle.host_objects.specs.Rows.{Row, HasNoThread};

use crate::kinds::{is_running, is_thread};
use crate::numbers::Numbers;
use crate::settings::is_acceptable;
use crate::system::System;
use abi_calls::limits::MOST_PROCESSES;
use abi_calls::{Object, Positions, Reply, Settings};
use bas_edge::Memory;
use guest_memory::Pages;
use rv_core::Memo;
use std::alloc::Global;

/// Gives a memo of decoded words slots where it has none yet.
fn make_slots(memo: &mut Memo, alloc: Global) -> Result<(), Memory> {
    if !memo.has_slots() {
        *memo = Memo::new(alloc)?;
    }
    Ok(())
}

impl<N: Numbers + Drop> System<N> {
    /// Close.
    #[tactic(auto, using(crate::proofs::Rows::busy_row, crate::proofs::Rows::closed_row))]
    pub(crate) fn close(&mut self, handle: u64) -> Reply
        ensures { Row (system_objects self.old) (Close handle)
            result (system_objects self.new) }
    {
        let Some(object) = self.handles.get(handle) else {
            return Reply::BadHandle;
        };
        if is_thread(object) | is_running(object) {
            return Reply::Busy;
        }
        self.handles.end(handle);
        self.schedule.leave(handle);
        Reply::Done
    }

    /// ProcessCreate.
    pub(crate) fn process_create(&mut self) -> Result<Reply, Memory>
        requires { IsSound (system_objects self.old) }
        ensures row { IfOk result (λ reply.
            Row (system_objects self.old) ProcessCreate
            reply (system_objects self.new)) }
        ensures same { OnErr result (system_objects self.new ≡ system_objects self.old) }
    {
        if self.census().processes >= MOST_PROCESSES {
            return Ok(Reply::NoRoom);
        }
        make_slots(&mut self.memo, self.alloc)?;
        let memory = Pages::new(self.alloc);
        let number = self.handles.add(Object::Process { memory, code: None })?;
        Ok(Reply::Handle(number))
    }

    /// ProcessExit.
    pub(crate) fn process_exit(&mut self, process: u64, code: u8) -> Reply
        ensures { Row (system_objects self.old) (ProcessExit process code)
            result (system_objects self.new) }
    {
        if self.memory(process).is_none() {
            return Reply::BadHandle;
        }
        self.end_threads(process);
        let exited = Object::Process {
            memory: Pages::new(self.alloc),
            code: Some(code),
        };
        self.handles.set(process, exited);
        Reply::Done
    }

    /// Ends the threads of a process.
    fn end_threads(&mut self, process: u64)
        ensures { system_objects self.new ≡ without_threads (system_objects self.old) process }
    {
        while let Some(thread) = self.thread_of(process) {
            self.handles.end(thread);
            self.schedule.leave(thread);
        }
    }

    /// The first thread of a process.
    fn thread_of(&self, process: u64) -> Option<u64>
        ensures found { IfSome result (λ thread.
            is_thread_of process (object_at (system_objects self.now) thread) ≡ true) }
        ensures none { IfNone result (HasNoThread (system_objects self.now) process) }
    {
        for number in self.handles.numbers() {
            if self.is_thread_of(*number, process) {
                return Some(*number);
            }
        }
        None
    }

    /// Whether a number is that of a thread of a process.
    fn is_thread_of(&self, number: u64, process: u64) -> bool
        ensures { result ≡ is_thread_of process (object_at (system_objects self.now) number) }
    {
        match self.handles.get(number) {
            Some(Object::Thread { process: home, .. }) => *home == process,
            _ => false,
        }
    }

    /// ProcessStatus.
    pub(crate) fn process_status(&self, process: u64) -> Reply
        ensures { Row (system_objects self.now) (ProcessStatus process)
            result (system_objects self.now) }
    {
        let Some(Object::Process { code, .. }) = self.handles.get(process) else {
            return Reply::BadHandle;
        };
        match *code {
            Some(code) => Reply::Exited(code),
            None => Reply::Running,
        }
    }

    /// Configure.
    pub(crate) fn configure(
        &mut self,
        settings: &Settings,
        positions: Positions,
    ) -> Result<Reply, Memory>
        ensures row { IfOk result (λ reply.
            Row (system_objects self.old) (Configure settings.now positions)
            reply (system_objects self.new)) }
        ensures same { OnErr result (system_objects self.new ≡ system_objects self.old) }
    {
        if !is_acceptable(settings) {
            return Ok(Reply::TooBig);
        }
        if self.positions.turns != 0 || self.census().running > 0 {
            return Ok(Reply::Busy);
        }
        self.settings = settings.clone()?;
        self.positions = positions;
        Ok(Reply::Done)
    }
}
