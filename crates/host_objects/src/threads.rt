ghost use Rattle.std.specs.Prelude.{◌≡◌, IfOk, OnErr};
ghost use Rattle.abi_calls.specs.declared.call.Call.TheVariants.{ThreadCreate, ThreadResume, ThreadExit, ThreadContext, EventCreate};
ghost use Rattle.abi_calls.specs.Sound.{IsSound};
ghost use Rattle.host_objects.specs.System.{system_objects};
ghost use Rattle.host_objects.specs.Rows.{Row};

use crate::numbers::Numbers;
use crate::system::System;
use abi_calls::limits::MOST_THREADS;
use abi_calls::{Object, Reply};
use bas_edge::Memory;
use rv_core::Context;

impl<N: Numbers + Drop> System<N> {
    /// ThreadCreate.
    pub(crate) fn thread_create(&mut self, process: u64, context: Context) -> Result<Reply, Memory>
        requires { IsSound (system_objects self.old) }
        ensures row { IfOk result (λ reply.
            Row (system_objects self.old) (ThreadCreate process context)
            reply (system_objects self.new)) }
        ensures same { OnErr result (system_objects self.new ≡ system_objects self.old) }
    {
        if self.memory(process).is_none() {
            return Ok(Reply::BadHandle);
        }
        if self.census().threads >= MOST_THREADS {
            return Ok(Reply::NoRoom);
        }
        self.schedule.reserve(1)?;
        let number = self.handles.add(Object::Thread { process, context })?;
        self.schedule.add(number);
        Ok(Reply::Handle(number))
    }

    /// ThreadResume.
    pub(crate) fn thread_resume(&mut self, thread: u64) -> Reply
        ensures { Row (system_objects self.old) (ThreadResume thread)
            result (system_objects self.new) }
    {
        let Some(Object::Thread { .. }) = self.handles.get(thread) else {
            return Reply::BadHandle;
        };
        if self.schedule.start(thread) {
            Reply::Done
        } else {
            Reply::Busy
        }
    }

    /// ThreadExit.
    pub(crate) fn thread_exit(&mut self, thread: u64) -> Reply
        ensures { Row (system_objects self.old) (ThreadExit thread)
            result (system_objects self.new) }
    {
        let Some(Object::Thread { .. }) = self.handles.get(thread) else {
            return Reply::BadHandle;
        };
        self.handles.end(thread);
        self.schedule.leave(thread);
        Reply::Done
    }

    /// ThreadContext.
    pub(crate) fn thread_context(&mut self, thread: u64, context: &Context) -> Reply
        ensures { Row (system_objects self.old) (ThreadContext thread context.now)
            result (system_objects self.new) }
    {
        let Some(Object::Thread { .. }) = self.handles.get(thread) else {
            return Reply::BadHandle;
        };
        if !self.schedule.rests(thread) {
            return Reply::Busy;
        }
        self.handles.set_registers(thread, context);
        Reply::Done
    }

    /// EventCreate.
    pub(crate) fn event_create(&mut self) -> Result<Reply, Memory>
        requires { IsSound (system_objects self.old) }
        ensures row { IfOk result (λ reply.
            Row (system_objects self.old) EventCreate
            reply (system_objects self.new)) }
        ensures same { OnErr result (system_objects self.new ≡ system_objects self.old) }
    {
        let number = self.handles.add(Object::Event { set: false })?;
        Ok(Reply::Handle(number))
    }
}
