ghost use Rattle.std.specs.Prelude.{◌≡◌, true, false, IfOk, OnErr};
ghost use Rattle.abi_calls.specs.Abi.{is_outside, takes_memory};
ghost use Rattle.abi_calls.specs.Sound.{IsSound, HasBytes};
ghost use Rattle.host_objects.specs.System.{system_objects};
ghost use Rattle.host_objects.specs.Rows.{Row};

use crate::numbers::Numbers;
use crate::system::System;
use abi_calls::{Call, Reply};
use bas_edge::Memory;

impl<N: Numbers + Drop> System<N> {
    /// Answers a call that reaches nothing of the outside. After an `Err` all is as before.
    pub(crate) fn call(&mut self, call: &Call) -> Result<Reply, Memory>
        requires sound { IsSound (system_objects self.old) }
        requires inside { is_outside (system_objects self.old) call.now ≡ false }
        ensures row { IfOk result (λ reply.
            Row (system_objects self.old) call.now reply (system_objects self.new)) }
        ensures same { OnErr result (system_objects self.new ≡ system_objects self.old) }
        ensures memory { OnErr result (takes_memory call.now ≡ true) }
        ensures bytes { HasBytes call.now }
    {
        match call {
            Call::MemoryAllocate {
                process,
                page,
                count,
                rights,
            } => self.memory_allocate(*process, *page, *count, *rights),
            Call::MemoryFree {
                process,
                page,
                count,
            } => Ok(self.memory_free(*process, *page, *count)),
            Call::MemoryProtect {
                process,
                page,
                count,
                rights,
            } => Ok(self.memory_protect(*process, *page, *count, *rights)),
            Call::MemoryRead {
                process,
                address,
                count,
            } => self.memory_read(*process, *address, *count),
            Call::MemoryWrite {
                process,
                address,
                bytes,
            } => Ok(self.memory_write(*process, *address, bytes.as_slice())),
            Call::ThreadCreate { process, context } => self.thread_create(*process, *context),
            Call::ThreadResume { thread } => Ok(self.thread_resume(*thread)),
            Call::ThreadExit { thread } => Ok(self.thread_exit(*thread)),
            Call::ThreadContext { thread, context } => Ok(self.thread_context(*thread, context)),
            Call::EventCreate => self.event_create(),
            Call::Share { stream } => self.share(*stream),
            Call::Close { handle } => Ok(self.close(*handle)),
            Call::ProcessCreate => self.process_create(),
            Call::ProcessExit { process, code } => Ok(self.process_exit(*process, *code)),
            Call::ProcessStatus { process } => Ok(self.process_status(*process)),
            Call::Configure {
                settings,
                positions,
            } => self.configure(settings, *positions),
            Call::Positions => Ok(Reply::Places(self.positions)),
            Call::StreamRead { .. }
            | Call::StreamWrite { .. }
            | Call::StreamLength { .. }
            | Call::StreamSetLength { .. } => Ok(Reply::BadHandle),
            Call::StreamOpen { .. } | Call::StreamDelete { .. } | Call::StreamRename { .. } => {
                unreachable!()
            }
        }
    }
}
