ghost use Rattle.std.specs.Prelude.{◌≡◌};
ghost use Rattle.abi_calls.specs.declared.object.Object.TheVariants.{Thread};
ghost use Rattle.abi_calls.specs.Objects.{object_at};
ghost use Rattle.abi_calls.specs.Sound.{IsSound};
ghost use Rattle.abi_calls.specs.Turn.{world_turn, pick_word};
ghost use Rattle.host_objects.specs.System.{system_objects};
ghost use Rattle.host_objects.specs.Turns.{HasHome, RunsSlice};

use crate::numbers::Numbers;
use crate::system::System;
use abi_calls::{Object, Turned, Upcall};
use rv_core::{Context, Ended};

impl<N: Numbers + Drop> System<N> {
    /// Makes a turn: the ready thread that the next word of the tape picks does up to `slice` instructions, and
    /// joins the end of the ready ones, or is current if it trapped. Takes no memory.
    pub(crate) fn turn(&mut self) -> Turned
        requires sound { IsSound (system_objects self.old) }
        requires idle { (system_objects self.old).lists.current ≡ None }
        ensures { world_turn (system_objects self.old) ≡ (result, system_objects self.new) }
    {
        let word = self.word();
        let Some(thread) = self.schedule.pick(word) else {
            return Turned::Stuck;
        };
        self.positions.turns = self.positions.turns.wrapping_add(1);
        self.positions.pick = self.positions.pick.wrapping_add(1);
        let (process, mut context) = self.home(thread);
        match self.run(thread, process, &mut context) {
            Ended::Ran => {
                self.schedule.back();
                Turned::Ran
            }
            Ended::Trapped(trap) => Turned::Exception(Upcall {
                process,
                thread,
                cause: trap.cause,
                value: trap.value,
                context,
            }),
        }
    }

    /// The next word of the tape of picks; 0 past its end.
    fn word(&self) -> u64
        ensures { result ≡ pick_word (system_objects self.now) }
    {
        match self.settings.picks.get(self.positions.pick as usize) {
            Some(word) => *word,
            None => 0,
        }
    }

    /// The process and the registers of a thread.
    fn home(&self, thread: u64) -> (u64, Context)
        requires { HasHome (system_objects self.now) thread }
        ensures { object_at (system_objects self.now) thread ≡ Some (Thread result.0 result.1) }
    {
        match self.handles.get(thread) {
            Some(Object::Thread { process, context }) => (*process, *context),
            _ => unreachable!(),
        }
    }

    /// Runs a thread with its registers in the pages of its process, and keeps the registers that it has then.
    fn run(&mut self, thread: u64, process: u64, context: &mut Context) -> Ended
        requires home { HasHome (system_objects self.old) thread }
        requires is { object_at (system_objects self.old) thread ≡ Some (Thread process context.old) }
        ensures { RunsSlice (system_objects self.old) thread process context.old
            result (system_objects self.new) context.new }
    {
        let most = self.settings.slice;
        let ended = self.handles.run(process, context, &mut self.memo, most);
        self.handles.set_registers(thread, context);
        ended
    }
}
