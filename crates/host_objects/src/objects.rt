ghost use Rattle.abi_calls.specs.Sound.{IsSound};
ghost use Rattle.abi_calls.proofs.SoundProp.{IsSound-prop};
ghost use Rattle.host_objects.specs.System.{system_objects};

use crate::numbers::Numbers;
use crate::system::System;
use abi_calls::{Call, Object, Positions, Reply, StreamName, Turned};
use bas_edge::Memory;
use std::alloc::Global;

/// The objects of a host, the lists of threads, the positions and the settings. They are sound at any moment.
#[derive(Drop)]
pub struct Objects<N: Numbers> {
    system: System<N>,
    ghost sound: { IsSound (system_objects system) } by { IsSound-prop (system_objects system) },
}

impl<N: Numbers + Drop> Objects<N> {
    ghost use Rattle.std.specs.Prelude.{◌≡◌, ◌↔◌, true, false, IsTrue, IfOk, OnErr};
    ghost use Rattle.std.specs.Option.{option_copied};
    ghost use Rattle.abi_calls.specs.declared.object.Object.TheVariants.{Stream};
    ghost use Rattle.abi_calls.specs.Objects.{object_at, with_object, IsFresh};
    ghost use Rattle.abi_calls.specs.Abi.{is_outside, takes_memory};
    ghost use Rattle.abi_calls.specs.Fresh.{IsFreshWorld};
    ghost use Rattle.abi_calls.specs.Sound.{IsSound, is_sound_name};
    ghost use Rattle.abi_calls.specs.Streams.{stream_of};
    ghost use Rattle.abi_calls.specs.Turn.{world_turn};
    ghost use Rattle.host_objects.specs.Objects.{objects_of, untouched};
    ghost use Rattle.host_objects.specs.Rows.{Row};

    /// No object, at position 0 and with the least settings. Takes no memory.
    pub fn new(alloc: Global, numbers: N) -> Objects<N>
        ensures { objects_of result ≡ untouched }
    {
        Objects {
            system: System::new(alloc, numbers),
        }
    }

    /// The objects are sound at any moment.
    pub fn are_sound(&self)
        ensures { IsSound (objects_of self.now) }
    {}

    /// Answers a call that reaches nothing of the outside. After an `Err` all is as before.
    ///
    /// # Errors
    /// `Memory`, only for the calls that make something or give bytes back.
    pub fn call(&mut self, call: &Call) -> Result<Reply, Memory>
        requires { is_outside (objects_of self.old) call.now ≡ false }
        ensures row { IfOk result (λ reply.
            Row (objects_of self.old) call.now reply (objects_of self.new)) }
        ensures same { OnErr result (objects_of self.new ≡ objects_of self.old) }
        ensures memory { OnErr result (takes_memory call.now ≡ true) }
    {
        self.system.call(call)
    }

    /// Makes a turn: the ready thread that the next word of the tape picks does up to `slice` instructions, and
    /// joins the end of the ready ones, or is current if it trapped. Takes no memory.
    pub fn turn(&mut self) -> Turned
        requires { (objects_of self.old).lists.current ≡ None }
        ensures { world_turn (objects_of self.old) ≡ (result, objects_of self.new) }
    {
        self.system.turn()
    }

    /// What a stream is opened on.
    pub fn stream(&self, handle: u64) -> Option<&StreamName>
        ensures { option_copied result ≡ stream_of (object_at (objects_of self.now) handle) }
    {
        match self.system.handles.get(handle) {
            Some(Object::Stream(name)) => Some(name),
            _ => None,
        }
    }

    /// Opens a stream under a new handle. After an `Err` all is as before.
    pub fn add_stream(&mut self, name: StreamName) -> Result<u64, Memory>
        requires { is_sound_name name ≡ true }
        ensures fresh { IfOk result (IsFresh (objects_of self.old)) }
        ensures added { IfOk result (λ handle.
            objects_of self.new ≡ with_object (objects_of self.old) handle (Stream name)) }
        ensures same { OnErr result (objects_of self.new ≡ objects_of self.old) }
    {
        self.system.handles.add(Object::Stream(name))
    }

    /// How many turns were made, and how many words of the tapes were used.
    pub fn positions(&self) -> Positions
        ensures { result ≡ (objects_of self.now).positions }
    {
        self.system.positions
    }

    /// Whether there is no object and all positions are 0.
    pub fn is_fresh(&self) -> bool
        ensures { IsTrue result ↔ IsFreshWorld (objects_of self.now) 0 }
    {
        let Positions {
            turns,
            pick,
            random,
        } = self.system.positions;
        self.system.handles.is_empty() & (turns == 0) & (pick == 0) & (random == 0)
    }
}
