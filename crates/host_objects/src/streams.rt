ghost use Rattle.std.specs.Prelude.{◌≡◌, IfOk, OnErr};
ghost use Rattle.abi_calls.specs.declared.call.Call.TheVariants.{Share};
ghost use Rattle.abi_calls.specs.Objects.{object_at};
ghost use Rattle.abi_calls.specs.Streams as streams;
ghost use Rattle.abi_calls.specs.Sound.{IsSound};
ghost use Rattle.host_objects.specs.System.{system_objects};
ghost use Rattle.host_objects.specs.Rows.{Row};

use crate::numbers::Numbers;
use crate::system::System;
use abi_calls::{Object, Reply};
use bas_edge::Memory;
use guest_memory::Pages;

impl<N: Numbers + Drop> System<N> {
    /// Share.
    pub(crate) fn share(&mut self, stream: u64) -> Result<Reply, Memory>
        requires { IsSound (system_objects self.old) }
        ensures row { IfOk result (λ reply.
            Row (system_objects self.old) (Share stream)
            reply (system_objects self.new)) }
        ensures same { OnErr result (system_objects self.new ≡ system_objects self.old) }
    {
        let Some(object) = self.shared_object(stream)? else {
            return Ok(Reply::BadHandle);
        };
        let number = self.handles.add(object)?;
        Ok(Reply::Handle(number))
    }

    /// What several handles can name, where the handle names that.
    fn shared_object(&self, stream: u64) -> Result<Option<Object<Pages>>, Memory>
        ensures { IfOk result (λ object.
            object ≡ streams.shared_object (object_at (system_objects self.now) stream)) }
    {
        match self.handles.get(stream) {
            Some(Object::Stream(name)) => Ok(Some(Object::Stream(name.clone()?))),
            Some(Object::ReadEnd(pipe)) => Ok(Some(Object::ReadEnd(*pipe))),
            Some(Object::WriteEnd(pipe)) => Ok(Some(Object::WriteEnd(*pipe))),
            _ => Ok(None),
        }
    }
}
