ghost use Rattle.std.specs.Prelude.{◌≡◌};
ghost use Rattle.abi_calls.specs.Objects as kinds;
ghost use Rattle.abi_calls.specs.Processes as processes;

use abi_calls::Object;
use guest_memory::Pages;

/// Whether an object is a process, exited or not.
pub(crate) fn is_process(object: &Object<Pages>) -> bool
    ensures { result ≡ kinds.is_process object.now }
{
    matches!(object, Object::Process { .. })
}

/// Whether an object is a process that hasn't exited.
pub(crate) fn is_running(object: &Object<Pages>) -> bool
    ensures { result ≡ processes.is_running object.now }
{
    matches!(object, Object::Process { code: None, .. })
}

/// Whether an object is a thread.
pub(crate) fn is_thread(object: &Object<Pages>) -> bool
    ensures { result ≡ kinds.is_thread object.now }
{
    matches!(object, Object::Thread { .. })
}
