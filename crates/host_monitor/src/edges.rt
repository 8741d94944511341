ghost use Rattle.std.specs.Prelude.{◌≡◌, ℕ, true, false, IfOk, OnOk, OnErr, IsErrOf};
ghost use Rattle.bas_edge.specs.Faults.{HasCause};
ghost use Rattle.abi_calls.specs.World.{Told};
ghost use Rattle.abi_calls.specs.Abi.{takes_memory};
ghost use Rattle.abi_calls.specs.Failing.{IsPartWritten, IsPartTaken, with_text, without_front};
ghost use Rattle.host_files.specs.Users.{Users, is_used};
ghost use Rattle.host_files.specs.Rows.{FollowsRow, IsOnFile, LeavesFiles, file_call_row, is_by_name, may_make_file, users_after};
ghost use Rattle.host_monitor.specs.Edges.{TakesAsked};

use abi_calls::{Call, HostError, Reply};
use bas_edge::EdgeError;
use bas_items::Items;
use std::alloc::Global;

/// The console and the files as one.
pub(crate) trait Edges {
    /// The contents, each part as far as it is told.
    ghost told: { Self → Told };

    /// How many users each file has.
    ghost users: { Self → Users };

    /// How many faults there were, held at the greatest `u64`.
    ghost fault_count: { Self → ℕ };

    /// Writes all the bytes to the console's output. After an `Err` a front of them is written.
    fn put_output(&mut self, bytes: &[u8]) -> Result<(), EdgeError>
        ensures all { OnOk result (told self.new
            ≡ record (told self.old) { output = with_text (told self.old).output bytes.now }) }
        ensures part { IsPartWritten (told self.old).output (told self.new).output
            (with_text (told self.old).output bytes.now) }
        ensures rest { told self.new ≡ record (told self.old) { output = (told self.new).output } }
        ensures users { users self.new ≡ users self.old }
        ensures cause { HasCause EdgeError.Failed
            (fault_count self.old) (fault_count self.new) result }
        ensures unfaulted { OnOk result (fault_count self.new ≡ fault_count self.old) }
        ensures want { IsErrOf result EdgeError.Memory
            → fault_count self.new ≡ fault_count self.old };

    /// Writes all the bytes to the console's errors. After an `Err` a front of them is written.
    fn put_errors(&mut self, bytes: &[u8]) -> Result<(), EdgeError>
        ensures all { OnOk result (told self.new
            ≡ record (told self.old) { errors = with_text (told self.old).errors bytes.now }) }
        ensures part { IsPartWritten (told self.old).errors (told self.new).errors
            (with_text (told self.old).errors bytes.now) }
        ensures rest { told self.new ≡ record (told self.old) { errors = (told self.new).errors } }
        ensures users { users self.new ≡ users self.old }
        ensures cause { HasCause EdgeError.Failed
            (fault_count self.old) (fault_count self.new) result }
        ensures unfaulted { OnOk result (fault_count self.new ≡ fault_count self.old) }
        ensures want { IsErrOf result EdgeError.Memory
            → fault_count self.new ≡ fault_count self.old };

    /// Takes `count` bytes of the console's input, or all that is left. After an `Err` some of them are taken.
    fn take_input(&mut self, alloc: Global, count: usize) -> Result<Items<u8>, EdgeError>
        ensures asked { IfOk result (λ bytes.
            TakesAsked (told self.old).input count bytes (told self.new).input) }
        ensures part { IsPartTaken (told self.old).input (told self.new).input
            (without_front (told self.old).input count) }
        ensures rest { told self.new ≡ record (told self.old) { input = (told self.new).input } }
        ensures users { users self.new ≡ users self.old }
        ensures cause { HasCause EdgeError.Failed
            (fault_count self.old) (fault_count self.new) result }
        ensures unfaulted { OnOk result (fault_count self.new ≡ fault_count self.old) }
        ensures want { IsErrOf result EdgeError.Memory
            → fault_count self.new ≡ fault_count self.old };

    /// Answers a call on the file `name`, and counts the file's users, as `Files::call` does.
    fn call_file(&mut self, call: &Call, name: &[u8]) -> Result<Reply, HostError>
        requires on_file { IsOnFile call.now name.now }
        requires user { is_by_name call.now ≡ false → is_used (users self.old) name.now ≡ true }
        ensures row { IfOk result (λ reply. FollowsRow
            (file_call_row (users self.old) call.now name.now)
            (told self.old).files reply (told self.new).files) }
        ensures users { IfOk result (λ reply.
            users self.new ≡ users_after (users self.old) call.now name.now reply) }
        ensures left { OnErr result (LeavesFiles
            (file_call_row (users self.old) call.now name.now)
            (told self.old).files (told self.new).files) }
        ensures same_files { OnErr result (may_make_file call.now ≡ false
            → (told self.new).files ≡ (told self.old).files) }
        ensures same_users { OnErr result (users self.new ≡ users self.old) }
        ensures memory { OnErr result (takes_memory call.now ≡ true) }
        ensures rest { told self.new ≡ record (told self.old) { files = (told self.new).files } }
        ensures cause { HasCause HostError.Failed
            (fault_count self.old) (fault_count self.new) result }
        ensures unfaulted { OnOk result (fault_count self.new ≡ fault_count self.old) }
        ensures want { IsErrOf result HostError.Memory
            → fault_count self.new ≡ fault_count self.old };

    /// How many faults there were.
    fn faults(&self) -> u64
        ensures { result ≡ fault_count self.now };
}
