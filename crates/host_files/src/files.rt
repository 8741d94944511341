ghost use Rattle.std.specs.Prelude.{◌≡◌, true, false, IfOk, OnOk, OnErr, IsErrOf};
ghost use Rattle.std.specs.FinMap.{empty};
ghost use Rattle.bas_edge.specs.Faults.{HasCause};
ghost use Rattle.abi_calls.specs.Abi.{takes_memory};
ghost use Rattle.host_files.specs.Users.{is_used};
ghost use Rattle.host_files.specs.Rows.{FollowsRow, IsOnFile, LeavesFiles, file_call_row, is_by_name, may_make_file, users_after};

use crate::serve::serve;
use crate::users::Users;
use abi_calls::{Call, HostError, Reply};
use bas_edge::Store;
use std::alloc::Global;
use std::marker::Model;

/// The files of a store, and how many users each has. Contracts see the store and the counts; where the store tells
/// its files, each file that has a user is there.
#[derive(Drop)]
pub struct Files<E: Store> {
    alloc: Global,
    store: E,
    users: Users,
}

impl<E: Store> Model for Files<E> {
    ghost use Rattle.host_files.specs.InUse.{InUse, AreThere, in_use_code};

    ghost Value = { InUse E };

    ghost coded = { in_use_code E.code };

    ghost view = { λ it. record { store = it.store; users = it.users } };

    ghost invariant = { λ it. AreThere (E.files it.store) it.users };
}

impl<E: Store> Files<E> {
    /// The files of this store, which have no users.
    pub fn new(alloc: Global, store: E) -> Files<E>
        ensures store { result.store ≡ store }
        ensures unused { result.users ≡ empty }
    {
        Files {
            alloc,
            store,
            users: Users::new(alloc),
        }
    }

    /// How many faults the store had.
    pub fn faults(&self) -> u64
        ensures { result ≡ E.fault_count self.now.store }
    {
        self.store.faults()
    }

    /// The store.
    pub fn store(&self) -> &E
        ensures { result.now ≡ self.now.store }
    {
        &self.store
    }

    /// Whether a file has a user.
    pub fn has_user(&self, name: &[u8]) -> bool
        ensures { result ≡ is_used self.now.users name.now }
    {
        self.users.has(name)
    }

    /// Answers a call on the file `name`, which is the name that the call gives (at StreamRename `from`), or that of
    /// its handle's file. An open or a share that is accepted is answered by `Done`, and counts one user more of the
    /// file; a close counts one less.
    ///
    /// # Errors
    /// `Failed` only where the store's count of faults rose in this call; `Memory`, where it didn't. After either the
    /// files are as before, or at StreamOpen as its row leaves them, and the users are as before. Close has no error.
    pub fn call(&mut self, call: &Call, name: &[u8]) -> Result<Reply, HostError>
        requires on_file { IsOnFile call.now name.now }
        requires user { is_by_name call.now ≡ false → is_used self.old.users name.now ≡ true }
        ensures row { IfOk result (λ reply. FollowsRow
            (file_call_row self.old.users call.now name.now)
            (E.files self.old.store) reply (E.files self.new.store)) }
        ensures users { IfOk result (λ reply.
            self.new.users ≡ users_after self.old.users call.now name.now reply) }
        ensures left { OnErr result (LeavesFiles
            (file_call_row self.old.users call.now name.now)
            (E.files self.old.store) (E.files self.new.store)) }
        ensures same_files { OnErr result (may_make_file call.now ≡ false
            → E.files self.new.store ≡ E.files self.old.store) }
        ensures same_users { OnErr result (self.new.users ≡ self.old.users) }
        ensures memory { OnErr result (takes_memory call.now ≡ true) }
        ensures cause { HasCause HostError.Failed
            (E.fault_count self.old.store) (E.fault_count self.new.store) result }
        ensures unfaulted { OnOk result
            (E.fault_count self.new.store ≡ E.fault_count self.old.store) }
        ensures want { IsErrOf result HostError.Memory
            → E.fault_count self.new.store ≡ E.fault_count self.old.store }
    {
        let reply = serve(self.alloc, &mut self.store, &mut self.users, call, name)?;
        Ok(reply)
    }
}
