ghost use Rattle.std.specs.Prelude.{◌≡◌, true, false, IfOk, OnOk, OnErr, IsErrOf};
ghost use Rattle.bas_edge.specs.Faults.{HasCause};
ghost use Rattle.abi_calls.specs.Abi.{takes_memory};
ghost use Rattle.host_files.specs.Users.{is_used};
ghost use Rattle.host_files.specs.InUse.{AreThere};
ghost use Rattle.host_files.specs.Rows.{FollowsRow, IsOnFile, LeavesFiles, file_call_row, is_by_name, may_make_file, users_after};

use crate::rows::{
    delete_file, measure_file, open_file, read_file, rename_file, resize_file, write_file,
};
use crate::users::Users;
use abi_calls::{Call, Reply};
use bas_edge::{EdgeError, Store};
use std::alloc::Global;

/// Answers a call on the file `name`, and counts its users.
pub(crate) fn serve<E: Store>(
    alloc: Global,
    store: &mut E,
    users: &mut Users,
    call: &Call,
    name: &[u8],
) -> Result<Reply, EdgeError>
    requires there { AreThere (E.files store.old) users.old }
    requires on_file { IsOnFile call.now name.now }
    requires user { is_by_name call.now ≡ false → is_used users.old name.now ≡ true }
    ensures row { IfOk result (λ reply. FollowsRow (file_call_row users.old call.now name.now)
        (E.files store.old) reply (E.files store.new)) }
    ensures users { IfOk result (λ reply.
        users.new ≡ users_after users.old call.now name.now reply) }
    ensures left { OnErr result (LeavesFiles (file_call_row users.old call.now name.now)
        (E.files store.old) (E.files store.new)) }
    ensures same_files { OnErr result (may_make_file call.now ≡ false
        → E.files store.new ≡ E.files store.old) }
    ensures same_users { OnErr result (users.new ≡ users.old) }
    ensures memory { OnErr result (takes_memory call.now ≡ true) }
    ensures cause { HasCause EdgeError.Failed
        (E.fault_count store.old) (E.fault_count store.new) result }
    ensures unfaulted { OnOk result (E.fault_count store.new ≡ E.fault_count store.old) }
    ensures want { IsErrOf result EdgeError.Memory
        → E.fault_count store.new ≡ E.fault_count store.old }
{
    match call {
        Call::StreamOpen {
            create,
            exclusive,
            ..
        } => {
            let reply = open_file(store, name, *create, *exclusive)?;
            if let Reply::Done = reply {
                users.add(name)?;
            }
            Ok(reply)
        }
        Call::StreamRead { offset, count, .. } => read_file(alloc, store, name, *offset, *count),
        Call::StreamWrite { offset, bytes, .. } => {
            write_file(store, name, *offset, bytes.as_slice())
        }
        Call::StreamLength { .. } => measure_file(store, name),
        Call::StreamSetLength { length, .. } => resize_file(store, name, *length),
        Call::StreamDelete { .. } => delete_file(store, name, users.has(name)),
        Call::StreamRename { to, .. } => {
            let to = to.as_slice();
            rename_file(store, name, to, users.has(name) | users.has(to))
        }
        Call::Share { .. } => {
            users.add(name)?;
            Ok(Reply::Done)
        }
        Call::Close { .. } => {
            users.take(name);
            Ok(Reply::Done)
        }
        _ => unreachable!(),
    }
}
