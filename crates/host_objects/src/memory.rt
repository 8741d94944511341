ghost use Rattle.std.specs.Prelude.{◌≡◌, ◌<◌, ◌^◌, All, length, nat_le, IfOk, OnErr, IsSome, MatchOption};
ghost use Rattle.abi_calls.specs.declared.call.Call.TheVariants.{MemoryAllocate, MemoryFree, MemoryProtect, MemoryRead, MemoryWrite};
ghost use Rattle.abi_calls.specs.Objects.{object_at};
ghost use Rattle.abi_calls.specs.Memory.{with_pages};
ghost use Rattle.host_objects.specs.System.{system_objects};
ghost use Rattle.host_objects.specs.Rows.{Row};
ghost use Rattle.guest_memory.specs.Refusals.{fault_of_error};
ghost use Rattle.host_objects.specs.Taken.{Took, HasNone, allocate_result, access_reply};

use crate::numbers::Numbers;
use crate::system::System;
use abi_calls::limits::MOST_BYTES;
use abi_calls::{Object, Reply};
use bas_edge::Memory;
use bas_items::Items;
use guest_memory::{PageError, Pages};

/// What an allocation answers that the pages refuse.
fn unallocated(error: PageError) -> Result<Reply, Memory>
    ensures { result ≡ allocate_result error }
{
    match error {
        PageError::Overlap(_) => Ok(Reply::Exists),
        PageError::Full => Ok(Reply::NoRoom),
        PageError::Memory => Err(Memory),
        PageError::Range | PageError::Unmapped(_) | PageError::Denied(_) => Ok(Reply::BadAddress),
    }
}

/// Whether one call may write so many bytes.
fn is_within_limit(bytes: &[u8]) -> bool
    ensures limit { result ≡ nat_le (length bytes.now) MOST_BYTES }
    ensures bytes { All (λ byte. byte < 2 ^ 8) bytes.now }
{
    bytes.len() as u64 <= MOST_BYTES
}

/// What an access answers that the pages refuse.
fn inaccessible(error: PageError) -> Reply
    ensures { result ≡ access_reply (fault_of_error error) }
{
    match error {
        PageError::Denied(_) => Reply::NoAccess,
        _ => Reply::BadAddress,
    }
}

impl<N: Numbers + Drop> System<N> {
    /// Takes the pages of a process that runs out of it; they are put back by `put_memory`, and until then the
    /// process has none. `None` where there is no such process.
    pub(crate) fn take_memory(&mut self, process: u64) -> Option<Pages>
        ensures { MatchOption result
            (HasNone (system_objects self.old) process (system_objects self.new))
            (Took (system_objects self.old) process (system_objects self.new)) }
    {
        self.handles.take_pages(process, self.alloc)
    }

    /// Puts pages back into their process.
    pub(crate) fn put_memory(&mut self, process: u64, memory: Pages)
        requires { IsSome (object_at (system_objects self.old) process) }
        ensures { system_objects self.new ≡ with_pages (system_objects self.old) process memory }
    {
        self.handles
            .set(process, Object::Process { memory, code: None });
    }

    /// MemoryAllocate.
    pub(crate) fn memory_allocate(
        &mut self,
        process: u64,
        page: u64,
        count: u64,
        rights: u8,
    ) -> Result<Reply, Memory>
        ensures row { IfOk result (λ reply.
            Row (system_objects self.old) (MemoryAllocate process page count rights)
            reply (system_objects self.new)) }
        ensures same { OnErr result (system_objects self.new ≡ system_objects self.old) }
    {
        let Some(mut memory) = self.take_memory(process) else {
            return Ok(Reply::BadHandle);
        };
        let outcome = memory.allocate(page, count, rights);
        self.put_memory(process, memory);
        match outcome {
            Ok(()) => Ok(Reply::Done),
            Err(error) => unallocated(error),
        }
    }

    /// MemoryFree.
    pub(crate) fn memory_free(&mut self, process: u64, page: u64, count: u64) -> Reply
        ensures { Row (system_objects self.old) (MemoryFree process page count)
            result (system_objects self.new) }
    {
        let Some(mut memory) = self.take_memory(process) else {
            return Reply::BadHandle;
        };
        // By its length the pages are known to be ones that a process may have.
        let _ = memory.len();
        let outcome = memory.free(page, count);
        self.put_memory(process, memory);
        match outcome {
            Ok(()) => Reply::Done,
            Err(_) => Reply::BadAddress,
        }
    }

    /// MemoryProtect.
    pub(crate) fn memory_protect(
        &mut self,
        process: u64,
        page: u64,
        count: u64,
        rights: u8,
    ) -> Reply
        ensures { Row (system_objects self.old) (MemoryProtect process page count rights)
            result (system_objects self.new) }
    {
        let Some(mut memory) = self.take_memory(process) else {
            return Reply::BadHandle;
        };
        // By its length the pages are known to be ones that a process may have.
        let _ = memory.len();
        let outcome = memory.protect(page, count, rights);
        self.put_memory(process, memory);
        match outcome {
            Ok(()) => Reply::Done,
            Err(_) => Reply::BadAddress,
        }
    }

    /// MemoryRead.
    pub(crate) fn memory_read(
        &self,
        process: u64,
        address: u64,
        count: u64,
    ) -> Result<Reply, Memory>
        ensures { IfOk result (λ reply.
            Row (system_objects self.now) (MemoryRead process address count)
            reply (system_objects self.now)) }
    {
        let Some(memory) = self.memory(process) else {
            return Ok(Reply::BadHandle);
        };
        if count > MOST_BYTES {
            return Ok(Reply::TooBig);
        }
        let mut bytes = vec![in self.alloc; 0u8; count as usize]?;
        match memory.read(address, &mut bytes) {
            Ok(()) => Ok(Reply::Bytes(Items::from_vec(bytes))),
            Err(error) => Ok(inaccessible(error)),
        }
    }

    /// MemoryWrite.
    pub(crate) fn memory_write(&mut self, process: u64, address: u64, bytes: &[u8]) -> Reply
        ensures row { Row (system_objects self.old) (MemoryWrite process address bytes.now)
            result (system_objects self.new) }
        ensures bytes { All (λ byte. byte < 2 ^ 8) bytes.now }
    {
        let fits = is_within_limit(bytes);
        if self.memory(process).is_none() {
            return Reply::BadHandle;
        }
        if !fits {
            return Reply::TooBig;
        }
        let Some(mut memory) = self.take_memory(process) else {
            return Reply::BadHandle;
        };
        let outcome = memory.write(address, bytes);
        self.put_memory(process, memory);
        match outcome {
            Ok(()) => Reply::Done,
            Err(error) => inaccessible(error),
        }
    }
}
