ghost use Rattle.std.specs.Prelude.{◌≡◌, ◌+◌, ◌≤◌, true, length, take, drop, IfOk, IfSome, OnOk, OnErr, MatchOption};
ghost use Rattle.std.specs.Option.{ForSome};
ghost use Rattle.bas_edge.specs.Faults.{HasCause};
ghost use Rattle.bas_edge.specs.Files.{HasFile, HasNoFile, file_bytes, with_bytes_at, with_length};
ghost use Rattle.abi_calls.specs.declared.limits.TheConstants.{LONGEST_FILE, MOST_BYTES};
ghost use Rattle.abi_calls.specs.Streams.{is_name};
ghost use Rattle.file_commands.specs.Changes.{IsOn, IsOrIsNot, changed, opened};

use abi_calls::{Call, Host, HostError, Reply, StreamName};
use bas_edge::Memory;
use bas_items::Items;
use std::alloc::Global;

/// A file of the host's that is open.
#[derive(Debug, Drop)]
pub(crate) struct OpenFile {
    /// Its name.
    name: Items<u8>,
    /// The handle that is open on it.
    stream: u64,
}

/// The bytes as a call has them.
fn copied(alloc: Global, bytes: &[u8]) -> Result<Items<u8>, Memory>
    ensures { IfOk result (λ items. items ≡ bytes.now) }
{
    Ok(Items::from_slice(alloc, bytes)?)
}

impl OpenFile {
    /// Opens the file of a name, and makes it where it isn't there.
    pub(crate) fn make<H: Host>(
        alloc: Global,
        name: &[u8],
        host: &mut H,
    ) -> Result<OpenFile, HostError>
        requires named { is_name name.now ≡ true }
        ensures name { IfOk result (λ file. file.name ≡ name.now) }
        ensures on { IfOk result (λ file. IsOn file.name (H.objects host.new) file.stream) }
        ensures made { OnOk result (H.told host.new ≡ changed (opened name.now) (H.told host.old)) }
        ensures left { OnErr result (IsOrIsNot (opened name.now) (H.told host.old) (H.told host.new)) }
        ensures cause { HasCause HostError.Failed (H.fault_count host.old) (H.fault_count host.new) result }
    {
        let call = Call::StreamOpen {
            name: StreamName::File(copied(alloc, name)?),
            create: true,
            exclusive: false,
        };
        let name = copied(alloc, name)?;
        match host.call(&call)? {
            Reply::Handle(stream) => Ok(OpenFile { name, stream }),
            _ => unreachable!(),
        }
    }

    /// Opens the file of a name, if it is there.
    pub(crate) fn find<H: Host>(
        alloc: Global,
        name: &[u8],
        host: &mut H,
    ) -> Result<Option<OpenFile>, HostError>
        requires named { is_name name.now ≡ true }
        ensures name { IfOk result (λ found. IfSome found (λ file. file.name ≡ name.now)) }
        ensures on { IfOk result (λ found. IfSome found (λ file. IsOn file.name (H.objects host.new) file.stream)) }
        ensures found { IfOk result (λ found. ForSome (H.told host.old).files (λ files.
            MatchOption found (HasNoFile files name.now) (λ file. HasFile files name.now))) }
        ensures same { H.told host.new ≡ H.told host.old }
        ensures cause { HasCause HostError.Failed (H.fault_count host.old) (H.fault_count host.new) result }
    {
        let call = Call::StreamOpen {
            name: StreamName::File(copied(alloc, name)?),
            create: false,
            exclusive: false,
        };
        let name = copied(alloc, name)?;
        match host.call(&call)? {
            Reply::Handle(stream) => Ok(Some(OpenFile { name, stream })),
            Reply::NotFound => Ok(None),
            _ => unreachable!(),
        }
    }

    /// Makes the file empty.
    pub(crate) fn make_empty<H: Host>(&self, host: &mut H) -> Result<(), HostError>
        requires on { IsOn self.now.name (H.objects host.old) self.now.stream }
        ensures objects { OnOk result (H.objects host.new ≡ H.objects host.old) }
        ensures emptied { OnOk result (H.told host.new ≡ changed (with_length self.now.name 0) (H.told host.old)) }
        ensures left { OnErr result (IsOrIsNot (with_length self.now.name 0) (H.told host.old) (H.told host.new)) }
        ensures cause { HasCause HostError.Failed (H.fault_count host.old) (H.fault_count host.new) result }
    {
        let stream = self.stream;
        let _done = host.call(&Call::StreamSetLength { stream, length: 0 })?;
        Ok(())
    }

    /// Writes a piece from `offset` on.
    pub(crate) fn write<H: Host>(
        &self,
        alloc: Global,
        offset: u64,
        piece: &[u8],
        host: &mut H,
    ) -> Result<(), HostError>
        requires on { IsOn self.now.name (H.objects host.old) self.now.stream }
        requires piece { length piece.now ≤ MOST_BYTES }
        requires short { offset + length piece.now ≤ LONGEST_FILE }
        ensures objects { OnOk result (H.objects host.new ≡ H.objects host.old) }
        ensures written { OnOk result (H.told host.new ≡ changed (with_bytes_at self.now.name offset piece.now) (H.told host.old)) }
        ensures left { OnErr result (IsOrIsNot (with_bytes_at self.now.name offset piece.now) (H.told host.old) (H.told host.new)) }
        ensures cause { HasCause HostError.Failed (H.fault_count host.old) (H.fault_count host.new) result }
    {
        let stream = self.stream;
        let bytes = copied(alloc, piece)?;
        let call = Call::StreamWrite {
            stream,
            offset,
            bytes,
        };
        let _count = host.call(&call)?;
        Ok(())
    }

    /// The length of the file.
    pub(crate) fn length<H: Host>(&self, host: &mut H) -> Result<u64, HostError>
        requires on { IsOn self.now.name (H.objects host.old) self.now.stream }
        ensures objects { OnOk result (H.objects host.new ≡ H.objects host.old) }
        ensures found { IfOk result (λ size. ForSome (H.told host.old).files (λ files. size ≡ length (file_bytes files self.now.name))) }
        ensures same { H.told host.new ≡ H.told host.old }
        ensures cause { HasCause HostError.Failed (H.fault_count host.old) (H.fault_count host.new) result }
    {
        let stream = self.stream;
        match host.call(&Call::StreamLength { stream })? {
            Reply::Length(length) => Ok(length),
            _ => unreachable!(),
        }
    }

    /// Reads up to `count` bytes from `offset` on.
    pub(crate) fn read<H: Host>(
        &self,
        offset: u64,
        count: u64,
        host: &mut H,
    ) -> Result<Items<u8>, HostError>
        requires on { IsOn self.now.name (H.objects host.old) self.now.stream }
        requires piece { count ≤ MOST_BYTES }
        ensures objects { OnOk result (H.objects host.new ≡ H.objects host.old) }
        ensures read { IfOk result (λ bytes. ForSome (H.told host.old).files (λ files.
            bytes ≡ take count (drop offset (file_bytes files self.now.name)))) }
        ensures same { H.told host.new ≡ H.told host.old }
        ensures cause { HasCause HostError.Failed (H.fault_count host.old) (H.fault_count host.new) result }
    {
        let stream = self.stream;
        let call = Call::StreamRead {
            stream,
            offset,
            count,
        };
        match host.call(&call)? {
            Reply::Bytes(bytes) => Ok(bytes),
            _ => unreachable!(),
        }
    }

    /// Closes the file.
    pub(crate) fn close<H: Host>(self, host: &mut H) -> Result<(), HostError>
        ensures same { H.told host.new ≡ H.told host.old }
        ensures cause { HasCause HostError.Failed (H.fault_count host.old) (H.fault_count host.new) result }
    {
        let handle = self.stream;
        let _done = host.call(&Call::Close { handle })?;
        Ok(())
    }
}
