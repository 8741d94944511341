use bas_items::Items;
use turn_sched::Positions;

/// What a host answers to a call. The last eight refuse it and leave the world as it was.
#[derive(Clone, Debug, Drop)]
pub enum Reply {
    /// It is done.
    Done,
    /// The number of a new object.
    Handle(u64),
    /// The bytes that were read.
    Bytes(Items<u8>),
    /// How many bytes were written.
    Count(u64),
    /// The length of a file in bytes.
    Length(u64),
    /// A process hasn't exited.
    Running,
    /// A process has exited with this code.
    Exited(u8),
    /// How many turns were made, and how many words of the tapes were used.
    Places(Positions),
    /// A handle isn't live, or isn't of the kind that the call names.
    BadHandle,
    /// There is no such file.
    NotFound,
    /// The file, or a page, is there already.
    Exists,
    /// The object isn't in a state that the call allows.
    Busy,
    /// The object doesn't allow this.
    NoAccess,
    /// Pages, or bytes, that aren't there or can't be.
    BadAddress,
    /// A limit on objects or pages is reached.
    NoRoom,
    /// A number is past its limit.
    TooBig,
}
