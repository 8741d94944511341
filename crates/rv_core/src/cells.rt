ghost use Rattle.std.specs.Prelude.{◌≡◌, Some, IfSome};
ghost use Rattle.rv_core.specs.Memory.{Memory, IsSize, fetched, loaded, storable, stored};

/// Memory of bytes with rights, as a processor sees it. An access of `size` bytes at `at` takes the bytes
/// at `at`, `at + 1` and so on modulo 2^64, little-endian, at any address.
pub trait Cells {
    /// The map from addresses to bytes with rights.
    ghost memory: { Self → Memory };

    /// The word of 4 bytes at `at`; `None` exactly where a byte isn't there or lacks the right to run.
    fn fetch(&self, at: u64) -> Option<u32>
        ensures { result ≡ fetched (memory self.now) at };

    /// The number of `size` bytes at `at`; `None` exactly where a byte isn't there or lacks the right to read.
    fn load(&self, at: u64, size: u8) -> Option<u64>
        requires { IsSize size }
        ensures { result ≡ loaded (memory self.now) at size };

    /// Stores the low `size` bytes of `value` at `at`; `false` exactly where a byte isn't there or lacks the
    /// right to write, and then nothing changes.
    fn store(&mut self, at: u64, size: u8, value: u64) -> bool
        requires { IsSize size }
        ensures done { result ≡ storable (memory self.old) at size }
        ensures after { memory self.new ≡ stored (memory self.old) at size value };
}

/// Memory whose code is fetched in passing: the place of the code that was looked up last is held.
pub trait CodeCells: Cells {
    /// The word of 4 bytes at `at`, if it is in the code that is held. `None` says nothing of the memory.
    fn fetch_held(&self, at: u64) -> Option<u32>
        ensures { IfSome result (λ word. fetched (Self.memory self.now) at ≡ Some word) };

    /// The word of 4 bytes at `at`, looked up anew, and its place is held from then on; `None` exactly where a
    /// byte isn't there or lacks the right to run.
    fn fetch_anew(&mut self, at: u64) -> Option<u32>
        ensures word { result ≡ fetched (Self.memory self.old) at }
        ensures same { Self.memory self.new ≡ Self.memory self.old };
}
