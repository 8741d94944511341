ghost use Rattle.std.specs.Prelude.{◌≡◌, ℕ, Option, option_map, length, take, drop, IfOk, OnOk, OnErr, IsErrOf};
ghost use Rattle.std.specs.Option.{ForSome};
ghost use Rattle.bas_edge.specs.Faults.{HasCause};
ghost use Rattle.bas_edge.specs.Files.{Files, HasRange, file_bytes, file_length, with_bytes_behind, with_file};

use crate::errors::EdgeError;

/// The user's own files by name, a name being a text; contracts see the name as its bytes.
pub trait Shelf {
    /// The files, where they are told.
    ghost files: { Self → Option Files };

    /// How many faults there were.
    ghost fault_count: { Self → ℕ };

    /// The length of a file in bytes; `None` where no file has the name.
    fn length(&mut self, name: &str) -> Result<Option<u64>, EdgeError>
        ensures found { IfOk result (λ length. ForSome (files self.old) (λ told. length ≡ file_length told name.now)) }
        ensures same { files self.new ≡ files self.old }
        ensures cause { HasCause EdgeError.Failed (fault_count self.old) (fault_count self.new) result }
        ensures unfaulted { OnOk result (fault_count self.new ≡ fault_count self.old) }
        ensures want { IsErrOf result EdgeError.Memory → fault_count self.new ≡ fault_count self.old };

    /// Fills the buffer whole with the file's bytes from `at` on. What it holds after an `Err` is left open.
    fn read_at(&mut self, name: &str, at: u64, buffer: &mut [u8]) -> Result<(), EdgeError>
        requires { ForSome (files self.old) (λ told. HasRange told name.now at (length buffer.old)) }
        ensures read { OnOk result (ForSome (files self.old) (λ told. buffer.new
            ≡ take (length buffer.old) (drop at (file_bytes told name.now)))) }
        ensures same { files self.new ≡ files self.old }
        ensures cause { HasCause EdgeError.Failed (fault_count self.old) (fault_count self.new) result }
        ensures unfaulted { OnOk result (fault_count self.new ≡ fault_count self.old) }
        ensures want { IsErrOf result EdgeError.Memory → fault_count self.new ≡ fault_count self.old };

    /// Puts the bytes under the name, in place of the file that had it.
    fn replace(&mut self, name: &str, bytes: &[u8]) -> Result<(), EdgeError>
        ensures replaced { OnOk result (files self.new ≡ option_map (with_file name.now bytes.now) (files self.old)) }
        ensures same { OnErr result (files self.new ≡ files self.old) }
        ensures cause { HasCause EdgeError.Failed (fault_count self.old) (fault_count self.new) result }
        ensures unfaulted { OnOk result (fault_count self.new ≡ fault_count self.old) }
        ensures want { IsErrOf result EdgeError.Memory → fault_count self.new ≡ fault_count self.old };

    /// Adds the bytes at the end of the file, which is made where it isn't there.
    fn append(&mut self, name: &str, bytes: &[u8]) -> Result<(), EdgeError>
        ensures appended { OnOk result (files self.new ≡ option_map (with_bytes_behind name.now bytes.now) (files self.old)) }
        ensures same { OnErr result (files self.new ≡ files self.old) }
        ensures cause { HasCause EdgeError.Failed (fault_count self.old) (fault_count self.new) result }
        ensures unfaulted { OnOk result (fault_count self.new ≡ fault_count self.old) }
        ensures want { IsErrOf result EdgeError.Memory → fault_count self.new ≡ fault_count self.old };

    /// How many faults there were, held at the greatest `u64`.
    fn faults(&self) -> u64
        ensures { result ≡ fault_count self.now };
}
