ghost use Rattle.std.specs.Prelude.{◌≡◌, ℕ, [], Option, option_map, length, take, drop, IfOk, OnOk, OnErr, IsErrOf};
ghost use Rattle.std.specs.Option.{ForSome};
ghost use Rattle.bas_edge.specs.Faults.{HasCause};
ghost use Rattle.bas_edge.specs.Files.{Files, HasFile, HasNoFile, HasRange, TakesBytes, file_bytes, file_length, with_bytes_at, with_file, with_length, with_renamed, without_file};

use crate::errors::EdgeError;

/// Files outside by name, a name being any bytes. What a call asks of the files is a condition where they are told;
/// a store that tells nothing counts a fault where it finds the condition untrue.
pub trait Store {
    /// The files, where they are told.
    ghost files: { Self → Option Files };

    /// How many faults there were.
    ghost fault_count: { Self → ℕ };

    /// The length of a file in bytes; `None` where no file has the name.
    fn length(&mut self, name: &[u8]) -> Result<Option<u64>, EdgeError>
        ensures found { IfOk result (λ length. ForSome (files self.old) (λ told. length ≡ file_length told name.now)) }
        ensures same { files self.new ≡ files self.old }
        ensures cause { HasCause EdgeError.Failed (fault_count self.old) (fault_count self.new) result }
        ensures unfaulted { OnOk result (fault_count self.new ≡ fault_count self.old) }
        ensures want { IsErrOf result EdgeError.Memory → fault_count self.new ≡ fault_count self.old };

    /// Fills the buffer whole with the file's bytes from `at` on. What it holds after an `Err` is left open.
    fn read_at(&mut self, name: &[u8], at: u64, buffer: &mut [u8]) -> Result<(), EdgeError>
        requires { ForSome (files self.old) (λ told. HasRange told name.now at (length buffer.old)) }
        ensures read { OnOk result (ForSome (files self.old) (λ told. buffer.new
            ≡ take (length buffer.old) (drop at (file_bytes told name.now)))) }
        ensures same { files self.new ≡ files self.old }
        ensures cause { HasCause EdgeError.Failed (fault_count self.old) (fault_count self.new) result }
        ensures unfaulted { OnOk result (fault_count self.new ≡ fault_count self.old) }
        ensures want { IsErrOf result EdgeError.Memory → fault_count self.new ≡ fault_count self.old };

    /// Writes all the bytes into the file from `at` on, and fills a gap past its old end with zeros.
    /// No bytes change nothing, and make no file where none has the name.
    fn write_at(&mut self, name: &[u8], at: u64, bytes: &[u8]) -> Result<(), EdgeError>
        requires { ForSome (files self.old) (λ told. TakesBytes told name.now bytes.now) }
        ensures written { OnOk result (files self.new ≡ option_map (with_bytes_at name.now at bytes.now) (files self.old)) }
        ensures same { OnErr result (files self.new ≡ files self.old) }
        ensures cause { HasCause EdgeError.Failed (fault_count self.old) (fault_count self.new) result }
        ensures unfaulted { OnOk result (fault_count self.new ≡ fault_count self.old) }
        ensures want { IsErrOf result EdgeError.Memory → fault_count self.new ≡ fault_count self.old };

    /// Makes an empty file under a name that no file has.
    fn create(&mut self, name: &[u8]) -> Result<(), EdgeError>
        requires { ForSome (files self.old) (λ told. HasNoFile told name.now) }
        ensures created { OnOk result (files self.new ≡ option_map (with_file name.now []) (files self.old)) }
        ensures same { OnErr result (files self.new ≡ files self.old) }
        ensures cause { HasCause EdgeError.Failed (fault_count self.old) (fault_count self.new) result }
        ensures unfaulted { OnOk result (fault_count self.new ≡ fault_count self.old) }
        ensures want { IsErrOf result EdgeError.Memory → fault_count self.new ≡ fault_count self.old };

    /// Removes the file.
    fn remove(&mut self, name: &[u8]) -> Result<(), EdgeError>
        requires { ForSome (files self.old) (λ told. HasFile told name.now) }
        ensures removed { OnOk result (files self.new ≡ option_map (without_file name.now) (files self.old)) }
        ensures same { OnErr result (files self.new ≡ files self.old) }
        ensures cause { HasCause EdgeError.Failed (fault_count self.old) (fault_count self.new) result }
        ensures unfaulted { OnOk result (fault_count self.new ≡ fault_count self.old) }
        ensures want { IsErrOf result EdgeError.Memory → fault_count self.new ≡ fault_count self.old };

    /// Gives the file the name `to`, in place of a file that had it.
    fn rename(&mut self, from: &[u8], to: &[u8]) -> Result<(), EdgeError>
        requires { ForSome (files self.old) (λ told. HasFile told from.now) }
        ensures renamed { OnOk result (files self.new ≡ option_map (with_renamed from.now to.now) (files self.old)) }
        ensures same { OnErr result (files self.new ≡ files self.old) }
        ensures cause { HasCause EdgeError.Failed (fault_count self.old) (fault_count self.new) result }
        ensures unfaulted { OnOk result (fault_count self.new ≡ fault_count self.old) }
        ensures want { IsErrOf result EdgeError.Memory → fault_count self.new ≡ fault_count self.old };

    /// Cuts the file to this length, or fills it up to it with zeros.
    fn set_length(&mut self, name: &[u8], length: u64) -> Result<(), EdgeError>
        requires { ForSome (files self.old) (λ told. HasFile told name.now) }
        ensures resized { OnOk result (files self.new ≡ option_map (with_length name.now length) (files self.old)) }
        ensures same { OnErr result (files self.new ≡ files self.old) }
        ensures cause { HasCause EdgeError.Failed (fault_count self.old) (fault_count self.new) result }
        ensures unfaulted { OnOk result (fault_count self.new ≡ fault_count self.old) }
        ensures want { IsErrOf result EdgeError.Memory → fault_count self.new ≡ fault_count self.old };

    /// How many faults there were, held at the greatest `u64`.
    fn faults(&self) -> u64
        ensures { result ≡ fault_count self.now };
}
