ghost use Rattle.std.specs.Prelude.{◌≡◌, IsErrOf, OnOk};
ghost use Rattle.bas_edge.specs.Faults.{HasCause};

use bas_edge::EdgeError;
use std::fs::{self, File, OpenFile};
use std::io::{self, ErrorKind, Read, Seek, SeekFrom};
use std::rt::Files;

/// The system's answer, its error counted as a fault unless it is want of memory. The count is held at the greatest
/// `u64`.
pub fn counted<T>(faults: &mut u64, answer: io::Result<T>) -> Result<T, EdgeError>
    ensures same { OnOk result (faults.new ≡ faults.old) }
    ensures want { IsErrOf result EdgeError.Memory → faults.new ≡ faults.old }
    ensures cause { HasCause EdgeError.Failed faults.old faults.new result }
{
    match answer {
        Ok(value) => Ok(value),
        Err(error) if error.kind() == ErrorKind::OutOfMemory => Err(EdgeError::Memory),
        Err(_) => {
            *faults = faults.saturating_add(1);
            Err(EdgeError::Failed)
        }
    }
}

/// The length of the file at the path. What lies there and is no file is an error.
pub fn length_of<R: Files>(runtime: &R, path: &str) -> io::Result<Option<u64>> {
    match fs::metadata(runtime, path) {
        Ok(metadata) if metadata.is_file() => Ok(Some(metadata.len())),
        Ok(_) => Err(ErrorKind::InvalidData.into()),
        Err(error) if error.kind() == ErrorKind::NotFound => Ok(None),
        Err(error) => Err(error),
    }
}

/// Fills the buffer with the bytes of the file at the path from `at` on.
pub fn read_range<R: Files>(runtime: &R, path: &str, at: u64, buffer: &mut [u8]) -> io::Result<()> {
    let mut file = File::open(runtime, path)?;
    file.seek(SeekFrom::Start(at))?;
    file.read_exact(buffer)
}
