ghost use Rattle.std.specs.Prelude.{◌≡◌, ◌++◌, IfOk};
ghost use Rattle.rv_asm.specs.File.{file_header, program_header, file_of};

use bas_items::Items;
use std::alloc::{AllocError, Global};

/// The file header: for RISC-V, executable, with one program header behind it.
#[rattlefmt::skip]
const FILE_HEADER: [u8; 64] = [
    0x7f, b'E', b'L', b'F', 2, 1, 1, 0, 0, 0, 0, 0, 0, 0, 0, 0,
    2, 0, 243, 0, 1, 0, 0, 0,
    0x78, 0, 1, 0, 0, 0, 0, 0,
    64, 0, 0, 0, 0, 0, 0, 0,
    0, 0, 0, 0, 0, 0, 0, 0,
    0, 0, 0, 0, 64, 0, 56, 0, 1, 0, 0, 0, 0, 0, 0, 0,
];

/// The program header up to the sizes: a segment of all rights behind the headers.
#[rattlefmt::skip]
const SEGMENT: [u8; 32] = [
    1, 0, 0, 0, 7, 0, 0, 0,
    120, 0, 0, 0, 0, 0, 0, 0,
    0x78, 0, 1, 0, 0, 0, 0, 0,
    0x78, 0, 1, 0, 0, 0, 0, 0,
];

/// The alignment of the segment.
const ALIGNMENT: u64 = 4096;

/// The executable file of the bytes.
#[tactic(auto, unfolding(crate::specs::File::file_of))]
pub fn file_of(alloc: Global, bytes: &[u8]) -> Result<Items<u8>, AllocError>
    ensures { IfOk result (λ file. file ≡ file_of bytes.now) }
{
    let size = bytes.len() as u64;
    let mut file = Items::from_slice(alloc, FILE_HEADER.as_slice())?;
    file.extend_from_slice(SEGMENT.as_slice())?;
    file.extend_from_slice(size.to_le_bytes().as_slice())?;
    file.extend_from_slice(size.to_le_bytes().as_slice())?;
    file.extend_from_slice(ALIGNMENT.to_le_bytes().as_slice())?;
    file.extend_from_slice(bytes)?;
    Ok(file)
}
