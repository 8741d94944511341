//! Executable files of ELF-64 for RISC-V, as runs of pages of memory.
#![tactic(auto)]

ghost use Rattle.std.specs.Prelude.{◌≡◌, IfOk, None, OnOk, length};
ghost use Rattle.elf_loader.specs.Refusal.{refusal};
ghost use Rattle.elf_loader.specs.Image.{AreWhole, FitsProcess, IsImage, IsLayout, Tells, bytes_at, laid_out, loaded, without_bytes};

use crate::file::ElfFile;
use crate::header::PAGE_SIZE;
use bas_items::Items;
use std::alloc::{AllocError, Global};
use thiserror::Error;

mod check;
mod file;
mod header;
mod image;
mod laws;
mod overlap;
mod pages;
mod runs;

pub use laws::{bytes_of_segments, one_image, pieces_of_runs, rights_of_segments};
pub use runs::Layout;

/// What a program asks for in memory.
#[derive(Debug, Drop)]
pub struct Program {
    /// The address of the first instruction.
    pub entry: u64,
    /// Runs of pages, rising.
    pub runs: Items<Run>,
    /// The address after the last page.
    pub end: u64,
}

/// Adjacent pages of 4,096 bytes with equal rights.
#[derive(Debug, Drop)]
pub struct Run {
    /// The number of the first page, which begins at address 4,096 times that number.
    pub page: u64,
    /// The sum of 1 to read, 2 to write and 4 to run.
    pub rights: u8,
    /// The bytes of all the pages.
    pub bytes: Items<u8>,
}

/// Why a file is no program that can be loaded: the first of these that fits.
#[derive(Clone, Copy, Debug, PartialEq, Eq, Error)]
pub enum ElfError {
    /// The file has fewer than 64 bytes.
    #[error("shorter than a file header")]
    Short,
    /// The first four bytes aren't those of an ELF file.
    #[error("no ELF file")]
    Magic,
    /// The class isn't 64 bits.
    #[error("not of 64 bits")]
    Class,
    /// The byte order isn't little-endian.
    #[error("not little-endian")]
    Order,
    /// The type isn't that of an executable file.
    #[error("not executable")]
    Kind,
    /// The machine isn't RISC-V.
    #[error("not for RISC-V")]
    Machine,
    /// The entries of the program header table aren't of 56 bytes, or the table leaves the file.
    #[error("no table of program headers")]
    Table,
    /// A program header asks for an interpreter.
    #[error("asks for an interpreter")]
    Interp,
    /// The program header of that number has more bytes in the file than in memory, or leaves the file or the
    /// pages of a process.
    #[error("segment {0} is misplaced")]
    Segment(u64),
    /// The segment of that number shares an address with an earlier one.
    #[error("segment {0} overlaps")]
    Overlap(u64),
    /// The program has more than 1,008 pages.
    #[error("too many pages")]
    Big,
    /// The entry isn't a multiple of 4 in a page with the right to run.
    #[error("no entry")]
    Entry,
}

/// Why there is no program.
#[derive(Clone, Copy, Debug, PartialEq, Eq, Error)]
pub enum LoadError {
    /// The file is refused.
    #[error("{0}")]
    Refused(ElfError),
    /// Memory ran out.
    #[error("out of memory")]
    Memory,
}

impl From<ElfError> for LoadError {
    ghost use Rattle.elf_loader.specs.declared.LoadError.TheVariants.{Refused};

    ghost from_gives = { λ error e. e ≡ Refused error };

    fn from(error: ElfError) -> LoadError {
        LoadError::Refused(error)
    }
}

impl From<AllocError> for LoadError {
    ghost use Rattle.elf_loader.specs.declared.LoadError.TheVariants.{Memory};

    ghost from_gives = { λ _ e. e ≡ Memory };

    fn from(_e: AllocError) -> LoadError {
        LoadError::Memory
    }
}

/// Where the program of an ELF file lies: its runs of pages are as long as can be, rise, and have the rights of
/// the segments. A file that isn't one gives the first refusal that fits, in the order of `ElfError`, and never
/// `Memory`.
pub fn layout(alloc: Global, bytes: &[u8]) -> Result<Layout, LoadError>
    ensures exact { Tells result (laid_out bytes.now) }
    ensures accepted { OnOk result (refusal bytes.now ≡ None) }
    ensures layout { IfOk result (IsLayout bytes.now) }
    ensures fits { IfOk result FitsProcess }
{
    let file = ElfFile::open(bytes)?;
    file.check_headers(alloc)?;
    let table = file.pages()?;
    let pages = table.as_slice();
    if !file.has_entry(pages) {
        return Err(LoadError::Refused(ElfError::Entry));
    }
    let end = pages::end_page(pages);
    let runs = runs::runs(alloc, pages)?;
    Ok(Layout {
        entry: file.entry(),
        runs,
        end: PAGE_SIZE * end,
    })
}

/// Fills `memory` with what the program of an ELF file has from the address `start` on: the bytes of the
/// segments, and 0 elsewhere. Takes no memory.
pub fn piece(bytes: &[u8], start: u64, memory: &mut [u8])
    requires { refusal bytes.now ≡ None }
    ensures { memory.new ≡ bytes_at bytes.now start (length memory.old) }
{
    let Ok(file) = ElfFile::open(bytes) else {
        unreachable!()
    };
    file.fill(start, memory);
}

/// The program of an ELF file: the runs of its layout, with the bytes of the segments. A file that isn't one
/// gives the first refusal that fits, in the order of `ElfError`, and never `Memory`.
pub fn load(alloc: Global, bytes: &[u8]) -> Result<Program, LoadError>
    ensures exact { Tells result (loaded bytes.now) }
    ensures accepted { OnOk result (refusal bytes.now ≡ None) }
    ensures image { IfOk result (IsImage bytes.now) }
    ensures fits { IfOk result (λ program. FitsProcess (without_bytes program)) }
    ensures whole { IfOk result (λ program. AreWhole program.runs) }
{
    let layout = layout(alloc, bytes)?;
    let Ok(file) = ElfFile::open(bytes) else {
        unreachable!()
    };
    let runs = file.runs(alloc, layout.runs.as_slice())?;
    Ok(Program {
        entry: layout.entry,
        runs,
        end: layout.end,
    })
}
