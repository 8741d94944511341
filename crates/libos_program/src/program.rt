ghost use Rattle.std.specs.Prelude.{◌≡◌, ◌^◌, ◌<◌, ◌≤◌, IfOk, None, length, slice_index_or};
ghost use Rattle.guest_space.specs.Regions.{extent_end};
ghost use Rattle.elf_loader.specs.Refusal.{refusal};
ghost use Rattle.elf_loader.specs.Image.{bytes_at, extent_of, layout_of, program_of};
ghost use Rattle.libos_program.specs.Runs.{no_run};

use bas_edge::Memory;
use bas_items::Items;
use elf_loader::{ElfError, Layout, LoadError, layout, piece};
use guest_space::Extent;
use std::alloc::Global;

/// The bytes of a page.
pub const PAGE: u64 = 4096;

/// Why the loader refuses a file; `None` where it takes it.
pub fn refusal_of(alloc: Global, file: &[u8]) -> Result<Option<ElfError>, Memory>
    ensures { IfOk result (λ found. found ≡ refusal file.now) }
{
    match layout(alloc, file) {
        Ok(_) => Ok(None),
        Err(LoadError::Refused(cause)) => Ok(Some(cause)),
        Err(LoadError::Memory) => Err(Memory),
    }
}

/// Where the program of a file lies that the loader takes.
fn layout_in(alloc: Global, file: &[u8]) -> Result<Layout, Memory>
    requires { refusal file.now ≡ None }
    ensures { IfOk result (λ layout. layout ≡ layout_of file.now) }
{
    match layout(alloc, file) {
        Ok(layout) => Ok(layout),
        Err(LoadError::Refused(_)) => unreachable!(),
        Err(LoadError::Memory) => Err(Memory),
    }
}

/// The address of the program's first instruction.
pub fn entry_of(alloc: Global, file: &[u8]) -> Result<u64, Memory>
    requires { refusal file.now ≡ None }
    ensures { IfOk result (λ entry. entry ≡ (program_of file.now).entry) }
{
    let layout = layout_in(alloc, file)?;
    Ok(layout.entry)
}

/// The address after the program's last page.
pub fn end_of(alloc: Global, file: &[u8]) -> Result<u64, Memory>
    requires { refusal file.now ≡ None }
    ensures { IfOk result (λ end. end ≡ (program_of file.now).end) }
{
    let layout = layout_in(alloc, file)?;
    Ok(layout.end)
}

/// How many runs the program has.
pub fn count_of_runs(alloc: Global, file: &[u8]) -> Result<u64, Memory>
    requires { refusal file.now ≡ None }
    ensures { IfOk result (λ count. count ≡ length (program_of file.now).runs) }
{
    let layout = layout_in(alloc, file)?;
    Ok(layout.runs.len() as u64)
}

/// Where the run of that number lies.
pub fn run_at(alloc: Global, file: &[u8], number: u64) -> Result<Extent, Memory>
    requires taken { refusal file.now ≡ None }
    requires among { number < length (program_of file.now).runs }
    ensures run { IfOk result (λ run.
        run ≡ extent_of (slice_index_or (program_of file.now).runs number no_run)) }
    ensures small { IfOk result (λ run. extent_end run ≤ 2 ^ 26) }
{
    let layout = layout_in(alloc, file)?;
    Ok(layout.runs.as_slice()[number as usize])
}

/// So many bytes of the program, from an address on.
pub fn bytes_from(alloc: Global, file: &[u8], start: u64, size: u64) -> Result<Items<u8>, Memory>
    requires { refusal file.now ≡ None }
    ensures { IfOk result (λ bytes. bytes ≡ bytes_at file.now start size) }
{
    let mut bytes = vec![in alloc; 0u8; size as usize]?;
    piece(file, start, bytes.as_mut_slice());
    Ok(Items::from_vec(bytes))
}
