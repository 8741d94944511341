ghost use Rattle.std.specs.Prelude.{◌≡◌, ◌+◌, ◌*◌, ◌^◌, ◌<◌, ◌≤◌, ℕ, None, IfOk, All, length, map, slice_index_or};
ghost use Rattle.std.specs.List.Sorted.{IsNonDecreasingBy};
ghost use Rattle.guest_space.specs.Regions.{extent_end};
ghost use Rattle.elf_loader.specs.declared.overlap.Segment.{Segment};
ghost use Rattle.elf_loader.specs.Fields.{e_phnum};
ghost use Rattle.elf_loader.specs.Refusal.{header_refusals, refusal};
ghost use Rattle.elf_loader.specs.Segments.{memory_end};
ghost use Rattle.elf_loader.specs.Image.{bytes_at, run_of};
ghost use Rattle.elf_loader.specs.Steps.{AreRead, HasSegmentsAbove, HasSegmentsBetween, PagesRise};

use crate::Run;
use crate::file::ElfFile;
use crate::header::PAGE_SIZE;
use crate::overlap::Segment;
use bas_items::Items;
use guest_space::Extent;
use std::alloc::{AllocError, Global};

impl ElfFile<'_> {
    /// Fills `memory` with the bytes of the program from the address `start` on.
    pub fn fill(&self, start: u64, memory: &mut [u8])
        requires { header_refusals self.now.bytes.now (e_phnum self.now.bytes.now) ≡ None }
        ensures { memory.new ≡ bytes_at self.now.bytes.now start (length memory.old) }
    {
        memory.fill(0);
        for i in 0..self.count {
            let header = self.header(i);
            if header.is_segment() {
                header.copy_into(self.bytes, start, memory);
            }
        }
    }

    /// The same by the segments that have an address there.
    fn fill_by_segments(&self, segments: &[Segment], start: u64, memory: &mut [u8])
        requires sound { header_refusals self.now.bytes.now (e_phnum self.now.bytes.now) ≡ None }
        requires read { AreRead self.now.bytes.now (e_phnum self.now.bytes.now) segments.now }
        requires there { HasSegmentsBetween self.now.bytes.now start (start + length memory.old) segments.now }
        ensures { memory.new ≡ bytes_at self.now.bytes.now start (length memory.old) }
    {
        memory.fill(0);
        for segment in segments {
            segment.header.copy_into(self.bytes, start, memory);
        }
    }

    /// The run of an extent, by segments that rise, each of those that end above its first page among them.
    fn run(&self, alloc: Global, segments: &[Segment], extent: &Extent) -> Result<Run, AllocError>
        requires sound { header_refusals self.now.bytes.now (e_phnum self.now.bytes.now) ≡ None }
        requires read { AreRead self.now.bytes.now (e_phnum self.now.bytes.now) segments.now }
        requires rising { IsNonDecreasingBy (λ s. s.header.p_vaddr) segments.now }
        requires there { HasSegmentsAbove self.now.bytes.now (4096 * extent.now.page) segments.now }
        requires small { extent_end extent.now ≤ 2 ^ 26 }
        ensures { IfOk result (λ run. run ≡ run_of self.now.bytes.now extent.now) }
    {
        let start = PAGE_SIZE * extent.page;
        let size = PAGE_SIZE * extent.count;
        let count = count_below(segments, start + size);
        let mut memory = vec![in alloc; 0u8; size as usize]?;
        self.fill_by_segments(&segments[..count], start, memory.as_mut_slice());
        Ok(Run {
            page: extent.page,
            rights: extent.rights,
            bytes: Items::from_vec(memory),
        })
    }

    /// The runs of a file's layout with their bytes. The segments of a run are those from a place on that end
    /// above its first page, up to the first that begins behind it.
    pub fn runs(&self, alloc: Global, extents: &[Extent]) -> Result<Items<Run>, AllocError>
        requires sound { header_refusals self.now.bytes.now (e_phnum self.now.bytes.now) ≡ None }
        requires small { All (λ extent. extent_end extent ≤ 2 ^ 26) extents.now }
        requires rising { PagesRise extents.now }
        ensures { IfOk result (λ runs. runs ≡ map (run_of self.now.bytes.now) extents.now) }
    {
        let segments = self.segments(alloc, self.count)?;
        let segments = segments.as_slice();
        let mut runs = Items::new(alloc);
        let mut place = 0;
        for extent in extents {
            place = place_above(segments, place, PAGE_SIZE * extent.page);
            runs.push(self.run(alloc, &segments[place..], extent)?)?;
        }
        Ok(runs)
    }
}

/// The first place from `from` on whose segment ends above an address.
fn place_above(segments: &[Segment], from: usize, address: u64) -> usize
    requires { from ≤ length segments.now }
    ensures from { from ≤ result }
    ensures within { result ≤ length segments.now }
    ensures below { (k : ℕ) (d : Segment) → from ≤ k → k < result
        → memory_end (slice_index_or segments.now k d).header ≤ address }
{
    for place in from..segments.len() {
        if segments[place].header.memory_end() > u128::from(address) {
            return place;
        }
    }
    segments.len()
}

/// How many of the segments, which rise, begin below an address.
fn count_below(segments: &[Segment], address: u64) -> usize
    requires { IsNonDecreasingBy (λ s. s.header.p_vaddr) segments.now }
    ensures within { result ≤ length segments.now }
    ensures above { (k : ℕ) (d : Segment) → result ≤ k → k < length segments.now
        → address ≤ (slice_index_or segments.now k d).header.p_vaddr }
{
    for count in 0..segments.len() {
        if segments[count].header.p_vaddr >= address {
            return count;
        }
    }
    segments.len()
}
