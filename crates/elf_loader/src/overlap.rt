ghost use Rattle.std.specs.Prelude.{◌≡◌, ◌<◌, ◌≤◌, ℕ, IfOk, IsTrue, MatchOption, false, true};
ghost use Rattle.std.specs.List.Sorted.{IsNonDecreasingBy};
ghost use Rattle.elf_loader.specs.Refusal.{meets_earlier};
ghost use Rattle.elf_loader.specs.Steps.{AreRead, HasSegments, LieApart};

use crate::file::ElfFile;
use crate::header::ProgramHeader;
use std::alloc::{AllocError, Global};

/// A segment: its header, and the header's number.
#[derive(Clone, Copy)]
pub struct Segment {
    pub number: usize,
    pub header: ProgramHeader,
}

impl ElfFile<'_> {
    /// Whether the segment of that number shares an address with one before it.
    #[tactic(auto, unfolding(crate::specs::Refusal::meets_earlier))]
    fn meets_earlier(&self, i: usize) -> bool
        requires { i < self.now.count }
        ensures { result ≡ meets_earlier self.now.bytes.now i }
    {
        let header = self.header(i);
        for j in 0..i {
            if header.meets(&self.header(j)) {
                return true;
            }
        }
        false
    }

    /// The segments of the first `n` headers, by their addresses.
    pub fn segments(&self, alloc: Global, n: usize) -> Result<Vec<Segment>, AllocError>
        requires { n ≤ self.now.count }
        ensures there { IfOk result (λ segments. HasSegments self.now.bytes.now n segments.items) }
        ensures read { IfOk result (λ segments. AreRead self.now.bytes.now n segments.items) }
        ensures rising { IfOk result (λ segments. IsNonDecreasingBy (λ s. s.header.p_vaddr) segments.items) }
    {
        let mut segments = Vec::new(alloc);
        for number in 0..n {
            let header = self.header(number);
            if header.is_segment() {
                segments.push(Segment { number, header })?;
            }
        }
        segments.sort_unstable_by_key(|segment| segment.header.p_vaddr);
        Ok(segments)
    }

    /// A number of headers of the first `n`, from the first on, whose segments lie apart. It is the greatest
    /// where memory is found for their order, and may be less where it isn't.
    fn apart_count(&self, alloc: Global, n: usize) -> usize
        requires { n ≤ self.now.count }
        ensures within { result ≤ n }
        ensures apart { (i : ℕ) → i < result → meets_earlier self.now.bytes.now i ≡ false }
    {
        let Ok(segments) = self.segments(alloc, n) else {
            return 0;
        };
        if lie_apart(segments.as_slice(), n) {
            return n;
        }
        let mut apart = 0;
        let mut beyond = n;
        while apart + 1 < beyond {
            let middle = apart + (beyond - apart) / 2;
            if lie_apart(segments.as_slice(), middle) {
                apart = middle;
            } else {
                beyond = middle;
            }
        }
        apart
    }

    /// The first of the first `n` headers whose segment shares an address with an earlier one. There is none
    /// where the segments rise.
    pub fn first_overlap(&self, alloc: Global, n: usize, rising: bool) -> Option<usize>
        requires within { n ≤ self.now.count }
        requires apart { rising ≡ true → (i : ℕ) → i < n → meets_earlier self.now.bytes.now i ≡ false }
        ensures { MatchOption result
            ((i : ℕ) → i < n → meets_earlier self.now.bytes.now i ≡ false)
            (λ first. (first < n) × (meets_earlier self.now.bytes.now first ≡ true)
            × ((i : ℕ) → i < first → meets_earlier self.now.bytes.now i ≡ false)) }
    {
        if rising {
            return None;
        }
        for i in self.apart_count(alloc, n)..n {
            if self.meets_earlier(i) {
                return Some(i);
            }
        }
        None
    }
}

/// Whether those of the segments, which rise, that belong to the first `n` headers lie apart.
fn lie_apart(segments: &[Segment], n: usize) -> bool
    ensures { IsTrue result → LieApart n segments.now }
{
    let mut end = 0;
    for segment in segments {
        if segment.number < n {
            if u128::from(segment.header.p_vaddr) < end {
                return false;
            }
            end = end.max(segment.header.memory_end());
        }
    }
    true
}
