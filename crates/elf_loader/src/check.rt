ghost use Rattle.std.specs.Prelude.{◌≡◌, ◌<◌, ◌≤◌, ℕ, IsSome, None, Some, false, true, MatchResult};
ghost use Rattle.elf_loader.specs.Fields.{e_phnum, program_header};
ghost use Rattle.elf_loader.specs.Refusal.{header_refusals, lone_refusal, meets_earlier};

use crate::ElfError;
use crate::file::ElfFile;
use crate::header::ProgramHeader;
use std::alloc::Global;

const PT_INTERP: u32 = 3;

/// What one pass over the program headers finds: how many there are before the first that is refused by itself,
/// and whether the segments of those rise.
#[derive(Clone, Copy)]
struct Placed {
    count: usize,
    rising: bool,
}

impl ElfFile<'_> {
    /// The refusal that the header of that number gives by itself.
    #[tactic(auto, unfolding(crate::specs::Refusal::lone_refusal))]
    fn check_header(&self, i: usize, header: &ProgramHeader) -> Result<(), ElfError>
        requires { header.now ≡ program_header self.now.bytes.now i }
        ensures { MatchResult result
            (λ _. lone_refusal self.now.bytes.now i ≡ None)
            (λ error. lone_refusal self.now.bytes.now i ≡ Some error) }
    {
        if header.p_type == PT_INTERP {
            return Err(ElfError::Interp);
        }
        if header.is_misplaced(self.bytes) {
            return Err(ElfError::Segment(i as u64));
        }
        Ok(())
    }

    /// The headers before the first that is refused by itself. Segments that rise don't meet.
    fn placed(&self) -> Placed
        ensures within { result.count ≤ e_phnum self.now.bytes.now }
        ensures placed { (i : ℕ) → i < result.count → lone_refusal self.now.bytes.now i ≡ None }
        ensures refused { result.count < e_phnum self.now.bytes.now
            → IsSome (lone_refusal self.now.bytes.now result.count) }
        ensures rising { result.rising ≡ true
            → (i : ℕ) → i < result.count → meets_earlier self.now.bytes.now i ≡ false }
    {
        let mut end = 0;
        let mut rising = true;
        for i in 0..self.count {
            let header = self.header(i);
            if self.check_header(i, &header).is_err() {
                return Placed { count: i, rising };
            }
            if header.is_segment() {
                rising = rising && end <= u128::from(header.p_vaddr);
                end = header.memory_end();
            }
        }
        Placed {
            count: self.count,
            rising,
        }
    }

    /// The first refusal that the program headers give, in their order.
    pub fn check_headers(&self, alloc: Global) -> Result<(), ElfError>
        ensures { MatchResult result
            (λ _. header_refusals self.now.bytes.now (e_phnum self.now.bytes.now) ≡ None)
            (λ error. header_refusals self.now.bytes.now (e_phnum self.now.bytes.now) ≡ Some error) }
    {
        let placed = self.placed();
        if let Some(i) = self.first_overlap(alloc, placed.count, placed.rising) {
            return Err(ElfError::Overlap(i as u64));
        }
        if placed.count < self.count {
            return self.check_header(placed.count, &self.header(placed.count));
        }
        Ok(())
    }
}
