ghost use Rattle.std.specs.Prelude.{◌≡◌, ℕ, ◌+◌, ◌-◌, ◌^◌, ◌<◌, ◌≤◌, true, if◌then◌else◌, length, slice_index};
ghost use Rattle.elf_loader.specs.Fields.{number_at, header_at};
ghost use Rattle.elf_loader.specs.Segments.{is_segment, memory_end, meets, first_page, last_page, touches, segment_rights};
ghost use Rattle.elf_loader.specs.Steps.{IsPlaced, holds_file_byte};
ghost use Rattle.elf_loader.specs.Refusal.{is_misplaced, leaves_file};

const PT_LOAD: u32 = 1;

/// The bytes of a page.
pub const PAGE_SIZE: u64 = 4096;

/// The address after the last page that a segment may touch. The 16 pages from there on are for the stack.
const MEMORY_LIMIT: u64 = ((1 << 26) - 16) * PAGE_SIZE;

/// The fields of a program header that the loader reads.
#[derive(Clone, Copy)]
pub struct ProgramHeader {
    pub p_type: u32,
    pub p_flags: u32,
    pub p_offset: u64,
    pub p_vaddr: u64,
    pub p_filesz: u64,
    pub p_memsz: u64,
}

impl ProgramHeader {
    pub fn is_segment(&self) -> bool
        ensures { result ≡ is_segment self.now }
    {
        self.p_type == PT_LOAD && self.p_memsz > 0
    }

    /// The address after the last byte, which may be past the end of all addresses.
    pub fn memory_end(&self) -> u128
        ensures value { result ≡ memory_end self.now }
        ensures small { result < 2 ^ 65 }
    {
        u128::from(self.p_vaddr) + u128::from(self.p_memsz)
    }

    /// Whether the two are segments that have an address in common.
    #[tactic(auto, unfolding(crate::specs::Segments::meets))]
    pub fn meets(&self, other: &ProgramHeader) -> bool
        ensures { result ≡ meets self.now other.now }
    {
        self.is_segment()
            && other.is_segment()
            && u128::from(self.p_vaddr) < other.memory_end()
            && u128::from(other.p_vaddr) < self.memory_end()
    }

    /// Whether this is a segment that the file or the pages of a process can't hold.
    #[tactic(auto, unfolding(crate::specs::Refusal::is_misplaced))]
    pub fn is_misplaced(&self, file: &[u8]) -> bool
        ensures { result ≡ is_misplaced file.now self.now }
    {
        self.is_segment()
            && (self.p_filesz > self.p_memsz
                || self.leaves_file(file)
                || self.p_vaddr < PAGE_SIZE
                || self.memory_end() > u128::from(MEMORY_LIMIT))
    }

    #[tactic(auto, unfolding(crate::specs::Refusal::leaves_file))]
    fn leaves_file(&self, file: &[u8]) -> bool
        ensures { result ≡ leaves_file file.now self.now }
    {
        self.p_filesz > 0
            && u128::from(self.p_offset) + u128::from(self.p_filesz) > file.len() as u128
    }

    /// Writes the bytes that it has in the file to their places in memory from the address `start` on.
    pub fn copy_into(&self, file: &[u8], start: u64, memory: &mut [u8])
        requires { IsPlaced file.now self.now }
        ensures { (k : ℕ) → k < length memory.old → slice_index memory.new k
            ≡ (if holds_file_byte self.now (start + k)
            then slice_index file.now (self.now.p_offset + (start + k - self.now.p_vaddr))
            else slice_index memory.old k) }
    {
        let from = start.max(self.p_vaddr);
        let end = start
            .saturating_add(memory.len() as u64)
            .min(self.p_vaddr + self.p_filesz);
        if from < end {
            let len = (end - from) as usize;
            let source = (self.p_offset + (from - self.p_vaddr)) as usize;
            let at = (from - start) as usize;
            memory[at..at + len].copy_from_slice(&file[source..source + len]);
        }
    }

    /// The page of the first byte.
    pub fn first_page(&self) -> u64
        ensures { result ≡ first_page self.now }
    {
        self.p_vaddr / PAGE_SIZE
    }

    /// The page of the last byte.
    pub fn last_page(&self) -> u64
        requires { is_segment self.now ≡ true }
        ensures value { result ≡ last_page self.now }
        ensures small { result < 2 ^ 53 }
    {
        ((self.memory_end() - 1) / u128::from(PAGE_SIZE)) as u64
    }

    #[tactic(auto, unfolding(crate::specs::Segments::touches))]
    pub fn touches(&self, page: u64) -> bool
        ensures { result ≡ touches self.now page }
    {
        self.is_segment() && self.first_page() <= page && page <= self.last_page()
    }

    /// The rights of its pages: the sum of 1 to read, 2 to write and 4 to run.
    #[tactic(auto, unfolding(crate::specs::Segments::segment_rights))]
    pub fn rights(&self) -> u8
        ensures { result ≡ segment_rights self.now }
    {
        let read = (self.p_flags >> 2 & 1) as u8;
        let write = (self.p_flags >> 1 & 1) as u8;
        let run = (self.p_flags & 1) as u8;
        read + 2 * write + 4 * run
    }
}

/// The little-endian number of 2 bytes at `at`.
#[tactic(auto, unfolding(crate::specs::Fields::number_at))]
pub fn u16_at(file: &[u8], at: usize) -> u16
    requires { at + 2 ≤ length file.now }
    ensures { result ≡ number_at file.now at 2 }
{
    u16::from_le_bytes([file[at], file[at + 1]])
}

#[tactic(auto, unfolding(crate::specs::Fields::number_at))]
pub fn u32_at(file: &[u8], at: usize) -> u32
    requires { at + 4 ≤ length file.now }
    ensures { result ≡ number_at file.now at 4 }
{
    u32::from_le_bytes([file[at], file[at + 1], file[at + 2], file[at + 3]])
}

#[tactic(auto, unfolding(crate::specs::Fields::number_at))]
pub fn u64_at(file: &[u8], at: usize) -> u64
    requires { at + 8 ≤ length file.now }
    ensures { result ≡ number_at file.now at 8 }
{
    u64::from_le_bytes([
        file[at],
        file[at + 1],
        file[at + 2],
        file[at + 3],
        file[at + 4],
        file[at + 5],
        file[at + 6],
        file[at + 7],
    ])
}

pub fn header_at(file: &[u8], at: usize) -> ProgramHeader
    requires { at + 56 ≤ length file.now }
    ensures { result ≡ header_at file.now at }
{
    ProgramHeader {
        p_type: u32_at(file, at),
        p_flags: u32_at(file, at + 4),
        p_offset: u64_at(file, at + 8),
        p_vaddr: u64_at(file, at + 16),
        p_filesz: u64_at(file, at + 32),
        p_memsz: u64_at(file, at + 40),
    }
}
