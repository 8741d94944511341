ghost use Rattle.std.specs.Prelude.{◌≡◌, ◌+◌, ◌*◌, ◌<◌, ◌≤◌, ◌↔◌, ◌++◌, ℕ, None, true, false, List, length, take, drop};
ghost use Rattle.std.specs.Int.{bit_at};
ghost use Rattle.std.specs.List.{AllByRecursion};
ghost use Rattle.elf_loader.specs.Fields.{e_phnum, program_header};
ghost use Rattle.elf_loader.specs.Segments.{covers, segment_byte, touches, segment_rights, page_rights, byte_of};
ghost use Rattle.elf_loader.specs.declared.runs.Layout.{Layout};
ghost use Rattle.elf_loader.specs.Refusal.{refusal};
ghost use Rattle.elf_loader.specs.Image.{FitsProcess, IsImage, IsLayout, bytes_at, layout_of, program_of, without_bytes};

/// Each file has one layout, its image in memory lies as that says, and the layout of a file that isn't refused
/// fits a process.
pub fn one_image()
    ensures image { (file : List ℕ) → IsImage file (program_of file) }
    ensures layout { (file : List ℕ) → IsLayout file (layout_of file) }
    ensures only { (file : List ℕ) (layout : Layout) → IsLayout file layout → layout ≡ layout_of file }
    ensures same { (file : List ℕ) → without_bytes (program_of file) ≡ layout_of file }
    ensures fits { (file : List ℕ) → refusal file ≡ None → FitsProcess (layout_of file) }
{}

/// The bytes from an address on are pieces of the runs' bytes, and pieces join.
pub fn pieces_of_runs()
    ensures piece { (file : List ℕ) → AllByRecursion
        (λ run. (from size : ℕ) → from + size ≤ length run.bytes
        → bytes_at file (4096 * run.page + from) size ≡ take size (drop from run.bytes))
        (program_of file).runs }
    ensures joined { (file : List ℕ) (start m n : ℕ)
        → bytes_at file start (m + n) ≡ bytes_at file start m ++ bytes_at file (start + m) n }
{}

/// In a file that isn't refused, the one segment that covers an address gives its byte. Where none covers it,
/// the byte is 0.
pub fn bytes_of_segments()
    ensures covered { (file : List ℕ) (address i : ℕ) → refusal file ≡ None → i < e_phnum file
        → covers (program_header file i) address ≡ true
        → byte_of file address ≡ segment_byte file (program_header file i) address }
    ensures uncovered { (file : List ℕ) (address : ℕ)
        → ((i : ℕ) → i < e_phnum file → covers (program_header file i) address ≡ false)
        → byte_of file address ≡ 0 }
{}

/// A page has a right exactly where a segment that touches it gives that right.
pub fn rights_of_segments()
    ensures { (file : List ℕ) (page right : ℕ) → (bit_at (page_rights file page) right ≡ 1
        ↔ ((i : ℕ) × (i < e_phnum file) × (touches (program_header file i) page ≡ true)
        × (bit_at (segment_rights (program_header file i)) right ≡ 1))) }
{}
