ghost use Rattle.std.specs.Prelude.{◌≡◌, ◌↔◌, ◌≤◌, ◌<◌, ◌+◌, ◌*◌, ◌/◌, ◌%◌, ◌^◌, ℕ, ℤ, List, Option, Some, None, Ok, Err, IsOk, [], length, true};
ghost use Rattle.std.specs.Int.{cast_unsigned, w64};
ghost use Rattle.rv_core.specs.declared.context.Context.{Context};
ghost use Rattle.rv_core.specs.declared.instr.Op.{Op};
ghost use Rattle.rv_core.specs.declared.listing.Layout.TheVariants.{B};
ghost use Rattle.rv_core.specs.Listing.{form};
ghost use Rattle.rv_core.specs.Encoding.{is_signed_by};
ghost use Rattle.rv_core.specs.Memory.{Memory};
ghost use Rattle.rv_core.specs.Machine.{at, next, with_register, instructions};
ghost use Rattle.rv_core.specs.Rows.{word};
ghost use Rattle.rv_asm.specs.declared.labels.Definition.{Definition};
ghost use Rattle.rv_asm.specs.declared.mnemonics.Pseudo.TheVariants.{Call};
ghost use Rattle.rv_asm.specs.declared.operands.Fields.{Fields};
ghost use Rattle.rv_asm.specs.declared.statement.Statement.TheVariants.{LoadNumber, LoadAddress, Branch, Jump};
ghost use Rattle.rv_asm.specs.Statement.{pseudo_by};
ghost use Rattle.rv_asm.specs.Encoding.{base, limit, bytes_of};
ghost use Rattle.rv_asm.specs.File.{file_of};
ghost use Rattle.rv_asm.specs.Program.{definition_of, program_of, assembled};
ghost use Rattle.elf_loader.specs.declared.ElfError.TheVariants.{Entry};
ghost use Rattle.elf_loader.specs.Image.{loaded};
ghost use Rattle.asm_laws.specs.Code.{HoldsCode};
ghost use Rattle.asm_laws.specs.Image.{image_of};
ghost use Rattle.asm_laws.specs.Reach.{IsWithinReach};

/// `li rd, n`, where the assembler accepts it and memory holds its bytes at the program counter: its instructions, done
/// one after another, leave `n` modulo 2^64 in `rd`, every other register and the memory as they were, and the program
/// counter behind the bytes. Each number from -2^31 to 2^31 - 1 is accepted, where there is room.
pub fn li_leaves_its_number()
    ensures leaves { (find : List ℕ → Option Definition) (cx : Context) (m : Memory) (rd : ℕ) (n : ℤ) (bytes : List ℕ)
        → 1 ≤ rd → rd < 32 → length cx.x ≡ 31 → cx.pc % 4 ≡ 0
        → bytes_of find cx.pc (LoadNumber rd n) ≡ Ok bytes → HoldsCode m cx.pc bytes
        → instructions (length bytes / 4) cx m
        ≡ record { context = at (with_register cx rd (cast_unsigned w64 n)) (word (cx.pc + length bytes)); memory = m; trap = None } }
    ensures accepted { (find : List ℕ → Option Definition) (at rd : ℕ) (n : ℤ) → rd < 32 → is_signed_by (2 ^ 31) n ≡ true
        → at + 8 ≤ limit → IsOk (bytes_of find at (LoadNumber rd n)) }
{}

/// `la rd, NAME`, where the assembler accepts it, its label lies where an accepted text's labels do, and memory holds
/// its bytes at the program counter: its instructions leave the label's address in `rd`, every other register and the
/// memory as they were, and the program counter behind the bytes.
pub fn la_leaves_its_address()
    ensures { (find : List ℕ → Option Definition) (cx : Context) (m : Memory) (rd : ℕ) (label : List ℕ) (d : Definition) (bytes : List ℕ)
        → 1 ≤ rd → rd < 32 → length cx.x ≡ 31 → cx.pc % 4 ≡ 0
        → find label ≡ Some d → d.address ≤ limit
        → bytes_of find cx.pc (LoadAddress rd label) ≡ Ok bytes → HoldsCode m cx.pc bytes
        → instructions (length bytes / 4) cx m
        ≡ record { context = at (with_register cx rd d.address) (word (cx.pc + length bytes)); memory = m; trap = None } }
{}

/// `jal rd, NAME`, where the assembler accepts it, its label is a multiple of 4 and lies where an accepted text's labels
/// do, and memory holds its bytes at the program counter: it comes to the label and leaves the address behind it in
/// `rd`, every other register and the memory as they were. `call NAME` leaves that address in ra.
pub fn jumps_come_to_labels()
    ensures jal { (find : List ℕ → Option Definition) (cx : Context) (m : Memory) (rd : ℕ) (label : List ℕ)
        (d : Definition) (bytes : List ℕ)
        → cx.pc % 4 ≡ 0 → find label ≡ Some d → d.address ≤ limit → d.address % 4 ≡ 0
        → bytes_of find cx.pc (Jump rd label) ≡ Ok bytes → HoldsCode m cx.pc bytes
        → instructions (length bytes / 4) cx m
        ≡ record { context = at (with_register cx rd (next cx)) d.address; memory = m; trap = None } }
    ensures call { (find : List ℕ → Option Definition) (cx : Context) (m : Memory) (operands : Fields) (n : ℤ)
        (d : Definition) (bytes : List ℕ)
        → cx.pc % 4 ≡ 0 → find operands.label ≡ Some d → d.address ≤ limit → d.address % 4 ≡ 0
        → bytes_of find cx.pc (pseudo_by Call operands n) ≡ Ok bytes → HoldsCode m cx.pc bytes
        → instructions (length bytes / 4) cx m
        ≡ record { context = at (with_register cx 1 (next cx)) d.address; memory = m; trap = None } }
{}

/// Where the label of `jal rd, NAME` is defined, the assembler accepts the line exactly where there is room for its bytes
/// and the label lies at most 2^20 bytes before it, or fewer behind it, at an even distance; so also of `j` and `call`,
/// which are `jal`, and of a branch, for 2^12 bytes. `la rd, NAME` is accepted wherever there is room, if its label lies
/// where an accepted text's labels do.
pub fn labels_within_reach()
    ensures jal { (find : List ℕ → Option Definition) (at rd : ℕ) (label : List ℕ) (d : Definition)
        → rd < 32 → find label ≡ Some d
        → (IsOk (bytes_of find at (Jump rd label)) ↔ (IsWithinReach (2 ^ 20) at d.address × (at + 4 ≤ limit))) }
    ensures branch { (find : List ℕ → Option Definition) (at rs1 rs2 : ℕ) (o : Op) (opcode f3 : ℕ) (label : List ℕ) (d : Definition)
        → form o ≡ B opcode f3 → rs1 < 32 → rs2 < 32 → find label ≡ Some d
        → (IsOk (bytes_of find at (Branch o rs1 rs2 label)) ↔ (IsWithinReach (2 ^ 12) at d.address × (at + 4 ≤ limit))) }
    ensures la { (find : List ℕ → Option Definition) (at rd : ℕ) (label : List ℕ) (d : Definition)
        → rd < 32 → find label ≡ Some d → d.address ≤ limit
        → (IsOk (bytes_of find at (LoadAddress rd label)) ↔ (at + 8 ≤ limit)) }
{}

/// The labels of an accepted text lie at 0x110078 at most, as the laws of `la` and of jumps ask.
pub fn labels_lie_within()
    ensures { (text bytes name : List ℕ) (d : Definition)
        → program_of text ≡ Ok bytes → definition_of text name ≡ Some d → d.address ≤ limit }
{}

/// The file of an assembled program, whose bytes end at 0x110078 at most, is loaded as one run from page 16 on with all
/// rights. From address 0x10078 on, which is the entry, stand the program's bytes, and zeros around them. Without any
/// byte it is refused, as there is nothing to run at its entry. The file of an accepted text is that of its bytes.
pub fn assembled_files_are_loaded()
    ensures image { (bytes : List ℕ) → 1 ≤ length bytes → base + length bytes ≤ limit
        → loaded (file_of bytes) ≡ Ok (image_of bytes) }
    ensures empty { loaded (file_of []) ≡ Err Entry }
    ensures text { (text file : List ℕ) → assembled text ≡ Ok file
        → (bytes : List ℕ) × (program_of text ≡ Ok bytes) × (file ≡ file_of bytes)
        × (1 ≤ length bytes → loaded file ≡ Ok (image_of bytes)) }
{}
