ghost use Rattle.std.specs.Prelude.{◌≡◌};
ghost use Rattle.rv_asm.specs.Mnemonics.{word_of, op_named, shape_of, pseudo_word, pseudo_named, directive_word, directive_named};

use rv_core::{Layout, OPS, Op};

/// Instructions that stand for others.
#[derive(Clone, Copy)]
pub enum Pseudo {
    Li,
    La,
    Mv,
    J,
    Call,
    Ret,
    Nop,
}

/// What isn't an instruction.
#[derive(Clone, Copy)]
pub enum Directive {
    Ascii,
    Byte,
    Word,
    Dword,
    Zero,
    Align,
}

/// The operands of an instruction.
#[derive(Clone, Copy)]
pub enum Shape {
    /// A destination and two sources.
    Registers,
    /// A destination, a source and a number.
    Immediate,
    /// A destination and a number.
    Upper,
    /// A destination, and a number with a register in parentheses.
    Load,
    /// A source, and a number with a register in parentheses.
    Store,
    /// Two sources and a label.
    Branch,
    /// A destination and a label.
    Jump,
    /// None.
    Alone,
}

const PSEUDOS: [Pseudo; 7] = [
    Pseudo::Li,
    Pseudo::La,
    Pseudo::Mv,
    Pseudo::J,
    Pseudo::Call,
    Pseudo::Ret,
    Pseudo::Nop,
];

const DIRECTIVES: [Directive; 6] = [
    Directive::Ascii,
    Directive::Byte,
    Directive::Word,
    Directive::Dword,
    Directive::Zero,
    Directive::Align,
];

fn word_of(op: Op) -> &'static [u8]
    ensures { result.now ≡ word_of op }
{
    match op {
        Op::Lui => b"lui",
        Op::Auipc => b"auipc",
        Op::Jal => b"jal",
        Op::Jalr => b"jalr",
        Op::Beq => b"beq",
        Op::Bne => b"bne",
        Op::Blt => b"blt",
        Op::Bge => b"bge",
        Op::Bltu => b"bltu",
        Op::Bgeu => b"bgeu",
        Op::Lb => b"lb",
        Op::Lh => b"lh",
        Op::Lw => b"lw",
        Op::Ld => b"ld",
        Op::Lbu => b"lbu",
        Op::Lhu => b"lhu",
        Op::Lwu => b"lwu",
        Op::Sb => b"sb",
        Op::Sh => b"sh",
        Op::Sw => b"sw",
        Op::Sd => b"sd",
        Op::Addi => b"addi",
        Op::Slti => b"slti",
        Op::Sltiu => b"sltiu",
        Op::Xori => b"xori",
        Op::Ori => b"ori",
        Op::Andi => b"andi",
        Op::Slli => b"slli",
        Op::Srli => b"srli",
        Op::Srai => b"srai",
        Op::Add => b"add",
        Op::Sub => b"sub",
        Op::Sll => b"sll",
        Op::Slt => b"slt",
        Op::Sltu => b"sltu",
        Op::Xor => b"xor",
        Op::Srl => b"srl",
        Op::Sra => b"sra",
        Op::Or => b"or",
        Op::And => b"and",
        Op::Addiw => b"addiw",
        Op::Slliw => b"slliw",
        Op::Srliw => b"srliw",
        Op::Sraiw => b"sraiw",
        Op::Addw => b"addw",
        Op::Subw => b"subw",
        Op::Sllw => b"sllw",
        Op::Srlw => b"srlw",
        Op::Sraw => b"sraw",
        Op::Fence => b"fence",
        Op::FenceI => b"fence.i",
        Op::Ecall => b"ecall",
        Op::Ebreak => b"ebreak",
    }
}

/// The instruction that the word names.
#[tactic(auto, unfolding(crate::specs::Mnemonics::op_named))]
pub fn op_named(word: &[u8]) -> Option<Op>
    ensures { result ≡ op_named word.now }
{
    OPS.iter().copied().find(|op| word_of(*op) == word)
}

/// What operands the instruction has.
pub fn shape_of(op: Op) -> Shape
    ensures { result ≡ shape_of op }
{
    match op.layout() {
        Layout::U(_) => Shape::Upper,
        Layout::J(_) => Shape::Jump,
        Layout::I(0x03 | 0x67, _) => Shape::Load,
        Layout::I(..) | Layout::Shift(..) | Layout::ShiftW(..) => Shape::Immediate,
        Layout::S(..) => Shape::Store,
        Layout::B(..) => Shape::Branch,
        Layout::R(..) => Shape::Registers,
        Layout::Ignored(..) | Layout::Whole(_) => Shape::Alone,
    }
}

fn pseudo_word(pseudo: Pseudo) -> &'static [u8]
    ensures { result.now ≡ pseudo_word pseudo }
{
    match pseudo {
        Pseudo::Li => b"li",
        Pseudo::La => b"la",
        Pseudo::Mv => b"mv",
        Pseudo::J => b"j",
        Pseudo::Call => b"call",
        Pseudo::Ret => b"ret",
        Pseudo::Nop => b"nop",
    }
}

/// The instruction that stands for others and that the word names.
#[tactic(auto, unfolding(crate::specs::Mnemonics::pseudo_named))]
pub fn pseudo_named(word: &[u8]) -> Option<Pseudo>
    ensures { result ≡ pseudo_named word.now }
{
    PSEUDOS
        .iter()
        .copied()
        .find(|pseudo| pseudo_word(*pseudo) == word)
}

fn directive_word(directive: Directive) -> &'static [u8]
    ensures { result.now ≡ directive_word directive }
{
    match directive {
        Directive::Ascii => b".ascii",
        Directive::Byte => b".byte",
        Directive::Word => b".word",
        Directive::Dword => b".dword",
        Directive::Zero => b".zero",
        Directive::Align => b".align",
    }
}

/// The directive that the word names.
#[tactic(auto, unfolding(crate::specs::Mnemonics::directive_named))]
pub fn directive_named(word: &[u8]) -> Option<Directive>
    ensures { result ≡ directive_named word.now }
{
    DIRECTIVES
        .iter()
        .copied()
        .find(|directive| directive_word(*directive) == word)
}
