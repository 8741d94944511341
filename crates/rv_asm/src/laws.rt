ghost use Rattle.std.specs.Prelude.{◌≡◌, ◌+◌, ℕ, List, Option, length};
ghost use Rattle.rv_asm.specs.declared.labels.Definition.{Definition};
ghost use Rattle.rv_asm.specs.declared.line.Line.{Line};
ghost use Rattle.rv_asm.specs.Line.{line_bytes, line_end};

/// Addresses are places of bytes: the address behind a line that is accepted is the line's own address and the
/// number of its bytes, so that a label's address is the first one and the number of the bytes before it.
pub fn addresses_are_places()
    ensures { (find : List ℕ → Option Definition) (number at : ℕ) (line : Line) (bytes : List ℕ)
        → line_bytes find number at line ≡ Ok bytes → line_end at line ≡ at + length bytes }
{}
