ghost use Rattle.std.specs.Prelude.{◌≡◌};
ghost use Rattle.rv_asm.specs.Answers.{error_at};

use crate::{AsmCause, AsmError};
use std::alloc::AllocError;

/// Why a line gives no bytes.
#[derive(Clone, Copy)]
pub enum LineError {
    /// It is refused.
    Refused(AsmCause),
    /// Memory ran out.
    Memory,
}

impl From<AsmCause> for LineError {
    ghost use Rattle.rv_asm.specs.declared.refusal.LineError.TheVariants.{Refused};

    ghost from_gives = { λ cause e. e ≡ Refused cause };

    fn from(cause: AsmCause) -> LineError {
        LineError::Refused(cause)
    }
}

impl From<AllocError> for LineError {
    ghost use Rattle.rv_asm.specs.declared.refusal.LineError.TheVariants.{Memory};

    ghost from_gives = { λ _ e. e ≡ Memory };

    fn from(_e: AllocError) -> LineError {
        LineError::Memory
    }
}

impl LineError {
    /// The error of the line of that number.
    pub fn at(self, number: u64) -> AsmError
        ensures { result ≡ error_at number self }
    {
        match self {
            LineError::Refused(cause) => AsmError::Line(number, cause),
            LineError::Memory => AsmError::Memory,
        }
    }
}
