ghost use Rattle.bas_edge.specs.declared.errors.EdgeError.TheVariants.{Failed as failed_edge, Memory as memory_edge};
ghost use Rattle.bas_edge.specs.Errors.{memory};
ghost use Rattle.std.specs.Prelude.{◌≡◌};

use std::alloc::AllocError;
use thiserror::Error;

/// Something outside failed, and was counted as a fault.
#[derive(Clone, Copy, Debug, PartialEq, Eq, Error)]
#[error("a fault outside")]
pub struct Failed;

/// There was no memory left.
#[derive(Clone, Copy, Debug, PartialEq, Eq, Error)]
#[error("out of memory")]
pub struct Memory;

/// Why a call that reaches outside gave no answer.
#[derive(Clone, Copy, Debug, PartialEq, Eq, Error)]
pub enum EdgeError {
    /// Something outside failed, and was counted as a fault.
    #[error("a fault outside")]
    Failed,
    /// There was no memory left.
    #[error("out of memory")]
    Memory,
}

impl From<AllocError> for Memory {
    ghost from_gives = { λ _ error. error ≡ memory };

    fn from(_error: AllocError) -> Memory {
        Memory
    }
}

impl From<AllocError> for EdgeError {
    ghost from_gives = { λ _ error. error ≡ memory_edge };

    fn from(_error: AllocError) -> EdgeError {
        EdgeError::Memory
    }
}

impl From<Failed> for EdgeError {
    ghost from_gives = { λ _ error. error ≡ failed_edge };

    fn from(_error: Failed) -> EdgeError {
        EdgeError::Failed
    }
}

impl From<Memory> for EdgeError {
    ghost from_gives = { λ _ error. error ≡ memory_edge };

    fn from(_error: Memory) -> EdgeError {
        EdgeError::Memory
    }
}
