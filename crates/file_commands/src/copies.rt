ghost use Rattle.std.specs.Prelude.{◌≡◌};
ghost use Rattle.file_commands.specs.Errors.{host_error, no_memory, shelf_error};

use abi_calls::HostError;
use bas_edge::EdgeError;
use std::alloc::AllocError;
use thiserror::Error;

/// What came of a copy.
#[derive(Clone, Copy, Debug, PartialEq, Eq, Drop)]
pub enum Copied {
    /// All bytes were copied, so many.
    Bytes(u64),
    /// There is no file to copy.
    Absent,
    /// The file to copy is past the limit.
    Large,
}

/// Why a copy was given up.
#[derive(Clone, Copy, Debug, PartialEq, Eq, Drop, Error)]
pub enum CopyError {
    /// The outside of the host failed; its count of faults rose.
    #[error("the outside of the host failed")]
    Host,
    /// The outside that has the user's files failed; its count of faults rose.
    #[error("the outside of the user's files failed")]
    Shelf,
    /// There was no memory.
    #[error("out of memory")]
    Memory,
}

impl From<AllocError> for CopyError {
    ghost from_gives = { λ _ error. error ≡ no_memory };

    fn from(_error: AllocError) -> CopyError {
        CopyError::Memory
    }
}

impl From<HostError> for CopyError {
    ghost from_gives = { λ host error. error ≡ host_error host };

    fn from(host: HostError) -> CopyError {
        match host {
            HostError::Failed => CopyError::Host,
            HostError::Memory => CopyError::Memory,
        }
    }
}

impl From<EdgeError> for CopyError {
    ghost from_gives = { λ edge error. error ≡ shelf_error edge };

    fn from(edge: EdgeError) -> CopyError {
        match edge {
            EdgeError::Failed => CopyError::Shelf,
            EdgeError::Memory => CopyError::Memory,
        }
    }
}
