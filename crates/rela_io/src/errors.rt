//! What a call to the outside answers in place of its result.
ghost use Rattle.std.specs.Prelude.{◌≡◌};
ghost use Rattle.rela_io.specs.declared.errors.ReadError.{ReadError};

use std::alloc::{AllocError, AllocFailed};
use thiserror::Error;

/// The outside failed: a file that can't be opened or read, or a write that took nothing.
#[derive(Clone, Copy, Debug, PartialEq, Eq, Error)]
#[error("the file or the output failed")]
pub struct Fault;

/// Why a file wasn't read whole.
#[derive(Clone, Copy, Debug, PartialEq, Eq, Error)]
pub enum ReadError {
    /// The outside failed.
    #[error("the file can't be read")]
    Fault,
    /// The file has more bytes than were allowed.
    #[error("the file is too long")]
    TooLong,
    /// There isn't memory for the bytes.
    #[error("out of memory")]
    Memory,
}

impl From<Fault> for ReadError {
    ghost from_gives = { λ _ e. e ≡ ReadError.Fault };

    fn from(_fault: Fault) -> ReadError {
        ReadError::Fault
    }
}

impl From<AllocError> for ReadError {
    ghost from_gives = { λ _ e. e ≡ ReadError.Memory };

    fn from(_refused: AllocError) -> ReadError {
        ReadError::Memory
    }
}

impl<T: Drop> From<AllocFailed<T>> for ReadError {
    ghost from_gives = { λ _ e. e ≡ ReadError.Memory };

    fn from(_refused: AllocFailed<T>) -> ReadError {
        ReadError::Memory
    }
}
