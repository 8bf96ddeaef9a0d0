//! Why a machine wasn't built.
ghost use Rattle.std.specs.Prelude.{◌≡◌};
ghost use Rattle.rela_pairs.specs.declared.errors.BuildError.{BuildError};

use std::alloc::{AllocError, AllocFailed};
use thiserror::Error;

/// Why a machine wasn't built.
#[derive(Clone, Copy, Debug, PartialEq, Eq, Error)]
pub enum BuildError {
    /// It would have more states than were allowed.
    #[error("too many states")]
    Limit,
    /// There isn't memory for it.
    #[error("out of memory")]
    Memory,
}

impl From<AllocError> for BuildError {
    ghost from_gives = { λ _ e. e ≡ BuildError.Memory };

    fn from(_refused: AllocError) -> BuildError {
        BuildError::Memory
    }
}

impl<T: Drop> From<AllocFailed<T>> for BuildError {
    ghost from_gives = { λ _ e. e ≡ BuildError.Memory };

    fn from(_refused: AllocFailed<T>) -> BuildError {
        BuildError::Memory
    }
}
