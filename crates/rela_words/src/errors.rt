//! Why words aren't read.
ghost use Rattle.std.specs.Prelude.{◌≡◌};
ghost use Rattle.rela_words.specs.declared.errors.WordsError.{WordsError};

use std::alloc::{AllocError, AllocFailed};
use thiserror::Error;

/// Why no command was read.
#[derive(Clone, Copy, Debug, Error)]
pub enum WordsError {
    /// The words ask for nothing.
    #[error("the words ask for nothing")]
    Bad,
    /// There isn't memory to read them.
    #[error("out of memory")]
    Memory,
}

impl From<AllocError> for WordsError {
    ghost from_gives = { λ _ e. e ≡ WordsError.Memory };

    fn from(_refused: AllocError) -> WordsError {
        WordsError::Memory
    }
}

impl<T: Drop> From<AllocFailed<T>> for WordsError {
    ghost from_gives = { λ _ e. e ≡ WordsError.Memory };

    fn from(_refused: AllocFailed<T>) -> WordsError {
        WordsError::Memory
    }
}
