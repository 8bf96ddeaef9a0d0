//! Why no snapshot is written.

ghost use Rattle.std.specs.Prelude.{◌≡◌};

use std::alloc::{AllocError, AllocFailed};
use thiserror::Error;

/// Why no snapshot is written.
#[derive(Debug, PartialEq, Eq, Drop, Error)]
pub enum FibError {
    /// There are more than 10,000 nodes or classes, or more than 100,000 edges in a graph, and a
    /// snapshot may have no more.
    #[error("a snapshot has at most 10,000 nodes and flows, and 100,000 edges a flow")]
    TooMany,
    /// The text has more than 33,554,432 bytes, and a snapshot may have no more.
    #[error("a snapshot has at most 33,554,432 bytes")]
    TooLong,
    /// Memory ran out.
    #[error("out of memory")]
    Memory,
}

impl From<AllocError> for FibError {
    ghost use Rattle.rela_fib.specs.declared.error.FibError.TheVariants.{Memory};

    ghost from_gives = { λ _ e. e ≡ Memory };

    fn from(_error: AllocError) -> FibError {
        FibError::Memory
    }
}

impl<T: Drop> From<AllocFailed<T>> for FibError {
    ghost use Rattle.rela_fib.specs.declared.error.FibError.TheVariants.{Memory};

    ghost from_gives = { λ _ e. e ≡ Memory };

    fn from(_error: AllocFailed<T>) -> FibError {
        FibError::Memory
    }
}
