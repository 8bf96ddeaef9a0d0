//! That a value was not read.

use std::alloc::{AllocError, AllocFailed};
use thiserror::Error;

/// The value was not read. It says nothing of what stands there: that may be no JSON, or of a kind
/// that isn't read here, or memory was wanted.
#[derive(Debug, Clone, Copy, PartialEq, Eq, Error)]
#[error("not read")]
pub struct Unread;

impl From<AllocError> for Unread {
    fn from(_refused: AllocError) -> Unread {
        Unread
    }
}

impl<T: Drop> From<AllocFailed<T>> for Unread {
    fn from(_refused: AllocFailed<T>) -> Unread {
        Unread
    }
}
