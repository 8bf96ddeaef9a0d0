//! Why a term isn't built.

ghost use Rattle.std.specs.Prelude.{◌≡◌};
ghost use Rattle.rela_build.specs.Stops.{refusal_of, stop_of};
ghost use Rattle.rela_build.specs.declared.stop.Stop.{Stop};

use rela_nfa::BuildError;
use std::alloc::{AllocError, AllocFailed};
use thiserror::Error;

/// Why a term wasn't built.
#[derive(Clone, Copy, Debug, PartialEq, Eq, Error)]
pub enum Stop {
    /// A meet, an image or a composition would have more states than were allowed.
    #[error("too many states")]
    Limit,
    /// The complement with this number wasn't made. They are numbered from 0, parts before wholes
    /// and left before right.
    #[error("a complement was refused")]
    Refused(usize),
    /// There isn't memory for it.
    #[error("out of memory")]
    Memory,
}

impl From<AllocError> for Stop {
    ghost from_gives = { λ _ e. e ≡ Stop.Memory };

    fn from(_refused: AllocError) -> Stop {
        Stop::Memory
    }
}

impl<T: Drop> From<AllocFailed<T>> for Stop {
    ghost from_gives = { λ _ e. e ≡ Stop.Memory };

    fn from(_refused: AllocFailed<T>) -> Stop {
        Stop::Memory
    }
}

impl From<BuildError> for Stop {
    ghost from_gives = { λ b e. e ≡ stop_of b };

    fn from(error: BuildError) -> Stop {
        match error {
            BuildError::Limit => Stop::Limit,
            BuildError::Memory => Stop::Memory,
        }
    }
}

/// Why a term isn't built whose complement with this number wasn't made. It asks for no memory.
pub(crate) fn refusal_of(number: usize, error: BuildError) -> Stop
    ensures { result ≡ refusal_of number error }
{
    match error {
        BuildError::Limit => Stop::Refused(number),
        BuildError::Memory => Stop::Memory,
    }
}
