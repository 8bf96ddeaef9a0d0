//! Why a body isn't unfolded.

ghost use Rattle.std.specs.Prelude.{◌≡◌};
ghost use Rattle.rela_expand.specs.Refusals.{refusal_at};
ghost use Rattle.rela_expand.specs.declared.unfit.Unfit.{Unfit};

use rela_lex::SpecError;
use std::alloc::{AllocError, AllocFailed};

/// Why a form or a body isn't unfolded.
#[derive(Clone, Copy)]
pub(crate) enum Unfit {
    /// Its classes list more than 4,000,000 symbols together.
    TooLarge,
    /// There isn't memory for it.
    Memory,
}

impl Unfit {
    /// The same of a check whose name begins at this byte. It asks for no memory.
    pub(crate) fn at(self, at: u32) -> SpecError
        ensures { result ≡ refusal_at at self }
    {
        match self {
            Unfit::TooLarge => SpecError::TooLarge { at },
            Unfit::Memory => SpecError::Memory,
        }
    }
}

impl From<AllocError> for Unfit {
    ghost from_gives = { λ _ e. e ≡ Unfit.Memory };

    fn from(_refused: AllocError) -> Unfit {
        Unfit::Memory
    }
}

impl<T: Drop> From<AllocFailed<T>> for Unfit {
    ghost from_gives = { λ _ e. e ≡ Unfit.Memory };

    fn from(_refused: AllocFailed<T>) -> Unfit {
        Unfit::Memory
    }
}
