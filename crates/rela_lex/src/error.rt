//! Why a specification's text is refused.

use std::alloc::{AllocError, AllocFailed};
use std::error::Error;
use std::fmt;
use std::fmt::{Display, Formatter};

/// The first fault of a specification. `at` counts the bytes of the text that stand before it.
#[derive(Clone, Copy, Debug, PartialEq, Eq)]
pub enum SpecError {
    /// No token, comment or blank begins here.
    BadToken { at: u32 },
    /// No specification begins with the tokens up to and with this one; at the end of the text, the
    /// text stops short.
    Syntax { at: u32 },
    /// No earlier item of its kind has the name that is referred to.
    UnknownName { at: u32 },
    /// An earlier item has the same name.
    RepeatedName { at: u32 },
    /// Too many brackets are open, or a check nests too deep once its references are replaced.
    TooDeep { at: u32 },
    /// There are too many checks, or a check is too large once its references are replaced.
    TooLarge { at: u32 },
    /// The number is too great, or has a leading zero.
    BadNumber { at: u32 },
    /// The locations are named by a finer level than that of the specification.
    FinerLevel { at: u32 },
    /// No location has the name.
    UnknownLocation { at: u32 },
    /// Memory ran out.
    Memory,
}

impl SpecError {
    /// What is wrong, in words.
    fn fault(self) -> &'static str {
        match self {
            SpecError::BadToken { .. } => "no token begins here",
            SpecError::Syntax { .. } => "unexpected token",
            SpecError::UnknownName { .. } => "unknown name",
            SpecError::RepeatedName { .. } => "repeated name",
            SpecError::TooDeep { .. } => "nested too deep",
            SpecError::TooLarge { .. } => "too large",
            SpecError::BadNumber { .. } => "bad number",
            SpecError::FinerLevel { .. } => "a finer level",
            SpecError::UnknownLocation { .. } => "unknown location",
            SpecError::Memory => "out of memory",
        }
    }
}

impl Display for SpecError {
    fn fmt<W: fmt::Write>(&self, f: &mut Formatter<W>) -> fmt::Result {
        f.pad(self.fault())
    }
}

impl Error for SpecError {}

impl From<AllocError> for SpecError {
    ghost use Rattle.std.specs.Prelude.{◌≡◌};
    ghost use Rattle.rela_lex.specs.declared.error.SpecError.TheVariants.{Memory};

    ghost from_gives = { λ _ e. e ≡ Memory };

    fn from(_refused: AllocError) -> SpecError {
        SpecError::Memory
    }
}

impl<T: Drop> From<AllocFailed<T>> for SpecError {
    ghost use Rattle.std.specs.Prelude.{◌≡◌};
    ghost use Rattle.rela_lex.specs.declared.error.SpecError.TheVariants.{Memory};

    ghost from_gives = { λ _ e. e ≡ Memory };

    fn from(_refused: AllocFailed<T>) -> SpecError {
        SpecError::Memory
    }
}
