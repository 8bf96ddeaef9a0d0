//! Why a file's bytes, or a part of a JSON value, could not be read.

ghost use Rattle.std.specs.Prelude.{◌≡◌};

use std::alloc::{AllocError, AllocFailed};
use thiserror::Error;

/// The first fault of a JSON file, in the order in which it is walked. Its `row` is the number of entries before the
/// one that the fault lies in, so that the first entry has row 0. The reader of each file says which entries count.
#[derive(Debug, Clone, Copy, PartialEq, Eq, Error)]
pub enum LoadError {
    /// The bytes are no JSON text.
    #[error("not JSON")]
    NotJson,
    /// A part is missing, or is of another kind than the rule of this number wants. The reader of each file numbers its
    /// rules.
    #[error("row {row} breaks rule {rule}")]
    WrongShape { rule: u8, row: u32 },
    /// The file is of a version that is not read here.
    #[error("unknown version")]
    BadVersion,
    /// A text that should be a name is not 1 to 64 name bytes.
    #[error("bad name in row {row}")]
    BadName { row: u32 },
    /// A location is to be called `drop` or `loop`, which are no names of locations.
    #[error("reserved name in row {row}")]
    ReservedName { row: u32 },
    /// An earlier entry of the same kind has the name.
    #[error("repeated entry in row {row}")]
    RepeatedEntry { row: u32 },
    /// No location of the wanted kind has the name.
    #[error("unknown location in row {row}")]
    UnknownLocation { row: u32 },
    /// An index is not below the length of the list that it points into.
    #[error("bad index in row {row}")]
    BadIndex { row: u32 },
    /// A text is no address prefix, or one of a family that is not read there.
    #[error("bad prefix in row {row}")]
    BadPrefix { row: u32 },
    /// No node of the flow has the name.
    #[error("unknown node in row {row}")]
    UnknownNode { row: u32 },
    /// There are more entries than are read.
    #[error("too many entries in row {row}")]
    TooMany { row: u32 },
    /// Memory ran out.
    #[error("out of memory")]
    Memory,
}

/// A JSON value is of another kind than was asked for.
#[derive(Debug, Clone, Copy, PartialEq, Eq, Error)]
#[error("a JSON value of another kind")]
pub struct Shape;

/// Why bytes give no JSON value.
#[derive(Debug, Clone, Copy, PartialEq, Eq, Error)]
pub enum ReadJsonError {
    /// The bytes are no JSON text (RFC 8259) in UTF-8, nest arrays and objects more than 127 deep, or hold a number
    /// that is too large for a finite double-precision one.
    #[error("not JSON")]
    NotJson,
    /// Memory ran out.
    #[error("out of memory")]
    Memory,
}

/// Why a JSON value is no list of indexes.
#[derive(Debug, Clone, Copy, PartialEq, Eq, Error)]
pub enum ListError {
    /// The value is no array, or an entry is no whole number.
    #[error("not a list of whole numbers")]
    Shape,
    /// An entry is not below the bound.
    #[error("an index past the end")]
    Index,
    /// Memory ran out.
    #[error("out of memory")]
    Memory,
}

impl From<AllocError> for LoadError {
    ghost use Rattle.rela_json.specs.declared.error.LoadError.TheVariants.{Memory};

    ghost from_gives = { λ _ e. e ≡ Memory };

    fn from(_refused: AllocError) -> LoadError {
        LoadError::Memory
    }
}

impl<T: Drop> From<AllocFailed<T>> for LoadError {
    ghost use Rattle.rela_json.specs.declared.error.LoadError.TheVariants.{Memory};

    ghost from_gives = { λ _ e. e ≡ Memory };

    fn from(_refused: AllocFailed<T>) -> LoadError {
        LoadError::Memory
    }
}

impl From<ReadJsonError> for LoadError {
    ghost use Rattle.rela_json.specs.LoadErrors.{load_error};

    ghost from_gives = { λ e f. f ≡ load_error e };

    fn from(e: ReadJsonError) -> LoadError {
        match e {
            ReadJsonError::NotJson => LoadError::NotJson,
            ReadJsonError::Memory => LoadError::Memory,
        }
    }
}

impl From<AllocError> for ReadJsonError {
    ghost use Rattle.rela_json.specs.declared.error.ReadJsonError.TheVariants.{Memory};

    ghost from_gives = { λ _ e. e ≡ Memory };

    fn from(_refused: AllocError) -> ReadJsonError {
        ReadJsonError::Memory
    }
}

impl<T: Drop> From<AllocFailed<T>> for ReadJsonError {
    ghost use Rattle.rela_json.specs.declared.error.ReadJsonError.TheVariants.{Memory};

    ghost from_gives = { λ _ e. e ≡ Memory };

    fn from(_refused: AllocFailed<T>) -> ReadJsonError {
        ReadJsonError::Memory
    }
}

impl From<serde_json::Error> for ReadJsonError {
    ghost use Rattle.rela_json.specs.declared.error.ReadJsonError.TheVariants.{NotJson, Memory};
    ghost use Rattle.serde_json.specs.Errors.{IsMemory};

    ghost from_gives = { λ e f. (f ≡ Memory → IsMemory e) × (f ≡ NotJson → ¬ (IsMemory e)) };

    fn from(e: serde_json::Error) -> ReadJsonError {
        if e.is_memory() {
            ReadJsonError::Memory
        } else {
            ReadJsonError::NotJson
        }
    }
}

impl From<Shape> for ListError {
    ghost use Rattle.rela_json.specs.declared.error.ListError.TheVariants.{Shape};

    ghost from_gives = { λ _ e. e ≡ Shape };

    fn from(_shape: Shape) -> ListError {
        ListError::Shape
    }
}

impl From<AllocError> for ListError {
    ghost use Rattle.rela_json.specs.declared.error.ListError.TheVariants.{Memory};

    ghost from_gives = { λ _ e. e ≡ Memory };

    fn from(_refused: AllocError) -> ListError {
        ListError::Memory
    }
}

impl<T: Drop> From<AllocFailed<T>> for ListError {
    ghost use Rattle.rela_json.specs.declared.error.ListError.TheVariants.{Memory};

    ghost from_gives = { λ _ e. e ≡ Memory };

    fn from(_refused: AllocFailed<T>) -> ListError {
        ListError::Memory
    }
}
