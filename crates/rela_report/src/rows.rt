//! The rows of a report: the verdict on each flow under each check that selects it.

ghost use Rattle.std.specs.Prelude.{◌≡◌, IfOk};

use rela_names::{Name, Word};
use std::alloc::{AllocError, Global};

/// The snapshot on whose side a word is.
#[derive(Clone, Copy)]
pub enum Side {
    /// The image of the paths before the change has the word, and the other image lacks it.
    Before,
    /// The image of the paths after the change has the word, and the other image lacks it.
    After,
}

/// The verdict on a check for one flow.
#[derive(Drop)]
pub enum Row {
    /// The check is met: the images are equal, or the one after the change lies in the one before it
    /// where the check asks for no more.
    Compliant,
    /// The check isn't met.
    Violated {
        /// The shortlex-first word of one image that the other lacks.
        word: Word,
        /// The side whose image has the word.
        side: Side,
        /// The shortlex-first path of that side's snapshot that is related to the word.
        source: Word,
    },
    /// The verdict is left open, since it would take more states than are allowed.
    Undecided,
}

impl Row {
    /// The same verdict once more. Time and space: linear in its words.
    ///
    /// # Errors
    ///
    /// Only where memory is wanted.
    pub fn copy(&self, alloc: Global) -> Result<Row, AllocError>
        ensures { IfOk result (λ row. row ≡ self.now) }
    {
        match self {
            Row::Compliant => Ok(Row::Compliant),
            Row::Violated { word, side, source } => Ok(Row::Violated {
                word: copy_word(alloc, word)?,
                side: *side,
                source: copy_word(alloc, source)?,
            }),
            Row::Undecided => Ok(Row::Undecided),
        }
    }
}

/// The same word once more, with symbols of its own.
fn copy_word(alloc: Global, word: &Word) -> Result<Word, AllocError>
    ensures { IfOk result (λ copy. copy ≡ word.now) }
{
    Ok(Word::from_symbols(Vec::from_slice(alloc, word.as_slice())?))
}

/// A row of the report.
#[derive(Drop)]
pub enum ReportRow {
    /// A flow that no check selects.
    Unselected {
        /// The flow's name.
        flow: Name,
    },
    /// A flow under a check that selects it.
    Selected {
        /// The flow's name.
        flow: Name,
        /// The check's name.
        check: Name,
        /// The verdict.
        row: Row,
    },
}
