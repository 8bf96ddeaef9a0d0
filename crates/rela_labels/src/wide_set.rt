//! A set of letters of any size.

use crate::label_set::LabelSet;
use crate::letters::Letters;
use std::alloc::{AllocError, Global};
use std::marker::Model;

/// A set of letters of any size. One whose size is at most 64 takes no memory on the heap; nor may
/// one of a greater size that has one letter or none, and else it may take a bit there for each
/// letter below its size. Time: constant for `contains`, and else at most a step for each word of
/// 64 letters.
#[derive(Debug, Drop)]
pub struct WideSet {
    /// The number that all letters are below.
    size: u32,
    /// The letters, in the form that fits the size.
    letters: Letters,
}

impl Model for WideSet {
    ghost use Rattle.std.specs.Prelude.{List, Bool};

    ghost Value = { List Bool };

    ghost use Rattle.rela_labels.specs.WideSets.{letters_in, IsSized};

    ghost view = { λ set. letters_in set.size set.letters };

    ghost invariant = { λ set. IsSized set.size set.letters };
}

impl LabelSet for WideSet {
    ghost use Rattle.std.specs.Prelude.{true, ⊤};

    ghost letters = { λ set. set };

    ghost fits = { λ _. ⊤ };

    ghost takes_memory = { true };

    fn none(_alloc: Global, size: u32) -> Result<WideSet, AllocError> {
        Ok(WideSet {
            size,
            letters: Letters::none(size),
        })
    }

    fn size(&self) -> u32 {
        self.size
    }

    fn add(&mut self, alloc: Global, letter: u32) -> Result<(), AllocError> {
        self.letters.add(alloc, self.size, letter)
    }

    fn contains(&self, letter: u32) -> bool {
        self.letters.contains(letter)
    }

    fn meet(&self, alloc: Global, other: &WideSet) -> Result<WideSet, AllocError> {
        let letters = self.letters.meet(alloc, self.size, &other.letters)?;
        Ok(WideSet {
            size: self.size,
            letters,
        })
    }

    fn join(&self, alloc: Global, other: &WideSet) -> Result<WideSet, AllocError> {
        let letters = self.letters.join(alloc, self.size, &other.letters)?;
        Ok(WideSet {
            size: self.size,
            letters,
        })
    }

    fn minus(&self, alloc: Global, other: &WideSet) -> Result<WideSet, AllocError> {
        let letters = self.letters.minus(alloc, self.size, &other.letters)?;
        Ok(WideSet {
            size: self.size,
            letters,
        })
    }

    fn is_empty(&self) -> bool {
        self.letters.is_empty()
    }

    fn is_disjoint(&self, other: &WideSet) -> bool {
        self.letters.is_disjoint(&other.letters)
    }

    fn least(&self) -> Option<u32> {
        self.letters.least()
    }

    fn only(&self) -> Option<u32> {
        self.letters.only()
    }

    fn same(&self, other: &WideSet) -> bool {
        self.letters.same(&other.letters)
    }

    fn copy(&self, alloc: Global) -> Result<WideSet, AllocError> {
        let letters = self.letters.copied(alloc, self.size)?;
        Ok(WideSet {
            size: self.size,
            letters,
        })
    }
}
