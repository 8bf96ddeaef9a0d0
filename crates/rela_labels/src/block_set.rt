//! A set of letters of a bounded size, which takes no memory on the heap.
ghost use Rattle.std.specs.Prelude.{◌≡◌};

use crate::label_set::LabelSet;
use crate::words::{
    disjoint_words, has_bit, join_words, least_bit, meet_words, minus_words, only_bit, same_words,
    set_bit,
};
use std::alloc::{AllocError, Global};
use std::marker::Model;

/// A set of at most `64 * W` letters in `W` words, which lie in the set itself: no call takes
/// memory, so none fails. `W` is at most 64. Time: at most a step for each word, and constant for
/// `contains` and `add`, other than in copying the words of a result; space: `W` words.
#[derive(Debug, Drop)]
pub struct BlockSet<const W: usize> {
    /// The number that all letters are below.
    size: u32,
    /// Letter `k` is in the set where bit `k % 64` of word `k / 64` is 1. The bits from the size on
    /// are 0.
    words: [u64; W],
}

impl<const W: usize> Model for BlockSet<W> {
    ghost use Rattle.std.specs.Prelude.{List, Bool, ◌≤◌};
    ghost use Rattle.rela_labels.specs.Words.{letters_of, IsNarrow};

    ghost Value = { List Bool };

    ghost view = { λ set. letters_of set.size set.words };

    ghost invariant = { λ set. IsNarrow W set.size set.words };
}

impl<const W: usize> BlockSet<W> {
    /// The same set.
    fn copied(&self) -> BlockSet<W>
        ensures { result ≡ self.now }
    {
        BlockSet {
            size: self.size,
            words: self.words,
        }
    }
}

impl<const W: usize> LabelSet for BlockSet<W> {
    ghost use Rattle.std.specs.Prelude.{false, ◌≤◌, ◌*◌};

    ghost letters = { λ set. set };

    ghost fits = { λ size. (W ≤ 64) × (size ≤ 64 * W) };

    ghost takes_memory = { false };

    fn none(_alloc: Global, size: u32) -> Result<BlockSet<W>, AllocError> {
        Ok(BlockSet {
            size,
            words: [0; W],
        })
    }

    fn size(&self) -> u32 {
        self.size
    }

    fn add(&mut self, _alloc: Global, letter: u32) -> Result<(), AllocError> {
        set_bit(&mut self.words, letter);
        Ok(())
    }

    fn contains(&self, letter: u32) -> bool {
        has_bit(&self.words, letter)
    }

    fn meet(&self, _alloc: Global, other: &BlockSet<W>) -> Result<BlockSet<W>, AllocError> {
        let mut set = self.copied();
        meet_words(&mut set.words, &other.words);
        Ok(set)
    }

    fn join(&self, _alloc: Global, other: &BlockSet<W>) -> Result<BlockSet<W>, AllocError> {
        let mut set = self.copied();
        join_words(&mut set.words, &other.words);
        Ok(set)
    }

    fn minus(&self, _alloc: Global, other: &BlockSet<W>) -> Result<BlockSet<W>, AllocError> {
        let mut set = self.copied();
        minus_words(&mut set.words, &other.words);
        Ok(set)
    }

    fn is_empty(&self) -> bool {
        least_bit(&self.words).is_none()
    }

    fn is_disjoint(&self, other: &BlockSet<W>) -> bool {
        disjoint_words(&self.words, &other.words)
    }

    fn least(&self) -> Option<u32> {
        least_bit(&self.words)
    }

    fn only(&self) -> Option<u32> {
        only_bit(&self.words)
    }

    fn same(&self, other: &BlockSet<W>) -> bool {
        same_words(&self.words, &other.words)
    }

    fn copy(&self, _alloc: Global) -> Result<BlockSet<W>, AllocError> {
        Ok(self.copied())
    }
}
