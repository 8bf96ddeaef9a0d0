//! Words of 64 bits behind one pointer.
ghost use Rattle.std.specs.Prelude.{◌≡◌, ◌≢◌, ℕ, ◌*◌, ◌<◌, true, length, IfOk};
ghost use Rattle.rela_labels.specs.Words.{bit_of};

use crate::words::set_bit;
use std::alloc::{AllocError, Global};
use std::marker::Model;

/// Words of 64 bits behind one pointer, so that a set without any is as small as a word. Contracts
/// see the list of the words.
#[derive(Debug, Drop)]
pub(crate) struct BoxedWords {
    /// The pointer to the words.
    inner: Box<Vec<u64>>,
}

impl Model for BoxedWords {
    ghost use Rattle.std.specs.Prelude.{List, ℕ};

    ghost Value = { List ℕ };

    ghost view = { λ words. words.inner.value.items };
}

impl BoxedWords {
    /// These words behind a pointer. Time: constant.
    pub(crate) fn new(alloc: Global, words: Vec<u64>) -> Result<BoxedWords, AllocError>
        ensures { IfOk result (λ boxed. boxed ≡ words.items) }
    {
        Ok(BoxedWords {
            inner: Box::new(alloc, words)?,
        })
    }

    /// The words, lent.
    pub(crate) fn as_slice(&self) -> &[u64]
        ensures { result.now ≡ self.now }
    {
        self.inner.as_slice()
    }

    /// Sets the letter's bit to 1.
    pub(crate) fn set_bit(&mut self, letter: u32)
        requires { letter < 64 * length self.old }
        ensures len { length self.new ≡ length self.old }
        ensures added { bit_of self.new letter ≡ true }
        ensures others { (k : ℕ) → k ≢ letter → bit_of self.new k ≡ bit_of self.old k }
    {
        set_bit(self.inner.as_mut_slice(), letter);
    }
}
