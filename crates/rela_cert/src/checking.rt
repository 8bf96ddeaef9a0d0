//! Complements by listed words.

ghost use Rattle.std.specs.Prelude.{◌≡◌, ◌<◌, All, IfErr, IfOk, None, Some, [], ◌∷◌, length, map};
ghost use Rattle.std.specs.List.{slice_index_or};
ghost use Rattle.rela_certfile.specs.Listed.{words_of};
ghost use Rattle.rela_closed.specs.Closed.{IsClosed};
ghost use Rattle.rela_cert.specs.Letters.{AreInOrder, letter_words};

use crate::lettered::lettered;
use rela_build::{Answer, Complements};
use rela_certfile::Step;
use rela_closed::complement;
use rela_labels::{Partition, WideSet};
use rela_nfa::{BuildError, Nfa};
use std::alloc::Global;

/// Makes each complement by the words of its block, whose states are the sets of states that they
/// reach in its part. It is refused where the block isn't closed for the part.
#[derive(Drop)]
pub(crate) struct Checking<'a> {
    /// The blocks of symbols that are letters.
    pub(crate) letters: &'a Partition,
    /// The complement blocks, in the order of the complements.
    pub(crate) listed: &'a [&'a [Step]],
    ghost steps: { All (λ block. AreInOrder (length letters.now) block.now) listed.now },
}

impl<'a> Checking<'a> {
    /// The block with this number, and where there is none one that lists the empty word alone.
    fn block(&self, number: usize) -> &[Step]
        ensures block { result.now
            ≡ slice_index_or (map (λ b. b.now) self.now.listed.now) number [] }
        ensures steps { AreInOrder (length self.now.letters.now) result.now }
    {
        match self.listed.get(number) {
            Some(block) => block,
            None => &[],
        }
    }
}

impl<'a> Complements for Checking<'a> {
    type Note = ();

    ghost tells_all = { Unit {0} };

    ghost answers = { λ _ _ _ _ _. Unit {0} };

    ghost refuses = { λ checking number a over. ¬ IsClosed over (a ∷ [])
        (letter_words checking.letters.now
        (words_of (slice_index_or (map (λ b. b.now) checking.listed.now) number []))) };

    fn complement(
        &self,
        alloc: Global,
        number: usize,
        a: &Nfa<WideSet>,
        over: &WideSet,
    ) -> Result<Answer<()>, BuildError> {
        let steps = lettered(alloc, self.letters, self.block(number))?;
        let made = complement(alloc, a, over, steps.as_slice())?;
        answer_of(made)
    }
}

/// The answer by a complement that was made, which is refused where there is none.
fn answer_of(made: Option<Nfa<WideSet>>) -> Result<Answer<()>, BuildError>
    ensures made { IfOk result (λ answer. made ≡ Some answer.nfa) }
    ensures refused { IfErr result (λ e. (made ≡ None) × (e ≡ BuildError.Limit)) }
{
    match made {
        Some(nfa) => Ok(Answer { nfa, note: () }),
        None => Err(BuildError::Limit),
    }
}
