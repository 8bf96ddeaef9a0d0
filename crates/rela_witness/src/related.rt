//! What a word is written for.
ghost use Rattle.std.specs.Prelude.{◌≡◌, ◌≢◌, ℕ, ◌↔◌, List, IfOk, IfSome, IfNone};
ghost use Rattle.rela_names.specs.Shortlex.{First};
ghost use Rattle.rela_nfa.specs.Runs.{Accepts};
ghost use Rattle.rela_trans.specs.Runs.{Relates};

use crate::shortest::least_word;
use rela_labels::LabelSet;
use rela_names::Word;
use rela_nfa::Nfa;
use rela_pairs::BuildError;
use rela_trans::{Transducer, are_letters, image, related_words_have_letters};
use std::alloc::{AllocError, Global};

/// The first word in shortlex order that the automaton accepts and for which the transducer writes
/// `v`: a word of the image of `v` under the inverse. `None` where there is no such word, as where
/// a number of `v` is no letter. Want of memory is the only error. Time and space: at most in
/// proportion to the product of the automaton, the transducer and the length of `v`, in set
/// operations.
pub fn least_source<L: LabelSet>(
    alloc: Global,
    a: &Nfa<L>,
    transducer: &Transducer<L>,
    v: &[u32],
) -> Result<Option<Word>, AllocError>
    requires letters { a.now.letters ≡ transducer.now.letters }
    ensures found { IfOk result (λ found.
        IfSome found (First (λ u. Accepts a.now u × Relates (λ k. k) transducer.now u v.now))) }
    ensures none { IfOk result (λ found. IfNone found ((u : List ℕ) →
        ¬ (Accepts a.now u × Relates (λ k. k) transducer.now u v.now))) }
{
    let sources = sources_of(alloc, transducer, v)?;
    match a.meet(alloc, &sources, usize::MAX) {
        Ok(accepted) => least_word(alloc, &accepted),
        Err(error) => Err(want_of_memory(error)),
    }
}

/// The words for which the transducer writes `v`. There is none where a number of it is no letter.
fn sources_of<L: LabelSet>(
    alloc: Global,
    transducer: &Transducer<L>,
    v: &[u32],
) -> Result<Nfa<L>, AllocError>
    ensures letters { IfOk result (λ nfa. nfa.letters ≡ transducer.now.letters) }
    ensures language { IfOk result (λ nfa. (u : List ℕ) → Accepts nfa u ↔
        Relates (λ k. k) transducer.now u v.now) }
{
    let letters = transducer.letters();
    if !are_letters(v, letters) {
        related_words_have_letters();
        return Nfa::none(alloc, letters);
    }
    let word = Nfa::word(alloc, letters, v)?;
    let inverse = transducer.inverse(alloc)?;
    match image(alloc, &word, &inverse, usize::MAX) {
        Ok(sources) => Ok(sources),
        Err(error) => Err(want_of_memory(error)),
    }
}

/// The error for want of memory, which is the only one where no limit was set.
fn want_of_memory(error: BuildError) -> AllocError
    requires { error ≢ BuildError.Limit }
{
    match error {
        BuildError::Memory => AllocError,
        BuildError::Limit => unreachable!(),
    }
}
