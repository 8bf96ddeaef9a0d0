//! What the words of an images block tell of the two images.

ghost use Rattle.std.specs.Prelude.{◌≡◌, ℕ, ◌<◌, ◌↔◌, true, [], ◌∷◌, IfOk, IsTrue, IsFalse, length, map};
ghost use Rattle.std.specs.List.{slice_index_or};
ghost use Rattle.rela_closed.specs.Closed.{IsClosed};
ghost use Rattle.rela_closed.specs.Words.{AreOrdered, words_of};
ghost use Rattle.rela_labels.specs.Letters.{has};
ghost use Rattle.rela_nfa.specs.Automaton.{IsAutomaton};
ghost use Rattle.rela_cert.specs.WordsJudged.{JudgesFlags, JudgesWords, OffendsAt, flag_offends};

use crate::images::Images;
use crate::judgement::Judgement;
use rela_closed::{Followed, Step, closed_lists_decide, follow, listed_words_are_over};
use rela_labels::{LabelSet, WideSet};
use rela_nfa::Nfa;
use std::alloc::{AllocError, Global};

/// What the words of these steps tell of the two images, where `over` has all of their letters:
/// that the check is met, or that the block of the words is bad. The only error is want of memory.
pub(crate) fn judge_words(
    alloc: Global,
    at_most: bool,
    images: &Images,
    over: &WideSet,
    steps: &[Step],
) -> Result<Judgement, AllocError>
    requires before { IsAutomaton images.now.before }
    requires after { IsAutomaton images.now.after }
    requires same_letters { images.now.after.letters ≡ images.now.before.letters }
    requires over { (k : ℕ) → k < images.now.before.letters → has over.now k ≡ true }
    requires ordered { AreOrdered steps.now }
    ensures { IfOk result (JudgesWords at_most images.now.before images.now.after over.now
        (words_of steps.now)) }
{
    closed_lists_decide();
    listed_words_are_over();
    match follow(alloc, &[&images.before, &images.after], over, steps)? {
        Some(followed) => {
            let before = flags_of(&followed, 0);
            let after = flags_of(&followed, 1);
            Ok(judge_flags(at_most, before, after))
        }
        None => Ok(Judgement::BadImages),
    }
}

/// Whether the words of these steps are closed for the automaton, by the letters of `over`. The only
/// error is want of memory.
pub(crate) fn are_closed(
    alloc: Global,
    automaton: &Nfa<WideSet>,
    over: &WideSet,
    steps: &[Step],
) -> Result<bool, AllocError>
    requires { AreOrdered steps.now }
    ensures { IfOk result (λ closed. IsTrue closed
        ↔ IsClosed over.now (automaton.now ∷ []) (words_of steps.now)) }
{
    match follow(alloc, &[automaton], over, steps)? {
        Some(_) => Ok(true),
        None => Ok(false),
    }
}

/// For each listed word whether this automaton accepts it, and nothing where there is no such
/// automaton.
fn flags_of(followed: &Followed, automaton: usize) -> &[bool]
    ensures { result.now
        ≡ slice_index_or (map (λ flags. flags.items) followed.now.accepted.items) automaton [] }
{
    match followed.accepted.get(automaton) {
        Some(flags) => flags.as_slice(),
        None => &[],
    }
}

/// The judgement by the flags that tell for each listed word whether it is in the image before and
/// in the image after.
fn judge_flags(at_most: bool, before: &[bool], after: &[bool]) -> Judgement
    requires { length before.now ≡ length after.now }
    ensures { JudgesFlags at_most before.now after.now result }
{
    if some_offends(at_most, before, after) {
        Judgement::BadImages
    } else {
        Judgement::Met
    }
}

/// Whether some word offends, by the flags that tell for each word whether it is in the image
/// before and in the image after.
fn some_offends(at_most: bool, before: &[bool], after: &[bool]) -> bool
    requires { length before.now ≡ length after.now }
    ensures found { IsTrue result →
        (i : ℕ) × (i < length before.now) × OffendsAt at_most before.now after.now i }
    ensures none { IsFalse result →
        (i : ℕ) → i < length before.now → ¬ OffendsAt at_most before.now after.now i }
{
    for i in 0..before.len() {
        if offends(at_most, before[i], after[i]) {
            return true;
        }
    }
    false
}

/// Whether a word offends that is in the image before, or not, and in the image after, or not.
fn offends(at_most: bool, before: bool, after: bool) -> bool
    ensures { result ≡ flag_offends at_most before after }
{
    before != after && (after || !at_most)
}
