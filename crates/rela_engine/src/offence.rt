//! The first word that offends against a check.
ghost use Rattle.std.specs.Prelude.{◌≡◌, ◌+◌, true, false, IfOk, IfErr, IfNone, IfSome};
ghost use Rattle.rela_compare.specs.Comparison.{ReachPairsBefore};
ghost use Rattle.rela_names.specs.Shortlex.{First};
ghost use Rattle.rela_nfa.specs.Runs.{Accepts};
ghost use Rattle.rela_translate.specs.Verdict.{AreMet, Offends};
ghost use Rattle.rela_engine.specs.RowOf.{words_of};

use rela_compare::{Verdict, Which, equal, included};
use rela_labels::LabelSet;
use rela_names::Word;
use rela_nfa::{BuildError, Nfa};
use rela_report::Side;
use std::alloc::Global;

/// A word of letters that one image has and the other lacks.
#[derive(Drop)]
pub(crate) struct Offence {
    /// The word, by the numbers of its letters.
    pub(crate) letters: Word,
    /// The side whose image has the word.
    pub(crate) side: Side,
}

/// The first word in shortlex order that is in just one of the two images, or, where only paths
/// that come new offend, in the image after alone. `None` where there is none.
///
/// # Errors
///
/// - `Limit` only where words that do not come after that word reach more than `states` pairs of sets
///   of states of the two images.
/// - `Memory` where there isn't memory for them.
pub(crate) fn first_offence<L: LabelSet>(
    alloc: Global,
    at_most: bool,
    before: &Nfa<L>,
    after: &Nfa<L>,
    states: usize,
) -> Result<Option<Offence>, BuildError>
    requires { before.now.letters ≡ after.now.letters }
    ensures none { IfOk result (λ found. IfNone found
        (AreMet at_most (Accepts before.now) (Accepts after.now))) }
    ensures first { IfOk result (λ found. IfSome found (λ offence.
        First (Offends at_most (Accepts before.now) (Accepts after.now)) offence.letters)) }
    ensures side { IfOk result (λ found. IfSome found (λ offence.
        words_of offence.side (Accepts before.now) (Accepts after.now) offence.letters)) }
    ensures limit { IfErr result (λ e. e ≡ BuildError.Limit →
        ReachPairsBefore before.now after.now
        (Offends at_most (Accepts before.now) (Accepts after.now)) (states + 1)) }
{
    if at_most {
        first_new(alloc, before, after, states)
    } else {
        first_difference(alloc, before, after, states)
    }
}

/// The first word that only the image after has. Errors are those of [`first_offence`].
fn first_new<L: LabelSet>(
    alloc: Global,
    before: &Nfa<L>,
    after: &Nfa<L>,
    states: usize,
) -> Result<Option<Offence>, BuildError>
    requires { before.now.letters ≡ after.now.letters }
    ensures none { IfOk result (λ found. IfNone found
        (AreMet true (Accepts before.now) (Accepts after.now))) }
    ensures first { IfOk result (λ found. IfSome found (λ offence.
        First (Offends true (Accepts before.now) (Accepts after.now)) offence.letters)) }
    ensures side { IfOk result (λ found. IfSome found (λ offence.
        words_of offence.side (Accepts before.now) (Accepts after.now) offence.letters)) }
    ensures limit { IfErr result (λ e. e ≡ BuildError.Limit →
        ReachPairsBefore before.now after.now
        (Offends true (Accepts before.now) (Accepts after.now)) (states + 1)) }
{
    match included(alloc, after, before, states)? {
        Verdict::Same => Ok(None),
        Verdict::Differ { word, side: _ } => Ok(Some(Offence {
            letters: word,
            side: Side::After,
        })),
    }
}

/// The first word that just one of the images has. Errors are those of [`first_offence`].
fn first_difference<L: LabelSet>(
    alloc: Global,
    before: &Nfa<L>,
    after: &Nfa<L>,
    states: usize,
) -> Result<Option<Offence>, BuildError>
    requires { before.now.letters ≡ after.now.letters }
    ensures none { IfOk result (λ found. IfNone found
        (AreMet false (Accepts before.now) (Accepts after.now))) }
    ensures first { IfOk result (λ found. IfSome found (λ offence.
        First (Offends false (Accepts before.now) (Accepts after.now)) offence.letters)) }
    ensures side { IfOk result (λ found. IfSome found (λ offence.
        words_of offence.side (Accepts before.now) (Accepts after.now) offence.letters)) }
    ensures limit { IfErr result (λ e. e ≡ BuildError.Limit →
        ReachPairsBefore before.now after.now
        (Offends false (Accepts before.now) (Accepts after.now)) (states + 1)) }
{
    match equal(alloc, before, after, states)? {
        Verdict::Same => Ok(None),
        Verdict::Differ { word, side } => Ok(Some(Offence {
            letters: word,
            side: match side {
                Which::First => Side::Before,
                Which::Second => Side::After,
            },
        })),
    }
}
