//! The first word that offends against a check, by images with one letter on each edge.
ghost use Rattle.std.specs.Prelude.{◌≡◌, ◌+◌, true, false, IfErr, IfOk, IfNone, IfSome};
ghost use Rattle.rela_letter_nfa.specs.Differences.{ReachPairsBefore};
ghost use Rattle.rela_letter_nfa.specs.Runs.{Accepts};
ghost use Rattle.rela_names.specs.Shortlex.{First};
ghost use Rattle.rela_translate.specs.Verdict.{AreMet, Offends};
ghost use Rattle.rela_engine.specs.LetterImages.{TellsOfImages};
ghost use Rattle.rela_engine.specs.RowOf.{words_of};

use crate::offence::Offence;
use crate::told::Told;
use rela_letter_nfa::{BuildError, Difference, LetterNfa, Sought, Which, first_difference};
use rela_pairs::pass_limit;
use rela_report::Side;
use std::alloc::{AllocError, Global};

/// What the two images tell of a check, where `at_most` says that only words offend which the image
/// after alone has. Nothing only where words that do not come after the first that offends reach more
/// than `states` pairs of sets of states. The only error is want of memory.
pub(crate) fn compare(
    alloc: Global,
    at_most: bool,
    before: &LetterNfa,
    after: &LetterNfa,
    states: usize,
) -> Result<Told, AllocError>
    ensures told { IfOk result (TellsOfImages at_most (Accepts before.now) (Accepts after.now)) }
    ensures open { IfOk result (λ told. told ≡ Told.Open → ReachPairsBefore before.now after.now
        (Offends at_most (Accepts before.now) (Accepts after.now)) (states + 1)) }
{
    match first_letter_offence(alloc, at_most, before, after, states) {
        Ok(None) => Ok(Told::Met),
        Ok(Some(offence)) => Ok(Told::Differ(offence)),
        Err(error) => {
            pass_limit(error)?;
            Ok(Told::Open)
        }
    }
}

/// The first word in shortlex order that is in just one of the two images, or, where only words
/// that come new offend, in the image after alone. `None` where there is none.
///
/// # Errors
///
/// - `Limit` only where words that do not come after that word reach more than `states` pairs of sets
///   of states of the two images.
/// - `Memory` where there isn't memory for them.
fn first_letter_offence(
    alloc: Global,
    at_most: bool,
    before: &LetterNfa,
    after: &LetterNfa,
    states: usize,
) -> Result<Option<Offence>, BuildError>
    ensures none { IfOk result (λ found. IfNone found
        (AreMet at_most (Accepts before.now) (Accepts after.now))) }
    ensures first { IfOk result (λ found. IfSome found (λ offence.
        First (Offends at_most (Accepts before.now) (Accepts after.now)) offence.letters)) }
    ensures side { IfOk result (λ found. IfSome found (λ offence.
        words_of offence.side (Accepts before.now) (Accepts after.now) offence.letters)) }
    ensures limit { IfErr result (λ e. e ≡ BuildError.Limit →
        ReachPairsBefore before.now after.now
        (Offends at_most (Accepts before.now) (Accepts after.now)) (states + 1)) }
{
    if at_most {
        first_new_word(alloc, before, after, states)
    } else {
        first_other_word(alloc, before, after, states)
    }
}

/// The first word that only the image after has. Errors are those of [`first_letter_offence`].
fn first_new_word(
    alloc: Global,
    before: &LetterNfa,
    after: &LetterNfa,
    states: usize,
) -> Result<Option<Offence>, BuildError>
    ensures none { IfOk result (λ found. IfNone found
        (AreMet true (Accepts before.now) (Accepts after.now))) }
    ensures first { IfOk result (λ found. IfSome found (λ offence.
        First (Offends true (Accepts before.now) (Accepts after.now)) offence.letters)) }
    ensures side { IfOk result (λ found. IfSome found (λ offence.
        words_of offence.side (Accepts before.now) (Accepts after.now) offence.letters)) }
    ensures limit { IfErr result (λ e. e ≡ BuildError.Limit →
        ReachPairsBefore before.now after.now
        (Offends true (Accepts before.now) (Accepts after.now)) (states + 1)) }
{
    match first_difference(alloc, after, before, Sought::FirstAlone, states)? {
        None => Ok(None),
        Some(Difference { word, side: _ }) => Ok(Some(Offence {
            letters: word,
            side: Side::After,
        })),
    }
}

/// The first word that just one of the images has. Errors are those of [`first_letter_offence`].
fn first_other_word(
    alloc: Global,
    before: &LetterNfa,
    after: &LetterNfa,
    states: usize,
) -> Result<Option<Offence>, BuildError>
    ensures none { IfOk result (λ found. IfNone found
        (AreMet false (Accepts before.now) (Accepts after.now))) }
    ensures first { IfOk result (λ found. IfSome found (λ offence.
        First (Offends false (Accepts before.now) (Accepts after.now)) offence.letters)) }
    ensures side { IfOk result (λ found. IfSome found (λ offence.
        words_of offence.side (Accepts before.now) (Accepts after.now) offence.letters)) }
    ensures limit { IfErr result (λ e. e ≡ BuildError.Limit →
        ReachPairsBefore before.now after.now
        (Offends false (Accepts before.now) (Accepts after.now)) (states + 1)) }
{
    match first_difference(alloc, before, after, Sought::EitherAlone, states)? {
        None => Ok(None),
        Some(Difference { word, side }) => Ok(Some(Offence {
            letters: word,
            side: match side {
                Which::First => Side::Before,
                Which::Second => Side::After,
            },
        })),
    }
}
