//! The words from which it can be computed that a row is met.

ghost use Rattle.std.specs.Prelude.{◌≡◌, ℕ, ◌<◌, ◌≤◌, Bool, true, List, [], ◌∷◌, Contains, IfNone, IfOk, OnErr, IfSome, None};
ghost use Rattle.rela_build.specs.Reading.{HoldsJust};
ghost use Rattle.rela_closed.specs.Closed.{IsClosed};
ghost use Rattle.rela_closed.specs.Words.{AreOrdered, words_of};
ghost use Rattle.rela_labels.specs.Letters.{has};
ghost use Rattle.rela_nfa.specs.Automaton.{IsAutomaton};
ghost use Rattle.rela_nfa.specs.Runs.{Accepts};
ghost use Rattle.rela_translate.specs.Verdict.{AreMet, Meets, Offends};
ghost use Rattle.rela_cert.specs.Certified.{IsExcused};
ghost use Rattle.rela_cert.specs.Found.{AreFound, AreRowWords};
ghost use Rattle.rela_cert.specs.RowParts.{HasLetters, IsAfterImage, IsBeforeImage, locations_of, paths_at, symbols_at};

use crate::finding::Finding;
use crate::images::{Images, row_images};
use crate::judgement::Judgement;
use crate::row::Row;
use crate::row_audit::{MAX_STATES, all_letters};
use crate::scene_laws::Rows;
use crate::words::judge_words;
use rela_build::{Letters, Stop};
use rela_closed::{Step, find};
use rela_labels::WideSet;
use rela_names::List;
use rela_pairs::pass_limit;
use rela_rir::{complements_inside, reached_states_are_places};
use rela_translate::images_mean_the_body;
use std::alloc::{AllocError, Global};

/// The words that are found for a row.
#[derive(Drop)]
pub(crate) struct RowWords {
    /// For each complement in the check's two images, the words of its part.
    pub(crate) complements: Vec<List<Step>>,
    /// The words of the two images.
    pub(crate) images: List<Step>,
}

/// The words that show that the row's check is met. There are none where a word offends against it,
/// or where its images have more places than `states`.
///
/// Time and space: those of the constructions, of which each meet, image and composition makes at
/// most `states` states, and for each word, of which each list has at most `states`, a look-up for
/// each letter. The only error is want of memory.
pub(crate) fn words_of_row(
    alloc: Global,
    row: &Row<'_>,
    letters: &Letters<'_>,
    states: usize,
) -> Result<Option<RowWords>, AllocError>
    requires some { 1 ≤ states }
    requires few { states ≤ MAX_STATES }
    requires letters { HasLetters row.now letters.now }
    ensures words { IfOk result (λ found. IfSome found (λ words.
        AreRowWords row.now letters.now.blocks words.complements.items words.images)) }
    ensures met { IfOk result (λ found. IfSome found (λ _.
        Meets row.now.check.now (locations_of row.now) (paths_at row.now).pre
        (paths_at row.now).post)) }
    ensures excused { IfOk result (λ found. IfNone found
        (IsExcused (locations_of row.now) states row.now.check.now (paths_at row.now))) }
{
    reached_states_are_places::<Rows>();
    complements_inside::<Rows>();
    let finding = Finding { limit: states };
    let mut notes = Vec::new(alloc);
    match row_images(alloc, row, letters, &finding, states, &mut notes) {
        Ok(both) => {
            let Some(images) = image_words(alloc, row, letters, &both, states)? else {
                return Ok(None);
            };
            Ok(Some(RowWords {
                complements: notes,
                images,
            }))
        }
        Err(stop) => none_built(stop),
    }
}

/// The words of a row of which the images weren't built. The only error is want of memory.
fn none_built(stop: Stop) -> Result<Option<RowWords>, AllocError>
    ensures none { IfOk result (λ found. found ≡ None) }
    ensures stop { IfOk result (λ _. ¬ (stop ≡ Stop.Memory)) }
    ensures memory { OnErr result (stop ≡ Stop.Memory) }
{
    match stop {
        Stop::Limit | Stop::Refused(_) => Ok(None),
        Stop::Memory => Err(AllocError),
    }
}

/// The words of the two images, whose automata these are, where they show that the check is met.
/// The only error is want of memory.
fn image_words(
    alloc: Global,
    row: &Row<'_>,
    letters: &Letters<'_>,
    both: &Images,
    states: usize,
) -> Result<Option<List<Step>>, AllocError>
    requires some { 1 ≤ states }
    requires few { states ≤ MAX_STATES }
    requires letters { HasLetters row.now letters.now }
    requires before { IsBeforeImage (Unit {0}) row.now letters.now.blocks both.now.before }
    requires after { IsAfterImage (Unit {0}) row.now letters.now.blocks both.now.after }
    ensures found { IfOk result (λ found. IfSome found (λ steps. (over : List Bool)
        × HoldsJust letters.now.blocks (λ s. s < symbols_at row.now) over
        × AreFound over (both.now.before ∷ both.now.after ∷ []) steps)) }
    ensures met { IfOk result (λ found. IfSome found (λ _.
        Meets row.now.check.now (locations_of row.now) (paths_at row.now).pre
        (paths_at row.now).post)) }
    ensures excused { IfOk result (λ found. IfNone found
        (IsExcused (locations_of row.now) states row.now.check.now (paths_at row.now))) }
{
    images_mean_the_body::<Rows>();
    reached_states_are_places::<Rows>();
    let all = all_letters(alloc, letters.count())?;
    match find(alloc, &[&both.before, &both.after], &all, states) {
        Ok(steps) => words_if_met(alloc, row.check.at_most(), both, &all, steps),
        Err(error) => {
            pass_limit(error)?;
            Ok(None)
        }
    }
}

/// The words of these steps, which are closed for the two images, where no word offends, of any
/// length. The only error is want of memory.
fn words_if_met(
    alloc: Global,
    at_most: bool,
    images: &Images,
    over: &WideSet,
    steps: Vec<Step>,
) -> Result<Option<List<Step>>, AllocError>
    requires before { IsAutomaton images.now.before }
    requires after { IsAutomaton images.now.after }
    requires same_letters { images.now.after.letters ≡ images.now.before.letters }
    requires over { (k : ℕ) → k < images.now.before.letters → has over.now k ≡ true }
    requires ordered { AreOrdered steps.items }
    requires closed { IsClosed over.now (images.now.before ∷ images.now.after ∷ [])
        (words_of steps.items) }
    ensures same { IfOk result (λ found. IfSome found (λ kept. kept ≡ steps.items)) }
    ensures met { IfOk result (λ found. IfSome found (λ _.
        AreMet at_most (Accepts images.now.before) (Accepts images.now.after))) }
    ensures offends { IfOk result (λ found. IfNone found ((word : List ℕ)
        × Contains (words_of steps.items) word
        × Offends at_most (Accepts images.now.before) (Accepts images.now.after) word)) }
{
    match judge_words(alloc, at_most, images, over, steps.as_slice())? {
        Judgement::Met => Ok(Some(List::from_vec(steps))),
        Judgement::OpenComplement(_) | Judgement::BadImages | Judgement::TooLarge => Ok(None),
    }
}
