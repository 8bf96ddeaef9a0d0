//! The first source of a word.
ghost use Rattle.std.specs.Prelude.{ℕ, List, IfNone, IfOk, IfSome};
ghost use Rattle.rela_letter_image.specs.Coarse.{coarse_of};
ghost use Rattle.rela_letter_nfa.specs.Runs.{Accepts};
ghost use Rattle.rela_names.specs.Shortlex.{First};
ghost use Rattle.rela_letter_source.specs.Sources.{IsSourceOf};

use crate::sources::sources;
use rela_letter_image::LetterRelation;
use rela_letter_nfa::{LetterNfa, LetterNfaBuilder, Sought, first_difference};
use rela_names::Word;
use rela_pairs::{BuildError, pass_limit};
use std::alloc::{AllocError, Global};

/// An automaton that accepts no word.
fn nothing(alloc: Global) -> Result<LetterNfa, AllocError>
    ensures { IfOk result (λ a. (u : List ℕ) → ¬ Accepts a u) }
{
    let mut builder = LetterNfaBuilder::with_capacity(alloc, 1, 0, 0)?;
    builder.end_state(false)?;
    Ok(builder.finish(0))
}

/// The first source of the word, as [`first_source`] says, or an error.
///
/// # Errors
///
/// - `Limit` where the automaton of the sources would have more than `most` states, or more than
///   `most` edges and silent steps, or where more than `most` sets of its states are reached by
///   words that don't come after the first source.
/// - `Memory` where there isn't memory for them.
fn source_within(
    alloc: Global,
    paths: &LetterNfa,
    relation: &LetterRelation,
    coarse: &[u32],
    word: &[u32],
    most: usize,
) -> Result<Option<Word>, BuildError>
    ensures first { IfOk result (λ found. IfSome found (First (IsSourceOf
        (coarse_of relation.now.letters coarse.now) paths.now relation.now word.now))) }
    ensures none { IfOk result (λ found. IfNone found ((u : List ℕ) → ¬ IsSourceOf
        (coarse_of relation.now.letters coarse.now) paths.now relation.now word.now u)) }
{
    let sources = sources(alloc, paths, relation, coarse, word, most)?;
    let nothing = nothing(alloc)?;
    let found = first_difference(alloc, &sources, &nothing, Sought::FirstAlone, most)?;
    let Some(difference) = found else {
        return Ok(None);
    };
    Ok(Some(difference.word))
}

/// The first word in shortlex order that the paths accept and that the relation relates to `word`.
/// Both words are of fine letters, those of the paths; the relation's letters are coarser, and
/// `coarse` tells for each fine letter the coarse one by which the relation knows it. `None` where
/// there is no such word, where the automaton of such words would have more than `most` states, or
/// more than `most` edges and silent steps, and where more than `most` sets of its states are
/// reached by words that don't come after the first one.
///
/// The automaton's states are triples: a state of the paths, one of the relation, and how many
/// letters of `word` have been written. Time: for each triple that is found, a constant for each
/// edge with each move that reads, where a move that reads one letter costs no more than that two
/// numbers are compared, and for each move that reads nothing; then a search through sets of
/// triples, up to the first word. Space: linear in the triples, the edges between them, and these
/// sets.
///
/// # Errors
///
/// Only want of memory.
pub fn first_source(
    alloc: Global,
    paths: &LetterNfa,
    relation: &LetterRelation,
    coarse: &[u32],
    word: &[u32],
    most: usize,
) -> Result<Option<Word>, AllocError>
    ensures first { IfOk result (λ found. IfSome found (First (IsSourceOf
        (coarse_of relation.now.letters coarse.now) paths.now relation.now word.now))) }
{
    match source_within(alloc, paths, relation, coarse, word, most) {
        Ok(found) => Ok(found),
        Err(error) => {
            pass_limit(error)?;
            Ok(None)
        }
    }
}
