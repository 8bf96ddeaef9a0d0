//! The image of an automaton's words.
ghost use Rattle.std.specs.Prelude.{ℕ, ◌≤◌, ◌^◌, ◌↔◌, List, IfOk, length};
ghost use Rattle.std.specs.Option.{ForSome};
ghost use Rattle.rela_letter_nfa.specs.Runs.{Accepts as AcceptsLetters};
ghost use Rattle.rela_trans.specs.Runs.{Relates};
ghost use Rattle.rela_letter_image.specs.Coarse.{coarse_of};

use crate::letter_relation::LetterRelation;
use crate::product::product;
use rela_letter_nfa::LetterNfa;
use rela_pairs::pass_limit;
use std::alloc::{AllocError, Global};

/// The words that the relation writes where it reads a word of the paths. Both words are of fine
/// letters, those of the paths; the relation's letters are coarser, and `coarse` tells for each fine
/// letter the coarse one by which the relation knows it. `None` where the image would have more than
/// `most` states, or more than `most` edges and silent steps.
///
/// No set of several letters is made. Time: linear in the paths, and for each pair of states that is
/// found, a constant for each edge with each move that reads, where a move that reads one letter costs
/// no more than that two numbers are compared; for each move that reads nothing a constant, and if it
/// writes a step for each fine letter. Space: linear in the image, and in the states of the paths.
pub fn letter_image(
    alloc: Global,
    paths: &LetterNfa,
    relation: &LetterRelation,
    coarse: &[u32],
    most: usize,
) -> Result<Option<LetterNfa>, AllocError>
    requires few { length coarse.now ≤ 2 ^ 32 }
    ensures language { IfOk result (λ found. ForSome found (λ image. (v : List ℕ) →
        AcceptsLetters image v ↔ ((u : List ℕ) × AcceptsLetters paths.now u
        × Relates (coarse_of relation.now.letters coarse.now) relation.now u v))) }
{
    match product(alloc, paths, relation, coarse, most) {
        Ok(image) => Ok(Some(image)),
        Err(error) => {
            pass_limit(error)?;
            Ok(None)
        }
    }
}
