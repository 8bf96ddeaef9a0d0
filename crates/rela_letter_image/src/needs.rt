//! Letters that a relation needs: those that it reads on each way to a final state.
ghost use Rattle.std.specs.Prelude.{◌≡◌, ℕ, ◌<◌, ◌⊎◌, ◌↔◌, IfOk, IsTrue, length, map, slice_index};
ghost use Rattle.std.specs.List.{All};
ghost use Rattle.rela_letter_image.specs.LetterMoves.{all_moves, laid};
ghost use Rattle.rela_letter_image.specs.Needs.{AreKept, AreNeeds, Has, IsWithin};

use crate::letter_moves::{AloneMove, LetterMove, SetMove, StateMoves};
use crate::move_lists::MoveLists;
use std::alloc::{AllocError, Global};

/// How often the words of all states are narrowed down at most.
const ROUNDS: usize = 8;

/// A relation of more states is mostly asked for few images, and what its states need isn't looked for.
const MOST_STATES: usize = 1 << 10;

/// The word at the place, and 0 past the last.
pub(crate) fn word_at(words: &[u64], place: usize) -> u64
    ensures { result ≡ slice_index words.now place }
{
    match words.get(place) {
        Some(word) => *word,
        None => 0,
    }
}

/// Whether each letter of the word is one of the other.
pub(crate) fn is_within(word: u64, other: u64) -> bool
    ensures { IsTrue result ↔ IsWithin word other }
{
    word & other == word
}

/// The word with the letter too, if it is below 64.
pub(crate) fn with_letter(word: u64, letter: u32) -> u64
    ensures kept { (k : ℕ) → Has word k → Has result k }
    ensures here { letter < 64 → Has result letter }
    ensures others { (k : ℕ) → Has result k → Has word k ⊎ (k ≡ letter) }
{
    if letter < 64 {
        word | 1 << letter
    } else {
        word
    }
}

/// Whether the letters are needed behind each of the moves too.
fn alone_keep(moves: &[AloneMove], needs: &[u64], need: u64) -> bool
    ensures { IsTrue result →
        All (λ step. IsWithin need (slice_index needs.now step.to)) moves.now }
{
    for step in moves {
        if !is_within(need, word_at(needs, step.to)) {
            return false;
        }
    }
    true
}

/// Whether the letters are needed behind each of the moves too.
fn sets_keep(moves: &[SetMove], needs: &[u64], need: u64) -> bool
    ensures { IsTrue result →
        All (λ step. IsWithin need (slice_index needs.now step.to)) moves.now }
{
    for step in moves {
        if !is_within(need, word_at(needs, step.to)) {
            return false;
        }
    }
    true
}

/// Whether the letters are needed behind the move too, or read by it.
fn letter_keeps(step: LetterMove, needs: &[u64], need: u64) -> bool
    ensures { IsTrue result → (k : ℕ) → k < 64 → Has need k →
        Has (slice_index needs.now step.to) k ⊎ (k ≡ step.letter) }
{
    is_within(need, with_letter(word_at(needs, step.to), step.letter))
}

/// Whether the letters are needed behind each of the moves too, or read by it.
fn letters_keep(moves: &[LetterMove], needs: &[u64], need: u64) -> bool
    ensures { IsTrue result → All (λ step. (k : ℕ) → k < 64 → Has need k →
        Has (slice_index needs.now step.to) k ⊎ (k ≡ step.letter)) moves.now }
{
    for step in moves {
        if !letter_keeps(*step, needs, need) {
            return false;
        }
    }
    true
}

/// Whether what the state needs is needed behind each of its moves too, or read by it, and nothing
/// is needed where it is final.
fn keeps(state: StateMoves<'_>, is_final: bool, needs: &[u64], need: u64) -> bool
    ensures none { IsTrue result → IsTrue is_final → need ≡ 0 }
    ensures kept { IsTrue result → AreKept needs.now need (laid state.entry) }
{
    if is_final && need != 0 {
        return false;
    }
    alone_keep(state.alone, needs, need)
        && sets_keep(state.by_set, needs, need)
        && letters_keep(state.by_letter, needs, need)
}

/// Whether what each state needs is needed behind each of its moves too, or read by it, and final
/// states need nothing. Time: linear in the states and the moves.
fn are_needs(states: &MoveLists, finals: &[bool], needs: &[u64]) -> bool
    requires each { length finals.now ≡ length states.now.0 }
    requires words { length needs.now ≡ length states.now.0 }
    ensures { IsTrue result → (letters start : ℕ) → AreNeeds (record {
      letters = letters;
      start = start;
      finals = finals.now;
      moves = map (all_moves letters) states.now.0;
    }) needs.now }
{
    for q in 0..finals.len() {
        if !keeps(states.get(q), finals[q], needs, needs[q]) {
            return false;
        }
    }
    true
}

/// What is needed behind each of the moves that read nothing.
fn behind_alone(moves: &[AloneMove], needs: &[u64]) -> u64 {
    let mut word = u64::MAX;
    for step in moves {
        word &= word_at(needs, step.to);
    }
    word
}

/// What is needed behind each of the moves that read a letter of a set.
fn behind_sets(moves: &[SetMove], needs: &[u64]) -> u64 {
    let mut word = u64::MAX;
    for step in moves {
        word &= word_at(needs, step.to);
    }
    word
}

/// What is needed behind each of the moves that read one letter, or read by it.
fn behind_letters(moves: &[LetterMove], needs: &[u64]) -> u64 {
    let mut word = u64::MAX;
    for step in moves {
        word &= with_letter(word_at(needs, step.to), step.letter);
    }
    word
}

/// What a state needs, by what those need to which it leads.
fn needed(state: StateMoves<'_>, is_final: bool, needs: &[u64]) -> u64 {
    if is_final {
        return 0;
    }
    behind_alone(state.alone, needs)
        & behind_sets(state.by_set, needs)
        & behind_letters(state.by_letter, needs)
}

/// Narrows down what each state needs, from the last one to the first.
fn narrow(states: &MoveLists, finals: &[bool], needs: &mut [u64])
    requires each { length finals.now ≡ length states.now.0 }
    requires words { length needs.old ≡ length states.now.0 }
    ensures { length needs.new ≡ length states.now.0 }
{
    let mut q = finals.len();
    while q > 0 {
        q -= 1;
        needs[q] = needed(states.get(q), finals[q], needs);
    }
}

/// Whether nothing is needed.
fn is_nothing(needs: &[u64]) -> bool {
    needs.iter().all(|need| *need == 0)
}

/// For each state a word of the letters below 64 that it is found to need; no word at all where none
/// needs a letter, where there are more than `MOST_STATES` states, or where it takes more than
/// `ROUNDS` rounds. Time: linear in the states and the moves, for each round.
pub(crate) fn needs_of(
    alloc: Global,
    states: &MoveLists,
    finals: &[bool],
) -> Result<Vec<u64>, AllocError>
    requires { length finals.now ≡ length states.now.0 }
    ensures { IfOk result (λ needs. (letters start : ℕ) → AreNeeds (record {
      letters = letters;
      start = start;
      finals = finals.now;
      moves = map (all_moves letters) states.now.0;
    }) needs.items) }
{
    if finals.len() > MOST_STATES {
        return Ok(Vec::new(alloc));
    }
    let mut needs = vec![in alloc; u64::MAX; finals.len()]?;
    for _ in 0..ROUNDS {
        narrow(states, finals, &mut needs);
        if is_nothing(&needs) {
            return Ok(Vec::new(alloc));
        }
        if are_needs(states, finals, &needs) {
            return Ok(needs);
        }
    }
    Ok(Vec::new(alloc))
}
