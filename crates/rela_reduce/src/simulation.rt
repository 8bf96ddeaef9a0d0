//! Which states simulate which others.
ghost use Rattle.std.specs.Prelude.{◌≡◌, ℕ, ◌*◌, ◌/◌, ◌<◌, [], false, IsTrue, IfOk, length, slice_index_or};
ghost use Rattle.rela_reduce.specs.Bits.{HasBit};
ghost use Rattle.rela_reduce.specs.Numbered.{IsPlain};
ghost use Rattle.rela_reduce.specs.Simulation.{GoesAlong, GoesByRows, IsInRow};
ghost use Rattle.rela_reduce.specs.Stored.{lists_of, plain};

use crate::answers::answer_all;
use crate::arrow::{Arrow, Step};
use crate::bits::{WORD, clear_bit, has_bit, is_one, rows, word_at};
use crate::closed::Closed;
use crate::flags::flag;
use crate::looks::Looks;
use crate::numbered::Numbered;
use std::alloc::{AllocError, Global};

/// How often the rows that may have to lose bits are looked at before no state is said to simulate
/// another. Where states are numbered from the start on, few rounds are needed, since the last come
/// first. A part with complements in it may need dozens, which cost far less than the sets that it
/// would reach.
const ROUNDS: usize = 256;

/// For each state a bit for each state, whether it simulates that one: it can go along with each
/// arrow of it to a state that simulates the arrow's end, by a label with all its letters, where
/// silent arrows may lead on first; and it comes so to a final state where that one is final (R.
/// Milner, "An algebraic definition of simulation between programs", 1971). This is the greatest
/// such relation, found from above: at first each state is said to simulate each, and then bits
/// are cleared until none is wrong. A row is looked at again only where it lost bits, or that of a
/// step's end did, and at last each is looked at once more. Where that takes more than [`ROUNDS`]
/// rounds, there are no rows. Time: for each look at a row, a step for each label, step and word of
/// a row, and for each arrow of the states that are left in it; space: a bit for each pair of
/// states, and for each label and state.
pub(crate) fn simulation(
    alloc: Global,
    whole: &Numbered,
    closed: &Closed,
    within: &[Vec<bool>],
) -> Result<Vec<Vec<u64>>, AllocError>
    requires { IsPlain (plain whole.now) }
    ensures { IfOk result (λ rows. (p q : ℕ) → p < length whole.now.finals.items →
        q < length whole.now.finals.items → HasBit (lists_of rows.items) p q
        → GoesAlong (plain whole.now) (lists_of closed.now.steps.items) closed.now.finals.items
        (lists_of within.now) (lists_of rows.items) p q) }
{
    let states = whole.finals.len();
    let mut relation = rows(alloc, states, states, u64::MAX)?;
    let mut answers = rows(alloc, within.len(), states, 0)?;
    let mut looks = Looks::new(alloc, states)?;
    for _round in 0..ROUNDS {
        if settle(
            whole,
            closed,
            within,
            &mut relation,
            &mut answers,
            &mut looks,
        ) {
            return Ok(relation);
        }
    }
    Ok(Vec::new(alloc))
}

/// Looks at the rows that may have to lose bits, and where none of them does, at all rows. Whether
/// no bit was wrong.
fn settle(
    whole: &Numbered,
    closed: &Closed,
    within: &[Vec<bool>],
    relation: &mut [Vec<u64>],
    answers: &mut [Vec<u64>],
    looks: &mut Looks,
) -> bool
    requires { IsPlain (plain whole.now) }
    ensures { IsTrue result → (p q : ℕ) → p < length whole.now.finals.items →
        q < length whole.now.finals.items → HasBit (lists_of relation.new) p q
        → GoesAlong (plain whole.now) (lists_of closed.now.steps.items) closed.now.finals.items
        (lists_of within.now) (lists_of relation.new) p q }
{
    !prune_due(whole, closed, within, relation, answers, looks)
        && !prune(whole, closed, within, relation, answers)
}

/// Clears, in the rows that may have to lose bits, those of states with which a state can't go
/// along, the last states first. Whether a bit was cleared.
fn prune_due(
    whole: &Numbered,
    closed: &Closed,
    within: &[Vec<bool>],
    relation: &mut [Vec<u64>],
    answers: &mut [Vec<u64>],
    looks: &mut Looks,
) -> bool
    requires { IsPlain (plain whole.now) }
{
    let mut cleared = false;
    for later in 0..whole.finals.len() {
        let p = whole.finals.len() - 1 - later;
        if looks.is_due(steps_at(closed, p), p) {
            let shrinks = prune_row(whole, closed, within, relation, answers, p);
            looks.count(p, shrinks);
            cleared = cleared || shrinks;
        }
    }
    cleared
}

/// Clears the bits of states with which a state can't go along, the last states first. Whether a
/// bit was cleared.
fn prune(
    whole: &Numbered,
    closed: &Closed,
    within: &[Vec<bool>],
    relation: &mut [Vec<u64>],
    answers: &mut [Vec<u64>],
) -> bool
    requires { IsPlain (plain whole.now) }
    ensures same { result ≡ false → relation.new ≡ relation.old }
    ensures along { result ≡ false → (p q : ℕ) → p < length whole.now.finals.items →
        q < length whole.now.finals.items → HasBit (lists_of relation.old) p q
        → GoesAlong (plain whole.now) (lists_of closed.now.steps.items) closed.now.finals.items
        (lists_of within.now) (lists_of relation.old) p q }
{
    let mut cleared = false;
    for later in 0..whole.finals.len() {
        let p = whole.finals.len() - 1 - later;
        if prune_row(whole, closed, within, relation, answers, p) {
            cleared = true;
        }
    }
    cleared
}

/// Clears, in the row of `p`, the bits of states with which `p` can't go along, by answers that are
/// written anew. Whether a bit was cleared.
fn prune_row(
    whole: &Numbered,
    closed: &Closed,
    within: &[Vec<bool>],
    relation: &mut [Vec<u64>],
    answers: &mut [Vec<u64>],
    p: usize,
) -> bool
    requires { IsPlain (plain whole.now) }
    ensures same { result ≡ false → relation.new ≡ relation.old }
    ensures along { result ≡ false → (q : ℕ) → q < length whole.now.finals.items →
        HasBit (lists_of relation.old) p q
        → GoesAlong (plain whole.now) (lists_of closed.now.steps.items) closed.now.finals.items
        (lists_of within.now) (lists_of relation.old) p q }
{
    answer_all(steps_at(closed, p), within, relation, answers);
    let mut cleared = false;
    for place in 0..whole.finals.len().div_ceil(WORD) {
        if word_at(relation, p, place) != 0
            && prune_word(whole, closed, relation, answers, p, place)
        {
            cleared = true;
        }
    }
    cleared
}

/// Clears, in the word at this place of the row of `p`, the bits of states with which `p` can't go
/// along by the answers. Whether a bit was cleared.
fn prune_word(
    whole: &Numbered,
    closed: &Closed,
    relation: &mut [Vec<u64>],
    answers: &[Vec<u64>],
    p: usize,
    place: usize,
) -> bool
    requires plain { IsPlain (plain whole.now) }
    requires place { 64 * place < length whole.now.finals.items }
    ensures same { result ≡ false → relation.new ≡ relation.old }
    ensures along { result ≡ false → (q : ℕ) → q < length whole.now.finals.items → q / 64 ≡ place
        → HasBit (lists_of relation.old) p q → GoesByRows (plain whole.now)
        closed.now.finals.items (lists_of relation.old) (lists_of answers.now) p q }
{
    let word = word_at(relation, p, place);
    let first = place * WORD;
    let mut cleared = false;
    for q in first..whole.finals.len().min(first + WORD) {
        if is_one(word, q - first) && !goes_along(whole, closed, relation, answers, p, q) {
            clear_bit(relation, p, q);
            cleared = true;
        }
    }
    cleared
}

/// Whether `p` can go along with `q` by the answers, where the bits of the relation are right.
fn goes_along(
    whole: &Numbered,
    closed: &Closed,
    relation: &[Vec<u64>],
    answers: &[Vec<u64>],
    p: usize,
    q: usize,
) -> bool
    requires plain { IsPlain (plain whole.now) }
    requires state { q < length whole.now.finals.items }
    ensures { IsTrue result → GoesByRows (plain whole.now) closed.now.finals.items
        (lists_of relation.now) (lists_of answers.now) p q }
{
    if whole.finals[q] && !flag(&closed.finals, p) {
        return false;
    }
    for arrow in &whole.arrows[q] {
        if !is_answered(relation, answers, p, *arrow) {
            return false;
        }
    }
    true
}

/// The steps of the state, and none past the last one.
fn steps_at(closed: &Closed, p: usize) -> &[Step]
    ensures { result.now ≡ slice_index_or (lists_of closed.now.steps.items) p [] }
{
    match closed.steps.get(p) {
        Some(steps) => steps,
        None => &[],
    }
}

/// Whether `p` can go along with the arrow by the answers.
fn is_answered(relation: &[Vec<u64>], answers: &[Vec<u64>], p: usize, arrow: Arrow) -> bool
    ensures { IsTrue result → IsInRow (lists_of relation.now) (lists_of answers.now) p arrow }
{
    match arrow.label {
        Some(k) => has_bit(answers, k, arrow.to),
        None => has_bit(relation, p, arrow.to),
    }
}
