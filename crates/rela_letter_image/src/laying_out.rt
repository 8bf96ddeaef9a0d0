//! How the moves of a transducer are laid out by what they read.
ghost use Rattle.std.specs.Prelude.{◌≡◌, ◌≢◌, ℕ, ◌<◌, ◌||◌, IfOk, OnOk, length, map};
ghost use Rattle.std.specs.List.{All, flat_map};
ghost use Rattle.std.specs.Option.{ForSome};
ghost use Rattle.rela_labels.specs.Letters.{has};
ghost use Rattle.rela_trans.specs.Machine.{IsSized};
ghost use Rattle.rela_trans.specs.Stored.{kind_of, move_of};
ghost use Rattle.rela_letter_image.specs.Branches.{AreEnds, ends_of, led_to, passed_on, passing};
ghost use Rattle.rela_letter_image.specs.LetterMoves.{AreLaidOut, Gains, GainsAll, only_letter, reading};

use crate::branches::kept_for;
use crate::letter_moves::{AloneMove, LetterMove, SetMove};
use crate::move_lists::MoveLists;
use rela_labels::{LabelSet, WideSet};
use rela_trans::{Move, MoveKind, Transducer};
use std::alloc::{AllocError, Global};

/// Adds the letter to the set, if it is to be added.
fn add_if(alloc: Global, set: &mut WideSet, is_added: bool, letter: u32) -> Result<(), AllocError>
    requires { letter < length set.old }
    ensures size { OnOk result (length set.new ≡ length set.old) }
    ensures here { OnOk result (has set.new letter ≡ (has set.old letter || is_added)) }
    ensures others { OnOk result ((k : ℕ) → k ≢ letter → has set.new k ≡ has set.old k) }
{
    if is_added {
        set.add(alloc, letter)?;
    }
    Ok(())
}

/// A set of the same letters, of which there are so many. Time: a step for each letter below its
/// size.
fn wide_copy<M: LabelSet>(alloc: Global, letters: u32, set: &M) -> Result<WideSet, AllocError>
    requires { length (M.letters set.now) ≡ letters }
    ensures { IfOk result (λ copy. copy ≡ M.letters set.now) }
{
    let mut copy = WideSet::none(alloc, letters)?;
    for letter in 0..letters {
        add_if(alloc, &mut copy, set.contains(letter), letter)?;
    }
    Ok(copy)
}

/// The letter of the set, if it has one and no other. It takes no memory.
pub(crate) fn letter_alone<M: LabelSet>(set: &M) -> Option<u32>
    ensures below { ForSome result (λ letter. letter < length (M.letters set.now)) }
    ensures alone { ForSome result (λ letter.
        only_letter (length (M.letters set.now)) letter ≡ M.letters set.now) }
{
    set.only()
}

/// Adds to the open state a move that reads a letter of the set, and writes it too if `writes` says
/// so.
fn push_reading<M: LabelSet>(
    alloc: Global,
    lists: &mut MoveLists,
    letters: u32,
    set: &M,
    writes: bool,
    to: usize,
) -> Result<(), AllocError>
    requires { length (M.letters set.now) ≡ letters }
    ensures { OnOk result (Gains letters (record {
      kind = reading (M.letters set.now) writes;
      to = to;
    }) lists.old lists.new) }
{
    match letter_alone(set) {
        Some(letter) => lists.push_by_letter(LetterMove { to, letter, writes }),
        None => {
            let set = wide_copy(alloc, letters, set)?;
            lists.push_by_set(SetMove { set, writes, to })
        }
    }
}

/// Adds to the open state the move, of a transducer with so many letters, as one that leads to this
/// state.
fn push_move<M: LabelSet>(
    alloc: Global,
    lists: &mut MoveLists,
    letters: u32,
    step: &Move<M>,
    to: usize,
) -> Result<(), AllocError>
    requires { IsSized letters (kind_of M.letters step.now.kind) }
    ensures { OnOk result (Gains letters (led_to (move_of M.letters step.now) to)
        lists.old lists.new) }
{
    match &step.kind {
        MoveKind::Silent => lists.push_alone(AloneMove { written: None, to }),
        MoveKind::Out(set) => {
            let written = Some(wide_copy(alloc, letters, set)?);
            lists.push_alone(AloneMove { written, to })
        }
        MoveKind::In(set) => push_reading(alloc, lists, letters, set, false, to),
        MoveKind::Same(set) => push_reading(alloc, lists, letters, set, true, to),
    }
}

/// Adds to the open state the move, as one to each of these states.
fn push_each<M: LabelSet>(
    alloc: Global,
    lists: &mut MoveLists,
    letters: u32,
    step: &Move<M>,
    ends: &[usize],
) -> Result<(), AllocError>
    requires { IsSized letters (kind_of M.letters step.now.kind) }
    ensures { OnOk result (GainsAll letters (map (led_to (move_of M.letters step.now)) ends.now)
        lists.old lists.new) }
{
    for to in ends {
        push_move(alloc, lists, letters, step, *to)?;
    }
    Ok(())
}

/// Adds to the open state the move, as one to each of the states that stand for its end.
fn push_passed<M: LabelSet>(
    alloc: Global,
    lists: &mut MoveLists,
    letters: u32,
    step: &Move<M>,
    kept: &[Option<Vec<usize>>],
) -> Result<(), AllocError>
    requires { IsSized letters (kind_of M.letters step.now.kind) }
    ensures { OnOk result (GainsAll letters (passed_on (ends_of kept.now)
        (move_of M.letters step.now)) lists.old lists.new) }
{
    match kept_for(kept, step.to) {
        Some(ends) => push_each(alloc, lists, letters, step, ends),
        None => push_move(alloc, lists, letters, step, step.to),
    }
}

/// Adds to the open state the moves, each as one to each of the states that stand for its end.
fn push_all<M: LabelSet>(
    alloc: Global,
    lists: &mut MoveLists,
    letters: u32,
    moves: &[Move<M>],
    kept: &[Option<Vec<usize>>],
) -> Result<(), AllocError>
    requires { All (λ step. IsSized letters (kind_of M.letters step.kind)) moves.now }
    ensures { OnOk result (GainsAll letters
        (flat_map (passed_on (ends_of kept.now)) (map (move_of M.letters) moves.now))
        lists.old lists.new) }
{
    for step in moves {
        push_passed(alloc, lists, letters, step, kept)?;
    }
    Ok(())
}

/// The moves of each state, laid out by what they read, each as one to each of the states that stand
/// for its end. Time: linear in the states and in the moves that are made, and a step for each
/// letter for each of these whose set has several.
pub(crate) fn states_of<M: LabelSet>(
    alloc: Global,
    relation: &Transducer<M>,
    kept: &[Option<Vec<usize>>],
) -> Result<MoveLists, AllocError>
    requires { AreEnds relation.now (ends_of kept.now) }
    ensures { IfOk result (λ lists. AreLaidOut (passing (ends_of kept.now) relation.now) lists.0) }
{
    let letters = relation.letters();
    let mut lists = MoveLists::with_capacity(alloc, relation.states())?;
    for q in 0..relation.states() {
        push_all(alloc, &mut lists, letters, relation.moves(q), kept)?;
        lists = lists.end_state()?;
    }
    Ok(lists)
}

/// For each state whether it is final.
pub(crate) fn finals_of<M: LabelSet>(
    alloc: Global,
    relation: &Transducer<M>,
) -> Result<Vec<bool>, AllocError>
    ensures { IfOk result (λ finals. finals.items ≡ relation.now.finals) }
{
    let mut finals = Vec::with_capacity(alloc, relation.states())?;
    for q in 0..relation.states() {
        finals.push(relation.is_final(q))?;
    }
    Ok(finals)
}
