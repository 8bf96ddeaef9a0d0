//! Silent branches, and the states that stand for them.
ghost use Rattle.std.specs.Prelude.{◌≡◌, ℕ, ◌<◌, ◌↔◌, ◌⊎◌, [], ◌∷◌, IfNone, IfOk, IfSome, OnOk, IsTrue, Contains, length, map};
ghost use Rattle.std.specs.List.{All, flat_map};
ghost use Rattle.std.specs.Option.{ForSome};
ghost use Rattle.rela_trans.specs.Machine.{machine_states};
ghost use Rattle.rela_trans.specs.Stored.{move_of};
ghost use Rattle.rela_letter_image.specs.Branches.{AreEnds, IsBranch, IsSilent, ends_at, ends_of};

use rela_labels::LabelSet;
use rela_trans::{Move, MoveKind, Transducer};
use std::alloc::{AllocError, Global};

/// The most states that stand for a silent branch: a move is copied no more often. A branch with
/// more ends stands for itself.
const MOST_ENDS: usize = 8;

/// Whether the move reads nothing and writes nothing.
fn is_silent<M: LabelSet>(step: &Move<M>) -> bool
    ensures { IsTrue result ↔ IsSilent (move_of M.letters step.now) }
{
    match &step.kind {
        MoveKind::Silent => true,
        MoveKind::In(_) | MoveKind::Out(_) | MoveKind::Same(_) => false,
    }
}

/// Whether each of the moves is silent.
fn are_silent<M: LabelSet>(moves: &[Move<M>]) -> bool
    ensures { IsTrue result ↔ All IsSilent (map (move_of M.letters) moves.now) }
{
    for step in moves {
        if !is_silent(step) {
            return false;
        }
    }
    true
}

/// Whether the state is a silent branch.
fn is_branch<M: LabelSet>(relation: &Transducer<M>, q: usize) -> bool
    requires { q < machine_states relation.now }
    ensures { IsTrue result ↔ IsBranch relation.now q }
{
    !relation.is_final(q) && are_silent(relation.moves(q))
}

/// Puts the state behind the others, unless it is among them.
fn add_new(ends: &mut Vec<usize>, state: usize) -> Result<(), AllocError>
    ensures { OnOk result ((e : ℕ) → Contains ends.new.items e
        ↔ (Contains ends.old.items e ⊎ (state ≡ e))) }
{
    if !ends.contains(&state) {
        ends.push(state)?;
    }
    Ok(())
}

/// Puts those of the states behind the others that aren't among them.
fn add_all(ends: &mut Vec<usize>, states: &[usize]) -> Result<(), AllocError>
    ensures { OnOk result ((e : ℕ) → Contains ends.new.items e
        ↔ (Contains ends.old.items e ⊎ Contains states.now e)) }
{
    for state in states {
        add_new(ends, *state)?;
    }
    Ok(())
}

/// The states that are kept for this one, and `None` where it stands for itself.
pub(crate) fn kept_for(kept: &[Option<Vec<usize>>], state: usize) -> Option<&[usize]>
    ensures kept { IfSome result (λ ends. ends_of kept.now state ≡ ends.now) }
    ensures alone { IfNone result (ends_of kept.now state ≡ state ∷ []) }
{
    match kept.get(state) {
        Some(Some(ends)) => Some(ends.as_slice()),
        _ => None,
    }
}

/// Puts those that stand for the state behind the others, unless they are among them.
fn add_ends(
    ends: &mut Vec<usize>,
    kept: &[Option<Vec<usize>>],
    state: usize,
) -> Result<(), AllocError>
    ensures { OnOk result ((e : ℕ) → Contains ends.new.items e
        ↔ (Contains ends.old.items e ⊎ Contains (ends_of kept.now state) e)) }
{
    match kept_for(kept, state) {
        Some(states) => add_all(ends, states),
        None => add_new(ends, state),
    }
}

/// All states that stand for those to which the moves lead, each once. `None` where there are more
/// than `MOST_ENDS`. Time: linear in the moves.
fn joined_ends<M: LabelSet>(
    alloc: Global,
    moves: &[Move<M>],
    kept: &[Option<Vec<usize>>],
) -> Result<Option<Vec<usize>>, AllocError>
    ensures { IfOk result (λ found. ForSome found (λ joined. (e : ℕ) → Contains joined.items e ↔
        Contains (flat_map (ends_at (ends_of kept.now)) (map (move_of M.letters) moves.now)) e)) }
{
    let mut joined = Vec::new(alloc);
    for step in moves {
        add_ends(&mut joined, kept, step.to)?;
        if joined.len() > MOST_ENDS {
            return Ok(None);
        }
    }
    Ok(Some(joined))
}

/// If the state is a silent branch, those stand for it that stand for the states to which it leads,
/// unless they are too many.
fn pass_over<M: LabelSet>(
    alloc: Global,
    relation: &Transducer<M>,
    kept: &mut [Option<Vec<usize>>],
    q: usize,
) -> Result<(), AllocError>
    requires state { q < machine_states relation.now }
    requires each { length kept.old ≡ machine_states relation.now }
    requires ends { AreEnds relation.now (ends_of kept.old) }
    ensures each { length kept.new ≡ machine_states relation.now }
    ensures ends { OnOk result (AreEnds relation.now (ends_of kept.new)) }
{
    if !is_branch(relation, q) {
        return Ok(());
    }
    if let Some(joined) = joined_ends(alloc, relation.moves(q), kept)? {
        kept[q] = Some(joined);
    }
    Ok(())
}

/// Passes over each silent branch, from the last state to the first.
fn pass_over_each<M: LabelSet>(
    alloc: Global,
    relation: &Transducer<M>,
    kept: &mut [Option<Vec<usize>>],
) -> Result<(), AllocError>
    requires each { length kept.old ≡ machine_states relation.now }
    requires ends { AreEnds relation.now (ends_of kept.old) }
    ensures each { length kept.new ≡ machine_states relation.now }
    ensures ends { OnOk result (AreEnds relation.now (ends_of kept.new)) }
{
    let mut q = relation.states();
    while q > 0 {
        q -= 1;
        pass_over(alloc, relation, kept, q)?;
    }
    Ok(())
}

/// For so many states that each stands for itself.
fn each_alone(alloc: Global, count: usize) -> Result<Vec<Option<Vec<usize>>>, AllocError>
    ensures each { IfOk result (λ kept. length kept.items ≡ count) }
    ensures alone { IfOk result (λ kept. (q : ℕ) → ends_of kept.items q ≡ q ∷ []) }
{
    let mut kept = Vec::with_capacity(alloc, count)?;
    while kept.len() < count {
        kept.push(None)?;
    }
    Ok(kept)
}

/// Whether some state is a silent branch. Time: linear in the states and the moves.
fn has_branch<M: LabelSet>(relation: &Transducer<M>) -> bool
    ensures { IsTrue result ↔ ((q : ℕ) × (q < machine_states relation.now)
        × IsBranch relation.now q) }
{
    for q in 0..relation.states() {
        if is_branch(relation, q) {
            return true;
        }
    }
    false
}

/// For each state those that stand for it, by [`kept_for`]: for a silent branch states to which it
/// leads, and for others the state itself. A branch mostly leads to later states, whose ends are
/// known when it is passed over; a loop leads back to an earlier one, so that it takes another
/// round. What remains of longer ways stands for itself. Time and space: linear in the states and
/// the moves; where there is no branch, the states are looked at once, and no memory is taken.
pub(crate) fn branch_ends<M: LabelSet>(
    alloc: Global,
    relation: &Transducer<M>,
) -> Result<Vec<Option<Vec<usize>>>, AllocError>
    ensures { IfOk result (λ kept. AreEnds relation.now (ends_of kept.items)) }
{
    if !has_branch(relation) {
        return Ok(Vec::new(alloc));
    }
    let mut kept = each_alone(alloc, relation.states())?;
    pass_over_each(alloc, relation, &mut kept)?;
    pass_over_each(alloc, relation, &mut kept)?;
    Ok(kept)
}
