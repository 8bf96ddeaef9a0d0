//! The moves that two transducers make together, of which the second reads what the first writes.
ghost use Rattle.std.specs.Prelude.{◌≡◌, ℕ, ◌<◌, ◌++◌, IfOk, OnOk, map, length};
ghost use Rattle.std.specs.List.{All};
ghost use Rattle.std.specs.Option.{option_map};
ghost use Rattle.rela_nfa.specs.Meeting.{common};
ghost use Rattle.rela_trans.specs.Composition.{unless_empty, first_alone, second_alone, after_out, after_same, both_by_letter, joint_of, made, first_moves, second_moves, moves_with};
ghost use Rattle.rela_trans.specs.Machine.{IsSized};
ghost use Rattle.rela_trans.specs.Stored.{kind_of, move_of};

use crate::moves::{Move, MoveKind};
use rela_labels::LabelSet;
use rela_pairs::Pair;
use std::alloc::{AllocError, Global};

/// A move of two transducers, of which the second reads what the first writes.
#[derive(Drop)]
pub(crate) struct JointMove<L> {
    /// What the first reads, and the second writes.
    pub(crate) kind: MoveKind<L>,
    /// The pair of states to which it leads.
    pub(crate) to: Pair,
}

/// The set, and `None` where it is empty.
fn unless_empty<L: LabelSet>(set: L) -> Option<L>
    ensures { option_map L.letters result ≡ unless_empty (L.letters set) }
{
    if set.is_empty() { None } else { Some(set) }
}

/// The letters that are in both sets, and `None` where there are none.
fn common_letters<L: LabelSet>(
    alloc: Global,
    first: &L,
    second: &L,
) -> Result<Option<L>, AllocError>
    requires { length (L.letters first.now) ≡ length (L.letters second.now) }
    ensures { IfOk result (λ set. option_map L.letters set
        ≡ unless_empty (common (L.letters first.now) (L.letters second.now))) }
{
    if first.is_disjoint(second) {
        return Ok(None);
    }
    Ok(Some(first.meet(alloc, second)?))
}

/// What the first transducer does alone by a move of this kind, and `None` where it writes
/// something, which the second would have to read, or where its set is empty.
fn first_alone<L: LabelSet>(
    alloc: Global,
    kind: &MoveKind<L>,
) -> Result<Option<MoveKind<L>>, AllocError>
    ensures { IfOk result (λ alone. option_map (kind_of L.letters) alone
        ≡ first_alone (kind_of L.letters kind.now)) }
{
    match kind {
        MoveKind::Silent => Ok(Some(MoveKind::Silent)),
        MoveKind::In(set) => Ok(unless_empty(set.copy(alloc)?).map(MoveKind::In)),
        MoveKind::Out(_) => Ok(None),
        MoveKind::Same(_) => Ok(None),
    }
}

/// What the second transducer does alone by a move of this kind, and `None` where it reads
/// something, which the first would have to write, or where its set is empty.
pub(crate) fn second_alone<L: LabelSet>(
    alloc: Global,
    kind: &MoveKind<L>,
) -> Result<Option<MoveKind<L>>, AllocError>
    ensures { IfOk result (λ alone. option_map (kind_of L.letters) alone
        ≡ second_alone (kind_of L.letters kind.now)) }
{
    match kind {
        MoveKind::Silent => Ok(Some(MoveKind::Silent)),
        MoveKind::In(_) => Ok(None),
        MoveKind::Out(set) => Ok(unless_empty(set.copy(alloc)?).map(MoveKind::Out)),
        MoveKind::Same(_) => Ok(None),
    }
}

/// What both do where the first reads nothing and writes a letter of `written`, and the second
/// reads it by a move of this kind: `None` where it reads no such letter.
fn after_out<L: LabelSet>(
    alloc: Global,
    written: &L,
    second: &MoveKind<L>,
) -> Result<Option<MoveKind<L>>, AllocError>
    requires { IsSized (length (L.letters written.now)) (kind_of L.letters second.now) }
    ensures { IfOk result (λ both. option_map (kind_of L.letters) both
        ≡ after_out (L.letters written.now) (kind_of L.letters second.now)) }
{
    match second {
        MoveKind::Silent => Ok(None),
        MoveKind::In(set) => Ok(common_letters(alloc, written, set)?.map(|_| MoveKind::Silent)),
        MoveKind::Out(_) => Ok(None),
        MoveKind::Same(set) => Ok(common_letters(alloc, written, set)?.map(MoveKind::Out)),
    }
}

/// What both do where the first reads a letter of `written` and writes it again, and the second
/// reads it by a move of this kind: `None` where it reads no such letter.
pub(crate) fn after_same<L: LabelSet>(
    alloc: Global,
    written: &L,
    second: &MoveKind<L>,
) -> Result<Option<MoveKind<L>>, AllocError>
    requires { IsSized (length (L.letters written.now)) (kind_of L.letters second.now) }
    ensures { IfOk result (λ both. option_map (kind_of L.letters) both
        ≡ after_same (L.letters written.now) (kind_of L.letters second.now)) }
{
    match second {
        MoveKind::Silent => Ok(None),
        MoveKind::In(set) => Ok(common_letters(alloc, written, set)?.map(MoveKind::In)),
        MoveKind::Out(_) => Ok(None),
        MoveKind::Same(set) => Ok(common_letters(alloc, written, set)?.map(MoveKind::Same)),
    }
}

/// What both do by a letter that the first writes and the second reads, and `None` where there is
/// none.
fn both_by_letter<L: LabelSet>(
    alloc: Global,
    first: &MoveKind<L>,
    second: &MoveKind<L>,
) -> Result<Option<MoveKind<L>>, AllocError>
    requires { (letters : ℕ) × IsSized letters (kind_of L.letters first.now)
        × IsSized letters (kind_of L.letters second.now) }
    ensures { IfOk result (λ both. option_map (kind_of L.letters) both
        ≡ both_by_letter (kind_of L.letters first.now) (kind_of L.letters second.now)) }
{
    match first {
        MoveKind::Silent => Ok(None),
        MoveKind::In(_) => Ok(None),
        MoveKind::Out(written) => after_out(alloc, written, second),
        MoveKind::Same(written) => after_same(alloc, written, second),
    }
}

/// Adds a move of this kind to the pair, where there is a kind.
fn add_made<L: LabelSet>(
    joint: &mut Vec<JointMove<L>>,
    kind: Option<MoveKind<L>>,
    to: Pair,
) -> Result<(), AllocError>
    ensures { OnOk result (map (joint_of L.letters) joint.new.items
        ≡ map (joint_of L.letters) joint.old.items
        ++ made (option_map (kind_of L.letters) kind) to) }
{
    if let Some(kind) = kind {
        joint.push(JointMove { kind, to })?;
    }
    Ok(())
}

/// Adds what the first transducer does alone by these moves.
pub(crate) fn add_first<L: LabelSet>(
    alloc: Global,
    joint: &mut Vec<JointMove<L>>,
    moves: &[Move<L>],
    right: usize,
) -> Result<(), AllocError>
    ensures { OnOk result (map (joint_of L.letters) joint.new.items
        ≡ map (joint_of L.letters) joint.old.items
        ++ first_moves right (map (move_of L.letters) moves.now)) }
{
    for first in moves {
        let alone = first_alone(alloc, &first.kind)?;
        let to = Pair {
            left: first.to,
            right,
        };
        add_made(joint, alone, to)?;
    }
    Ok(())
}

/// Adds what the second transducer does alone by these moves.
pub(crate) fn add_second<L: LabelSet>(
    alloc: Global,
    joint: &mut Vec<JointMove<L>>,
    moves: &[Move<L>],
    left: usize,
) -> Result<(), AllocError>
    ensures { OnOk result (map (joint_of L.letters) joint.new.items
        ≡ map (joint_of L.letters) joint.old.items
        ++ second_moves left (map (move_of L.letters) moves.now)) }
{
    for second in moves {
        let alone = second_alone(alloc, &second.kind)?;
        let to = Pair {
            left,
            right: second.to,
        };
        add_made(joint, alone, to)?;
    }
    Ok(())
}

/// Adds what the move of the first does together with each of the others.
pub(crate) fn add_with<L: LabelSet>(
    alloc: Global,
    joint: &mut Vec<JointMove<L>>,
    first: &Move<L>,
    others: &[Move<L>],
) -> Result<(), AllocError>
    requires { (letters : ℕ) × IsSized letters (kind_of L.letters first.now.kind)
        × All (λ second. IsSized letters (kind_of L.letters second.kind)) others.now }
    ensures { OnOk result (map (joint_of L.letters) joint.new.items
        ≡ map (joint_of L.letters) joint.old.items ++ moves_with (move_of L.letters first.now)
        (map (move_of L.letters) others.now)) }
{
    for second in others {
        let both = both_by_letter(alloc, &first.kind, &second.kind)?;
        let to = Pair {
            left: first.to,
            right: second.to,
        };
        add_made(joint, both, to)?;
    }
    Ok(())
}
