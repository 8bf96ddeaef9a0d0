//! The moves of transducers.
ghost use Rattle.std.specs.Prelude.{◌≡◌, IfOk};
ghost use Rattle.rela_trans.specs.Construction.{turned, turned_move};
ghost use Rattle.rela_trans.specs.Stored.{kind_of, move_of};

use rela_labels::LabelSet;
use std::alloc::{AllocError, Global};

/// What a move reads and writes.
#[derive(Debug, Drop)]
pub enum MoveKind<L> {
    /// It reads and writes nothing.
    Silent,
    /// It reads a letter of the set, and writes nothing.
    In(L),
    /// It reads nothing, and writes a letter of the set.
    Out(L),
    /// It reads a letter of the set, and writes the same letter.
    Same(L),
}

/// A move out of a state to another.
#[derive(Debug, Drop)]
pub struct Move<L> {
    /// What it reads and writes.
    pub kind: MoveKind<L>,
    /// The number of the state to which it leads.
    pub to: usize,
}

impl<L: LabelSet> MoveKind<L> {
    /// The kind that writes what this one reads, and reads what it writes.
    fn turned(&self, alloc: Global) -> Result<MoveKind<L>, AllocError>
        ensures { IfOk result (λ kind. kind_of L.letters kind
            ≡ turned (kind_of L.letters self.now)) }
    {
        match self {
            MoveKind::Silent => Ok(MoveKind::Silent),
            MoveKind::In(set) => Ok(MoveKind::Out(set.copy(alloc)?)),
            MoveKind::Out(set) => Ok(MoveKind::In(set.copy(alloc)?)),
            MoveKind::Same(set) => Ok(MoveKind::Same(set.copy(alloc)?)),
        }
    }
}

impl<L: LabelSet> Move<L> {
    /// The move that writes what this one reads, and reads what it writes.
    pub(crate) fn turned(&self, alloc: Global) -> Result<Move<L>, AllocError>
        ensures { IfOk result (λ edge. move_of L.letters edge
            ≡ turned_move (move_of L.letters self.now)) }
    {
        Ok(Move {
            kind: self.kind.turned(alloc)?,
            to: self.to,
        })
    }
}
