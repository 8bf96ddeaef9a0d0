//! Edges of automata.
ghost use Rattle.std.specs.Prelude.{◌≡◌, ◌+◌, ◌<◌, ◌^◌, IfOk};
ghost use Rattle.rela_nfa.specs.Construction.{shifted};
ghost use Rattle.rela_nfa.specs.Stored.{move_of};

use rela_labels::LabelSet;
use std::alloc::{AllocError, Global};

/// An edge out of a state to another, which may be taken by any one letter of its label, or
/// silently where it has none.
#[derive(Debug, Drop)]
pub struct Edge<L> {
    /// The letters by which the edge may be taken, and `None` where it is silent.
    pub label: Option<L>,
    /// The number of the state to which it leads.
    pub to: usize,
}

impl<L: LabelSet> Edge<L> {
    /// A copy of the edge that leads to a state `by` later.
    pub(crate) fn shifted(&self, alloc: Global, by: usize) -> Result<Edge<L>, AllocError>
        requires { by + self.now.to < 2 ^ 64 }
        ensures { IfOk result (λ edge. move_of L.letters edge
            ≡ shifted by (move_of L.letters self.now)) }
    {
        let to = by + self.to;
        match &self.label {
            Some(set) => Ok(Edge {
                label: Some(set.copy(alloc)?),
                to,
            }),
            None => Ok(Edge { label: None, to }),
        }
    }
}
