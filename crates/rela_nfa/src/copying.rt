//! Copies of automata within larger ones.
ghost use Rattle.std.specs.Prelude.{◌≡◌, ℕ, ◌+◌, ◌<◌, ◌≤◌, ◌^◌, [], ◌∷◌, ◌++◌, IfOk, OnOk, map};
ghost use Rattle.std.specs.List.{All};
ghost use Rattle.rela_nfa.specs.Automaton.{states};
ghost use Rattle.rela_nfa.specs.Construction.{shifted, silent, single, leaving, copied};
ghost use Rattle.rela_nfa.specs.Stored.{move_of};

use crate::edge::Edge;
use crate::edge_lists::EdgeLists;
use crate::nfa::Nfa;
use rela_labels::LabelSet;
use std::alloc::{AllocError, Global};

/// Adds copies of the edges of another state, each of which leads to a state `by` later.
fn add_shifted<L: LabelSet>(
    alloc: Global,
    edges: &mut Vec<Edge<L>>,
    others: &[Edge<L>],
    by: usize,
) -> Result<(), AllocError>
    requires { All (λ edge. by + edge.to < 2 ^ 64) others.now }
    ensures { OnOk result (map (move_of L.letters) edges.new.items
        ≡ map (move_of L.letters) edges.old.items
        ++ map (shifted by) (map (move_of L.letters) others.now)) }
{
    for edge in others {
        edges.push(edge.shifted(alloc, by)?)?;
    }
    Ok(())
}

/// A silent edge to each of these states.
fn silent_edges<L: LabelSet>(alloc: Global, ends: &[usize]) -> Result<Vec<Edge<L>>, AllocError>
    ensures { IfOk result (λ edges. map (move_of L.letters) edges.items ≡ map silent ends.now) }
{
    let mut edges = Vec::with_capacity(alloc, ends.len())?;
    for to in ends {
        edges.push(Edge {
            label: None,
            to: *to,
        })?;
    }
    Ok(edges)
}

/// The lists of edges of a first state alone: a silent edge to each of these states.
pub(crate) fn entry_edges<L: LabelSet>(
    alloc: Global,
    ends: &[usize],
) -> Result<EdgeLists<L>, AllocError>
    ensures { IfOk result (λ edges. edges ≡ map silent ends.now ∷ []) }
{
    let mut leaving = silent_edges(alloc, ends)?;
    let mut edges = EdgeLists::new(alloc);
    edges.push(&mut leaving)?;
    Ok(edges)
}

/// The set, of this size, of one letter.
pub(crate) fn one_letter<L: LabelSet>(
    alloc: Global,
    size: u32,
    letter: u32,
) -> Result<L, AllocError>
    requires fits { L.fits size }
    requires below { letter < size }
    ensures { IfOk result (λ set. L.letters set ≡ single size letter) }
{
    let mut set = L::none(alloc, size)?;
    set.add(alloc, letter)?;
    Ok(set)
}

impl<L: LabelSet> Nfa<L> {
    /// Adds the edges that leave a state, their ends `by` later, and where it is final a silent edge
    /// to the exit.
    fn add_leaving(
        &self,
        alloc: Global,
        edges: &mut Vec<Edge<L>>,
        q: usize,
        by: usize,
        exit: Option<usize>,
    ) -> Result<(), AllocError>
        requires state { q < states self.now }
        requires room { by + states self.now ≤ 2 ^ 64 }
        ensures { OnOk result (map (move_of L.letters) edges.new.items
            ≡ map (move_of L.letters) edges.old.items ++ leaving self.now by exit q) }
    {
        add_shifted(alloc, edges, self.edges(q), by)?;
        if self.is_final(q) {
            if let Some(to) = exit {
                edges.push(Edge { label: None, to })?;
            }
        }
        Ok(())
    }

    /// How many silent edges to the exit there will be: one for each final state.
    fn exits(&self, exit: Option<usize>) -> usize {
        if exit.is_none() {
            return 0;
        }
        self.finals.iter().filter(|is_final| **is_final).count()
    }

    /// Adds the edges of each state, their ends `by` later, and for each that is final a silent edge
    /// to the exit. Room is made once for all of them.
    pub(crate) fn copy_onto(
        &self,
        alloc: Global,
        edges: &mut EdgeLists<L>,
        by: usize,
        exit: Option<usize>,
    ) -> Result<(), AllocError>
        requires { by + states self.now ≤ 2 ^ 64 }
        ensures { OnOk result (edges.new ≡ edges.old ++ copied self.now by exit) }
    {
        let exits = self.exits(exit);
        edges.reserve(self.states(), self.edges.edges.len().saturating_add(exits))?;
        let mut leaving = Vec::new(alloc);
        for q in 0..self.states() {
            self.add_leaving(alloc, &mut leaving, q, by, exit)?;
            edges.push(&mut leaving)?;
        }
        Ok(())
    }
}
