//! The edges of all states, one list behind the other.
ghost use Rattle.std.specs.Prelude.{◌≡◌, ◌+◌, ◌<◌, [], ◌∷◌, ◌++◌, IfOk, OnOk, length, map, slice_index_or};
ghost use Rattle.rela_nfa.specs.Stored.{move_of, moves_in};

use crate::edge::Edge;
use rela_labels::LabelSet;
use std::alloc::{AllocError, Global};
use std::marker::Model;

/// The edges that leave each state. They stand one behind the other in one vector, and another says
/// where those of each state begin: they end where the next state's begin. Contracts see them as
/// the list of the edges of each state.
#[derive(Drop)]
pub struct EdgeLists<L: LabelSet> {
    /// The edges of all states, those of one state behind those of the one before it.
    pub(crate) edges: Vec<Edge<L>>,
    /// For each state the place where its edges begin. Where it has none, it is that of the next
    /// state.
    pub(crate) starts: Vec<usize>,
}

impl<L: LabelSet> Model for EdgeLists<L> {
    ghost use Rattle.std.specs.Prelude.{List, length, map};
    ghost use Rattle.rela_pairs.specs.Parting.{parts, Rises};
    ghost use Rattle.rela_nfa.specs.Automaton.{Move};
    ghost use Rattle.rela_nfa.specs.Stored.{move_of};

    ghost Value = { List (List Move) };

    ghost view = { λ lists. parts (map (move_of L.letters) lists.edges.items) lists.starts.items };

    ghost invariant = { λ lists. Rises (length lists.edges.items) lists.starts.items };
}

impl<L: LabelSet> EdgeLists<L> {
    /// No state.
    pub fn new(alloc: Global) -> EdgeLists<L>
        ensures { result ≡ [] }
    {
        EdgeLists {
            edges: Vec::new(alloc),
            starts: Vec::new(alloc),
        }
    }

    /// No state, with room for so many states, and for so many edges in all of them. More can be pushed:
    /// then the room grows.
    pub fn with_capacity(
        alloc: Global,
        states: usize,
        edges: usize,
    ) -> Result<EdgeLists<L>, AllocError>
        ensures { IfOk result (λ lists. lists ≡ []) }
    {
        let starts = Vec::with_capacity(alloc, states)?;
        let edges = Vec::with_capacity(alloc, edges)?;
        Ok(EdgeLists { edges, starts })
    }

    /// The lists of edges, one behind the other. The edges are moved. Time and space: linear in the
    /// lists and the edges.
    pub(crate) fn from_lists(
        alloc: Global,
        lists: Vec<Vec<Edge<L>>>,
    ) -> Result<EdgeLists<L>, AllocError>
        ensures { IfOk result (λ flat. flat ≡ moves_in L.letters lists.items) }
    {
        let mut flat = EdgeLists::new(alloc);
        flat.reserve(lists.len(), count_of(&lists))?;
        for mut edges in lists {
            flat.push(&mut edges)?;
        }
        Ok(flat)
    }

    /// Makes room for so many states and edges more.
    pub(crate) fn reserve(&mut self, states: usize, edges: usize) -> Result<(), AllocError>
        ensures { self.new ≡ self.old }
    {
        self.starts.reserve_exact(states)?;
        self.edges.reserve_exact(edges)?;
        Ok(())
    }

    /// How many edges all states have, to reserve memory by.
    pub(crate) fn edges(&self) -> usize {
        self.edges.len()
    }

    /// How many states there are.
    pub fn len(&self) -> usize
        ensures { result ≡ length self.now }
    {
        self.starts.len()
    }

    /// The edges that leave the state.
    pub fn list(&self, q: usize) -> &[Edge<L>]
        requires { q < length self.now }
        ensures { map (move_of L.letters) result.now ≡ slice_index_or self.now q [] }
    {
        let from = self.starts[q];
        let to = end_of(&self.starts, q, self.edges.len());
        &self.edges[from..to]
    }

    /// Adds a state, which these edges leave, and takes them out of the vector. Time: linear in
    /// them.
    pub fn push(&mut self, edges: &mut Vec<Edge<L>>) -> Result<(), AllocError>
        ensures list { OnOk result (self.new ≡ self.old
            ++ map (move_of L.letters) edges.old.items ∷ []) }
        ensures taken { OnOk result (edges.new.items ≡ []) }
    {
        self.starts.push(self.edges.len())?;
        self.edges.append(edges)?;
        Ok(())
    }
}

/// How many edges the lists have.
fn count_of<L: LabelSet>(lists: &[Vec<Edge<L>>]) -> usize {
    let mut count: usize = 0;
    for edges in lists {
        count = count.saturating_add(edges.len());
    }
    count
}

/// Where the edges of the state end: where those of the next begin, and those of the last at `all`.
fn end_of(starts: &[usize], q: usize, all: usize) -> usize
    requires { q < length starts.now }
    ensures { result ≡ slice_index_or starts.now (q + 1) all }
{
    match starts.get(q + 1) {
        Some(next) => *next,
        None => all,
    }
}
