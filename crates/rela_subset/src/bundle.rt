//! Edges of which one leads to each end.
ghost use Rattle.std.specs.Prelude.{◌≡◌, ℕ, ◌<◌, ◌||◌, List, [], IfOk, IfSome, length, map, slice_index_or};
ghost use Rattle.std.specs.List.{All};
ghost use Rattle.std.specs.Option.{ForSome};
ghost use Rattle.rela_labels.specs.Letters.{has};
ghost use Rattle.rela_nfa.specs.Stored.{move_of};
ghost use Rattle.rela_subset.specs.Deterministic.{takes};
ghost use Rattle.rela_subset.specs.Expansion.{IsPutIn};

use crate::places::note;
use rela_labels::LabelSet;
use rela_nfa::Edge;
use std::alloc::{AllocError, Global};
use std::marker::Model;

/// Edges out of one state, of which one leads to each end. The edges of one state after the other
/// are put here, and the memory is kept. Contracts see them as the list of the edges.
#[derive(Drop)]
pub struct Bundle<L: LabelSet> {
    /// The edges, in the order in which their ends came.
    edges: Vec<Edge<L>>,
    /// For each end the place that its edge had last: if an edge leads there now, it is at this
    /// place, and else none is at this place or one that leads elsewhere.
    places: Vec<usize>,
}

impl<L: LabelSet> Model for Bundle<L> {
    ghost use Rattle.std.specs.Prelude.{List, map};
    ghost use Rattle.rela_nfa.specs.Automaton.{Move};
    ghost use Rattle.rela_nfa.specs.Stored.{move_of};

    ghost Value = { List Move };

    ghost view = { λ bundle. map (move_of L.letters) bundle.edges.items };
}

impl<L: LabelSet> Bundle<L> {
    /// No edges.
    pub fn new(alloc: Global) -> Bundle<L>
        ensures { result ≡ [] }
    {
        Bundle {
            edges: Vec::new(alloc),
            places: Vec::new(alloc),
        }
    }

    /// Puts an edge with this label to this end among the others: where one leads there, its label
    /// is joined to that one's. Time: a set operation, and a step for each end below this one where
    /// there was none so high before.
    pub fn put(&mut self, alloc: Global, label: L, to: usize) -> Result<(), AllocError>
        requires { All (λ move. ForSome move.label (λ set. length set
            ≡ length (L.letters label))) self.old }
        ensures { IfOk result (λ _. IsPutIn (L.letters label) to self.old self.new) }
    {
        if let Some(place) = place_to(&self.places, &self.edges, to) {
            let label = joined(alloc, &self.edges[place], label)?;
            self.edges[place] = Edge {
                label: Some(label),
                to,
            };
            return Ok(());
        }
        note(&mut self.places, to, self.edges.len())?;
        self.edges.push(Edge {
            label: Some(label),
            to,
        })?;
        Ok(())
    }

    /// Takes all edges out, into a vector without room for more: an automaton keeps one for each of
    /// its states.
    pub fn take_edges(&mut self, alloc: Global) -> Result<Vec<Edge<L>>, AllocError>
        ensures taken { IfOk result (λ edges. map (move_of L.letters) edges.items ≡ self.old) }
        ensures none { IfOk result (λ _. self.new ≡ []) }
    {
        let mut edges = Vec::with_capacity(alloc, self.edges.len())?;
        edges.append(&mut self.edges)?;
        Ok(edges)
    }
}

/// The place of the edge that leads to the end, if one does. Each end's edge, if it has one, is at
/// the place that is noted for it.
fn place_to<L: LabelSet>(places: &[usize], edges: &[Edge<L>], to: usize) -> Option<usize>
    ensures within { IfSome result (λ place. place < length edges.now) }
    ensures leads { IfSome result (λ place. (edge : Edge L) →
        (slice_index_or edges.now place edge).to ≡ to) }
{
    let place = places.get(to).copied()?;
    let edge = edges.get(place)?;
    if edge.to == to { Some(place) } else { None }
}

/// The letters of the edge's label and of the other.
fn joined<L: LabelSet>(alloc: Global, edge: &Edge<L>, label: L) -> Result<L, AllocError>
    requires { ForSome edge.now.label (λ set. length (L.letters set) ≡ length (L.letters label)) }
    ensures size { IfOk result (λ both. length (L.letters both) ≡ length (L.letters label)) }
    ensures either { IfOk result (λ both. (k : ℕ) → has (L.letters both) k
        ≡ (takes k (move_of L.letters edge.now) || has (L.letters label) k)) }
{
    match &edge.label {
        Some(other) => other.join(alloc, &label),
        None => Ok(label),
    }
}
