//! Edges of which one leads to each end.
ghost use Rattle.std.specs.Prelude.{◌≡◌, ℕ, ◌||◌, List, [], IfOk, length, map};
ghost use Rattle.std.specs.List.{All};
ghost use Rattle.std.specs.Option.{ForSome};
ghost use Rattle.rela_labels.specs.Letters.{has};
ghost use Rattle.rela_nfa.specs.Stored.{move_of};
ghost use Rattle.rela_closed.specs.Listing.{IsPutIn, takes};

use rela_labels::LabelSet;
use rela_nfa::Edge;
use std::alloc::{AllocError, Global};
use std::collections::HashMap;
use std::marker::Model;

/// Edges out of one state, of which one leads to each end. Contracts see them as the list of the
/// edges.
#[derive(Drop)]
pub(crate) struct Bundle<L: LabelSet> {
    /// The edges, in the order in which their ends came.
    edges: Vec<Edge<L>>,
    /// For each end the place of the edge that leads to it.
    places: HashMap<usize, usize>,
}

impl<L: LabelSet> Model for Bundle<L> {
    ghost use Rattle.std.specs.Prelude.{List, map};
    ghost use Rattle.rela_nfa.specs.Automaton.{Move};
    ghost use Rattle.rela_nfa.specs.Stored.{move_of};
    ghost use Rattle.rela_closed.specs.Listing.{ArePlaced};

    ghost Value = { List Move };

    ghost view = { λ bundle. map (move_of L.letters) bundle.edges.items };

    ghost invariant = { λ bundle. ArePlaced
        (map (move_of L.letters) bundle.edges.items) bundle.places };
}

impl<L: LabelSet> Bundle<L> {
    /// No edges.
    pub(crate) fn new(alloc: Global) -> Bundle<L>
        ensures { result ≡ [] }
    {
        Bundle {
            edges: Vec::new(alloc),
            places: HashMap::new(alloc),
        }
    }

    /// Puts an edge with this label to this end among the others: where one leads there, its label
    /// is joined to that one's. Time: constant in expectation, and a set operation.
    pub(crate) fn put(&mut self, alloc: Global, label: L, to: usize) -> Result<(), AllocError>
        requires { All (λ move. ForSome move.label (λ set. length set
            ≡ length (L.letters label))) self.old }
        ensures { IfOk result (λ _. IsPutIn (L.letters label) to self.old self.new) }
    {
        if let Some(place) = self.places.get(&to).copied() {
            let label = joined(alloc, &self.edges[place], label)?;
            self.edges[place] = Edge {
                label: Some(label),
                to,
            };
            return Ok(());
        }
        let place = self.edges.len();
        self.edges.push(Edge {
            label: Some(label),
            to,
        })?;
        self.places.insert(to, place)?;
        Ok(())
    }

    /// The edges, in a vector without room for more: an automaton keeps one for each of its states.
    pub(crate) fn into_edges(self) -> Vec<Edge<L>>
        ensures { map (move_of L.letters) result.items ≡ self }
    {
        let Bundle {
            mut edges,
            places: _,
        } = self;
        edges.shrink_to_fit();
        edges
    }
}

/// The letters of the edge's label and of the other.
fn joined<L: LabelSet>(alloc: Global, edge: &Edge<L>, label: L) -> Result<L, AllocError>
    requires { ForSome edge.now.label (λ set. length (L.letters set) ≡ length (L.letters label)) }
    ensures size { IfOk result (λ both. length (L.letters both) ≡ length (L.letters label)) }
    ensures either { IfOk result (λ both. (k : ℕ) → has (L.letters both) k
        ≡ (takes k (move_of L.letters edge.now) || has (L.letters label) k)) }
{
    match &edge.label {
        Some(other) => other.join(alloc, &label),
        None => Ok(label),
    }
}
