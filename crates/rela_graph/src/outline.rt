//! How a graph looks at one level.

ghost use Rattle.std.specs.Prelude.{◌≡◌, ℕ, ◌↔◌, List, IsTrue, fold, map};
ghost use Rattle.std.specs.Hash as fed;
ghost use Rattle.rela_graph.specs.Outline.{outline_of, same_outline};
ghost use Rattle.rela_graph.specs.Paths.{Arrives, Paths, Undelivered, locations};
ghost use Rattle.rela_graph.specs.Topology.{symbol_at};

use crate::graph::Graph;
use crate::node::Node;
use rela_names::Level;
use std::hash::{Hash, Hasher};
use std::marker::Model;

/// A graph as it looks at a level: the location of each node there, the edges, and which nodes are
/// starts, deliver or drop. Two are equal where all of these are, whatever the other levels tell.
/// Time to compare or to hash them: linear in the nodes and the edges. Contracts see it as an
/// [`Outline`].
#[derive(Drop)]
pub struct LevelGraph<'a> {
    /// The graph.
    graph: &'a Graph,
    /// The level at which it is looked at.
    level: Level,
}

impl<'a> Model for LevelGraph<'a> {
    ghost use Rattle.rela_graph.specs.Outline.{Outline, outline_of};

    ghost Value = { Outline };

    ghost view = { λ x. outline_of x.level x.graph.now };
}

impl PartialEq for LevelGraph<'_> {
    ghost use Rattle.std.specs.Cmp.{partial_equiv_from_equiv};
    ghost use Rattle.rela_graph.specs.Outline.{same_outline};
    ghost use Rattle.rela_graph.specs.SameOutline.{outlines_equivalent};

    ghost eq = { same_outline };

    ghost laws = { partial_equiv_from_equiv outlines_equivalent };

    fn eq(&self, other: &Self) -> bool {
        self.graph.looks_like(self.level, other.graph, other.level)
    }
}

impl Eq for LevelGraph<'_> {
    ghost use Rattle.rela_graph.specs.SameOutline.{outlines_equivalent};

    ghost laws = { outlines_equivalent };
}

impl Hash for LevelGraph<'_> {
    ghost use Rattle.rela_graph.specs.Outline.{outline_writes};
    ghost use Rattle.rela_graph.specs.SameOutline.{hashed_alike};

    ghost hash_input = { outline_writes };

    ghost respects_eq = { hashed_alike };

    fn hash<H: Hasher>(&self, state: &mut H) {
        feed_places(self.graph.nodes(), self.level, state);
        self.graph.edges().hash(state);
        self.graph.starts().hash(state);
        self.graph.delivered().hash(state);
        self.graph.dropped().hash(state);
    }
}

impl Graph {
    /// The graph as it looks at the level.
    pub fn at(&self, level: Level) -> LevelGraph<'_>
        ensures { result ≡ outline_of level self.now }
    {
        LevelGraph { graph: self, level }
    }

    /// Graphs that look the same at a level have the same paths there. The call does nothing, and its
    /// contract is this law.
    pub fn same_outline_same_paths(&self, other: &Graph, level: Level)
        ensures { outline_of level self.now ≡ outline_of level other.now →
            (names : List (List ℕ)) (w : List ℕ) →
            Paths self.now level names w ↔ Paths other.now level names w }
    {}

    /// Graphs that look the same at a level have the same arrivals there: a word is the base word
    /// of walks that end at the same nodes, and the same words are paths that end undelivered. The
    /// call does nothing, and its contract is this law.
    pub fn same_outline_same_arrivals(&self, other: &Graph, level: Level)
        ensures arrives { outline_of level self.now ≡ outline_of level other.now
            → (n : ℕ) (w : List ℕ) → Arrives self.now (locations self.now level) n w
            ↔ Arrives other.now (locations other.now level) n w }
        ensures undelivered { outline_of level self.now ≡ outline_of level other.now
            → (names : List (List ℕ)) (w : List ℕ) → Undelivered self.now level names w
            ↔ Undelivered other.now level names w }
    {}

    /// Whether the graph looks at the level as the other one does at its level. Time: linear in the
    /// nodes and the edges.
    fn looks_like(&self, level: Level, other: &Graph, other_level: Level) -> bool
        ensures { result ≡ same_outline (outline_of level self.now)
            (outline_of other_level other.now) }
    {
        same_places(self.nodes(), level, other.nodes(), other_level)
            && self.edges() == other.edges()
            && self.starts() == other.starts()
            && self.delivered() == other.delivered()
            && self.dropped() == other.dropped()
    }
}

/// Whether the nodes are as many as the others, and each has the location of the one in its place.
fn same_places(nodes: &[Node], level: Level, others: &[Node], other_level: Level) -> bool
    ensures { IsTrue result ↔ (map (symbol_at level) nodes.now
        ≡ map (symbol_at other_level) others.now) }
{
    if nodes.len() != others.len() {
        return false;
    }
    for n in 0..nodes.len() {
        if nodes[n].symbol_at(level) != others[n].symbol_at(other_level) {
            return false;
        }
    }
    true
}

/// Feeds the hasher the number of the nodes and the location of each.
fn feed_places<H: Hasher>(nodes: &[Node], level: Level, state: &mut H)
    ensures { state.new ≡ fold H.write state.old
        (fed.slice fed.u32 (map (symbol_at level) nodes.now)) }
{
    state.write_usize(nodes.len());
    for node in nodes {
        state.write_u32(node.symbol_at(level));
    }
}
