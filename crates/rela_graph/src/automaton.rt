//! The automaton of a graph's paths.
ghost use Rattle.std.specs.Prelude.{◌≡◌, ℕ, ◌+◌, ◌<◌, ◌≤◌, ◌↔◌, true, false, List, [], ◌∷◌, ◌++◌, IsTrue, IfOk, OnOk, length, map};
ghost use Rattle.std.specs.List.{All};
ghost use Rattle.rela_names.specs.Alphabet.{path_symbols};
ghost use Rattle.rela_labels.specs.Partition.{block_count};
ghost use Rattle.rela_nfa.specs.Automaton.{states};
ghost use Rattle.rela_nfa.specs.Relabelling.{blocks_of};
ghost use Rattle.rela_nfa.specs.Runs.{Reach, Accepts};
ghost use Rattle.rela_nfa.specs.Stored.{move_of};
ghost use Rattle.rela_graph.specs.Alone.{StandsAlone};
ghost use Rattle.rela_graph.specs.Lettering.{AreLetters};
ghost use Rattle.rela_graph.specs.Paths.{Paths, Undelivered, Arrives, locations};
ghost use Rattle.rela_graph.specs.Topology.{IsTopology, symbol_at};
ghost use Rattle.rela_graph.specs.Unrolled.{LeadOn, Begins, GoesOn, IsUnrolled};
ghost use Rattle.rela_graph.specs.Walk.{IsCyclic, IsDropNode};

use crate::graph::Graph;
use crate::letters::Letters;
use rela_labels::{LabelSet, Partition};
use rela_names::{Alphabet, Level};
use rela_nfa::{Edge, EdgeLists, Nfa};
use std::alloc::{AllocError, Global};

impl Graph {
    /// The automaton that accepts just the paths of the graph at the level, each symbol read as its
    /// block: a walk's locations, each run of equal neighbours written once, where the walk's last
    /// node delivers; those and `drop`, where it drops; those and `loop`, where it lies on a cycle.
    /// The location of each node, `drop` and `loop` have blocks of their own.
    ///
    /// State 0 is where words begin. State `1 + n` stands at node `n`: the words that reach it are
    /// the locations of the walks that end there, each run of equal neighbours written once. The
    /// last state is the end after `drop` or `loop`. Time and space: linear in the nodes and the
    /// edges, times the size of a set of letters.
    pub fn to_nfa<L: LabelSet>(
        &self,
        alloc: Global,
        level: Level,
        alphabet: &Alphabet,
        blocks: &Partition,
    ) -> Result<Nfa<L>, AllocError>
        requires placed { All (λ node. symbol_at level node < length alphabet.now) self.now.nodes }
        requires symbols { path_symbols alphabet.now ≤ length blocks.now }
        requires fits { L.fits (block_count blocks.now) }
        requires alone_nodes { All (λ node.
            StandsAlone blocks.now (symbol_at level node)) self.now.nodes }
        requires alone_drop { StandsAlone blocks.now (length alphabet.now) }
        requires alone_loop { StandsAlone blocks.now (length alphabet.now + 1) }
        ensures letters { IfOk result (λ nfa. nfa.letters ≡ block_count blocks.now) }
        ensures states { IfOk result (λ nfa. states nfa ≡ length self.now.nodes + 2) }
        ensures begin { IfOk result (λ nfa. (w : List ℕ) → Reach nfa 0 w ↔ (w ≡ [])) }
        ensures nodes { IfOk result (λ nfa. (n : ℕ) (w : List ℕ) → n < length self.now.nodes →
            All (λ s. s < length blocks.now) w
            → Reach nfa (1 + n) (blocks_of blocks.now w) ↔
            Arrives self.now (locations self.now level) n w) }
        ensures end { IfOk result (λ nfa. (w : List ℕ) → All (λ s. s < length blocks.now) w
            → Reach nfa (1 + length self.now.nodes) (blocks_of blocks.now w) ↔
            Undelivered self.now level alphabet.now w) }
        ensures language { IfOk result (λ nfa. (w : List ℕ) → All (λ s. s < length blocks.now) w
            → Accepts nfa (blocks_of blocks.now w) ↔ Paths self.now level alphabet.now w) }
        ensures of_path_symbols { IfOk result (λ _. (w : List ℕ) →
            Paths self.now level alphabet.now w → All (λ s. s < path_symbols alphabet.now) w) }
    {
        let letters = Letters::new(alloc, self, level, alphabet, blocks)?;
        let finals = self.finals(alloc)?;
        let edges = self.edge_lists(alloc, &letters)?;
        Ok(Nfa::from_lists(letters.count, 0, finals, edges))
    }

    /// For each state whether it is final: those of nodes that deliver are, and the last.
    fn finals(&self, alloc: Global) -> Result<Vec<bool>, AllocError>
        ensures finals { IfOk result (λ finals. finals.items
            ≡ false ∷ (self.now.delivered ++ true ∷ [])) }
        ensures topology { IsTopology self.now }
    {
        let delivered = self.delivered();
        let mut finals = Vec::with_capacity(alloc, delivered.len() + 2)?;
        finals.push(false)?;
        finals.extend_from_slice(delivered)?;
        finals.push(true)?;
        Ok(finals)
    }

    /// The edges that leave each state.
    fn edge_lists<L: LabelSet>(
        &self,
        alloc: Global,
        letters: &Letters,
    ) -> Result<EdgeLists<L>, AllocError>
        requires fits { L.fits letters.now.count }
        requires letters { AreLetters self.now letters.now }
        ensures { IfOk result (λ edges. IsUnrolled self.now letters.now edges) }
    {
        let count = self.nodes().len();
        let cyclic = self.cyclic_nodes(alloc)?;
        let mut edges = EdgeLists::with_capacity(alloc, count + 2, 0)?;
        let mut leaving = Vec::new(alloc);
        self.add_edges_to_starts(alloc, &mut leaving, letters)?;
        edges.push(&mut leaving)?;
        for n in 0..count {
            self.add_edges_of_node(alloc, &mut leaving, letters, n as u32, cyclic[n])?;
            edges.push(&mut leaving)?;
        }
        edges.push(&mut leaving)?;
        Ok(edges)
    }

    /// Adds an edge to each start by its letter. There are none before.
    fn add_edges_to_starts<L: LabelSet>(
        &self,
        alloc: Global,
        edges: &mut Vec<Edge<L>>,
        letters: &Letters,
    ) -> Result<(), AllocError>
        requires empty { edges.old.items ≡ [] }
        requires fits { L.fits letters.now.count }
        requires letters { AreLetters self.now letters.now }
        ensures { OnOk result (LeadOn letters.now.count (length self.now.nodes + 2)
            (map (move_of L.letters) edges.new.items) (Begins self.now letters.now)) }
    {
        for n in 0..self.nodes().len() {
            let is_start = self.is_start(n as u32);
            letters.add_if(alloc, edges, is_start, letters.nodes[n], 1 + n)?;
        }
        Ok(())
    }

    /// Adds the edges of the state that stands at a node: those of the graph, and to the last state by
    /// `drop` where the node drops, and by `loop` where it lies on a cycle. There are none before.
    fn add_edges_of_node<L: LabelSet>(
        &self,
        alloc: Global,
        edges: &mut Vec<Edge<L>>,
        letters: &Letters,
        n: u32,
        is_cyclic: bool,
    ) -> Result<(), AllocError>
        requires empty { edges.old.items ≡ [] }
        requires fits { L.fits letters.now.count }
        requires letters { AreLetters self.now letters.now }
        requires node { n < length self.now.nodes }
        requires cyclic { IsTrue is_cyclic ↔ IsCyclic self.now n }
        ensures { OnOk result (LeadOn letters.now.count (length self.now.nodes + 2)
            (map (move_of L.letters) edges.new.items) (GoesOn self.now letters.now n)) }
    {
        let end = 1 + self.nodes().len();
        letters.add_along(alloc, edges, self.edges_from(n))?;
        letters.add_if(alloc, edges, self.is_drop_node(n), letters.drop_letter, end)?;
        letters.add_if(alloc, edges, is_cyclic, letters.loop_letter, end)?;
        Ok(())
    }

    /// Whether traffic is dropped at the node: it is listed as one that drops, or has no edge out and
    /// isn't listed as one that delivers.
    fn is_drop_node(&self, n: u32) -> bool
        requires { n < length self.now.nodes }
        ensures { IsTrue result ↔ IsDropNode self.now n }
    {
        self.is_dropped(n) || (self.edges_from(n).is_empty() && !self.is_delivered(n))
    }
}
