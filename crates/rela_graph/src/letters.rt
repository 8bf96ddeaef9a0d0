//! The letters of a graph's automaton, and its edges by them.
ghost use Rattle.std.specs.Prelude.{◌≡◌, ℕ, ◌+◌, ◌<◌, ◌≤◌, [], ◌++◌, IfOk, OnOk, length, map};
ghost use Rattle.std.specs.List.{All};
ghost use Rattle.rela_names.specs.Alphabet.{path_symbols};
ghost use Rattle.rela_labels.specs.Partition.{block_of, block_count};
ghost use Rattle.rela_nfa.specs.Stored.{move_of};
ghost use Rattle.rela_graph.specs.Topology.{symbol_at, JoinsNodes};
ghost use Rattle.rela_graph.specs.Lettering.{AreLetters, by_letter, only_if, link_move};

use crate::graph::Graph;
use crate::node::Link;
use rela_labels::{LabelSet, Partition};
use rela_names::{Alphabet, Level};
use rela_nfa::Edge;
use std::alloc::{AllocError, Global};

/// The letters by which an automaton reads the walks of a graph.
#[derive(Drop)]
pub(crate) struct Letters {
    /// How many letters there are in all.
    pub(crate) count: u32,
    /// The letter of each node's location.
    pub(crate) nodes: Vec<u32>,
    /// The letter of `drop`.
    pub(crate) drop_letter: u32,
    /// The letter of `loop`.
    pub(crate) loop_letter: u32,
}

impl Letters {
    /// The letters are the blocks of the symbols: those of the nodes at this level, and of `drop`
    /// and `loop` in the alphabet. Time: a look-up in the partition for each node.
    pub(crate) fn new(
        alloc: Global,
        graph: &Graph,
        level: Level,
        alphabet: &Alphabet,
        blocks: &Partition,
    ) -> Result<Letters, AllocError>
        requires nodes { All (λ node. symbol_at level node < length blocks.now) graph.now.nodes }
        requires symbols { path_symbols alphabet.now ≤ length blocks.now }
        ensures letters { IfOk result (AreLetters graph.now) }
        ensures count { IfOk result (λ letters. letters.count ≡ block_count blocks.now) }
        ensures nodes { IfOk result (λ letters. letters.nodes.items
            ≡ map (λ node. block_of blocks.now (symbol_at level node)) graph.now.nodes) }
        ensures drops { IfOk result (λ letters. letters.drop_letter
            ≡ block_of blocks.now (length alphabet.now)) }
        ensures loops { IfOk result (λ letters. letters.loop_letter
            ≡ block_of blocks.now (length alphabet.now + 1)) }
    {
        let nodes = graph
            .nodes()
            .iter()
            .map(|node| blocks.block_of(node.symbol_at(level)))
            .collect(alloc)?;
        Ok(Letters {
            count: blocks.blocks(),
            nodes,
            drop_letter: blocks.block_of(alphabet.drop_symbol()),
            loop_letter: blocks.block_of(alphabet.loop_symbol()),
        })
    }

    /// An edge by one letter to this state of the automaton.
    fn edge_by<L: LabelSet>(
        &self,
        alloc: Global,
        letter: u32,
        to: usize,
    ) -> Result<Edge<L>, AllocError>
        requires fits { L.fits self.now.count }
        requires below { letter < self.now.count }
        ensures { IfOk result (λ edge. move_of L.letters edge
            ≡ by_letter self.now.count letter to) }
    {
        let mut label = L::none(alloc, self.count)?;
        label.add(alloc, letter)?;
        Ok(Edge {
            label: Some(label),
            to,
        })
    }

    /// Adds an edge by one letter, if it is wanted, to this state of the automaton.
    pub(crate) fn add_if<L: LabelSet>(
        &self,
        alloc: Global,
        edges: &mut Vec<Edge<L>>,
        is_wanted: bool,
        letter: u32,
        to: usize,
    ) -> Result<(), AllocError>
        requires fits { L.fits self.now.count }
        requires below { letter < self.now.count }
        ensures { OnOk result (map (move_of L.letters) edges.new.items
            ≡ map (move_of L.letters) edges.old.items
            ++ only_if is_wanted (by_letter self.now.count letter to)) }
    {
        if is_wanted {
            edges.push(self.edge_by(alloc, letter, to)?)?;
        }
        Ok(())
    }

    /// The automaton's edge for one of the graph's: silent where both its nodes have one letter,
    /// and else by that of the node to which it leads.
    fn edge_along<L: LabelSet>(&self, alloc: Global, link: &Link) -> Result<Edge<L>, AllocError>
        requires fits { L.fits self.now.count }
        requires each { All (λ k. k < self.now.count) self.now.nodes.items }
        requires joins { JoinsNodes (length self.now.nodes.items) link.now }
        ensures { IfOk result (λ edge. move_of L.letters edge ≡ link_move self.now link.now) }
    {
        let letter = self.nodes[link.b as usize];
        let to = 1 + link.b as usize;
        if self.nodes[link.a as usize] == letter {
            return Ok(Edge { label: None, to });
        }
        self.edge_by(alloc, letter, to)
    }

    /// Adds the automaton's edge for each of the graph's. There are none before.
    pub(crate) fn add_along<L: LabelSet>(
        &self,
        alloc: Global,
        edges: &mut Vec<Edge<L>>,
        links: &[Link],
    ) -> Result<(), AllocError>
        requires empty { edges.old.items ≡ [] }
        requires fits { L.fits self.now.count }
        requires each { All (λ k. k < self.now.count) self.now.nodes.items }
        requires joins { All (JoinsNodes (length self.now.nodes.items)) links.now }
        ensures { OnOk result (map (move_of L.letters) edges.new.items
            ≡ map (link_move self.now) links.now) }
    {
        for link in links {
            edges.push(self.edge_along(alloc, link)?)?;
        }
        Ok(())
    }
}
