//! Nodes that are claimed for roots.
ghost use Rattle.std.specs.Prelude.{◌≡◌, ℕ, ◌<◌, ◌≤◌, [], IsTrue, IfOk, OnOk, Contains, length, slice_index};
ghost use Rattle.std.specs.List.{All};
ghost use Rattle.rela_graph.specs.Component.{SameFrame, ClaimsNode};

use crate::node_set::NodeSet;
use std::alloc::{AllocError, Global};
use std::marker::Model;

/// Nodes that were claimed for roots, each for one, in the order in which they were.
#[derive(Drop)]
pub(crate) struct Claimed {
    /// The roots.
    roots: Vec<u32>,
    /// The nodes that were claimed, in the order in which they were.
    nodes: NodeSet,
    /// For each node that was claimed its root's place among the roots, and 0 for any other.
    places: Vec<usize>,
}

impl Model for Claimed {
    ghost use Rattle.std.specs.Prelude.{◌≡◌, length};
    ghost use Rattle.rela_graph.specs.Component.{Claims};

    ghost Value = { Claims };

    ghost view = { λ c. record {
      roots = c.roots.items;
      count = c.nodes.count;
      nodes = c.nodes.nodes;
      places = c.places.items;
    } };

    ghost invariant = { λ c. length c.places.items ≡ c.nodes.count };
}

impl Claimed {
    /// No node below `count` is claimed yet for these roots. Time and space: linear in the roots
    /// and `count`.
    pub(crate) fn new(alloc: Global, roots: &[u32], count: usize) -> Result<Claimed, AllocError>
        ensures roots { IfOk result (λ claimed. claimed.roots ≡ roots.now) }
        ensures count { IfOk result (λ claimed. claimed.count ≡ count) }
        ensures empty { IfOk result (λ claimed. claimed.nodes ≡ []) }
    {
        Ok(Claimed {
            roots: Vec::from_slice(alloc, roots)?,
            nodes: NodeSet::new(alloc, count)?,
            places: vec![in alloc; 0; count]?,
        })
    }

    /// Claims a node for the root at a place, unless the node was claimed before. Time: constant.
    pub(crate) fn claim(&mut self, n: u32, place: usize) -> Result<(), AllocError>
        requires { n < self.old.count }
        ensures frame { SameFrame self.old self.new }
        ensures claims { OnOk result (ClaimsNode self.old self.new n place) }
    {
        if !self.nodes.contains(n) {
            self.nodes.insert(n)?;
            self.places[n as usize] = place;
        }
        Ok(())
    }

    /// The nodes that were claimed, in the order in which they were.
    pub(crate) fn members(&self) -> &[u32]
        ensures members { result.now ≡ self.now.nodes }
        ensures below { All (λ n. n < self.now.count) self.now.nodes }
        ensures few { length self.now.nodes ≤ self.now.count }
        ensures places { length self.now.places ≡ self.now.count }
    {
        self.nodes.members()
    }

    /// Whether each node was claimed.
    pub(crate) fn is_full(&self) -> bool
        ensures { IsTrue result → (n : ℕ) → n < self.now.count → Contains self.now.nodes n }
    {
        self.nodes.is_full()
    }

    /// For each node that was claimed the place of its root, and 0 for any other.
    pub(crate) fn places(&self) -> &[usize]
        ensures places { result.now ≡ self.now.places }
        ensures len { length self.now.places ≡ self.now.count }
    {
        self.places.as_slice()
    }

    /// The places alone, as by [`places`](Claimed::places).
    pub(crate) fn into_places(self) -> Vec<usize>
        ensures { result.items ≡ self.places }
    {
        let Claimed { places, .. } = self;
        places
    }
}
