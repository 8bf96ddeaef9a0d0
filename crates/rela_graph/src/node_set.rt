//! Sets of nodes, which are found one after the other.
ghost use Rattle.std.specs.Prelude.{◌≡◌, ℕ, ◌<◌, ◌≤◌, ◌↔◌, [], IsTrue, IfOk, OnOk, OnErr, Contains, length};
ghost use Rattle.std.specs.List.{All};
ghost use Rattle.rela_graph.specs.NodeSet.{Inserts};

use std::alloc::{AllocError, Global};
use std::marker::Model;

/// A set of nodes of a graph: a flag for each node, and the members in the order in which they came.
#[derive(Drop)]
pub(crate) struct NodeSet {
    /// For each node whether it is a member.
    flags: Vec<bool>,
    /// The members, in the order in which they came.
    members: Vec<u32>,
}

impl Model for NodeSet {
    ghost use Rattle.std.specs.Prelude.{length};
    ghost use Rattle.rela_graph.specs.NodeSet.{Members, AreFlagged};

    ghost Value = { Members };

    ghost view = { λ s. record { count = length s.flags.items; nodes = s.members.items } };

    ghost invariant = { λ s. AreFlagged s.flags.items s.members.items };
}

impl NodeSet {
    /// The empty set of nodes below a number. Time and space: linear in that number.
    pub(crate) fn new(alloc: Global, count: usize) -> Result<NodeSet, AllocError>
        ensures count { IfOk result (λ set. set.count ≡ count) }
        ensures empty { IfOk result (λ set. set.nodes ≡ []) }
    {
        Ok(NodeSet {
            flags: vec![in alloc; false; count]?,
            members: Vec::new(alloc),
        })
    }

    /// The members, in the order in which they came.
    pub(crate) fn members(&self) -> &[u32]
        ensures members { result.now ≡ self.now.nodes }
        ensures below { All (λ n. n < self.now.count) self.now.nodes }
        ensures few { length self.now.nodes ≤ self.now.count }
    {
        self.members.as_slice()
    }

    /// Whether the node is a member.
    pub(crate) fn contains(&self, n: u32) -> bool
        requires { n < self.now.count }
        ensures { IsTrue result ↔ Contains self.now.nodes n }
    {
        self.flags[n as usize]
    }

    /// Whether each node is a member.
    pub(crate) fn is_full(&self) -> bool
        ensures { IsTrue result → (n : ℕ) → n < self.now.count → Contains self.now.nodes n }
    {
        self.members.len() == self.flags.len()
    }

    /// Puts a node in, unless it is there. Time: constant.
    pub(crate) fn insert(&mut self, n: u32) -> Result<(), AllocError>
        requires { n < self.old.count }
        ensures count { self.new.count ≡ self.old.count }
        ensures few { length self.new.nodes ≤ self.new.count }
        ensures ok { OnOk result (Inserts self.old.nodes self.new.nodes n) }
        ensures err { OnErr result (self.new.nodes ≡ self.old.nodes) }
    {
        if !self.flags[n as usize] {
            self.members.push(n)?;
            self.flags[n as usize] = true;
        }
        Ok(())
    }
}
