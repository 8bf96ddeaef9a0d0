//! Which nodes are reached from some others.
ghost use Rattle.std.specs.Prelude.{◌≡◌, ℕ, ◌<◌, ◌↔◌, OnOk, Contains, length};
ghost use Rattle.rela_graph.specs.Spread.{Adds, Spread};
ghost use Rattle.rela_graph.specs.Topology.{HasEdge};

use crate::graph::Graph;
use crate::node_set::NodeSet;
use std::alloc::AllocError;

impl Graph {
    /// Adds the nodes to which an edge leads from `n`.
    pub(crate) fn add_next(&self, n: u32, set: &mut NodeSet) -> Result<(), AllocError>
        requires node { n < length self.now.nodes }
        requires set { set.old.count ≡ length self.now.nodes }
        ensures count { set.new.count ≡ set.old.count }
        ensures adds { OnOk result (Adds (HasEdge self.now n) set.old.nodes set.new.nodes) }
    {
        for edge in self.edges_from(n) {
            set.insert(edge.b)?;
        }
        Ok(())
    }

    /// Adds the nodes that members reach by edges: a breadth-first search. Time: linear in the edges
    /// that leave the members.
    pub(crate) fn spread(&self, set: &mut NodeSet) -> Result<(), AllocError>
        requires { set.old.count ≡ length self.now.nodes }
        ensures count { set.new.count ≡ set.old.count }
        ensures spreads { OnOk result ((m : ℕ) → Contains set.new.nodes m ↔
            Spread self.now (Contains set.old.nodes) m) }
    {
        // The members stand in a queue: those before `done` have been followed.
        let mut done = 0;
        while done < set.members().len() {
            let n = set.members()[done];
            self.add_next(n, set)?;
            done += 1;
        }
        Ok(())
    }
}
