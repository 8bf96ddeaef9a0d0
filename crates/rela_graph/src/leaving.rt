//! The order in which a depth-first search leaves the nodes.
ghost use Rattle.std.specs.Prelude.{◌≡◌, ◌<◌, ◌≤◌, IfOk, OnOk, ◌++◌, length, map};
ghost use Rattle.std.specs.List.{All};
ghost use Rattle.rela_graph.specs.Visit.{node_of, work_left};

use crate::graph::Graph;
use crate::node::Link;
use crate::node_set::NodeSet;
use std::alloc::{AllocError, Global};

/// What a depth-first search has yet to do.
#[derive(Clone, Copy)]
enum Visit {
    /// To enter a node, unless it was entered before.
    Enter(u32),
    /// To leave a node, all that its edges lead to having been left.
    Leave(u32),
}

impl Graph {
    /// The nodes in the order in which a depth-first search leaves them, the last first: reverse
    /// postorder. The search begins at each node in turn that wasn't entered before, from the last
    /// on. Time and space: linear in the nodes and the edges.
    pub(crate) fn leaving_order(&self, alloc: Global) -> Result<Vec<u32>, AllocError>
        ensures { IfOk result (λ order. All (λ n. n < length self.now.nodes) order.items) }
    {
        let count = self.nodes().len();
        let mut order = Vec::with_capacity(alloc, count)?;
        let mut entered = NodeSet::new(alloc, count)?;
        let mut visits = entries(alloc, count as u32)?;
        while let Some(visit) = visits.pop() {
            match visit {
                Visit::Leave(n) => order.push(n)?,
                Visit::Enter(n) => self.enter(n, &mut entered, &mut visits)?,
            }
        }
        order.reverse();
        Ok(order)
    }

    /// Enters a node, unless it was entered before: all that its edges lead to is to be entered, and
    /// then the node is to be left.
    fn enter(
        &self,
        n: u32,
        entered: &mut NodeSet,
        visits: &mut Vec<Visit>,
    ) -> Result<(), AllocError>
        requires node { n < length self.now.nodes }
        requires count { entered.old.count ≡ length self.now.nodes }
        requires visits { All (λ visit. node_of visit < length self.now.nodes) visits.old.items }
        ensures count { entered.new.count ≡ length self.now.nodes }
        ensures visits { OnOk result (All (λ visit. node_of visit < length self.now.nodes)
            visits.new.items) }
        ensures work { OnOk result (work_left self.now entered.new visits.new.items
            ≤ work_left self.now entered.old visits.old.items) }
    {
        if entered.contains(n) {
            return Ok(());
        }
        entered.insert(n)?;
        visits.push(Visit::Leave(n))?;
        enter_all(self.edges_from(n), visits)?;
        Ok(())
    }
}

/// To enter each node below `count`.
fn entries(alloc: Global, count: u32) -> Result<Vec<Visit>, AllocError>
    ensures { IfOk result (λ visits. All (λ visit. node_of visit < count) visits.items) }
{
    let mut visits = Vec::with_capacity(alloc, count as usize)?;
    for n in 0..count {
        visits.push(Visit::Enter(n))?;
    }
    Ok(visits)
}

/// Adds the entry of each node that the edges lead to.
fn enter_all(edges: &[Link], visits: &mut Vec<Visit>) -> Result<(), AllocError>
    ensures { OnOk result (visits.new.items ≡ visits.old.items
        ++ map (λ link. Visit.Enter link.b) edges.now) }
{
    for edge in edges {
        visits.push(Visit::Enter(edge.b))?;
    }
    Ok(())
}
