//! Which nodes lie on cycles.
ghost use Rattle.std.specs.Prelude.{◌≡◌, ℕ, ◌<◌, ◌↔◌, IsTrue, IfOk, length, false, slice_index_or, vec_len, slice_index};
ghost use Rattle.std.specs.List.{All, Any};
ghost use Rattle.rela_graph.specs.Component.{AreComponents};
ghost use Rattle.rela_graph.specs.Walk.{IsCyclic};

use crate::graph::Graph;
use crate::node::Link;
use crate::node_set::NodeSet;
use std::alloc::{AllocError, Global};

impl Graph {
    /// For each node whether it lies on a cycle: one or more edges lead from it back to it. Time
    /// and space: linear in the nodes and the edges.
    pub(crate) fn cyclic_nodes(&self, alloc: Global) -> Result<Vec<bool>, AllocError>
        ensures nodes { IfOk result (λ cyclic. vec_len cyclic ≡ length self.now.nodes) }
        ensures cyclic { IfOk result (λ cyclic. (n : ℕ) →
            IsTrue (slice_index_or cyclic.items n false) ↔ IsCyclic self.now n) }
    {
        match self.components(alloc)? {
            Some(components) => self.cyclic_by_components(alloc, &components),
            None => self.cyclic_by_searches(alloc),
        }
    }

    /// For each node whether it lies on a cycle, by the components: it does where an edge leads
    /// from it to a node of its own component.
    fn cyclic_by_components(
        &self,
        alloc: Global,
        components: &[usize],
    ) -> Result<Vec<bool>, AllocError>
        requires { AreComponents self.now components.now }
        ensures nodes { IfOk result (λ cyclic. vec_len cyclic ≡ length self.now.nodes) }
        ensures cyclic { IfOk result (λ cyclic. (n : ℕ) →
            IsTrue (slice_index_or cyclic.items n false) ↔ IsCyclic self.now n) }
    {
        let count = self.nodes().len();
        let mut cyclic = Vec::with_capacity(alloc, count)?;
        for n in 0..count {
            let edges = self.edges_from(n as u32);
            cyclic.push(any_leads_into(edges, components, components[n]))?;
        }
        Ok(cyclic)
    }

    /// For each node whether it lies on a cycle, by a search from each. Time: linear in the nodes
    /// and the edges, for each node.
    fn cyclic_by_searches(&self, alloc: Global) -> Result<Vec<bool>, AllocError>
        ensures nodes { IfOk result (λ cyclic. vec_len cyclic ≡ length self.now.nodes) }
        ensures cyclic { IfOk result (λ cyclic. (n : ℕ) →
            IsTrue (slice_index_or cyclic.items n false) ↔ IsCyclic self.now n) }
    {
        let count = self.nodes().len();
        let mut cyclic = Vec::with_capacity(alloc, count)?;
        for n in 0..count {
            cyclic.push(self.returns_to(alloc, n as u32)?)?;
        }
        Ok(cyclic)
    }

    /// Whether one or more edges lead from the node back to it.
    fn returns_to(&self, alloc: Global, n: u32) -> Result<bool, AllocError>
        requires { n < length self.now.nodes }
        ensures { IfOk result (λ cyclic. IsTrue cyclic ↔ IsCyclic self.now n) }
    {
        let mut reached = NodeSet::new(alloc, self.nodes().len())?;
        self.add_next(n, &mut reached)?;
        self.spread(&mut reached)?;
        Ok(reached.members().contains(&n))
    }
}

/// Whether one of the edges leads to a node of the component.
fn any_leads_into(edges: &[Link], components: &[usize], component: usize) -> bool
    requires { All (λ link. link.b < length components.now) edges.now }
    ensures { IsTrue result ↔ Any (λ link. slice_index components.now link.b
        ≡ component) edges.now }
{
    edges
        .iter()
        .any(|edge| components[edge.b as usize] == component)
}
