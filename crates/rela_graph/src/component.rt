//! Strongly connected components.
ghost use Rattle.std.specs.Prelude.{◌≡◌, ℕ, ◌<◌, ◌≤◌, IsTrue, IfOk, IfSome, OnOk, Contains, length, slice_index};
ghost use Rattle.std.specs.Bool.{OnTrue};
ghost use Rattle.std.specs.List.{All};
ghost use Rattle.rela_graph.specs.Component.{AreComponents, SameFrame, AreBehind, AreAhead};
ghost use Rattle.rela_graph.specs.Incoming.{IsChained};

use crate::claimed::Claimed;
use crate::graph::Graph;
use crate::incoming::Incoming;
use crate::node::Link;
use std::alloc::{AllocError, Global};

impl Graph {
    /// The strongly connected components, as a number for each node: nodes have one number where
    /// each is reached from the other, and no edge leads to a smaller number.
    ///
    /// They are found by Kosaraju's algorithm (M. Sharir, *A strong-connectivity algorithm and its
    /// applications in data flow analysis*, 1981): the nodes are put in the order in which a
    /// depth-first search leaves them, the last first, and each in turn claims those nodes that
    /// reach it and that none before it has claimed. It is not proved that this finds the
    /// components. What it finds is a certificate that is checked: each node was claimed by one
    /// that it reaches, a second search shows that it is reached from that one, and no edge leads
    /// to a smaller number. `None` says that the check failed, which doesn't happen. Time and
    /// space: linear in the nodes and the edges.
    pub(crate) fn components(&self, alloc: Global) -> Result<Option<Vec<usize>>, AllocError>
        ensures { IfOk result (λ found. IfSome found (λ numbers.
            AreComponents self.now numbers.items)) }
    {
        let order = self.leaving_order(alloc)?;
        let behind = self.claim_behind(alloc, &order)?;
        let ahead = self.claim_ahead(alloc, &order, behind.places())?;
        if self.confirms(&behind, &ahead) {
            Ok(Some(behind.into_places()))
        } else {
            Ok(None)
        }
    }

    /// Whether each node was claimed both ways, for the same root, and no edge leads to one that was
    /// claimed for an earlier root.
    fn confirms(&self, behind: &Claimed, ahead: &Claimed) -> bool
        requires roots { behind.now.roots ≡ ahead.now.roots }
        requires behind_count { behind.now.count ≡ length self.now.nodes }
        requires ahead_count { ahead.now.count ≡ length self.now.nodes }
        requires behind { AreBehind self.now behind.now }
        requires ahead { AreAhead self.now ahead.now }
        ensures { OnTrue result (AreComponents self.now behind.now.places) }
    {
        behind.is_full()
            && ahead.is_full()
            && behind.places() == ahead.places()
            && ascends(self.edges(), behind.places())
    }

    /// Claims for each root in turn the nodes that reach it and that no root before it has claimed.
    fn claim_behind(&self, alloc: Global, roots: &[u32]) -> Result<Claimed, AllocError>
        requires { All (λ n. n < length self.now.nodes) roots.now }
        ensures roots { IfOk result (λ claimed. claimed.roots ≡ roots.now) }
        ensures count { IfOk result (λ claimed. claimed.count ≡ length self.now.nodes) }
        ensures behind { IfOk result (AreBehind self.now) }
    {
        let count = self.nodes().len();
        let incoming = Incoming::new(alloc, self.edges(), count)?;
        let mut claimed = Claimed::new(alloc, roots, count)?;
        for (place, root) in roots.iter().enumerate() {
            let done = claimed.members().len();
            claimed.claim(*root, place)?;
            self.follow_back(&incoming, done, &mut claimed)?;
        }
        Ok(claimed)
    }

    /// Claims what reaches the nodes that were claimed after the first `done` ones.
    fn follow_back(
        &self,
        incoming: &Incoming,
        done: usize,
        claimed: &mut Claimed,
    ) -> Result<(), AllocError>
        requires chained { IsChained (length self.now.nodes) self.now.edges incoming.now.last.items
            incoming.now.before.items }
        requires count { claimed.old.count ≡ length self.now.nodes }
        requires behind { AreBehind self.now claimed.old }
        ensures frame { OnOk result (SameFrame claimed.old claimed.new) }
        ensures behind { OnOk result (AreBehind self.now claimed.new) }
    {
        let mut next = done;
        while next < claimed.members().len() {
            let n = claimed.members()[next];
            self.claim_sources(incoming, n, claimed)?;
            next += 1;
        }
        Ok(())
    }

    /// Claims for a node's root what leads to the node by one edge.
    fn claim_sources(
        &self,
        incoming: &Incoming,
        n: u32,
        claimed: &mut Claimed,
    ) -> Result<(), AllocError>
        requires chained { IsChained (length self.now.nodes) self.now.edges incoming.now.last.items
            incoming.now.before.items }
        requires count { claimed.old.count ≡ length self.now.nodes }
        requires node { n < length self.now.nodes }
        requires member { Contains claimed.old.nodes n }
        requires behind { AreBehind self.now claimed.old }
        ensures frame { OnOk result (SameFrame claimed.old claimed.new) }
        ensures behind { OnOk result (AreBehind self.now claimed.new) }
    {
        let root = claimed.places()[n as usize];
        let edges = self.edges();
        let mut at = incoming.last[n as usize];
        while let Some(place) = at {
            claimed.claim(edges[place as usize].a, root)?;
            at = incoming.before[place as usize];
        }
        Ok(())
    }

    /// Claims for each root in turn the nodes that are reached from it by edges within its component.
    fn claim_ahead(
        &self,
        alloc: Global,
        roots: &[u32],
        components: &[usize],
    ) -> Result<Claimed, AllocError>
        requires roots { All (λ n. n < length self.now.nodes) roots.now }
        requires components { length components.now ≡ length self.now.nodes }
        ensures roots { IfOk result (λ claimed. claimed.roots ≡ roots.now) }
        ensures count { IfOk result (λ claimed. claimed.count ≡ length self.now.nodes) }
        ensures ahead { IfOk result (AreAhead self.now) }
    {
        let mut claimed = Claimed::new(alloc, roots, self.nodes().len())?;
        for (place, root) in roots.iter().enumerate() {
            let done = claimed.members().len();
            claimed.claim(*root, place)?;
            self.follow_on(components, done, &mut claimed)?;
        }
        Ok(claimed)
    }

    /// Claims what is reached, within their component, from the nodes that were claimed after the first
    /// `done` ones.
    fn follow_on(
        &self,
        components: &[usize],
        done: usize,
        claimed: &mut Claimed,
    ) -> Result<(), AllocError>
        requires components { length components.now ≡ length self.now.nodes }
        requires count { claimed.old.count ≡ length self.now.nodes }
        requires ahead { AreAhead self.now claimed.old }
        ensures frame { OnOk result (SameFrame claimed.old claimed.new) }
        ensures ahead { OnOk result (AreAhead self.now claimed.new) }
    {
        let mut next = done;
        while next < claimed.members().len() {
            let n = claimed.members()[next];
            self.claim_targets(components, n, claimed)?;
            next += 1;
        }
        Ok(())
    }

    /// Claims for a node's root what an edge within the component leads to from the node.
    fn claim_targets(
        &self,
        components: &[usize],
        n: u32,
        claimed: &mut Claimed,
    ) -> Result<(), AllocError>
        requires components { length components.now ≡ length self.now.nodes }
        requires count { claimed.old.count ≡ length self.now.nodes }
        requires node { n < length self.now.nodes }
        requires member { Contains claimed.old.nodes n }
        requires ahead { AreAhead self.now claimed.old }
        ensures frame { OnOk result (SameFrame claimed.old claimed.new) }
        ensures ahead { OnOk result (AreAhead self.now claimed.new) }
    {
        let root = claimed.places()[n as usize];
        for edge in self.edges_from(n) {
            if components[edge.b as usize] == components[n as usize] {
                claimed.claim(edge.b, root)?;
            }
        }
        Ok(())
    }
}

/// Whether no edge leads to a smaller number.
fn ascends(edges: &[Link], numbers: &[usize]) -> bool
    requires { All (λ link. (link.a < length numbers.now)
        × (link.b < length numbers.now)) edges.now }
    ensures { OnTrue result (All (λ link. slice_index numbers.now link.a
        ≤ slice_index numbers.now link.b) edges.now) }
{
    edges.iter().all(|edge| numbers[edge.a as usize] <= numbers[edge.b as usize])
}
