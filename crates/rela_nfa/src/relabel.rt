//! Automata over a finer partition of the symbols.
ghost use Rattle.std.specs.Prelude.{◌≡◌, ◌≢◌, false, ℕ, ◌<◌, ◌^◌, ◌↔◌, List, IfOk, OnOk, length, map, slice_index, vec_len};
ghost use Rattle.std.specs.List.{All};
ghost use Rattle.rela_labels.specs.Letters.{has};
ghost use Rattle.rela_labels.specs.Partition.{block_of, block_count};
ghost use Rattle.rela_nfa.specs.Automaton.{states};
ghost use Rattle.rela_nfa.specs.Relabelling.{Refines, blocks_of, relabelled, relabelled_move};
ghost use Rattle.rela_nfa.specs.Runs.{Reach, Accepts};
ghost use Rattle.rela_nfa.specs.Stored.{move_of};

use crate::edge::Edge;
use crate::edge_lists::EdgeLists;
use crate::nfa::Nfa;
use rela_labels::{LabelSet, Partition};
use std::alloc::{AllocError, Global};

/// For each block of the fine partition the block of the coarse one in which it lies. Time: linear
/// in the blocks of the fine partition, with a look-up in the coarse one for each.
pub fn parents_of(
    alloc: Global,
    coarse: &Partition,
    fine: &Partition,
) -> Result<Vec<u32>, AllocError>
    requires { Refines fine.now coarse.now }
    ensures len { IfOk result (λ parents. vec_len parents ≡ block_count fine.now) }
    ensures parents { IfOk result (λ parents. (s : ℕ) → s < length fine.now →
        slice_index parents.items (block_of fine.now s) ≡ block_of coarse.now s) }
{
    let mut parents = Vec::with_capacity(alloc, fine.blocks() as usize)?;
    for block in 0..fine.blocks() {
        parents.push(coarse.block_of(fine.representative(block)))?;
    }
    Ok(parents)
}

/// The blocks of a fine partition that lie in the set of blocks of a coarse one, where `parents`
/// gives for each block the one in which it lies. Time: linear in the fine partition's blocks.
pub fn relabelled_set<L: LabelSet, M: LabelSet>(
    alloc: Global,
    set: &L,
    parents: &[u32],
) -> Result<M, AllocError>
    requires few { length parents.now < 2 ^ 32 }
    requires fits { M.fits (length parents.now) }
    ensures { IfOk result (λ new. M.letters new ≡ relabelled parents.now (L.letters set.now)) }
{
    let mut new = M::none(alloc, parents.len() as u32)?;
    for block in 0..parents.len() {
        put(alloc, &mut new, block as u32, set.contains(parents[block]))?;
    }
    Ok(new)
}

/// Puts a letter into the set where `is_in` says so. It isn't in it before.
fn put<M: LabelSet>(alloc: Global, set: &mut M, letter: u32, is_in: bool) -> Result<(), AllocError>
    requires below { letter < length (M.letters set.old) }
    requires lacking { has (M.letters set.old) letter ≡ false }
    ensures size { OnOk result (length (M.letters set.new) ≡ length (M.letters set.old)) }
    ensures here { OnOk result (has (M.letters set.new) letter ≡ is_in) }
    ensures others { OnOk result ((k : ℕ) → k ≢ letter → has (M.letters set.new) k
        ≡ has (M.letters set.old) k) }
{
    if is_in {
        set.add(alloc, letter)?;
    }
    Ok(())
}

/// The edge by the fine letters that lie in its label.
fn relabelled_edge<L: LabelSet, M: LabelSet>(
    alloc: Global,
    edge: &Edge<L>,
    parents: &[u32],
) -> Result<Edge<M>, AllocError>
    requires few { length parents.now < 2 ^ 32 }
    requires fits { M.fits (length parents.now) }
    ensures { IfOk result (λ new. move_of M.letters new
        ≡ relabelled_move parents.now (move_of L.letters edge.now)) }
{
    match &edge.label {
        Some(set) => Ok(Edge {
            label: Some(relabelled_set(alloc, set, parents)?),
            to: edge.to,
        }),
        None => Ok(Edge {
            label: None,
            to: edge.to,
        }),
    }
}

/// Each of the edges by the fine letters that lie in its label.
fn relabelled_edges<L: LabelSet, M: LabelSet>(
    alloc: Global,
    edges: &[Edge<L>],
    parents: &[u32],
) -> Result<Vec<Edge<M>>, AllocError>
    requires few { length parents.now < 2 ^ 32 }
    requires fits { M.fits (length parents.now) }
    ensures { IfOk result (λ new. map (move_of M.letters) new.items
        ≡ map (relabelled_move parents.now) (map (move_of L.letters) edges.now)) }
{
    let mut new = Vec::with_capacity(alloc, edges.len())?;
    for edge in edges {
        new.push(relabelled_edge(alloc, edge, parents)?)?;
    }
    Ok(new)
}

/// The edges of each state by the fine letters that lie in their labels.
fn relabelled_lists<L: LabelSet, M: LabelSet>(
    alloc: Global,
    lists: &EdgeLists<L>,
    parents: &[u32],
) -> Result<EdgeLists<M>, AllocError>
    requires few { length parents.now < 2 ^ 32 }
    requires fits { M.fits (length parents.now) }
    ensures { IfOk result (λ new. new ≡ map (map (relabelled_move parents.now)) lists.now) }
{
    let edges = relabelled_edges(alloc, &lists.edges, parents)?;
    let starts = Vec::from_slice(alloc, &lists.starts)?;
    Ok(EdgeLists { edges, starts })
}

impl<L: LabelSet> Nfa<L> {
    /// The same words of symbols over a finer partition: the automaton reads the blocks of `from`,
    /// and the result those of `to`. The states are the same, and each is reached by the same words
    /// of symbols. Time: for each edge with a label a look at each block of `to`, and a step for
    /// each state; space: linear in the states and the edges, with their labels.
    pub fn relabel<M: LabelSet>(
        &self,
        alloc: Global,
        from: &Partition,
        to: &Partition,
    ) -> Result<Nfa<M>, AllocError>
        requires refines { Refines to.now from.now }
        requires letters { self.now.letters ≡ block_count from.now }
        requires fits { M.fits (block_count to.now) }
        ensures letters { IfOk result (λ nfa. nfa.letters ≡ block_count to.now) }
        ensures states { IfOk result (λ nfa. states nfa ≡ states self.now) }
        ensures reached { IfOk result (λ nfa. (q : ℕ) (w : List ℕ) →
            All (λ s. s < length to.now) w → Reach nfa q (blocks_of to.now w) ↔
            Reach self.now q (blocks_of from.now w)) }
        ensures language { IfOk result (λ nfa. (w : List ℕ) → All (λ s. s < length to.now) w →
            Accepts nfa (blocks_of to.now w) ↔ Accepts self.now (blocks_of from.now w)) }
    {
        let letters = to.blocks();
        let parents = parents_of(alloc, from, to)?;
        let finals = Vec::from_slice(alloc, &self.finals)?;
        let edges = relabelled_lists(alloc, &self.edges, &parents)?;
        Ok(Nfa {
            letters,
            start: self.start,
            finals,
            edges,
        })
    }
}
