//! Automata without silent detours.
ghost use Rattle.std.specs.Prelude.{◌≡◌, ℕ, ◌<◌, ◌↔◌, ◌++◌, false, List, None, IfOk, OnOk, Contains, length, map, slice_index};
ghost use Rattle.std.specs.List.{All, range_with_len};
ghost use Rattle.rela_nfa.specs.Automaton.{IsAutomaton, Move, moves_of, states};
ghost use Rattle.rela_nfa.specs.Detours.{IsDirect, IsEnd, direct_moves, is_step, only_labelled, pulled, redirected};
ghost use Rattle.rela_nfa.specs.Runs.{Accepts, HasStep, Reach};
ghost use Rattle.rela_nfa.specs.Stored.{move_of};

use crate::detours::detour_ends;
use crate::edge::Edge;
use crate::edge_lists::EdgeLists;
use crate::nfa::Nfa;
use rela_labels::LabelSet;
use std::alloc::{AllocError, Global};

/// Whether there is one edge, and it has a label.
fn only_labelled<L: LabelSet>(edges: &[Edge<L>]) -> bool
    ensures { result ≡ only_labelled (map (move_of L.letters) edges.now) }
{
    match edges {
        [edge] => edge.label.is_some(),
        _ => false,
    }
}

/// Whether the state is not final, and its only edge has a label.
fn is_step<L: LabelSet>(nfa: &Nfa<L>, q: usize) -> bool
    requires { q < states nfa.now }
    ensures { result ≡ is_step nfa.now q }
{
    !nfa.is_final(q) && only_labelled(nfa.edges(q))
}

/// The edge itself; where it is silent and `end`, the end of its detours, is a step, the edge of
/// that step.
fn pulled<'a, L: LabelSet>(nfa: &'a Nfa<L>, end: usize, edge: &'a Edge<L>) -> &'a Edge<L>
    requires state { end < states nfa.now }
    requires lead { edge.now.to < states nfa.now }
    ensures pulled { move_of L.letters result.now
        ≡ pulled nfa.now end (move_of L.letters edge.now) }
    ensures lead { result.now.to < states nfa.now }
{
    if edge.label.is_none() && is_step(nfa, end) {
        &nfa.edges(end)[0]
    } else {
        edge
    }
}

/// A copy of the edge that leads on at once to the end of the detours that it led to.
fn redirected<L: LabelSet>(
    alloc: Global,
    ends: &[usize],
    edge: &Edge<L>,
) -> Result<Edge<L>, AllocError>
    requires { edge.now.to < length ends.now }
    ensures { IfOk result (λ new. move_of L.letters new
        ≡ redirected ends.now (move_of L.letters edge.now)) }
{
    let to = ends[edge.to];
    match &edge.label {
        Some(set) => Ok(Edge {
            label: Some(set.copy(alloc)?),
            to,
        }),
        None => Ok(Edge { label: None, to }),
    }
}

/// Adds the edges of the state, each of which leads on past detours at once.
fn add_direct<L: LabelSet>(
    alloc: Global,
    direct: &mut Vec<Edge<L>>,
    nfa: &Nfa<L>,
    ends: &[usize],
    q: usize,
) -> Result<(), AllocError>
    requires state { q < states nfa.now }
    requires count { length ends.now ≡ states nfa.now }
    requires ends { All (λ end. end < states nfa.now) ends.now }
    ensures { OnOk result (map (move_of L.letters) direct.new.items
        ≡ map (move_of L.letters) direct.old.items ++ direct_moves nfa.now ends.now q) }
{
    let edges = nfa.edges(q);
    for edge in edges {
        let edge = pulled(nfa, ends[edge.to], edge);
        direct.push(redirected(alloc, ends, edge)?)?;
    }
    Ok(())
}

/// The edges of each state, each of which leads on past detours at once.
fn direct_lists<L: LabelSet>(
    alloc: Global,
    nfa: &Nfa<L>,
    ends: &[usize],
) -> Result<EdgeLists<L>, AllocError>
    requires count { length ends.now ≡ states nfa.now }
    requires ends { All (λ end. end < states nfa.now) ends.now }
    ensures { IfOk result (λ edges. edges
        ≡ map (direct_moves nfa.now ends.now) (range_with_len 0 (states nfa.now))) }
{
    let mut edges = EdgeLists::with_capacity(alloc, nfa.states(), nfa.edge_count())?;
    let mut direct = Vec::new(alloc);
    for q in 0..nfa.states() {
        add_direct(alloc, &mut direct, nfa, ends, q)?;
        edges.push(&mut direct)?;
    }
    Ok(edges)
}

/// The automaton, of which the start and each edge lead on past detours at once.
fn direct<L: LabelSet>(alloc: Global, nfa: &Nfa<L>, ends: &[usize]) -> Result<Nfa<L>, AllocError>
    requires count { length ends.now ≡ states nfa.now }
    requires ends { All (λ end. end < states nfa.now) ends.now }
    ensures direct { IfOk result (λ direct. IsDirect nfa.now ends.now direct) }
    ensures automaton { IfOk result (λ _. IsAutomaton nfa.now) }
{
    let finals = Vec::from_slice(alloc, &nfa.finals)?;
    let edges = direct_lists(alloc, nfa, ends)?;
    Ok(Nfa {
        letters: nfa.letters(),
        start: ends[nfa.start()],
        finals,
        edges,
    })
}

impl<L: LabelSet> Nfa<L> {
    /// The same language, without silent detours. A state is a detour if it is not final and its
    /// only edge is silent, and a step if it is not final and its only edge has a label. Each edge,
    /// and the start, leads to the end of the chain of detours that it led to; where silent edges
    /// lead in a circle, to some state of it. Then each silent edge to a step gives way to a copy
    /// of the edge of that step. The states keep their numbers, and each has as many edges as
    /// before. It is the removal of silent edges (M. Mohri, *Generic epsilon-removal and input
    /// epsilon-normalization algorithms for weighted transducers*, 2002) where it adds no edge.
    /// Time and space: linear in the states and the edges, however long the chains; the label of
    /// each edge is copied.
    pub fn shortened(&self, alloc: Global) -> Result<Nfa<L>, AllocError>
        ensures letters { IfOk result (λ nfa. nfa.letters ≡ self.now.letters) }
        ensures states { IfOk result (λ nfa. states nfa ≡ states self.now) }
        ensures finals { IfOk result (λ nfa. nfa.finals ≡ self.now.finals) }
        ensures edges { IfOk result (λ nfa. (p : ℕ) → length (moves_of nfa p)
            ≡ length (moves_of self.now p)) }
        ensures begins { IfOk result (λ nfa. IsEnd self.now nfa.start) }
        ensures direct { IfOk result (λ nfa. (p : ℕ) (move : Move) →
            Contains (moves_of nfa p) move → IsEnd self.now move.to) }
        ensures pulled { IfOk result (λ nfa. (p q : ℕ) → HasStep nfa p None q →
            is_step self.now q ≡ false) }
        ensures reached { IfOk result (λ nfa. (q : ℕ) (w : List ℕ) → Reach nfa q w →
            Reach self.now q w) }
        ensures language { IfOk result (λ nfa. (w : List ℕ) → Accepts nfa w ↔ Accepts self.now w) }
    {
        let ends = detour_ends(alloc, self)?;
        let nfa = direct(alloc, self, &ends)?;
        Ok(nfa)
    }
}
