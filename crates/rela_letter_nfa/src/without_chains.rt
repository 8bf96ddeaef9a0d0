//! Automata without silent chains.
ghost use Rattle.std.specs.Prelude.{◌≡◌, ℕ, ◌<◌, ◌↔◌, ◌++◌, [], false, List, Option, None, IfOk, OnOk, length, map, slice_index};
ghost use Rattle.std.specs.List.{All, flat_map, range_with_len};
ghost use Rattle.rela_letter_nfa.specs.Chains.{IsDirect, IsEnd, direct_edges, direct_silents, is_single, moved, pulled_edges};
ghost use Rattle.rela_letter_nfa.specs.LetterAutomaton.{IsLetterAutomaton, silents_of, states};
ghost use Rattle.rela_letter_nfa.specs.Runs.{Accepts, HasStep};

use crate::chains::chain_ends;
use crate::edge::LetterEdge;
use crate::lists::Lists;
use crate::nfa::LetterNfa;
use std::alloc::{AllocError, Global};

/// Whether the state isn't final, and its only step is an edge.
fn is_single(nfa: &LetterNfa, q: u32) -> bool
    requires { q < states nfa.now }
    ensures { result ≡ is_single nfa.now q }
{
    !nfa.is_final(q) && nfa.silent(q).is_empty() && nfa.edges(q).len() == 1
}

/// Puts the edges behind the others, each of which leads on at once to the end of the chain that
/// stands for the state to which it led.
fn push_moved(
    edges: &mut Lists<LetterEdge>,
    others: &[LetterEdge],
    ends: &[u32],
) -> Result<(), AllocError>
    requires { All (λ edge. edge.to < length ends.now) others.now }
    ensures { OnOk result (edges.new ≡ (
      edges.old.0,
      edges.old.1
          ++ map (moved ends.now) others.now,
    )) }
{
    for edge in others {
        edges.push(LetterEdge {
            letter: edge.letter,
            to: ends[edge.to as usize],
        })?;
    }
    Ok(())
}

/// Puts what remains of the silent steps of the state behind the others, each of which leads on at
/// once: none to a state with a single edge.
fn push_kept(
    silents: &mut Lists<u32>,
    nfa: &LetterNfa,
    ends: &[u32],
    q: u32,
) -> Result<(), AllocError>
    requires state { q < states nfa.now }
    requires count { length ends.now ≡ states nfa.now }
    requires ends { All (λ end. end < states nfa.now) ends.now }
    ensures { OnOk result (silents.new ≡ (
      silents.old.0,
      silents.old.1
          ++ direct_silents nfa.now ends.now q,
    )) }
{
    for to in nfa.silent(q) {
        let end = ends[*to as usize];
        if !is_single(nfa, end) {
            silents.push(end)?;
        }
    }
    Ok(())
}

/// Puts the edges behind the others that stand in place of silent steps of the state, to states
/// with a single edge.
fn push_pulled(
    edges: &mut Lists<LetterEdge>,
    nfa: &LetterNfa,
    ends: &[u32],
    q: u32,
) -> Result<(), AllocError>
    requires state { q < states nfa.now }
    requires count { length ends.now ≡ states nfa.now }
    requires ends { All (λ end. end < states nfa.now) ends.now }
    ensures { OnOk result (edges.new ≡ (
      edges.old.0,
      edges.old.1
          ++ flat_map (pulled_edges nfa.now ends.now) (silents_of nfa.now q),
    )) }
{
    for to in nfa.silent(q) {
        let end = ends[*to as usize];
        if is_single(nfa, end) {
            push_moved(edges, nfa.edges(end), ends)?;
        }
    }
    Ok(())
}

/// The silent steps of each state, which lead on at once.
fn direct_silents(alloc: Global, nfa: &LetterNfa, ends: &[u32]) -> Result<Lists<u32>, AllocError>
    requires count { length ends.now ≡ states nfa.now }
    requires ends { All (λ end. end < states nfa.now) ends.now }
    ensures { IfOk result (λ silents. silents
        ≡ (map (direct_silents nfa.now ends.now) (range_with_len 0 (states nfa.now)), [])) }
{
    let count = nfa.states() as u32;
    let mut silents = Lists::with_capacity(alloc, count as usize, nfa.silents.items())?;
    for q in 0..count {
        push_kept(&mut silents, nfa, ends, q)?;
        silents.close()?;
    }
    Ok(silents)
}

/// The edges of each state, which lead on at once.
fn direct_edges(
    alloc: Global,
    nfa: &LetterNfa,
    ends: &[u32],
) -> Result<Lists<LetterEdge>, AllocError>
    requires count { length ends.now ≡ states nfa.now }
    requires ends { All (λ end. end < states nfa.now) ends.now }
    ensures { IfOk result (λ edges. edges
        ≡ (map (direct_edges nfa.now ends.now) (range_with_len 0 (states nfa.now)), [])) }
{
    let count = nfa.states() as u32;
    let room = nfa.edges.items().saturating_add(nfa.silents.items());
    let mut edges = Lists::with_capacity(alloc, count as usize, room)?;
    for q in 0..count {
        push_moved(&mut edges, nfa.edges(q), ends)?;
        push_pulled(&mut edges, nfa, ends, q)?;
        edges.close()?;
    }
    Ok(edges)
}

/// The automaton, of which the start and each step lead on at once to the end of a chain.
fn direct(alloc: Global, nfa: &LetterNfa, ends: &[u32]) -> Result<LetterNfa, AllocError>
    requires count { length ends.now ≡ states nfa.now }
    requires ends { All (λ end. end < states nfa.now) ends.now }
    ensures direct { IfOk result (λ direct. IsDirect nfa.now ends.now direct) }
    ensures automaton { IfOk result (λ _. IsLetterAutomaton nfa.now) }
{
    let start = ends[nfa.start() as usize];
    let finals = Vec::from_slice(alloc, &nfa.finals)?;
    let silents = direct_silents(alloc, nfa, ends)?;
    let edges = direct_edges(alloc, nfa, ends)?;
    Ok(LetterNfa {
        start,
        finals,
        silents,
        edges,
    })
}

impl LetterNfa {
    /// The same language, without silent chains. A state is a link if it isn't final and its only
    /// step is a silent one. The start and each step lead to the end of the chain of links that they
    /// led to; where links lead in a circle, to some state of it. Each silent step to a state that
    /// isn't final and whose only step is an edge gives way to that edge. The states keep their
    /// numbers, and each has as many steps as before. It is the removal of silent steps (M. Mohri,
    /// *Generic epsilon-removal and input epsilon-normalization algorithms for weighted
    /// transducers*, 2002) where it adds no step. Time and space: linear in the states, the silent
    /// steps and the edges, however long the chains.
    pub fn without_silent_chains(&self, alloc: Global) -> Result<LetterNfa, AllocError>
        ensures finals { IfOk result (λ nfa. nfa.finals ≡ self.now.finals) }
        ensures begins { IfOk result (λ nfa. IsEnd self.now nfa.start) }
        ensures direct { IfOk result (λ nfa. (p q : ℕ) (letter : Option ℕ) →
            HasStep nfa p letter q → IsEnd self.now q) }
        ensures pulled { IfOk result (λ nfa. (p q : ℕ) → HasStep nfa p None q →
            is_single self.now q ≡ false) }
        ensures language { IfOk result (λ nfa. (w : List ℕ) → Accepts nfa w ↔ Accepts self.now w) }
    {
        let ends = chain_ends(alloc, self)?;
        let nfa = direct(alloc, self, &ends)?;
        Ok(nfa)
    }
}
