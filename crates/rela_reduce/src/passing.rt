//! Automata whose edges lead past states that they would pass silently.
ghost use Rattle.std.specs.Prelude.{◌≡◌, ℕ, ◌<◌, ◌↔◌, ◌++◌, [], ◌∷◌, Some, List, false, IsTrue, IfOk, OnOk, length, map, slice_index, slice_index_or};
ghost use Rattle.std.specs.List.{All};
ghost use Rattle.rela_nfa.specs.Automaton.{IsFinal, states};
ghost use Rattle.rela_nfa.specs.Construction.{silent};
ghost use Rattle.rela_nfa.specs.Detours.{IsDetour, redirected};
ghost use Rattle.rela_nfa.specs.Runs.{Accepts};
ghost use Rattle.rela_nfa.specs.Stored.{move_of};
ghost use Rattle.rela_reduce.specs.Apart.{AreApart, ReachSame};
ghost use Rattle.rela_reduce.specs.Passing.{ArePast, IsPast};

use rela_labels::LabelSet;
use rela_nfa::{Edge, EdgeLists, Nfa};
use std::alloc::{AllocError, Global};

/// The automaton with the same states, of which the start and each edge lead past detours at once.
/// A state is a detour if it is not final and its only edge is silent; the parts of an automaton
/// that was built of a term are joined by them (K. Thompson's construction, 1968). One that leads to
/// another detour is not passed. No word reaches a detour that is passed: so the sets of states that
/// words reach are as many as before at most, and smaller. Time and space: linear in the states and
/// the edges, whose labels are copied.
pub fn past_detours<L: LabelSet>(alloc: Global, a: &Nfa<L>) -> Result<Nfa<L>, AllocError>
    ensures letters { IfOk result (λ nfa. nfa.letters ≡ a.now.letters) }
    ensures language { IfOk result (λ nfa. (w : List ℕ) → Accepts nfa w ↔ Accepts a.now w) }
    ensures same { IfOk result (λ nfa. (v w : List ℕ) → ReachSame a.now v w → ReachSame nfa v w) }
    ensures apart { IfOk result (λ nfa. (v w : List ℕ) → AreApart nfa v w → AreApart a.now v w) }
{
    let ends = ends_of(alloc, a)?;
    let finals = finals_past(alloc, a, &ends)?;
    let edges = redirected_lists(alloc, a, &ends)?;
    Ok(Nfa::from_lists(a.letters(), ends[a.start()], finals, edges))
}

/// Where the only edge leads, if it is silent, and else `None`.
fn only_silent<L: LabelSet>(edges: &[Edge<L>]) -> Option<usize>
    ensures { (r : ℕ) → result ≡ Some r ↔ map (move_of L.letters) edges.now ≡ silent r ∷ [] }
{
    match edges {
        [edge] if edge.label.is_none() => Some(edge.to),
        _ => None,
    }
}

/// Where the state leads if it is a detour, and else `None`.
fn detour<L: LabelSet>(a: &Nfa<L>, q: usize) -> Option<usize>
    requires { q < states a.now }
    ensures { (r : ℕ) → result ≡ Some r ↔ IsDetour a.now q r }
{
    if a.is_final(q) {
        return None;
    }
    only_silent(a.edges(q))
}

/// Where the state leads if it is a detour, unless to another one, and else the state itself.
fn past<L: LabelSet>(a: &Nfa<L>, q: usize) -> usize
    requires { q < states a.now }
    ensures state { result < states a.now }
    ensures past { IsPast a.now q result }
{
    prove!(a.start() < a.states());
    match detour(a, q) {
        Some(r) => { if detour(a, r).is_none() { r } else { q } }
        None => q,
    }
}

/// For each state the one that is past it.
fn ends_of<L: LabelSet>(alloc: Global, a: &Nfa<L>) -> Result<Vec<usize>, AllocError>
    ensures { IfOk result (λ ends. ArePast a.now ends.items) }
{
    let mut ends = Vec::with_capacity(alloc, a.states())?;
    for q in 0..a.states() {
        ends.push(past(a, q))?;
    }
    Ok(ends)
}

/// For each state whether it is final or passed. No word reaches one that is passed, and since it is
/// final, hardly any other state simulates it.
fn finals_past<L: LabelSet>(
    alloc: Global,
    a: &Nfa<L>,
    ends: &[usize],
) -> Result<Vec<bool>, AllocError>
    requires { length ends.now ≡ states a.now }
    ensures count { IfOk result (λ finals. length finals.items ≡ states a.now) }
    ensures finals { IfOk result (λ finals. (q : ℕ) → q < states a.now → slice_index ends.now q ≡ q
        → IsTrue (slice_index_or finals.items q false) ↔ IsFinal a.now q) }
{
    let mut finals = Vec::with_capacity(alloc, a.states())?;
    for q in 0..a.states() {
        finals.push(is_final_past(a, ends, q))?;
    }
    Ok(finals)
}

/// Whether the state is final or passed.
fn is_final_past<L: LabelSet>(a: &Nfa<L>, ends: &[usize], q: usize) -> bool
    requires state { q < states a.now }
    requires count { length ends.now ≡ states a.now }
    ensures { slice_index ends.now q ≡ q → IsTrue result ↔ IsFinal a.now q }
{
    if ends[q] != q {
        return true;
    }
    a.is_final(q)
}

/// The edges of each state, to the ends that are given for the states to which they lead.
fn redirected_lists<L: LabelSet>(
    alloc: Global,
    a: &Nfa<L>,
    ends: &[usize],
) -> Result<EdgeLists<L>, AllocError>
    requires { length ends.now ≡ states a.now }
    ensures { IfOk result (λ edges. edges ≡ map (map (redirected ends.now)) a.now.edges) }
{
    let mut edges = EdgeLists::with_capacity(alloc, a.states(), a.edge_count())?;
    let mut leaving = Vec::new(alloc);
    for q in 0..a.states() {
        push_redirected(alloc, &mut leaving, a.edges(q), ends)?;
        edges.push(&mut leaving)?;
    }
    Ok(edges)
}

/// Puts copies of the other edges behind these, to the ends that are given.
fn push_redirected<L: LabelSet>(
    alloc: Global,
    edges: &mut Vec<Edge<L>>,
    others: &[Edge<L>],
    ends: &[usize],
) -> Result<(), AllocError>
    requires { All (λ edge. edge.to < length ends.now) others.now }
    ensures { OnOk result (map (move_of L.letters) edges.new.items
        ≡ map (move_of L.letters) edges.old.items
        ++ map (redirected ends.now) (map (move_of L.letters) others.now)) }
{
    for edge in others {
        edges.push(redirected_edge(alloc, edge, ends)?)?;
    }
    Ok(())
}

/// A copy of the edge, to the end that is given.
fn redirected_edge<L: LabelSet>(
    alloc: Global,
    edge: &Edge<L>,
    ends: &[usize],
) -> Result<Edge<L>, AllocError>
    requires { edge.now.to < length ends.now }
    ensures { IfOk result (λ new. move_of L.letters new
        ≡ redirected ends.now (move_of L.letters edge.now)) }
{
    let to = ends[edge.to];
    match &edge.label {
        Some(set) => Ok(Edge {
            label: Some(set.copy(alloc)?),
            to,
        }),
        None => Ok(Edge { label: None, to }),
    }
}
