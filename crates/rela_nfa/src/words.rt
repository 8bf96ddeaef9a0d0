//! The automata of no word, of the empty word, of words of one letter, and of one word.
ghost use Rattle.std.specs.Prelude.{◌≡◌, ℕ, ◌+◌, ◌^◌, ◌<◌, ◌≤◌, ◌↔◌, true, List, [], ◌∷◌, ◌++◌, IfOk, OnOk, length, map, take};
ghost use Rattle.std.specs.List.{All};
ghost use Rattle.rela_nfa.specs.Automaton.{states};
ghost use Rattle.rela_nfa.specs.Construction.{single, link_by, links, IsChain};
ghost use Rattle.rela_nfa.specs.Languages.{IsLetterOf};
ghost use Rattle.rela_nfa.specs.Runs.{Reach, Accepts};

use crate::copying::one_letter;
use crate::edge::Edge;
use crate::edge_lists::EdgeLists;
use crate::nfa::Nfa;
use rela_labels::LabelSet;
use std::alloc::{AllocError, Global};

impl<L: LabelSet> Nfa<L> {
    /// The automaton of no word at all: one state, which isn't final, and no edge.
    pub fn none(alloc: Global, letters: u32) -> Result<Nfa<L>, AllocError>
        requires { L.fits letters }
        ensures letters { IfOk result (λ nfa. nfa.letters ≡ letters) }
        ensures states { IfOk result (λ nfa. states nfa ≡ 1) }
        ensures start { IfOk result (λ nfa. (w : List ℕ) → Reach nfa 0 w ↔ (w ≡ [])) }
        ensures language { IfOk result (λ nfa. (w : List ℕ) → ¬ Accepts nfa w) }
    {
        one_state(alloc, letters, false)
    }

    /// The automaton of the empty word alone: one state, which is final, and no edge.
    pub fn empty_word(alloc: Global, letters: u32) -> Result<Nfa<L>, AllocError>
        requires { L.fits letters }
        ensures letters { IfOk result (λ nfa. nfa.letters ≡ letters) }
        ensures states { IfOk result (λ nfa. states nfa ≡ 1) }
        ensures start { IfOk result (λ nfa. (w : List ℕ) → Reach nfa 0 w ↔ (w ≡ [])) }
        ensures language { IfOk result (λ nfa. (w : List ℕ) → Accepts nfa w ↔ (w ≡ [])) }
    {
        one_state(alloc, letters, true)
    }

    /// Each word of one letter that is in the set. State 0 is the start, and state 1 the end. The
    /// set is copied.
    pub fn class(alloc: Global, letters: u32, set: &L) -> Result<Nfa<L>, AllocError>
        requires fits { L.fits letters }
        requires sized { length (L.letters set.now) ≡ letters }
        ensures letters { IfOk result (λ nfa. nfa.letters ≡ letters) }
        ensures states { IfOk result (λ nfa. states nfa ≡ 2) }
        ensures start { IfOk result (λ nfa. (w : List ℕ) → Reach nfa 0 w ↔ (w ≡ [])) }
        ensures end { IfOk result (λ nfa. (w : List ℕ) → Reach nfa 1 w ↔
            IsLetterOf (L.letters set.now) w) }
        ensures language { IfOk result (λ nfa. (w : List ℕ) → Accepts nfa w ↔
            IsLetterOf (L.letters set.now) w) }
    {
        let finals = Vec::from_slice(alloc, &[false, true])?;
        let edges = edges_of_letter(alloc, set.copy(alloc)?)?;
        Ok(Nfa {
            letters,
            start: 0,
            finals,
            edges,
        })
    }

    /// This word alone. State `i` is reached by its first `i` letters. Time and space: linear in
    /// the word, with a label of one letter for each.
    pub fn word(alloc: Global, letters: u32, word: &[u32]) -> Result<Nfa<L>, AllocError>
        requires fits { L.fits letters }
        requires letters { All (λ k. k < letters) word.now }
        ensures letters { IfOk result (λ nfa. nfa.letters ≡ letters) }
        ensures states { IfOk result (λ nfa. states nfa ≡ length word.now + 1) }
        ensures reached { IfOk result (λ nfa. (q : ℕ) (w : List ℕ) → Reach nfa q w ↔
            ((q ≤ length word.now) × (w ≡ take q word.now))) }
        ensures language { IfOk result (λ nfa. (w : List ℕ) → Accepts nfa w ↔ (w ≡ word.now)) }
    {
        let mut finals = vec![in alloc; false; word.len()]?;
        finals.push(true)?;
        let edges = edges_of_word(alloc, letters, word)?;
        Ok(Nfa {
            letters,
            start: 0,
            finals,
            edges,
        })
    }
}

/// The edges of two states: one from the first to the second by a letter of the set, and none from
/// the second.
fn edges_of_letter<L: LabelSet>(alloc: Global, set: L) -> Result<EdgeLists<L>, AllocError>
    ensures { IfOk result (λ edges. edges ≡ links (L.letters set ∷ [])) }
{
    let mut leaving = Vec::new(alloc);
    leaving.push(Edge {
        label: Some(set),
        to: 1,
    })?;
    let mut edges = EdgeLists::with_capacity(alloc, 2, 1)?;
    edges.push(&mut leaving)?;
    // The vector is empty now.
    edges.push(&mut leaving)?;
    Ok(edges)
}

/// The edges of a state for each letter, one to the next state by that letter alone, and of a last
/// state that none leaves.
fn edges_of_word<L: LabelSet>(
    alloc: Global,
    letters: u32,
    word: &[u32],
) -> Result<EdgeLists<L>, AllocError>
    requires fits { L.fits letters }
    requires letters { All (λ k. k < letters) word.now }
    ensures { IfOk result (λ edges. edges ≡ links (map (single letters) word.now)) }
{
    let mut edges = EdgeLists::with_capacity(alloc, word.len(), word.len())?;
    let mut leaving = Vec::new(alloc);
    for letter in word {
        let set = one_letter(alloc, letters, *letter)?;
        add_link(&mut edges, &mut leaving, set)?;
    }
    edges.push(&mut leaving)?;
    Ok(edges)
}

/// Adds a state and an edge from it to the next by a letter of the set. The vector is empty before and
/// after.
fn add_link<L: LabelSet>(
    edges: &mut EdgeLists<L>,
    leaving: &mut Vec<Edge<L>>,
    set: L,
) -> Result<(), AllocError>
    requires room { length edges.old < 2 ^ 63 }
    requires empty { leaving.old.items ≡ [] }
    ensures edges { OnOk result (edges.new ≡ edges.old ++ link_by (L.letters set) (length edges.old)
        ∷ []) }
    ensures empty { OnOk result (leaving.new.items ≡ []) }
{
    let next = edges.len() + 1;
    leaving.push(Edge {
        label: Some(set),
        to: next,
    })?;
    edges.push(leaving)?;
    Ok(())
}

/// The automaton of one state and no edge.
fn one_state<L: LabelSet>(alloc: Global, letters: u32, is_final: bool) -> Result<Nfa<L>, AllocError>
    requires { L.fits letters }
    ensures letters { IfOk result (λ nfa. nfa.letters ≡ letters) }
    ensures chain { IfOk result (λ nfa. IsChain [] is_final nfa) }
{
    let finals = Vec::from_slice(alloc, &[is_final])?;
    let edges = no_edges(alloc)?;
    Ok(Nfa {
        letters,
        start: 0,
        finals,
        edges,
    })
}

/// The lists of edges of one state that none leaves.
fn no_edges<L: LabelSet>(alloc: Global) -> Result<EdgeLists<L>, AllocError>
    ensures { IfOk result (λ edges. edges ≡ [] ∷ []) }
{
    let mut edges = EdgeLists::with_capacity(alloc, 1, 0)?;
    let mut leaving = Vec::new(alloc);
    edges.push(&mut leaving)?;
    Ok(edges)
}
