//! Words spelled forwards, through states of falling distance.
ghost use Rattle.std.specs.Prelude.{◌≡◌, ℕ, ◌<◌, ◌↔◌, IsTrue, true, IfOk, OnOk, [], Some, None, Contains, length, vec_len};
ghost use Rattle.std.specs.List.{All};
ghost use Rattle.rela_nfa.specs.Automaton.{states};
ghost use Rattle.rela_nfa.specs.Stored.{move_of};
ghost use Rattle.rela_nfa.specs.Reading.{takes};
ghost use Rattle.rela_witness.specs.Finishing.{LeadsTo};
ghost use Rattle.rela_witness.specs.Numbered.{number_of, HasNumber, IsLayer, Grows, Spread, After, IsDone};

use crate::numbers::enter;
use rela_labels::LabelSet;
use rela_nfa::{Edge, Nfa};
use std::alloc::{AllocError, Global};

/// Whether the edge may be taken by the letter, or is silent where there is none.
fn takes<L: LabelSet>(edge: &Edge<L>, letter: Option<u32>) -> bool
    ensures { result ≡ takes (move_of L.letters edge.now).label letter }
{
    match (&edge.label, letter) {
        (None, None) => true,
        (Some(set), Some(k)) => set.contains(k),
        (None, Some(_)) => false,
        (Some(_), None) => false,
    }
}

/// Whether the edge may be taken by the letter, or is silent where there is none, and leads to a
/// state of the distance.
fn leads<L: LabelSet>(
    edge: &Edge<L>,
    letter: Option<u32>,
    distances: &[Option<usize>],
    distance: usize,
) -> bool
    requires { edge.now.to < length distances.now }
    ensures { IsTrue result ↔ ((takes (move_of L.letters edge.now).label letter ≡ true)
        × (number_of distances.now edge.now.to ≡ Some distance)) }
{
    takes(edge, letter) && distances[edge.to] == Some(distance)
}

/// Enters the states of the distance to which edges lead from `p` by the letter, or silently where
/// there is none, with the distance as their number, unless they have one.
fn enter_ends<L: LabelSet>(
    a: &Nfa<L>,
    distances: &[Option<usize>],
    numbers: &mut Vec<Option<usize>>,
    layer: &mut Vec<usize>,
    p: usize,
    letter: Option<u32>,
    distance: usize,
) -> Result<(), AllocError>
    requires state { p < states a.now }
    requires distances { length distances.now ≡ states a.now }
    requires numbers { vec_len numbers.old ≡ states a.now }
    ensures grows { OnOk result (Grows (LeadsTo a.now distances.now distance letter p) distance
        numbers.old.items numbers.new.items layer.old.items layer.new.items) }
    ensures entered { OnOk result ((q : ℕ) → LeadsTo a.now distances.now distance letter p q →
        HasNumber numbers.new.items q) }
{
    for edge in a.edges(p) {
        if leads(edge, letter, distances, distance) {
            enter(numbers, layer, edge.to, distance)?;
        }
    }
    Ok(())
}

/// Puts into the layer the states of its distance to which silent edges lead from it, step by step.
pub(crate) fn close_onward<L: LabelSet>(
    a: &Nfa<L>,
    distances: &[Option<usize>],
    numbers: &mut Vec<Option<usize>>,
    layer: &mut Vec<usize>,
    distance: usize,
) -> Result<(), AllocError>
    requires distances { length distances.now ≡ states a.now }
    requires numbers { vec_len numbers.old ≡ states a.now }
    requires layer { IsLayer distance numbers.old.items layer.old.items }
    ensures grows { OnOk result (Grows (Spread (LeadsTo a.now distances.now distance None)
        (Contains layer.old.items)) distance numbers.old.items numbers.new.items layer.old.items
        layer.new.items) }
    ensures done { OnOk result (IsDone (LeadsTo a.now distances.now distance None) numbers.new.items
        layer.new.items) }
{
    // The layer is a queue: what the states before `done` lead to has been entered.
    let mut done = 0;
    while done < layer.len() {
        let q = layer[done];
        enter_ends(a, distances, numbers, layer, q, None, distance)?;
        done += 1;
    }
    Ok(())
}

/// The layer of the states of the distance to which edges lead from these by the letter, and that
/// have no number yet.
pub(crate) fn layer_after<L: LabelSet>(
    alloc: Global,
    a: &Nfa<L>,
    distances: &[Option<usize>],
    numbers: &mut Vec<Option<usize>>,
    layer: &[usize],
    letter: u32,
    distance: usize,
) -> Result<Vec<usize>, AllocError>
    requires distances { length distances.now ≡ states a.now }
    requires numbers { vec_len numbers.old ≡ states a.now }
    requires states { All (λ q. q < states a.now) layer.now }
    ensures grows { IfOk result (λ next.
        Grows (After (LeadsTo a.now distances.now distance (Some letter)) layer.now) distance
        numbers.old.items numbers.new.items [] next.items) }
    ensures done { IfOk result (λ _. IsDone (LeadsTo a.now distances.now distance (Some letter))
        numbers.new.items layer.now) }
{
    let mut next = Vec::new(alloc);
    for q in layer {
        enter_ends(a, distances, numbers, &mut next, *q, Some(letter), distance)?;
    }
    Ok(next)
}
