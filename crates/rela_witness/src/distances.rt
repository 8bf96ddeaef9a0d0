//! How far states are from final ones.
ghost use Rattle.std.specs.Prelude.{◌≡◌, ℕ, IfOk, OnOk, [], Contains, length, vec_len};
ghost use Rattle.rela_nfa.specs.Automaton.{states, IsFinal};
ghost use Rattle.rela_witness.specs.Finishing.{AreDistances};
ghost use Rattle.rela_witness.specs.Linked.{IsLinked};
ghost use Rattle.rela_witness.specs.Numbered.{HasNumber, Grows, After, IsDone};

use crate::links::Links;
use crate::numbers::{close, enter, enter_all};
use crate::sources::{Kind, sources};
use rela_labels::LabelSet;
use rela_nfa::Nfa;
use std::alloc::{AllocError, Global};

/// For each state the distance to the final ones: the least number of letters of a word that leads
/// from it to one of them, and `None` where no word does. The search goes back from the final
/// states in layers of equal distance: a silent edge stays in a layer and any other leads to the
/// next. Time and space: linear in the states and the edges.
pub(crate) fn distances<L: LabelSet>(
    alloc: Global,
    a: &Nfa<L>,
) -> Result<Vec<Option<usize>>, AllocError>
    ensures count { IfOk result (λ numbers. vec_len numbers ≡ states a.now) }
    ensures distances { IfOk result (λ numbers. AreDistances a.now numbers.items) }
{
    let silent = sources(alloc, a, Kind::Silent)?;
    let lettered = sources(alloc, a, Kind::Lettered)?;
    let mut numbers = vec![in alloc; None; a.states()]?;
    let mut layer = Vec::new(alloc);
    enter_finals(a, &mut numbers, &mut layer)?;
    let mut distance = 0;
    while !layer.is_empty() {
        close(&mut numbers, &mut layer, &silent, distance)?;
        distance += 1;
        layer = next_layer(alloc, &mut numbers, &layer, &lettered, distance)?;
    }
    Ok(numbers)
}

/// Enters the final states, with the number 0.
fn enter_finals<L: LabelSet>(
    a: &Nfa<L>,
    numbers: &mut Vec<Option<usize>>,
    layer: &mut Vec<usize>,
) -> Result<(), AllocError>
    requires { vec_len numbers.old ≡ states a.now }
    ensures grows { OnOk result (Grows (IsFinal a.now) 0 numbers.old.items numbers.new.items
        layer.old.items layer.new.items) }
    ensures entered { OnOk result ((q : ℕ) → IsFinal a.now q → HasNumber numbers.new.items q) }
{
    for q in 0..a.states() {
        if a.is_final(q) {
            enter(numbers, layer, q, 0)?;
        }
    }
    Ok(())
}

/// The layer of those states to which the links lead from this one and that have no number yet.
/// They get this number.
fn next_layer(
    alloc: Global,
    numbers: &mut Vec<Option<usize>>,
    layer: &[usize],
    links: &Links,
    number: usize,
) -> Result<Vec<usize>, AllocError>
    requires states { length links.now ≡ vec_len numbers.old }
    requires layer { (q : ℕ) → Contains layer.now q → HasNumber numbers.old.items q }
    ensures grows { IfOk result (λ next. Grows (After (IsLinked links.now) layer.now) number
        numbers.old.items numbers.new.items [] next.items) }
    ensures done { IfOk result (λ _. IsDone (IsLinked links.now) numbers.new.items layer.now) }
{
    let mut next = Vec::new(alloc);
    for q in layer {
        enter_all(numbers, &mut next, links.ends(*q), number)?;
    }
    Ok(next)
}
