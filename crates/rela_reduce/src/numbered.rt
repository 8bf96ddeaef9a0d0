//! Automata whose labels are numbered.
ghost use Rattle.std.specs.Prelude.{◌≡◌, ◌<◌, ◌++◌, List, Bool, [], IfOk, length, map, take};
ghost use Rattle.std.specs.List.{All};
ghost use Rattle.std.specs.Option.{ForSome};
ghost use Rattle.rela_nfa.specs.Automaton.{states};
ghost use Rattle.rela_nfa.specs.Stored.{move_of};
ghost use Rattle.rela_reduce.specs.Numbered.{IsPlain, automaton_of, edges_by, labelled};
ghost use Rattle.rela_reduce.specs.Stored.{lists_of, plain};

use crate::arrow::Arrow;
use crate::labels::Labels;
use rela_labels::LabelSet;
use rela_nfa::{Edge, Nfa};
use std::alloc::{AllocError, Global};

/// An automaton whose labels are numbered.
#[derive(Drop)]
pub(crate) struct Numbered {
    /// The number of labels.
    pub(crate) labels: usize,
    /// The state from which runs begin.
    pub(crate) start: usize,
    /// For each state whether it is final.
    pub(crate) finals: Vec<bool>,
    /// The arrows that leave each state.
    pub(crate) arrows: Vec<Vec<Arrow>>,
}

/// The automaton with arrows for its edges, and their labels put with the others. Time: linear in
/// the states and the edges, with a look at each letter for each label.
pub(crate) fn with_numbers<'a, L: LabelSet>(
    alloc: Global,
    a: &'a Nfa<L>,
    labels: &mut Labels<'a, L>,
) -> Result<Numbered, AllocError>
    ensures plain { IfOk result (λ n. IsPlain (plain n)) }
    ensures labels { IfOk result (λ n. n.labels ≡ length labels.new) }
    ensures same { IfOk result (λ n. automaton_of a.now.letters labels.new (plain n) ≡ a.now) }
{
    let finals = finals_of(alloc, a)?;
    let arrows = arrows_of(alloc, a, labels)?;
    Ok(Numbered {
        labels: labels.len(),
        start: a.start(),
        finals,
        arrows,
    })
}

/// For each state whether it is final.
fn finals_of<L: LabelSet>(alloc: Global, a: &Nfa<L>) -> Result<Vec<bool>, AllocError>
    ensures { IfOk result (λ finals. finals.items ≡ a.now.finals) }
{
    let mut finals = Vec::with_capacity(alloc, a.states())?;
    for q in 0..a.states() {
        finals.push(a.is_final(q))?;
    }
    Ok(finals)
}

/// The arrows of each state.
fn arrows_of<'a, L: LabelSet>(
    alloc: Global,
    a: &'a Nfa<L>,
    labels: &mut Labels<'a, L>,
) -> Result<Vec<Vec<Arrow>>, AllocError>
    ensures edges { IfOk result (λ arrows.
        edges_by labels.new (lists_of arrows.items) ≡ a.now.edges) }
    ensures known { IfOk result (λ arrows.
        All (All (λ arrow. ForSome arrow.label (λ k. k < length labels.new)))
        (lists_of arrows.items)) }
{
    let mut lists = Vec::with_capacity(alloc, a.states())?;
    for q in 0..a.states() {
        let list = arrows_for(alloc, a.edges(q), labels)?;
        lists.push(list)?;
    }
    Ok(lists)
}

/// An arrow for each edge.
fn arrows_for<'a, L: LabelSet>(
    alloc: Global,
    edges: &'a [Edge<L>],
    labels: &mut Labels<'a, L>,
) -> Result<Vec<Arrow>, AllocError>
    ensures edges { IfOk result (λ arrows. map (labelled labels.new) arrows.items
        ≡ map (move_of L.letters) edges.now) }
    ensures known { IfOk result (λ arrows.
        All (λ arrow. ForSome arrow.label (λ k. k < length labels.new)) arrows.items) }
    ensures grown { IfOk result (λ _. (more : List (List Bool))
        × (labels.new ≡ labels.old ++ more)) }
{
    let mut arrows = Vec::with_capacity(alloc, edges.len())?;
    for edge in edges {
        let arrow = arrow_for(edge, labels)?;
        arrows.push(arrow)?;
    }
    Ok(arrows)
}

/// An arrow for the edge.
fn arrow_for<'a, L: LabelSet>(
    edge: &'a Edge<L>,
    labels: &mut Labels<'a, L>,
) -> Result<Arrow, AllocError>
    ensures edge { IfOk result (λ arrow. labelled labels.new arrow ≡ move_of L.letters edge.now) }
    ensures known { IfOk result (λ arrow. ForSome arrow.label (λ k. k < length labels.new)) }
    ensures grown { IfOk result (λ _. (more : List (List Bool))
        × (labels.new ≡ labels.old ++ more)) }
{
    let to = edge.to;
    match &edge.label {
        Some(label) => {
            let number = labels.number(label)?;
            Ok(Arrow {
                label: Some(number),
                to,
            })
        }
        None => Ok(Arrow { label: None, to }),
    }
}
