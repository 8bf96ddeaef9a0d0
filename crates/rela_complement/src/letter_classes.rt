//! Which letters an automaton and a set of letters do not tell apart.
ghost use Rattle.std.specs.Prelude.{◌≡◌, ◌≤◌, All, IfOk, OnOk, length, map};
ghost use Rattle.std.specs.Option.{ForSome};
ghost use Rattle.rela_nfa.specs.Relabelling.{Refines};
ghost use Rattle.rela_nfa.specs.Stored.{move_of};
ghost use Rattle.rela_complement.specs.Merging.{AreUnions, HaveUnions, IsUnion};

use crate::members::members_of;
use rela_labels::{Partition, Splitter, WideSet};
use rela_nfa::{Edge, Nfa};
use std::alloc::{AllocError, Global};

/// The classes of the automaton's letters: two share one where no label of its edges, nor the set,
/// has one of them alone. They are numbered in the order of their least letters. Time: linear in the
/// states, the edges and the letters, with a look at each letter for each label that has more than
/// one letter. The only error is want of memory.
pub(crate) fn letter_classes(
    alloc: Global,
    part: &Nfa<WideSet>,
    over: &WideSet,
) -> Result<Partition, AllocError>
    requires some { 1 ≤ part.now.letters }
    requires letters { length over.now ≡ part.now.letters }
    ensures letters { IfOk result (λ classes. length classes ≡ part.now.letters) }
    ensures over { IfOk result (λ classes. IsUnion classes over.now) }
    ensures labels { IfOk result (λ classes. AreUnions classes part.now) }
{
    let whole = Partition::new(alloc, part.letters())?;
    let mut splitter = Splitter::of(alloc, &whole)?;
    split_by_set(alloc, &mut splitter, over)?;
    split_by_labels(alloc, &mut splitter, part)?;
    splitter.into_partition(alloc)
}

/// Splits each block into the letters of the set and the others. The only error is want of memory.
fn split_by_set(alloc: Global, splitter: &mut Splitter, set: &WideSet) -> Result<(), AllocError>
    requires { length set.now ≡ length splitter.old }
    ensures symbols { length splitter.new ≡ length splitter.old }
    ensures refines { OnOk result (Refines splitter.new splitter.old) }
    ensures union { OnOk result (IsUnion splitter.new set.now) }
{
    let members = members_of(alloc, set)?;
    splitter.split(alloc, &members)
}

/// Splits each block by each label of the automaton. The only error is want of memory.
fn split_by_labels(
    alloc: Global,
    splitter: &mut Splitter,
    part: &Nfa<WideSet>,
) -> Result<(), AllocError>
    requires { length splitter.old ≡ part.now.letters }
    ensures symbols { length splitter.new ≡ length splitter.old }
    ensures refines { OnOk result (Refines splitter.new splitter.old) }
    ensures unions { OnOk result (AreUnions splitter.new part.now) }
{
    for q in 0..part.states() {
        split_by_edges(alloc, splitter, part.edges(q))?;
    }
    Ok(())
}

/// Splits each block by each label of the edges. The only error is want of memory.
fn split_by_edges(
    alloc: Global,
    splitter: &mut Splitter,
    edges: &[Edge<WideSet>],
) -> Result<(), AllocError>
    requires { All (λ edge. ForSome edge.label (λ set. length set ≡ length splitter.old))
        edges.now }
    ensures symbols { length splitter.new ≡ length splitter.old }
    ensures refines { OnOk result (Refines splitter.new splitter.old) }
    ensures unions { OnOk result (HaveUnions splitter.new (map (move_of (λ set. set))
        edges.now)) }
{
    for edge in edges {
        split_by_edge(alloc, splitter, edge)?;
    }
    Ok(())
}

/// Splits each block by the label of the edge, where it has one. The only error is want of memory.
fn split_by_edge(
    alloc: Global,
    splitter: &mut Splitter,
    edge: &Edge<WideSet>,
) -> Result<(), AllocError>
    requires { ForSome edge.now.label (λ set. length set ≡ length splitter.old) }
    ensures symbols { length splitter.new ≡ length splitter.old }
    ensures refines { OnOk result (Refines splitter.new splitter.old) }
    ensures union { OnOk result (ForSome edge.now.label (IsUnion splitter.new)) }
{
    match &edge.label {
        Some(label) => split_by_set(alloc, splitter, label),
        None => Ok(()),
    }
}
