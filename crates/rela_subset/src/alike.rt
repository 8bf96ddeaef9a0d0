//! The letters by which the same edges may be taken.
ghost use Rattle.std.specs.Prelude.{◌≡◌, ℕ, ◌↔◌, ◌&&◌, true, Some, IfOk, IfSome, length, map};
ghost use Rattle.std.specs.List.{All};
ghost use Rattle.std.specs.Option.{ForSome};
ghost use Rattle.rela_labels.specs.Letters.{has};
ghost use Rattle.rela_nfa.specs.Stored.{move_of};
ghost use Rattle.rela_subset.specs.Deterministic.{takes};
ghost use Rattle.rela_subset.specs.Expansion.{AreTakenAlike};

use rela_labels::LabelSet;
use rela_nfa::Edge;
use std::alloc::{AllocError, Global};

/// The letters of the rest that are in one label with this letter, the first of the edges' that has
/// it; all of the rest where none has it. Most labels have few letters, and to narrow few letters
/// down by the other edges costs little.
pub(crate) fn near<L: LabelSet>(
    alloc: Global,
    edges: &[&Edge<L>],
    rest: &L,
    letter: u32,
) -> Result<L, AllocError>
    requires { All (λ edge. ForSome edge.now.label (λ set. length (L.letters set)
        ≡ length (L.letters rest.now))) edges.now }
    ensures size { IfOk result (λ near. length (L.letters near) ≡ length (L.letters rest.now)) }
    ensures within { IfOk result (λ near. (k : ℕ) → has (L.letters near) k ≡ true →
        has (L.letters rest.now) k ≡ true) }
    ensures alike { IfOk result (λ near. (k : ℕ) → has (L.letters rest.now) k ≡ true
        → AreTakenAlike (map (λ edge. move_of L.letters edge.now) edges.now) letter k →
        has (L.letters near) k ≡ true) }
{
    match label_with(edges, letter) {
        Some(label) => rest.meet(alloc, label),
        None => rest.copy(alloc),
    }
}

/// The first label of the edges that has the letter, and `None` where none has.
fn label_with<'a, L: LabelSet>(edges: &[&'a Edge<L>], letter: u32) -> Option<&'a L>
    ensures sized { IfSome result (λ label. (n : ℕ) →
        All (λ edge. ForSome edge.now.label (λ set. length (L.letters set) ≡ n)) edges.now
        → length (L.letters label.now) ≡ n) }
    ensures taken { IfSome result (λ label. (k : ℕ) →
        AreTakenAlike (map (λ edge. move_of L.letters edge.now) edges.now) letter k
        → has (L.letters label.now) k ≡ true) }
{
    for edge in edges {
        if let Some(label) = label_if(edge, letter) {
            return Some(label);
        }
    }
    None
}

/// The label of the edge, if it has the letter, and else `None`.
fn label_if<L: LabelSet>(edge: &Edge<L>, letter: u32) -> Option<&L>
    ensures label { IfSome result (λ label. edge.now.label ≡ Some label.now) }
    ensures has { IfSome result (λ label. has (L.letters label.now) letter ≡ true) }
{
    match &edge.label {
        Some(label) => {
            if label.contains(letter) {
                Some(label)
            } else {
                None
            }
        }
        None => None,
    }
}

/// The letters of the block by which the same edges may be taken as by this letter. Time: a set
/// operation for each edge.
pub(crate) fn narrowed<L: LabelSet>(
    alloc: Global,
    block: L,
    edges: &[&Edge<L>],
    letter: u32,
) -> Result<L, AllocError>
    requires { All (λ edge. ForSome edge.now.label (λ set. length (L.letters set)
        ≡ length (L.letters block))) edges.now }
    ensures size { IfOk result (λ narrow. length (L.letters narrow) ≡ length (L.letters block)) }
    ensures alike { IfOk result (λ narrow. (k : ℕ) → (has (L.letters narrow) k ≡ true)
        ↔ ((has (L.letters block) k ≡ true)
        × AreTakenAlike (map (λ edge. move_of L.letters edge.now) edges.now) letter k)) }
{
    let mut narrow = block;
    for edge in edges {
        narrow = cut(alloc, narrow, edge, letter)?;
    }
    Ok(narrow)
}

/// The letters of the block by which the edge may be taken if it may be taken by this letter, and
/// else those by which it may not; all of them where it is silent.
fn cut<L: LabelSet>(alloc: Global, block: L, edge: &Edge<L>, letter: u32) -> Result<L, AllocError>
    requires { ForSome edge.now.label (λ set. length (L.letters set) ≡ length (L.letters block)) }
    ensures size { IfOk result (λ part. length (L.letters part) ≡ length (L.letters block)) }
    ensures alike { IfOk result (λ part. (k : ℕ) → (has (L.letters part) k ≡ true)
        ↔ ((has (L.letters block) k ≡ true) × (takes k (move_of L.letters edge.now)
        ≡ takes letter (move_of L.letters edge.now)))) }
{
    match &edge.label {
        None => Ok(block),
        Some(label) => {
            if label.contains(letter) {
                common(alloc, block, label)
            } else {
                block.minus(alloc, label)
            }
        }
    }
}

/// The letters that are in both sets. Where both are the same, as they often are if an automaton is
/// deterministic, this is the block as it is, and takes no memory.
fn common<L: LabelSet>(alloc: Global, block: L, label: &L) -> Result<L, AllocError>
    requires { length (L.letters block) ≡ length (L.letters label.now) }
    ensures size { IfOk result (λ both. length (L.letters both) ≡ length (L.letters block)) }
    ensures both { IfOk result (λ both. (k : ℕ) → has (L.letters both) k
        ≡ (has (L.letters block) k && has (L.letters label.now) k)) }
{
    if block.same(label) {
        return Ok(block);
    }
    block.meet(alloc, label)
}
