//! Edges by one letter alone.
ghost use Rattle.std.specs.Prelude.{◌≡◌, ◌≢◌, ℕ, ◌<◌, ◌≤◌, ◌↔◌, ◌∷◌, List, Bool, true, IfOk, length};
ghost use Rattle.std.specs.List.{All};
ghost use Rattle.std.specs.List.Sorted.{IsNonDecreasingBy, IsPartitionPoint, IsPermutation};
ghost use Rattle.rela_labels.specs.Letters.{has};
ghost use Rattle.rela_subset.specs.Outgoing.{HasEnd, IsAlone};
ghost use Rattle.rela_subset.specs.Splitting.{letters_left};

use rela_labels::LabelSet;
use std::alloc::{AllocError, Global};

/// An edge by one letter alone.
#[derive(Clone, Copy, Debug)]
pub(crate) struct LetterEdge {
    /// The letter.
    pub(crate) letter: u32,
    /// The state to which it leads.
    pub(crate) to: usize,
}

/// The edges in ascending order of their letters. Time: that of a sort.
pub(crate) fn sorted_by_letter(edges: Vec<LetterEdge>) -> Vec<LetterEdge>
    ensures same { IsPermutation edges.items result.items }
    ensures rising { IsNonDecreasingBy (λ edge. edge.letter) result.items }
{
    let mut sorted = edges;
    sorted.sort_unstable_by_key(|edge| edge.letter);
    sorted
}

/// The set of the letters of the edges, all below `size`. Time: linear in the edges.
pub(crate) fn letters_of<L: LabelSet>(
    alloc: Global,
    size: u32,
    edges: &[LetterEdge],
) -> Result<L, AllocError>
    requires fits { L.fits size }
    requires below { All (λ edge. edge.letter < size) edges.now }
    ensures size { IfOk result (λ set. length (L.letters set) ≡ size) }
    ensures letters { IfOk result (λ set. (k : ℕ) → (has (L.letters set) k ≡ true) ↔
        ((q : ℕ) × HasEnd edges.now k q)) }
{
    let mut set = L::none(alloc, size)?;
    for edge in edges {
        set.add(alloc, edge.letter)?;
    }
    Ok(set)
}

/// The edges by this letter, found by two binary searches.
pub(crate) fn edges_by(edges: &[LetterEdge], letter: u32) -> &[LetterEdge]
    requires { IsNonDecreasingBy (λ edge. edge.letter) edges.now }
    ensures { (q : ℕ) → HasEnd edges.now letter q ↔ ((k : ℕ) × HasEnd result.now k q) }
{
    let from = place_of(edges, letter);
    let to = place_after(edges, letter);
    &edges[from..to]
}

/// How many of the edges have a lesser letter.
fn place_of(edges: &[LetterEdge], letter: u32) -> usize
    requires { IsNonDecreasingBy (λ edge. edge.letter) edges.now }
    ensures parted { IsPartitionPoint (λ edge. edge.letter < letter) (λ edge. letter ≤ edge.letter)
        edges.now result }
    ensures within { result ≤ length edges.now }
{
    edges.partition_point(|edge| edge.letter < letter)
}

/// How many of the edges have this letter or a lesser one.
fn place_after(edges: &[LetterEdge], letter: u32) -> usize
    requires { IsNonDecreasingBy (λ edge. edge.letter) edges.now }
    ensures parted { IsPartitionPoint (λ edge. edge.letter ≤ letter) (λ edge. letter < edge.letter)
        edges.now result }
    ensures within { result ≤ length edges.now }
{
    edges.partition_point(|edge| edge.letter <= letter)
}

/// The edges from the first one on whose letter is in the set. Time: a step for each edge before
/// it.
pub(crate) fn from_letter_in<'a, L: LabelSet>(edges: &'a [LetterEdge], set: &L) -> &'a [LetterEdge]
    requires { IsNonDecreasingBy (λ edge. edge.letter) edges.now }
    ensures rising { IsNonDecreasingBy (λ edge. edge.letter) result.now }
    ensures among { (k q : ℕ) → HasEnd result.now k q → HasEnd edges.now k q }
    ensures first { (edge : LetterEdge) (later : List LetterEdge) → result.now ≡ edge ∷ later →
        has (L.letters set.now) edge.letter ≡ true }
    ensures left { (rest : List Bool) → letters_left (L.letters set.now) result.now rest
        ≡ letters_left (L.letters set.now) edges.now rest }
{
    let mut coming = edges;
    while let Some((first, later)) = coming.split_first() {
        if set.contains(first.letter) {
            return coming;
        }
        coming = later;
    }
    coming
}

/// The edges behind those by this letter, which come first. Time: a step for each of these.
pub(crate) fn past_letter(edges: &[LetterEdge], letter: u32) -> &[LetterEdge]
    requires rising { IsNonDecreasingBy (λ edge. edge.letter) edges.now }
    requires first { All (λ edge. letter ≤ edge.letter) edges.now }
    ensures rising { IsNonDecreasingBy (λ edge. edge.letter) result.now }
    ensures among { (k q : ℕ) → HasEnd result.now k q → HasEnd edges.now k q }
    ensures past { All (λ edge. letter < edge.letter) result.now }
    ensures left { (over rest : List Bool) (k : ℕ) → k ≢ letter →
        has (letters_left over result.now rest) k ≡ has (letters_left over edges.now rest) k }
{
    let mut coming = edges;
    while let Some((first, later)) = coming.split_first() {
        if first.letter != letter {
            return coming;
        }
        coming = later;
    }
    coming
}

/// The set, of this size, of this letter alone.
pub(crate) fn alone<L: LabelSet>(alloc: Global, size: u32, letter: u32) -> Result<L, AllocError>
    requires fits { L.fits size }
    requires below { letter < size }
    ensures size { IfOk result (λ set. length (L.letters set) ≡ size) }
    ensures alone { IfOk result (λ set. IsAlone (L.letters set) letter) }
{
    let mut set = L::none(alloc, size)?;
    set.add(alloc, letter)?;
    Ok(set)
}
