//! The letters of a set in blocks, by each of which the same edges may be taken.
ghost use Rattle.std.specs.Prelude.{◌≡◌, ℕ, ◌≢◌, ◌<◌, ◌≤◌, ◌&&◌, ◌↔◌, not, true, false, List, IfNone, IfOk, IfSome, IsTrue, MatchOption, length, map};
ghost use Rattle.std.specs.List.{All};
ghost use Rattle.std.specs.List.Sorted.{IsNonDecreasingBy};
ghost use Rattle.std.specs.Option.{ForSome};
ghost use Rattle.rela_labels.specs.Letters.{has};
ghost use Rattle.rela_nfa.specs.Automaton.{Automaton};
ghost use Rattle.rela_nfa.specs.Stored.{move_of};
ghost use Rattle.rela_subset.specs.Expansion.{IsAlike};
ghost use Rattle.rela_subset.specs.Outgoing.{AreSortedOut, HasEnd, moves_from};

use crate::alike::{narrowed, near};
use crate::letter_edge::{LetterEdge, alone, from_letter_in, letters_of, past_letter};
use rela_labels::LabelSet;
use rela_nfa::Edge;
use std::alloc::{AllocError, Global};
use std::marker::Model;

/// Letters by which the same edges may be taken.
#[derive(Drop)]
pub(crate) struct Block<L: LabelSet> {
    /// The least of the letters.
    pub(crate) letter: u32,
    /// All of the letters.
    pub(crate) letters: L,
}

/// The letters of a set that are left, to be taken in blocks. Those that edges have by themselves
/// come from the list of these edges, and cost nothing for the other edges. Contracts see the two
/// lists of edges, and the letters that are left.
#[derive(Drop)]
pub(crate) struct Blocks<'a, L: LabelSet> {
    /// The letters at first.
    over: &'a L,
    /// The edges by one letter, in ascending order of it.
    singles: &'a [LetterEdge],
    /// Those of them that have not been passed: a tail of the list.
    coming: &'a [LetterEdge],
    /// The edges whose labels have more letters than one, or none at all.
    others: &'a [&'a Edge<L>],
    /// The letters that are left and that no edge has by itself.
    rest: L,
    /// The least of these, and `None` where there is none.
    least: Option<u32>,
}

impl<'a, L: LabelSet> Model for Blocks<'a, L> {
    ghost use Rattle.std.specs.Prelude.{◌≡◌, length, map};
    ghost use Rattle.std.specs.List.{All};
    ghost use Rattle.std.specs.Option.{ForSome};
    ghost use Rattle.rela_nfa.specs.Stored.{move_of};
    ghost use Rattle.rela_subset.specs.Splitting.{AreSplit, Splitting, letters_left};

    ghost Value = { Splitting };

    ghost view = { λ blocks. record {
      singles = blocks.singles.now;
      others = map (λ edge. move_of L.letters edge.now) blocks.others.now;
      rest = L.letters blocks.rest;
      left = letters_left (L.letters blocks.over.now) blocks.coming.now (L.letters blocks.rest);
    } };

    ghost invariant = { λ blocks. AreSplit (L.letters blocks.over.now) blocks.singles.now
        blocks.coming.now (L.letters blocks.rest) blocks.least
        × All (λ edge. ForSome edge.now.label (λ set. length (L.letters set)
        ≡ length (L.letters blocks.over.now))) blocks.others.now };
}

impl<'a, L: LabelSet> Blocks<'a, L> {
    /// All letters of the set are left. Time: a step for each edge by one letter, and a set
    /// operation.
    pub(crate) fn new(
        alloc: Global,
        over: &'a L,
        singles: &'a [LetterEdge],
        others: &'a [&'a Edge<L>],
    ) -> Result<Blocks<'a, L>, AllocError>
        requires rising { IsNonDecreasingBy (λ edge. edge.letter) singles.now }
        requires below { All (λ edge. edge.letter < length (L.letters over.now)) singles.now }
        requires labels { All (λ edge. ForSome edge.now.label (λ set. length (L.letters set)
            ≡ length (L.letters over.now))) others.now }
        ensures singles { IfOk result (λ blocks. blocks.singles ≡ singles.now) }
        ensures others { IfOk result (λ blocks. blocks.others
            ≡ map (λ edge. move_of L.letters edge.now) others.now) }
        ensures left { IfOk result (λ blocks. blocks.left ≡ L.letters over.now) }
    {
        let rest = without(alloc, over, singles)?;
        let least = rest.least();
        Ok(Blocks {
            over,
            singles,
            coming: singles,
            others,
            rest,
            least,
        })
    }

    /// Takes the next block: the least letter that is left, with those that are left by which the
    /// same edges may be taken. `None` where no letter is left. Time: for a letter that edges have
    /// by themselves a step for each of these; for any other a set operation for each other edge.
    pub(crate) fn next(&mut self, alloc: Global) -> Result<Option<Block<L>>, AllocError>
        ensures singles { self.new.singles ≡ self.old.singles }
        ensures others { self.new.others ≡ self.old.others }
        ensures size { length self.new.left ≡ length self.old.left }
        ensures none { IfOk result (λ block. IfNone block ((k : ℕ) → has self.old.left k ≡ false)) }
        ensures member { IfOk result (λ block.
            IfSome block (λ block. has self.old.left block.letter ≡ true)) }
        ensures least { IfOk result (λ block. IfSome block (λ block. (k : ℕ) → k < block.letter →
            has self.old.left k ≡ false)) }
        ensures sized { IfOk result (λ block.
            IfSome block (λ block. length (L.letters block.letters) ≡ length self.old.left)) }
        ensures alike { IfOk result (λ block. IfSome block (λ block. (a : Automaton) (set : List ℕ)
            → AreSortedOut (moves_from a set) self.old.singles self.old.others
            → IsAlike a set self.old.left block.letter (L.letters block.letters))) }
        ensures taken { IfOk result (λ block. IfSome block (λ block. (k : ℕ)
            → has self.new.left k ≡ (has self.old.left k
            && not (has (L.letters block.letters) k)))) }
    {
        let Some(letter) = self.next_single() else {
            return self.next_of_rest(alloc);
        };
        let letters = alone(alloc, self.over.size(), letter)?;
        Ok(Some(Block { letter, letters }))
    }

    /// Takes the least letter that is left, if edges have it by themselves. `None` where another
    /// comes before it, or where no letter is left.
    fn next_single(&mut self) -> Option<u32>
        ensures singles { self.new.singles ≡ self.old.singles }
        ensures others { self.new.others ≡ self.old.others }
        ensures size { length self.new.left ≡ length self.old.left }
        ensures same { IfNone result (self.new.left ≡ self.old.left) }
        ensures none { IfNone result ((k : ℕ) → has self.new.left k ≡ true → (j : ℕ) × (j ≤ k)
            × (has self.new.rest j ≡ true)) }
        ensures member { IfSome result (λ letter. has self.old.left letter ≡ true) }
        ensures least { IfSome result (λ letter. (k : ℕ) → k < letter →
            has self.old.left k ≡ false) }
        ensures single { IfSome result (λ letter. (q : ℕ) × HasEnd self.old.singles letter q) }
        ensures taken { IfSome result (λ letter. has self.new.left letter ≡ false) }
        ensures kept { IfSome result (λ letter. (k : ℕ) → k ≢ letter → has self.new.left k
            ≡ has self.old.left k) }
    {
        self.coming = from_letter_in(self.coming, self.over);
        let Some(single) = self.coming.first() else {
            return None;
        };
        let letter = single.letter;
        if !comes_before(letter, self.least) {
            return None;
        }
        self.coming = past_letter(self.coming, letter);
        Some(letter)
    }

    /// Takes the block of the least letter that no edge has by itself, before which none is left.
    /// `None` where no letter is left.
    fn next_of_rest(&mut self, alloc: Global) -> Result<Option<Block<L>>, AllocError>
        requires { (k : ℕ) → has self.old.left k ≡ true → (j : ℕ) × (j ≤ k)
            × (has self.old.rest j ≡ true) }
        ensures singles { self.new.singles ≡ self.old.singles }
        ensures others { self.new.others ≡ self.old.others }
        ensures size { length self.new.left ≡ length self.old.left }
        ensures none { IfOk result (λ block. IfNone block ((k : ℕ) → has self.old.left k ≡ false)) }
        ensures member { IfOk result (λ block.
            IfSome block (λ block. has self.old.left block.letter ≡ true)) }
        ensures least { IfOk result (λ block. IfSome block (λ block. (k : ℕ) → k < block.letter →
            has self.old.left k ≡ false)) }
        ensures sized { IfOk result (λ block.
            IfSome block (λ block. length (L.letters block.letters) ≡ length self.old.left)) }
        ensures alike { IfOk result (λ block. IfSome block (λ block. (a : Automaton) (set : List ℕ)
            → AreSortedOut (moves_from a set) self.old.singles self.old.others
            → IsAlike a set self.old.left block.letter (L.letters block.letters))) }
        ensures taken { IfOk result (λ block. IfSome block (λ block. (k : ℕ)
            → has self.new.left k ≡ (has self.old.left k
            && not (has (L.letters block.letters) k)))) }
    {
        let Some(letter) = self.least else {
            return Ok(None);
        };
        let near = near(alloc, self.others, &self.rest, letter)?;
        let letters = narrowed(alloc, near, self.others, letter)?;
        let rest = left_without(alloc, &self.rest, &letters)?;
        self.least = rest.least();
        self.rest = rest;
        Ok(Some(Block { letter, letters }))
    }
}

/// Whether the letter is before the other, or there is no other.
fn comes_before(letter: u32, other: Option<u32>) -> bool
    ensures before { IsTrue result → IfSome other (λ k. letter < k) }
    ensures after { result ≡ false → MatchOption other ⊥ (λ k. k ≤ letter) }
{
    match other {
        Some(other) => letter < other,
        None => true,
    }
}

/// The letters of the set that none of the edges, each by one letter, has.
fn without<L: LabelSet>(alloc: Global, set: &L, edges: &[LetterEdge]) -> Result<L, AllocError>
    requires { All (λ edge. edge.letter < length (L.letters set.now)) edges.now }
    ensures size { IfOk result (λ rest. length (L.letters rest) ≡ length (L.letters set.now)) }
    ensures letters { IfOk result (λ rest. (k : ℕ) → (has (L.letters rest) k ≡ true)
        ↔ ((has (L.letters set.now) k ≡ true) × ((q : ℕ) → ¬ HasEnd edges.now k q))) }
{
    if edges.is_empty() {
        return set.copy(alloc);
    }
    let letters = letters_of(alloc, set.size(), edges)?;
    set.minus(alloc, &letters)
}

/// The letters of the set that are not in the other. Where both are the same, as what is left and
/// the last block are, there are none, and neither is copied.
fn left_without<L: LabelSet>(alloc: Global, set: &L, other: &L) -> Result<L, AllocError>
    requires { length (L.letters set.now) ≡ length (L.letters other.now) }
    ensures size { IfOk result (λ rest. length (L.letters rest) ≡ length (L.letters set.now)) }
    ensures first_only { IfOk result (λ rest. (k : ℕ) → has (L.letters rest) k
        ≡ (has (L.letters set.now) k && not (has (L.letters other.now) k))) }
{
    if set.same(other) {
        return L::none(alloc, set.size());
    }
    set.minus(alloc, other)
}
