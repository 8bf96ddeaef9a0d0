//! The largest part of a class keeps the number of the class.
ghost use Rattle.std.specs.Prelude.{◌≡◌, ◌≢◌, ℕ, ◌+◌, ◌<◌, IfOk, Contains, length, slice_index};
ghost use Rattle.std.specs.List.{All};
ghost use Rattle.rela_minimise.specs.Refining.{AreOrigins, IsHeld, IsSwapped, KeepsAfter};
ghost use Rattle.rela_minimise.specs.Stored.{stage_of};

use crate::refinement::Refinement;
use std::alloc::{AllocError, Global};

impl Refinement {
    /// Gives each new class that has more than half as many states as are listed for the class of
    /// which it was a part the number of that one. So it is the smaller parts that get new numbers,
    /// and the states before these that are looked at again (after J. Hopcroft, "An n log n
    /// algorithm for minimizing states in a finite automaton", 1971). The new classes are those
    /// from `first` on, and `origins` has for each of them the class of which it was a part.
    pub(crate) fn keep_largest(
        &mut self,
        alloc: Global,
        first: usize,
        origins: &[usize],
    ) -> Result<(), AllocError>
        requires held { IsHeld (length self.old.classes.items) (stage_of self.old) }
        requires count { length self.old.members.items ≡ first + length origins.now }
        requires origins { All (λ class. class < first) origins.now }
        ensures { IfOk result (λ _. KeepsAfter first origins.now (stage_of self.old)
            (stage_of self.new)) }
    {
        let largest = self.largest(alloc, first, origins)?;
        for j in &largest {
            self.swap(alloc, origins[*j], first + *j)?;
        }
        Ok(())
    }

    /// The places of the origins of whose listed states more than half went to the new class of
    /// that place.
    fn largest(
        &self,
        alloc: Global,
        first: usize,
        origins: &[usize],
    ) -> Result<Vec<usize>, AllocError>
        requires count { length self.now.members.items ≡ first + length origins.now }
        requires origins { All (λ class. class < first) origins.now }
        ensures { IfOk result (λ places. All (λ j. j < length origins.now) places.items) }
    {
        let mut places = Vec::new(alloc);
        for j in 0..origins.len() {
            if self.members[first + j].len() > self.members[origins[j]].len() / 2 {
                places.push(j)?;
            }
        }
        Ok(places)
    }

    /// Swaps the numbers of the two classes. Only states that are in them stay listed. Time: linear
    /// in the states that are listed for both.
    fn swap(&mut self, alloc: Global, a: usize, b: usize) -> Result<(), AllocError>
        requires held { IsHeld (length self.old.classes.items) (stage_of self.old) }
        requires first { a < length self.old.members.items }
        requires second { b < length self.old.members.items }
        requires apart { a ≢ b }
        ensures { IfOk result (λ _. IsSwapped (length self.old.classes.items) a b
            (stage_of self.old) (stage_of self.new)) }
    {
        let first = own(alloc, &self.members[a], &self.classes, a)?;
        let second = own(alloc, &self.members[b], &self.classes, b)?;
        write_all(&mut self.classes, &first, b);
        write_all(&mut self.classes, &second, a);
        self.members[a] = second;
        self.members[b] = first;
        self.signatures.swap(a, b);
        Ok(())
    }

    /// For each new class, of which there are `count`, the class of a state that goes there. Each
    /// waiting state goes to its target.
    pub(crate) fn origins(
        &self,
        alloc: Global,
        waiting: &[usize],
        targets: &[usize],
        count: usize,
    ) -> Result<Vec<usize>, AllocError>
        requires states { All (λ q. q < length self.now.classes.items) waiting.now }
        requires each { length targets.now ≡ length waiting.now }
        requires targets { All (λ class. class < length self.now.members.items
            + count) targets.now }
        requires used { (j : ℕ) → j < count → (i : ℕ) × (i < length waiting.now)
            × (slice_index targets.now i ≡ length self.now.members.items + j) }
        ensures { IfOk result (λ origins. AreOrigins (stage_of self.now) waiting.now targets.now
            count origins.items) }
    {
        let first = self.members.len();
        let mut origins = vec![in alloc; 0; count]?;
        for (i, q) in waiting.iter().enumerate() {
            if targets[i] >= first {
                origins[targets[i] - first] = self.classes[*q];
            }
        }
        Ok(origins)
    }
}

/// The states of the list that are in the class, in their order.
fn own(
    alloc: Global,
    list: &[usize],
    classes: &[usize],
    class: usize,
) -> Result<Vec<usize>, AllocError>
    requires { All (λ q. q < length classes.now) list.now }
    ensures all { IfOk result (λ own. (q : ℕ) → Contains list.now q → slice_index classes.now q
        ≡ class → Contains own.items q) }
    ensures states { IfOk result (λ own. All (λ q. q < length classes.now) own.items) }
    ensures only { IfOk result (λ own. (q : ℕ) → Contains own.items q →
        slice_index classes.now q ≡ class) }
{
    let mut own = Vec::new(alloc);
    for q in list {
        if classes[*q] == class {
            own.push(*q)?;
        }
    }
    Ok(own)
}

/// Writes the class for each of the states.
fn write_all(classes: &mut Vec<usize>, states: &[usize], class: usize)
    requires { All (λ q. q < length classes.old.items) states.now }
    ensures each { length classes.new.items ≡ length classes.old.items }
    ensures written { (q : ℕ) → Contains states.now q → slice_index classes.new.items q ≡ class }
    ensures others { (q : ℕ) → ¬ Contains states.now q → slice_index classes.new.items q
        ≡ slice_index classes.old.items q }
{
    for q in states {
        classes[*q] = class;
    }
}
