//! Sets of states, and their numbers.
ghost use Rattle.std.specs.Prelude.{◌≡◌, ◌⊎◌, ℕ, ◌+◌, ◌^◌, ◌<◌, ◌≤◌, List, [], ◌∷◌, ◌++◌, IfNone, IfOk, IfErr, IfSome, IsErrOf, length, map, slice_index_or};
ghost use Rattle.rela_subset.specs.Sets.{AreDistinct};

use crate::places::note;
use indexmap::IndexSet;
use rela_nfa::BuildError;
use std::alloc::{AllocError, Global};
use std::marker::Model;

/// Sets of states, each a list in ascending order, numbered as they are found. Sets of one state
/// are looked up by it, and others by their hash. Contracts see them as the list of these lists.
#[derive(Drop)]
pub(crate) struct StateSets {
    /// The lists, in the order of their numbers, and a hash table of these.
    sets: IndexSet<Vec<usize>>,
    /// For each state a number: that of the set of it alone, if that set is among them.
    alone: Vec<usize>,
}

impl Model for StateSets {
    ghost use Rattle.std.specs.Prelude.{List, ℕ, map};
    ghost use Rattle.rela_subset.specs.Sets.{AreDistinct};

    ghost Value = { List (List ℕ) };

    ghost view = { λ all. map (λ set. set.items) all.sets.keys };

    ghost invariant = { λ all. AreDistinct (map (λ set. set.items) all.sets.keys) };
}

impl StateSets {
    /// No sets.
    pub(crate) fn new(alloc: Global) -> StateSets
        ensures { result ≡ [] }
    {
        StateSets {
            sets: IndexSet::new(alloc),
            alone: Vec::new(alloc),
        }
    }

    /// How many there are.
    pub(crate) fn len(&self) -> usize
        ensures len { result ≡ length self.now }
        ensures small { result < 2 ^ 63 }
        ensures distinct { AreDistinct self.now }
    {
        self.sets.len()
    }

    /// The set of this number.
    pub(crate) fn get(&self, number: usize) -> &[usize]
        requires { number < length self.now }
        ensures { result.now ≡ slice_index_or self.now number [] }
    {
        self.sets.as_slice()[number].as_slice()
    }

    /// The number of the set, a copy of which is put behind the others where it isn't among them.
    /// `Limit` where it isn't and there are `limit` already, and `Memory` where there isn't memory
    /// for it: neither puts anything in. Time: linear in the set, in expectation, and a step for
    /// each state below that of a set of one where there was none so high before. A set that is
    /// among them takes no memory.
    pub(crate) fn number(
        &mut self,
        alloc: Global,
        set: &[usize],
        limit: usize,
    ) -> Result<usize, BuildError>
        requires { length self.old ≤ limit }
        ensures at { IfOk result (λ number. slice_index_or self.new number [] ≡ set.now) }
        ensures within { IfOk result (λ number. number < length self.new) }
        ensures few { IfOk result (λ _. length self.new ≤ limit) }
        ensures grown { IfOk result (λ number. (self.new ≡ self.old)
            ⊎ ((self.new ≡ self.old ++ set.now ∷ []) × (number ≡ length self.old))) }
        ensures unchanged { IfErr result (λ _. self.new ≡ self.old) }
        ensures limit { IfErr result (λ e. e ≡ BuildError.Limit → length self.old ≡ limit) }
        ensures lacking { IfErr result (λ e. e ≡ BuildError.Limit →
            AreDistinct (self.old ++ set.now ∷ [])) }
        ensures room { IsErrOf result BuildError.Memory → length self.old < limit }
        ensures bounded { IfErr result (λ e. e ≡ BuildError.Limit → limit < 2 ^ 63) }
    {
        if let Some(number) = self.known(set) {
            return Ok(number);
        }
        if self.sets.len() >= limit {
            return self.found(set).ok_or(BuildError::Limit);
        }
        let copy = Vec::from_slice(alloc, set)?;
        note_alone(&mut self.alone, set, self.sets.len())?;
        let (number, _) = self.sets.insert_full(copy)?;
        Ok(number)
    }

    /// The number of the set, where it is among them: `None` says that it isn't, and no clause rests
    /// on that. Time: constant for a set of one state, and else linear in the set, in expectation.
    fn known(&self, set: &[usize]) -> Option<usize>
        ensures at { IfSome result (λ number. slice_index_or self.now number [] ≡ set.now) }
        ensures within { IfSome result (λ number. number < length self.now) }
    {
        if only_state(set).is_some() {
            known_alone(self.sets.as_slice(), &self.alone, set)
        } else {
            self.found(set)
        }
    }

    /// The number of the set, and `None` where it isn't among them. Time: linear in the set, in
    /// expectation.
    fn found(&self, set: &[usize]) -> Option<usize>
        ensures at { IfSome result (λ number. slice_index_or self.now number [] ≡ set.now) }
        ensures within { IfSome result (λ number. number < length self.now) }
        ensures lacking { IfNone result (AreDistinct (self.now ++ set.now ∷ [])) }
    {
        self.sets.get_index_of(set)
    }
}

/// The number of the set, if it has one state and is at the number that is noted for it.
fn known_alone(sets: &[Vec<usize>], alone: &[usize], set: &[usize]) -> Option<usize>
    ensures within { IfSome result (λ number. number < length sets.now) }
    ensures at { IfSome result (λ number. slice_index_or (map (λ set. set.items) sets.now) number []
        ≡ set.now) }
{
    let state = only_state(set)?;
    let number = alone.get(state).copied()?;
    let known = sets.get(number)?;
    if known.as_slice() == set {
        Some(number)
    } else {
        None
    }
}

/// Notes the number for the state of the set, if it has one.
fn note_alone(alone: &mut Vec<usize>, set: &[usize], number: usize) -> Result<(), AllocError> {
    if let Some(state) = only_state(set) {
        note(alone, state, number)?;
    }
    Ok(())
}

/// The state of the set, if it has one, and `None` where it has more or none.
fn only_state(set: &[usize]) -> Option<usize>
    ensures { IfSome result (λ state. set.now ≡ state ∷ []) }
{
    if set.len() == 1 {
        set.first().copied()
    } else {
        None
    }
}
