//! Lists of sets of states, and their numbers.
ghost use Rattle.std.specs.Prelude.{◌≡◌, ◌<◌, ◌^◌, [], IfOk, length, map, slice_index_or};
ghost use Rattle.rela_closed.specs.Sets.{AreDistinct, AreNumbered};

use indexmap::IndexSet;
use std::alloc::{AllocError, Global};
use std::marker::Model;

/// Lists of sets of states, one set for each automaton, numbered as they are found. Each set is a
/// list in ascending order. Contracts see them as the list of these lists.
#[derive(Drop)]
pub(crate) struct Table {
    /// The lists of sets, in the order of their numbers, and a hash table of these.
    found: IndexSet<Vec<Vec<usize>>>,
}

impl Model for Table {
    ghost use Rattle.std.specs.Prelude.{List, ℕ, map};
    ghost use Rattle.rela_closed.specs.Sets.{AreDistinct};

    ghost Value = { List (List (List ℕ)) };

    ghost view = { λ table. map (λ sets. map (λ set. set.items) sets.items) table.found.keys };

    ghost invariant = { λ table. AreDistinct (map (λ sets. map (λ set. set.items) sets.items)
        table.found.keys) };
}

impl Table {
    /// No sets.
    pub(crate) fn new(alloc: Global) -> Table
        ensures { result ≡ [] }
    {
        Table {
            found: IndexSet::new(alloc),
        }
    }

    /// How many there are.
    pub(crate) fn len(&self) -> usize
        ensures len { result ≡ length self.now }
        ensures small { result < 2 ^ 63 }
        ensures distinct { AreDistinct self.now }
    {
        self.found.len()
    }

    /// The sets of this number.
    pub(crate) fn get(&self, number: usize) -> &[Vec<usize>]
        requires { number < length self.now }
        ensures { map (λ set. set.items) result.now ≡ slice_index_or self.now number [] }
    {
        self.found.as_slice()[number].as_slice()
    }

    /// The number of the sets, which are put behind the others where they aren't among them. Time:
    /// linear in the sets, in expectation.
    pub(crate) fn number(&mut self, sets: Vec<Vec<usize>>) -> Result<usize, AllocError>
        ensures numbered { IfOk result (λ number. AreNumbered (map (λ set. set.items) sets.items)
            self.old self.new number) }
        ensures distinct { AreDistinct self.new }
    {
        let (number, _) = self.found.insert_full(sets)?;
        Ok(number)
    }
}
