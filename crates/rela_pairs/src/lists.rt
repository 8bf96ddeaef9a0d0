//! Lists of numbers, one behind the other in one vector.
ghost use Rattle.std.specs.Prelude.{◌≡◌, ℕ, ◌+◌, ◌<◌, [], ◌∷◌, ◌++◌, OnOk, length, slice_index_or};

use std::alloc::{AllocError, Global};
use std::marker::Model;

/// Lists of numbers. They stand one behind the other in one vector, and another says where each
/// begins: it ends where the next one begins. Contracts see them as the list of these lists.
#[derive(Drop)]
pub(crate) struct Lists {
    /// The numbers of all lists, one list behind the other.
    numbers: Vec<usize>,
    /// For each list the place where it begins among the numbers. It may be empty, and then begins
    /// where the next one does.
    starts: Vec<usize>,
}

impl Model for Lists {
    ghost use Rattle.std.specs.Prelude.{ℕ, List, length};
    ghost use Rattle.rela_pairs.specs.Parting.{parts, Rises};

    ghost Value = { List (List ℕ) };

    ghost view = { λ lists. parts lists.numbers.items lists.starts.items };

    ghost invariant = { λ lists. Rises (length lists.numbers.items) lists.starts.items };
}

impl Lists {
    /// No list.
    pub(crate) fn new(alloc: Global) -> Lists
        ensures { result ≡ [] }
    {
        Lists {
            numbers: Vec::new(alloc),
            starts: Vec::new(alloc),
        }
    }

    /// How many lists there are.
    pub(crate) fn len(&self) -> usize
        ensures { result ≡ length self.now }
    {
        self.starts.len()
    }

    /// How many numbers all lists have, to reserve memory by.
    pub(crate) fn numbers(&self) -> usize {
        self.numbers.len()
    }

    /// The list of this number.
    pub(crate) fn list(&self, number: usize) -> &[usize]
        requires { number < length self.now }
        ensures { result.now ≡ slice_index_or self.now number [] }
    {
        let from = self.starts[number];
        let to = end_of(&self.starts, number, self.numbers.len());
        &self.numbers[from..to]
    }

    /// Puts a copy of the list behind the others. Time: linear in it.
    pub(crate) fn push(&mut self, list: &[usize]) -> Result<(), AllocError>
        ensures { OnOk result (self.new ≡ self.old ++ list.now ∷ []) }
    {
        self.starts.push(self.numbers.len())?;
        self.numbers.extend_from_slice(list)?;
        Ok(())
    }
}

/// Where the list of this number ends: where the next begins, and the last one at `all`.
fn end_of(starts: &[usize], number: usize, all: usize) -> usize
    requires { number < length starts.now }
    ensures { result ≡ slice_index_or starts.now (number + 1) all }
{
    match starts.get(number + 1) {
        Some(next) => *next,
        None => all,
    }
}
