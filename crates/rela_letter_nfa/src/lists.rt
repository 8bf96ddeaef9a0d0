//! Lists that stand one behind the other in one vector.
ghost use Rattle.std.specs.Prelude.{◌≡◌, ◌+◌, ◌<◌, [], ◌∷◌, ◌++◌, IfOk, OnOk, length, slice_index, slice_index_or};

use std::alloc::{AllocError, Global};
use std::marker::Model;

/// Lists that stand one behind the other in one vector. The last is open: items can be put behind
/// it. Contracts see the closed lists, and the open one.
#[derive(Drop)]
pub struct Lists<T> {
    /// The items of all lists, those of one list behind those of the one before it.
    items: Vec<T>,
    /// The places among the items where a list begins: first 0, then the end of each closed list.
    places: Vec<usize>,
}

impl<T> Model for Lists<T> {
    ghost use Rattle.std.specs.Prelude.{List, length};
    ghost use Rattle.std.specs.Coded.{coded_list, coded×};
    ghost use Rattle.rela_letter_nfa.specs.Parting.{ArePlaces, part_behind, parts_between};

    ghost Value = { List (List T) × List T };

    ghost coded = { coded× (coded_list (coded_list T.code)) (coded_list T.code) };

    ghost view = { λ lists. (
      parts_between lists.items.items lists.places.items,
      part_behind lists.items.items lists.places.items,
    ) };

    ghost invariant = { λ lists. ArePlaces (length lists.items.items) lists.places.items };
}

impl<T: Drop> Lists<T> {
    /// No closed list, and an open one that is empty, with room for so many closed lists and for so
    /// many items in all of them.
    pub fn with_capacity(alloc: Global, lists: usize, items: usize) -> Result<Lists<T>, AllocError>
        ensures { IfOk result (λ lists. lists ≡ ([], [])) }
    {
        let mut places = Vec::with_capacity(alloc, lists.saturating_add(1))?;
        places.push(0)?;
        let items = Vec::with_capacity(alloc, items)?;
        Ok(Lists { items, places })
    }

    /// How many items all lists have, to reserve memory by.
    pub(crate) fn items(&self) -> usize {
        self.items.len()
    }

    /// Puts an item behind the open list.
    pub fn push(&mut self, item: T) -> Result<(), AllocError>
        ensures pushed { OnOk result (self.new ≡ (self.old.0, self.old.1 ++ item ∷ [])) }
        ensures closed { self.new.0 ≡ self.old.0 }
    {
        self.items.push(item)?;
        Ok(())
    }

    /// Closes the open list, behind which an empty one is open then.
    pub fn close(&mut self) -> Result<(), AllocError>
        ensures { OnOk result (self.new ≡ (self.old.0 ++ self.old.1 ∷ [], [])) }
    {
        self.places.push(self.items.len())?;
        Ok(())
    }

    /// The closed list of this number. Time: constant.
    pub fn list(&self, number: usize) -> &[T]
        requires { number < length self.now.0 }
        ensures { result.now ≡ slice_index_or self.now.0 number [] }
    {
        let (from, to) = place_and_next(&self.places, number);
        &self.items[from..to]
    }
}

impl Lists<u32> {
    /// A copy of all lists. Time: linear in the items and the lists, but many are copied at a time.
    pub(crate) fn copy(&self, alloc: Global) -> Result<Lists<u32>, AllocError>
        ensures { IfOk result (λ copy. copy ≡ self.now) }
    {
        let items = Vec::from_slice(alloc, &self.items)?;
        let places = Vec::from_slice(alloc, &self.places)?;
        Ok(Lists { items, places })
    }
}

/// The place of this number, and the next one.
fn place_and_next(places: &[usize], number: usize) -> (usize, usize)
    requires { number + 1 < length places.now }
    ensures place { result.0 ≡ slice_index places.now number }
    ensures next { result.1 ≡ slice_index places.now (number + 1) }
{
    (places[number], places[number + 1])
}
