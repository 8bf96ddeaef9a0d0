//! Pairs that are looked up in a table of them all.
ghost use Rattle.std.specs.Prelude.{◌≡◌, ◌*◌, ◌<◌, ◌≤◌, ◌^◌, [], Some, Contains, IsNone, IfSome, IfOk, OnErr, length, slice_get};
ghost use Rattle.rela_pairs.specs.Finding.{Finds};
ghost use Rattle.rela_pairs.specs.Places.{Fits};
ghost use Rattle.rela_pairs.specs.Reachable.{AreDistinct};

use crate::pair::Pair;
use crate::shape::Shape;
use std::alloc::{AllocError, Global};
use std::marker::Model;

/// The pairs that were found, each once, in the order in which they came. They are looked up in a table
/// that has a place for each pair of the shape: one row behind the other, a row for each left state.
#[derive(Drop)]
pub(crate) struct Table {
    /// How many states there are on each side.
    shape: Shape,
    /// The pairs, in the order of their numbers.
    found: Vec<Pair>,
    /// For each place the number of its pair, and `None` until it is found. The place of a pair is
    /// `left * rights + right`.
    numbers: Vec<Option<u32>>,
}

impl Model for Table {
    ghost use Rattle.rela_pairs.specs.Places.{ShapedPairs, AreTold};

    ghost Value = { ShapedPairs };

    ghost view = { λ table. record { pairs = table.found.items; shape = table.shape } };

    ghost invariant = { λ table. AreTold table.shape table.found.items table.numbers.items };
}

impl Table {
    /// No pair, of a shape that has this many places. Time and space: linear in the places.
    pub(crate) fn new(alloc: Global, shape: Shape, places: usize) -> Result<Table, AllocError>
        requires places { places ≡ shape.lefts * shape.rights }
        requires few { places ≤ 2 ^ 20 }
        ensures none { IfOk result (λ table. table.pairs ≡ []) }
        ensures shape { IfOk result (λ table. table.shape ≡ shape) }
    {
        Ok(Table {
            shape,
            found: Vec::new(alloc),
            numbers: vec![in alloc; None; places]?,
        })
    }

    /// The pairs, in the order of their numbers.
    pub(crate) fn pairs(&self) -> &[Pair]
        ensures pairs { result.now ≡ self.now.pairs }
        ensures distinct { AreDistinct self.now.pairs }
        ensures few { length self.now.pairs < 2 ^ 63 }
    {
        self.found.as_slice()
    }

    /// The number of a pair, if it was found. Time: constant.
    pub(crate) fn known(&self, pair: Pair) -> Option<usize>
        requires { Fits self.now.shape pair }
        ensures numbered { IfSome result (λ number. slice_get self.now.pairs number ≡ Some pair) }
        ensures absent { IsNone result → ¬ Contains self.now.pairs pair }
    {
        let place = pair.left * self.shape.rights + pair.right;
        self.numbers[place].map(|number| number as usize)
    }

    /// The number of a pair, which is put in unless it is there. Time: constant.
    pub(crate) fn number(&mut self, pair: Pair) -> Result<usize, AllocError>
        requires { Fits self.old.shape pair }
        ensures numbered { IfOk result (λ number. slice_get self.new.pairs number ≡ Some pair) }
        ensures finds { IfOk result (λ _. Finds self.old.pairs self.new.pairs pair) }
        ensures absent { OnErr result (¬ Contains self.old.pairs pair) }
        ensures shape { self.new.shape ≡ self.old.shape }
    {
        let place = pair.left * self.shape.rights + pair.right;
        match self.numbers[place] {
            Some(number) => Ok(number as usize),
            None => {
                let number = self.found.len();
                self.found.push(pair)?;
                self.numbers[place] = Some(number as u32);
                Ok(number)
            }
        }
    }
}
