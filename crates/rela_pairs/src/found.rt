//! The pairs that were found, and their numbers.
ghost use Rattle.std.specs.Prelude.{◌≡◌, ◌<◌, ◌≤◌, ◌^◌, [], ◌∷◌, Some, Contains, IsNone, IfSome, IfOk, IfErr, OnOk, OnErr, IsErrOf, length, slice_get};
ghost use Rattle.std.specs.List.{All};
ghost use Rattle.rela_pairs.specs.Finding.{Finds, GrowsBy, AreNumbers, Passes};
ghost use Rattle.rela_pairs.specs.Keeping.{pairs_of, Takes};
ghost use Rattle.rela_pairs.specs.Places.{Fits};
ghost use Rattle.rela_pairs.specs.Reachable.{AreDistinct};
ghost use Rattle.rela_pairs.specs.declared.pair.Pair.{Pair};

use crate::errors::BuildError;
use crate::hashed::Hashed;
use crate::pair::Pair;
use crate::shape::Shape;
use crate::table::Table;
use std::alloc::{AllocError, Global};

/// The pairs that were found, each once, numbered in the order in which they came. They are looked
/// up in a table where the machines have few pairs of states, and else by their hash.
#[derive(Drop)]
pub(crate) enum Found {
    /// In a table with a place for each pair.
    Tabled(Table),
    /// By their hash.
    Hashed(Hashed),
}

impl Found {
    /// No pair. Those that fit the shape can be put in.
    pub(crate) fn new(alloc: Global, shape: Shape) -> Result<Found, AllocError>
        ensures none { IfOk result (λ found. pairs_of found ≡ []) }
        ensures takes { IfOk result (λ found. (x : Pair) → Fits shape x → Takes found x) }
    {
        match shape.table_places() {
            Some(places) => Ok(Found::Tabled(Table::new(alloc, shape, places)?)),
            None => Ok(Found::Hashed(Hashed::new(alloc))),
        }
    }

    /// The pairs, in the order of their numbers.
    pub(crate) fn pairs(&self) -> &[Pair]
        ensures pairs { result.now ≡ pairs_of self.now }
        ensures distinct { AreDistinct (pairs_of self.now) }
        ensures few { length (pairs_of self.now) < 2 ^ 63 }
    {
        match self {
            Found::Tabled(table) => table.pairs(),
            Found::Hashed(hashed) => hashed.pairs(),
        }
    }

    /// The number of a pair, if it was found.
    fn known(&self, pair: Pair) -> Option<usize>
        requires { Takes self.now pair }
        ensures numbered { IfSome result (λ number.
            slice_get (pairs_of self.now) number ≡ Some pair) }
        ensures absent { IsNone result → ¬ Contains (pairs_of self.now) pair }
    {
        match self {
            Found::Tabled(table) => table.known(pair),
            Found::Hashed(hashed) => hashed.known(pair),
        }
    }

    /// The number of a pair, which is put in unless it is there.
    fn find(&mut self, pair: Pair) -> Result<usize, AllocError>
        requires { Takes self.old pair }
        ensures numbered { IfOk result (λ number.
            slice_get (pairs_of self.new) number ≡ Some pair) }
        ensures finds { IfOk result (λ _. Finds (pairs_of self.old) (pairs_of self.new) pair) }
        ensures absent { OnErr result (¬ Contains (pairs_of self.old) pair) }
        ensures takes { (x : Pair) → Takes self.old x → Takes self.new x }
    {
        match self {
            Found::Tabled(table) => table.number(pair),
            Found::Hashed(hashed) => hashed.number(pair),
        }
    }

    /// The number of a pair, which is put in unless it is there. `Limit` where there would then be
    /// more pairs than `limit`, and `Memory` where there isn't memory for a pair that is put in.
    pub(crate) fn number(&mut self, pair: Pair, limit: usize) -> Result<usize, BuildError>
        requires few { length (pairs_of self.old) ≤ limit }
        requires takes { Takes self.old pair }
        ensures numbered { IfOk result (λ number.
            slice_get (pairs_of self.new) number ≡ Some pair) }
        ensures finds { IfOk result (λ _. Finds (pairs_of self.old) (pairs_of self.new) pair) }
        ensures few { IfOk result (λ _. length (pairs_of self.new) ≤ limit) }
        ensures limit { IfErr result (λ e. e ≡ BuildError.Limit →
            Passes limit (pair ∷ []) (pairs_of self.old)) }
        ensures room { IsErrOf result BuildError.Memory → length (pairs_of self.old) < limit }
        ensures absent { IsErrOf result BuildError.Memory → ¬ Contains (pairs_of self.old) pair }
        ensures takes { (x : Pair) → Takes self.old x → Takes self.new x }
    {
        if self.pairs().len() >= limit {
            return self.known(pair).ok_or(BuildError::Limit);
        }
        Ok(self.find(pair)?)
    }

    /// Puts the numbers of the pairs in place of those that are there, as by
    /// [`number`](Found::number) and with its errors.
    pub(crate) fn number_all(
        &mut self,
        pairs: &[Pair],
        limit: usize,
        numbers: &mut Vec<usize>,
    ) -> Result<(), BuildError>
        requires few { length (pairs_of self.old) ≤ limit }
        requires takes { All (Takes self.old) pairs.now }
        ensures numbers { OnOk result (AreNumbers (pairs_of self.new) pairs.now numbers.new.items) }
        ensures grows { OnOk result (GrowsBy pairs.now (pairs_of self.old) (pairs_of self.new)) }
        ensures few { OnOk result (length (pairs_of self.new) ≤ limit) }
        ensures limit { IfErr result (λ e. e ≡ BuildError.Limit →
            Passes limit pairs.now (pairs_of self.old)) }
        ensures takes { (x : Pair) → Takes self.old x → Takes self.new x }
    {
        numbers.clear();
        for pair in pairs {
            numbers.push(self.number(*pair, limit)?)?;
        }
        Ok(())
    }
}
