//! Pairs that are looked up by their hash.
ghost use Rattle.std.specs.Prelude.{◌≡◌, ◌<◌, ◌^◌, [], Some, Contains, IsNone, IfSome, IfOk, OnErr, length, slice_get};
ghost use Rattle.rela_pairs.specs.Finding.{Finds};
ghost use Rattle.rela_pairs.specs.Reachable.{AreDistinct};

use crate::pair::Pair;
use indexmap::IndexSet;
use std::alloc::{AllocError, Global};
use std::marker::Model;

/// The pairs that were found, each once, in the order in which they came, and looked up by their
/// hash. Contracts see them as a list.
#[derive(Drop)]
pub(crate) struct Hashed {
    /// The pairs in the order of their numbers, and a hash table of their numbers.
    found: IndexSet<Pair>,
}

impl Model for Hashed {
    ghost use Rattle.std.specs.Prelude.{List};
    ghost use Rattle.rela_pairs.specs.declared.pair.Pair.{Pair};
    ghost use Rattle.rela_pairs.specs.Reachable.{AreDistinct};

    ghost Value = { List Pair };

    ghost view = { λ hashed. hashed.found.keys };

    ghost invariant = { λ hashed. AreDistinct hashed.found.keys };
}

impl Hashed {
    /// No pair.
    pub(crate) fn new(alloc: Global) -> Hashed
        ensures { result ≡ [] }
    {
        Hashed {
            found: IndexSet::new(alloc),
        }
    }

    /// The pairs, in the order of their numbers.
    pub(crate) fn pairs(&self) -> &[Pair]
        ensures pairs { result.now ≡ self.now }
        ensures distinct { AreDistinct self.now }
        ensures few { length self.now < 2 ^ 63 }
    {
        let _ = self.found.len();
        self.found.as_slice()
    }

    /// The number of a pair, if it was found. Time: constant in expectation.
    pub(crate) fn known(&self, pair: Pair) -> Option<usize>
        ensures numbered { IfSome result (λ number. slice_get self.now number ≡ Some pair) }
        ensures absent { IsNone result → ¬ Contains self.now pair }
    {
        self.found.get_index_of(&pair)
    }

    /// The number of a pair, which is put in unless it is there. Time: constant in expectation.
    pub(crate) fn number(&mut self, pair: Pair) -> Result<usize, AllocError>
        ensures numbered { IfOk result (λ number. slice_get self.new number ≡ Some pair) }
        ensures finds { IfOk result (λ _. Finds self.old self.new pair) }
        ensures absent { OnErr result (¬ Contains self.old pair) }
    {
        let (number, _) = self.found.insert_full(pair)?;
        Ok(number)
    }
}
