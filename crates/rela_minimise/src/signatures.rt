//! Signatures of states, and their numbers.
ghost use Rattle.std.specs.Prelude.{◌≡◌, ◌⊎◌, ℕ, ◌+◌, ◌^◌, ◌<◌, List, [], ◌∷◌, ◌++◌, IfOk, length, slice_index_or};
ghost use Rattle.rela_subset.specs.Sets.{AreDistinct};

use indexmap::IndexSet;
use std::alloc::{AllocError, Global};
use std::marker::Model;

/// Signatures, each once, numbered as they are found. Contracts see them as their list.
#[derive(Drop)]
pub(crate) struct Signatures {
    /// The signatures in the order of their numbers, and a hash table of these.
    found: IndexSet<Vec<usize>>,
}

impl Model for Signatures {
    ghost use Rattle.std.specs.Prelude.{List, ℕ, map};
    ghost use Rattle.rela_subset.specs.Sets.{AreDistinct};

    ghost Value = { List (List ℕ) };

    ghost view = { λ all. map (λ list. list.items) all.found.keys };

    ghost invariant = { λ all. AreDistinct (map (λ list. list.items) all.found.keys) };
}

impl Signatures {
    /// No signatures.
    pub(crate) fn new(alloc: Global) -> Signatures
        ensures { result ≡ [] }
    {
        Signatures {
            found: IndexSet::new(alloc),
        }
    }

    /// How many there are.
    pub(crate) fn len(&self) -> usize
        ensures len { result ≡ length self.now }
        ensures small { result < 2 ^ 63 }
        ensures distinct { AreDistinct self.now }
    {
        self.found.len()
    }

    /// The signature of this number.
    pub(crate) fn get(&self, number: usize) -> &[usize]
        requires { number < length self.now }
        ensures { result.now ≡ slice_index_or self.now number [] }
    {
        self.found.as_slice()[number].as_slice()
    }

    /// The number of the signature, which is put behind the others where it isn't among them. Time:
    /// linear in the signature, in expectation.
    pub(crate) fn number(&mut self, signature: Vec<usize>) -> Result<usize, AllocError>
        ensures at { IfOk result (λ number. slice_index_or self.new number [] ≡ signature.items) }
        ensures within { IfOk result (λ number. number < length self.new) }
        ensures small { IfOk result (λ number. number < 2 ^ 63) }
        ensures grown { IfOk result (λ number. (self.new ≡ self.old)
            ⊎ ((self.new ≡ self.old ++ signature.items ∷ []) × (number ≡ length self.old))) }
    {
        let (number, _) = self.found.insert_full(signature)?;
        prove!(number < self.found.len());
        Ok(number)
    }
}
