//! The configurations that were found, and their numbers.
ghost use Rattle.std.specs.Prelude.{◌≡◌, ◌<◌, ◌≤◌, ◌⊎◌, ◌^◌, [], Some, Contains, IfErr, IfOk, length, slice_get};
ghost use Rattle.rela_letter_source.specs.Growth.{IsFoundIn};

use crate::configuration::Configuration;
use indexmap::IndexSet;
use rela_letter_nfa::MAX_STATES;
use rela_pairs::BuildError;
use std::alloc::{AllocError, Global};
use std::marker::Model;

/// The configurations that were found, numbered from 0 in the order in which they came, and looked
/// up by their hash. Contracts see them as a list.
#[derive(Drop)]
pub(crate) struct Found {
    /// The configurations, in the order of their numbers, and a hash table of these.
    all: IndexSet<Configuration>,
}

impl Model for Found {
    ghost use Rattle.std.specs.Prelude.{◌≤◌, ◌^◌, List, length};
    ghost use Rattle.rela_letter_source.specs.declared.configuration.Configuration.{Configuration};

    ghost Value = { List Configuration };

    ghost view = { λ found. found.all.keys };

    ghost invariant = { λ found. length found.all.keys ≤ 2 ^ 31 };
}

impl Found {
    /// No configuration, and room for so many.
    pub(crate) fn with_capacity(alloc: Global, room: usize) -> Result<Found, AllocError>
        ensures { IfOk result (λ found. found ≡ []) }
    {
        let all = IndexSet::with_capacity(alloc, room)?;
        Ok(Found { all })
    }

    /// The configurations, in the order of their numbers.
    pub(crate) fn all(&self) -> &[Configuration]
        ensures all { result.now ≡ self.now }
        ensures few { length self.now ≤ 2 ^ 31 }
    {
        self.all.as_slice()
    }

    /// The number of the configuration, and `Limit` exactly where it isn't found. Time: constant in
    /// expectation.
    fn number_of(&self, x: Configuration) -> Result<u32, BuildError>
        ensures number { IfOk result (λ number. slice_get self.now number ≡ Some x) }
        ensures limit { IfErr result (λ e. (e ≡ BuildError.Limit) × (¬ Contains self.now x)) }
    {
        match self.all.get_index_of(&x) {
            Some(number) => Ok(number as u32),
            None => Err(BuildError::Limit),
        }
    }

    /// The number of the configuration, which is put in unless it is found. Time: constant in
    /// expectation.
    ///
    /// # Errors
    ///
    /// - `Limit` where there would be more than `most`, or than an automaton can have states.
    /// - `Memory` where there isn't memory for it.
    pub(crate) fn number(&mut self, x: Configuration, most: usize) -> Result<u32, BuildError>
        ensures numbered { IfOk result (λ number. slice_get self.new number ≡ Some x) }
        ensures found { IsFoundIn self.old self.new x }
        ensures new { IfErr result (λ e. e ≡ BuildError.Limit → ¬ Contains self.old x) }
        ensures limit { IfErr result (λ e. e ≡ BuildError.Limit →
            (self.new ≡ self.old) × ((most ≤ length self.old) ⊎ (2 ^ 31 ≤ length self.old))) }
        ensures memory { IfErr result (λ e. e ≡ BuildError.Memory →
            (length self.old < most) × (length self.old < 2 ^ 31)) }
    {
        let count = self.all.len();
        if count < most && count < MAX_STATES {
            let (number, _) = self.all.insert_full(x)?;
            return Ok(number as u32);
        }
        self.number_of(x)
    }
}
