//! What the names of earlier items stand for.

ghost use Rattle.std.specs.Prelude.{◌≡◌, ℕ, None, Some, List, OnOk, if◌then◌else◌};
ghost use Rattle.std.specs.Str.{bytes_eq};
ghost use Rattle.rela_expand.specs.Scopes.{meaning_of};

use indexmap::IndexMap;
use std::alloc::{AllocError, Global};

/// What a name stands for, by the place where it stands.
#[derive(Clone, Copy)]
pub(crate) enum Meaning {
    /// A path expression, whose place is among the forms.
    Path(usize),
    /// A specification, whose place is among the bodies.
    Spec(usize),
}

/// The names of earlier items, found by their hash.
#[derive(Drop)]
pub(crate) struct Definitions<'a> {
    /// What each name stands for.
    pub(crate) meanings: IndexMap<&'a [u8], Meaning>,
}

impl<'a> Definitions<'a> {
    /// No names.
    pub(crate) fn new(alloc: Global) -> Definitions<'a>
        ensures { (name : List ℕ) → meaning_of result name ≡ None }
    {
        Definitions {
            meanings: IndexMap::new(alloc),
        }
    }

    /// What the name stands for, or `None` where no earlier item has it.
    pub(crate) fn get(&self, name: &[u8]) -> Option<Meaning>
        ensures { result ≡ meaning_of self.now name.now }
    {
        self.meanings.get(name).copied()
    }

    /// Notes that the name stands for this from here on. The only error is want of memory.
    pub(crate) fn add(&mut self, name: &'a [u8], meaning: Meaning) -> Result<(), AllocError>
        ensures { OnOk result ((other : List ℕ) →
            meaning_of self.new other ≡ (if bytes_eq name.now other then Some meaning
            else meaning_of self.old other)) }
    {
        self.meanings.insert(name, meaning)?;
        Ok(())
    }
}
