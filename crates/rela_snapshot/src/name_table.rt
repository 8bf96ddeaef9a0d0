//! Names in the order in which they came, found by a hash.

ghost use Rattle.std.specs.Prelude.{◌≡◌, ◌<◌, ◌≤◌, [], length, not, IfOk, OnOk, IfSome};
ghost use Rattle.rela_snapshot.specs.Names.{AreDistinct, has_name, place_of, with_name};

use indexmap::IndexSet;
use rela_graph::MAX_NODES;
use std::alloc::{AllocError, Global};
use std::marker::Model;

/// Names in the order in which they came, each once. Contracts see it as the list of them.
#[derive(Drop)]
pub(crate) struct NameTable<'a> {
    /// The names, hashed, in the order in which they came.
    names: IndexSet<&'a [u8]>,
}

impl<'a> Model for NameTable<'a> {
    ghost use Rattle.std.specs.Prelude.{List, ℕ, map};
    ghost use Rattle.rela_snapshot.specs.Names.{AreTableNames};

    ghost Value = { List (List ℕ) };

    ghost view = { λ table. map (λ name. name.now) table.names.keys };

    ghost invariant = { λ table. AreTableNames (map (λ name. name.now) table.names.keys) };
}

impl<'a> NameTable<'a> {
    /// The table of no names.
    pub(crate) fn new(alloc: Global) -> NameTable<'a>
        ensures { result ≡ [] }
    {
        NameTable {
            names: IndexSet::new(alloc),
        }
    }

    /// Adds a name, unless it is there. Says whether it is new. Time: expected constant.
    ///
    /// # Errors
    ///
    /// Only where memory is wanted.
    pub(crate) fn add(&mut self, name: &'a [u8]) -> Result<bool, AllocError>
        requires { length self.old < MAX_NODES }
        ensures added { IfOk result (λ is_new. is_new ≡ not (has_name self.old name.now)) }
        ensures names { OnOk result (self.new ≡ with_name self.old name.now) }
        ensures distinct { OnOk result (AreDistinct self.new) }
    {
        let (_, is_new) = self.names.insert_full(name)?;
        Ok(is_new)
    }

    /// Whether a name is there. Time: expected constant.
    pub(crate) fn has(&self, name: &[u8]) -> bool
        ensures { result ≡ has_name self.now name.now }
    {
        self.names.contains(name)
    }

    /// How many names there are.
    pub(crate) fn len(&self) -> usize
        ensures len { result ≡ length self.now }
        ensures few { length self.now ≤ MAX_NODES }
        ensures distinct { AreDistinct self.now }
    {
        self.names.len()
    }

    /// The number of names that came before this one, and `None` where it is not there. Time:
    /// expected constant.
    pub(crate) fn place(&self, name: &[u8]) -> Option<u32>
        ensures place { result ≡ place_of self.now name.now }
        ensures within { IfSome result (λ place. place < length self.now) }
        ensures few { length self.now ≤ MAX_NODES }
        ensures distinct { AreDistinct self.now }
    {
        let place = self.names.get_index_of(name)?;
        Some(place as u32)
    }
}
