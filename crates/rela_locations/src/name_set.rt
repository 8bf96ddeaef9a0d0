//! The names of one kind that a walk of the file has come by.

ghost use Rattle.std.specs.Prelude.{◌≡◌, ◌≢◌, ◌<◌, ◌⊎◌, ◌++◌, [], length, Ok, Err, IfOk, IfErr, OnOk, OnErr, IsErrOf, IsTrue, not};
ghost use Rattle.std.specs.List.{All};
ghost use Rattle.std.specs.declared.cmp.Ordering.TheVariants.{Greater};
ghost use Rattle.rela_locations.specs.Names.{with_name, has_name, next_row, location_name, new_name};
ghost use Rattle.rela_names.specs.Name.{bytes_cmp, IsAscending, IsLocationName};

use crate::network::LentName;
use rela_json::LoadError;
use rela_names::{Alphabet, MAX_LOCATIONS, Name, NameError};
use std::alloc::{AllocError, Global};
use std::collections::BTreeSet;
use std::marker::Model;
use std::mem::replace;

/// The names of all entries of one kind so far, in the order of their bytes; each may be that of a
/// location. Most files list their entries in this order: as long as each name comes after the one
/// before it, the names stand in a vector, and from the first one on that doesn't in an ordered set.
#[derive(Drop)]
pub(crate) struct NameSet {
    /// The names, as long as each came after the one before it; none from then on.
    rising: Vec<Name>,
    /// All names, once one came before another; none until then.
    mixed: BTreeSet<Name>,
}

impl Model for NameSet {
    ghost use Rattle.std.specs.Prelude.{◌≡◌, ◌⊎◌, ◌++◌, List, [], ℕ};
    ghost use Rattle.rela_names.specs.Name.{IsAscending};
    ghost use Rattle.rela_locations.specs.Names.{AreLocationNames};

    ghost Value = { List (List ℕ) };

    ghost view = { λ set. set.rising.items ++ set.mixed.keys };

    ghost invariant = { λ set. AreLocationNames (set.rising.items ++ set.mixed.keys)
        × IsAscending set.rising.items
        × ((set.rising.items ≡ []) ⊎ (set.mixed.keys ≡ [])) };
}

impl NameSet {
    /// The set of no names.
    pub(crate) fn new(alloc: Global) -> NameSet
        ensures { result ≡ [] }
    {
        NameSet {
            rising: Vec::new(alloc),
            mixed: BTreeSet::new(alloc),
        }
    }

    /// The row of the next entry, which is the number of names so far.
    ///
    /// # Errors
    ///
    /// `TooMany` with that row where there are 100,000 names.
    pub(crate) fn next_row(&self) -> Result<u32, LoadError>
        ensures { result ≡ next_row self.now }
    {
        let row = (self.rising.len() + self.mixed.len()) as u32;
        if (row as usize) < MAX_LOCATIONS {
            Ok(row)
        } else {
            Err(LoadError::TooMany { row })
        }
    }

    /// The name of these bytes, a copy of which is added to the set. `row` is that of the entry, for
    /// the errors. Time: a comparison as long as each name comes after the one before it, and then a
    /// search in an ordered set, which is made once.
    ///
    /// # Errors
    ///
    /// `BadName` where the bytes are no name; else `ReservedName` where no location may have it;
    /// else `RepeatedEntry` where an earlier entry has it; `Memory` where memory runs out, and so
    /// only for a name that a location may have.
    pub(crate) fn add<'a>(
        &mut self,
        alloc: Global,
        bytes: &'a [u8],
        row: u32,
    ) -> Result<LentName<'a>, LoadError>
        requires { length self.old < 100000 }
        ensures name { IfOk result (λ name. new_name self.old row bytes.now ≡ Ok name) }
        ensures added { IfOk result (λ name. self.new ≡ with_name self.old name) }
        ensures fault { IfErr result (λ e. e ≢ LoadError.Memory →
            new_name self.old row bytes.now ≡ Err e) }
        ensures memory { IsErrOf result LoadError.Memory → IsLocationName bytes.now }
    {
        let name = location_name(alloc, bytes, row)?;
        let is_new = self.insert(alloc, name)?;
        if !is_new {
            return Err(LoadError::RepeatedEntry { row });
        }
        Ok(LentName::new(bytes))
    }

    /// Adds the name of a location, and says whether it is new.
    fn insert(&mut self, alloc: Global, name: Name) -> Result<bool, AllocError>
        requires room { length self.old < 100000 }
        requires location { IsLocationName name }
        ensures new { IfOk result (λ is_new. is_new ≡ not (has_name self.old name)) }
        ensures added { OnOk result (self.new ≡ with_name self.old name) }
    {
        if self.mixed.is_empty() && is_after_all(&self.rising, &name) {
            self.rising.push(name)?;
            return Ok(true);
        }
        mix(alloc, &mut self.rising, &mut self.mixed)?;
        let is_new = self.mixed.insert(name)?;
        Ok(is_new)
    }

    /// The names as an alphabet. Time: linear in their number, and constant where each came after
    /// the one before it.
    ///
    /// # Errors
    ///
    /// Only where memory is wanted.
    pub(crate) fn into_alphabet(self, alloc: Global) -> Result<Alphabet, AllocError>
        ensures { IfOk result (λ alphabet. alphabet ≡ self) }
    {
        let NameSet { rising, mixed } = self;
        if mixed.is_empty() {
            return Ok(Alphabet::new(rising));
        }
        let names = mixed.into_iter().collect(alloc)?;
        Ok(Alphabet::new(names))
    }
}

/// Whether the name comes after all of these, each of which comes after the one before it.
fn is_after_all(names: &[Name], name: &Name) -> bool
    requires { IsAscending names.now }
    ensures { IsTrue result → All (λ other. bytes_cmp name.now other ≡ Greater) names.now }
{
    match names.last() {
        Some(last) => name > last,
        None => true,
    }
}

/// Moves the names, each of which comes after the one before it, into the set, which has none where
/// there are any. Where memory is wanted for it, they are dropped.
fn mix(alloc: Global, rising: &mut Vec<Name>, mixed: &mut BTreeSet<Name>) -> Result<(), AllocError>
    requires rising { IsAscending rising.old.items }
    requires one_kind { (rising.old.items ≡ []) ⊎ (mixed.old.keys ≡ []) }
    ensures none { rising.new.items ≡ [] }
    ensures moved { OnOk result (mixed.new.keys ≡ rising.old.items ++ mixed.old.keys) }
    ensures unchanged { OnErr result (mixed.new.keys ≡ mixed.old.keys) }
{
    if !rising.is_empty() {
        let names = replace(rising, Vec::new(alloc));
        *mixed = set_of(alloc, names)?;
    }
    Ok(())
}

/// The set of these names, each of which comes after the one before it.
fn set_of(alloc: Global, names: Vec<Name>) -> Result<BTreeSet<Name>, AllocError>
    requires { IsAscending names.items }
    ensures { IfOk result (λ set. set.keys ≡ names.items) }
{
    let mut set = BTreeSet::new(alloc);
    for name in names {
        set.insert(name)?;
    }
    Ok(set)
}

/// The name of these bytes, which a location may have. `row` is that of the entry, for the errors.
///
/// # Errors
///
/// `BadName` where the bytes are no name; else `ReservedName` where they are `drop` or `loop`; else
/// `Memory` where memory runs out.
fn location_name(alloc: Global, bytes: &[u8], row: u32) -> Result<Name, LoadError>
    ensures name { IfOk result (λ name. location_name row bytes.now ≡ Ok name) }
    ensures same { IfOk result (λ name. name ≡ bytes.now) }
    ensures location { OnOk result (IsLocationName bytes.now) }
    ensures fault { IfErr result (λ e. e ≢ LoadError.Memory → location_name row bytes.now ≡ Err e) }
    ensures memory { IsErrOf result LoadError.Memory → IsLocationName bytes.now }
{
    match Name::location(alloc, bytes) {
        Ok(name) => Ok(name),
        Err(NameError::Bad) => Err(LoadError::BadName { row }),
        Err(NameError::Reserved) => Err(LoadError::ReservedName { row }),
        Err(NameError::Memory) => Err(LoadError::Memory),
    }
}
