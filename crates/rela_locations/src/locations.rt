//! The locations of a network, and what is asked of them.

ghost use Rattle.std.specs.Prelude.{◌≡◌, ◌≢◌, ℕ, ◌<◌, ◌≤◌, Ok, Err, Some, IfOk, IfErr, IfNone, OnOk, IsErrOf, IsTrue, true, false, length, slice_get, ◌↔◌};
ghost use Rattle.std.specs.List.{All};
ghost use Rattle.rela_locations.specs.Load.{Load};
ghost use Rattle.rela_locations.specs.Tables.{AreAlphabets, IsNamedOnce};

use crate::alphabets::Alphabets;
use crate::lookup::{devices_with, has, inside, interfaces_with, itself};
use crate::members::{By, MemberError, is_finer};
use crate::network::GroupEntry;
use crate::numbered::{NumberedGroup, number_groups};
use crate::plain::read_plain;
use crate::tables::Tables;
use crate::walk::read_network;
use rela_json::{LoadError, read};
use rela_names::{Alphabet, Level, Name, Symbol};
use rela_tokens::Unread;
use std::alloc::{AllocError, Global};
use std::marker::Model;

/// The locations of a network at its three levels, and the tags of its devices.
#[derive(Drop)]
pub struct Locations {
    /// The groups as the file lists them, told by symbols. Only contracts look at them.
    groups: Vec<NumberedGroup>,
    /// The names of the locations of each level, each kept once.
    alphabets: Alphabets,
    /// Which locations lie in which, and the devices with each tag.
    tables: Tables,
}

impl Model for Locations {
    ghost use Rattle.rela_locations.specs.Network.{Network};
    ghost use Rattle.rela_locations.specs.Numbered.{network_of};
    ghost use Rattle.rela_locations.specs.Tables.{IsIndexed};

    ghost Value = { Network };

    ghost view = { λ locations. network_of locations.alphabets locations.groups.items };

    ghost invariant = { λ locations. IsIndexed
        (network_of locations.alphabets locations.groups.items) locations.alphabets
        locations.tables };
}

impl Locations {
    ghost use Rattle.rela_names.specs.declared.level.Level.TheVariants as levels;
    ghost use Rattle.rela_locations.specs.declared.members.By.TheVariants as bys;
    ghost use Rattle.rela_locations.specs.Names.{has_name};
    ghost use Rattle.rela_locations.specs.Network.{alphabet_of, location_of, members_of, is_finer, names_by};

    /// The locations that a file in JSON lists. Time: O(n log n) in its length; space: linear.
    ///
    /// The file is an object with the members `version`, which is 1, and `groups`, an array of
    /// groups. A group is an object with a `name` and an array `devices`. A device is an object
    /// with a `name`, an array `interfaces` of names and maybe an array `tags`. Other members count
    /// for nothing. There are at most 100,000 groups, devices and interfaces each. The name of each
    /// differs from those of its kind and is neither `drop` nor `loop`; a tag is any name.
    ///
    /// # Errors
    ///
    /// `NotJson`; else the first fault of a walk of the file, which takes the groups in order, in
    /// each its devices in order, and in each device its tags and then its interfaces; `Memory`.
    ///
    /// `WrongShape` has the number of the rule that is broken: 1 the file is an object, 2 its
    /// `version` is a whole number, 3 its `groups` are an array, 4 a group is an object, 5 its
    /// `name` is a string, 6 its `devices` are an array, 7 a device is an object, 8 its `name` is a
    /// string, 9 its `tags`, if there, are an array, 10 a tag is a string, 11 its `interfaces` are
    /// an array, 12 an interface is a string. The row counts the earlier entries of the same kind
    /// in the whole file: of groups for the rules 4 to 6, of devices for 7 to 11, of interfaces for
    /// 12.
    ///
    /// `TooMany` comes before the shape of an entry, and `BadVersion` after that of the version.
    /// After the shape of a name come `BadName`, `ReservedName` and `RepeatedEntry`, in this order.
    pub fn decode(alloc: Global, bytes: &[u8]) -> Result<Locations, LoadError>
        requires { length bytes.now ≤ 33554432 }
        ensures network { IfOk result (λ locations. Load bytes.now ≡ Ok locations) }
        ensures fault { IfErr result (λ e. e ≢ LoadError.Memory → Load bytes.now ≡ Err e) }
    {
        if let Ok(locations) = read_plainly(alloc, bytes) {
            return Ok(locations);
        }
        let root = read(alloc, bytes)?;
        let (entries, seen) = read_network(alloc, &root)?;
        let alphabets = seen.into_alphabets(alloc)?;
        Ok(locations_of(alloc, alphabets, entries.as_slice())?)
    }

    /// The alphabet of a level: its locations, in the order of their names by bytes.
    pub fn alphabet(&self, level: Level) -> &Alphabet
        ensures { result.now ≡ alphabet_of level self.now }
    {
        match level {
            Level::Interface => self.alphabets.interfaces.alphabet(),
            Level::Device => self.alphabets.devices.alphabet(),
            Level::Group => self.alphabets.groups.alphabet(),
        }
    }

    /// The interface of this name, and `None` where no interface has it. Time: expected constant.
    pub fn interface(&self, name: &[u8]) -> Option<Symbol>
        ensures found { (s : ℕ) → (result ≡ Some s) ↔
            (slice_get (alphabet_of levels.Interface self.now) s ≡ Some name.now) }
        ensures absent { IfNone result (All (λ other. other
            ≢ name.now) (alphabet_of levels.Interface self.now)) }
    {
        self.alphabets.interfaces.find(name)
    }

    /// The location of a level in which an interface lies. Time: constant.
    pub fn lift(&self, interface: Symbol, level: Level) -> Symbol
        requires { interface < length (alphabet_of levels.Interface self.now) }
        ensures lifted { result ≡ location_of level self.now interface }
        ensures location { result < length (alphabet_of level self.now) }
    {
        match level {
            Level::Interface => interface,
            Level::Device => self.tables.interfaces_in_devices.outer[interface as usize],
            Level::Group => self.tables.interfaces_in_groups.outer[interface as usize],
        }
    }

    /// The locations of a level that lie in the named location, or in a device with the named tag,
    /// ascending. Time: a look-up by hash, and linear in the answer; for a tag a search in an
    /// ordered map, and a sort of the answer.
    ///
    /// # Errors
    ///
    /// `Finer` where what the name picks is finer than the level, a tag counting as a device; else
    /// `Unknown` where no such location is there, or no device carries the tag; `Memory` where
    /// memory runs out.
    pub fn members(
        &self,
        alloc: Global,
        level: Level,
        by: By,
        name: &Name,
    ) -> Result<Vec<Symbol>, MemberError>
        ensures members { IfOk result (λ symbols. symbols.items
            ≡ members_of level by name.now self.now) }
        ensures finer { IsErrOf result MemberError.Finer ↔ IsTrue (is_finer by level) }
        ensures unknown { IsErrOf result MemberError.Unknown ↔
            ((is_finer by level ≡ false) × (has_name (names_by by self.now) name.now ≡ false)) }
    {
        match by {
            By::Interface => self.in_interface(alloc, level, name),
            By::Device => self.in_device(alloc, level, name),
            By::Group => self.in_group(alloc, level, name),
            By::Tag => self.in_tagged(alloc, level, name),
        }
    }

    /// Sees that a name picks locations of a level, by a look-up alone: where it does, `members`
    /// lists them, and where it does not, `members` refuses for the same reason. Time: expected
    /// constant, and for a tag a search in an ordered map.
    ///
    /// # Errors
    ///
    /// `Finer` where what the name picks is finer than the level, a tag counting as a device; else
    /// `Unknown` where no such location is there, or no device carries the tag. Never `Memory`.
    pub fn find(&self, level: Level, by: By, name: &Name) -> Result<(), MemberError>
        ensures known { OnOk result ((is_finer by level ≡ false)
            × (has_name (names_by by self.now) name.now ≡ true)) }
        ensures finer { IsErrOf result MemberError.Finer ↔ IsTrue (is_finer by level) }
        ensures unknown { IsErrOf result MemberError.Unknown ↔
            ((is_finer by level ≡ false) × (has_name (names_by by self.now) name.now ≡ false)) }
        ensures not_memory { result ≢ Err MemberError.Memory }
    {
        if is_finer(by, level) {
            Err(MemberError::Finer)
        } else if self.has(by, name) {
            Ok(())
        } else {
            Err(MemberError::Unknown)
        }
    }

    /// Whether a location has the name, or a device carries the tag.
    fn has(&self, by: By, name: &Name) -> bool
        ensures { result ≡ has_name (names_by by self.now) name.now }
    {
        match by {
            By::Interface => has(&self.alphabets.interfaces, name),
            By::Device => has(&self.alphabets.devices, name),
            By::Group => has(&self.alphabets.groups, name),
            By::Tag => self.tables.tagged.get(name).is_some(),
        }
    }

    /// The answer of [`members`](Locations::members) for the name of an interface.
    fn in_interface(
        &self,
        alloc: Global,
        level: Level,
        name: &Name,
    ) -> Result<Vec<Symbol>, MemberError>
        ensures members { IfOk result (λ symbols. symbols.items
            ≡ members_of level bys.Interface name.now self.now) }
        ensures finer { IsErrOf result MemberError.Finer ↔ IsTrue (is_finer bys.Interface level) }
        ensures unknown { IsErrOf result MemberError.Unknown ↔
            ((is_finer bys.Interface level ≡ false)
            × (has_name (names_by bys.Interface self.now) name.now ≡ false)) }
    {
        match level {
            Level::Interface => itself(alloc, &self.alphabets.interfaces, name),
            Level::Device | Level::Group => Err(MemberError::Finer),
        }
    }

    /// The answer of [`members`](Locations::members) for the name of a device.
    fn in_device(
        &self,
        alloc: Global,
        level: Level,
        name: &Name,
    ) -> Result<Vec<Symbol>, MemberError>
        ensures members { IfOk result (λ symbols. symbols.items
            ≡ members_of level bys.Device name.now self.now) }
        ensures finer { IsErrOf result MemberError.Finer ↔ IsTrue (is_finer bys.Device level) }
        ensures unknown { IsErrOf result MemberError.Unknown ↔ ((is_finer bys.Device level ≡ false)
            × (has_name (names_by bys.Device self.now) name.now ≡ false)) }
    {
        let devices = &self.alphabets.devices;
        match level {
            Level::Interface => {
                let lists = self.tables.interfaces_in_devices.inner.as_slice();
                inside(alloc, devices, lists, name)
            }
            Level::Device => itself(alloc, devices, name),
            Level::Group => Err(MemberError::Finer),
        }
    }

    /// The answer of [`members`](Locations::members) for the name of a group.
    fn in_group(&self, alloc: Global, level: Level, name: &Name) -> Result<Vec<Symbol>, MemberError>
        ensures members { IfOk result (λ symbols. symbols.items
            ≡ members_of level bys.Group name.now self.now) }
        ensures finer { IsErrOf result MemberError.Finer ↔ IsTrue (is_finer bys.Group level) }
        ensures unknown { IsErrOf result MemberError.Unknown ↔
            ((is_finer bys.Group level ≡ false)
            × (has_name (names_by bys.Group self.now) name.now ≡ false)) }
    {
        let groups = &self.alphabets.groups;
        match level {
            Level::Interface => {
                let lists = self.tables.interfaces_in_groups.inner.as_slice();
                inside(alloc, groups, lists, name)
            }
            Level::Device => {
                let lists = self.tables.devices_in_groups.inner.as_slice();
                inside(alloc, groups, lists, name)
            }
            Level::Group => itself(alloc, groups, name),
        }
    }

    /// The answer of [`members`](Locations::members) for a tag.
    fn in_tagged(
        &self,
        alloc: Global,
        level: Level,
        name: &Name,
    ) -> Result<Vec<Symbol>, MemberError>
        ensures members { IfOk result (λ symbols. symbols.items
            ≡ members_of level bys.Tag name.now self.now) }
        ensures finer { IsErrOf result MemberError.Finer ↔ IsTrue (is_finer bys.Tag level) }
        ensures unknown { IsErrOf result MemberError.Unknown ↔
            ((is_finer bys.Tag level ≡ false)
            × (has_name (names_by bys.Tag self.now) name.now ≡ false)) }
    {
        let tagged = &self.tables.tagged;
        match level {
            Level::Interface => {
                let lists = self.tables.interfaces_in_devices.inner.as_slice();
                interfaces_with(alloc, tagged, lists, name)
            }
            Level::Device => devices_with(alloc, tagged, name),
            Level::Group => Err(MemberError::Finer),
        }
    }
}

/// The locations that a plain file lists.
///
/// # Errors
///
/// `Unread`, which says nothing of the file.
fn read_plainly(alloc: Global, bytes: &[u8]) -> Result<Locations, Unread>
    ensures { IfOk result (λ locations. Load bytes.now ≡ Ok locations) }
{
    let (entries, seen) = read_plain(alloc, bytes)?;
    let alphabets = seen.into_alphabets(alloc)?;
    Ok(locations_of(alloc, alphabets, entries.as_slice())?)
}

/// The locations of these groups, whose names the alphabets have.
///
/// # Errors
///
/// Only where memory is wanted.
fn locations_of(
    alloc: Global,
    alphabets: Alphabets,
    groups: &[GroupEntry<'_>],
) -> Result<Locations, AllocError>
    requires alphabets { AreAlphabets groups.now alphabets }
    requires once { IsNamedOnce groups.now }
    ensures { IfOk result (λ locations. locations ≡ groups.now) }
{
    let tables = Tables::new(alloc, &alphabets, groups)?;
    let groups = number_groups(alloc, &alphabets, groups)?;
    Ok(Locations {
        groups,
        alphabets,
        tables,
    })
}
