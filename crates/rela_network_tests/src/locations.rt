//! The locations of a small network.

use crate::network::{Question, is_so};
use rela_json::LoadError;
use rela_locations::{By, Locations, MemberError};
use rela_names::{Level, Name, Symbol};
use std::alloc::Global;

/// The location of the level in which the interface of this name lies, or `None` where there is
/// none.
fn lifted(locations: &Locations, interface: &[u8], level: Level) -> Option<Symbol> {
    let symbol = locations.alphabet(Level::Interface).find(interface)?;
    Some(locations.lift(symbol, level))
}

/// Whether r4:1 lies where it should at each level, and r4:2 nowhere.
#[derive(Drop)]
struct Lifts;

impl Question for Lifts {
    fn is_so(&self, _alloc: Global, locations: &Locations) -> bool {
        let found = [
            lifted(locations, b"r4:1", Level::Interface),
            lifted(locations, b"r4:1", Level::Device),
            lifted(locations, b"r4:1", Level::Group),
            lifted(locations, b"r4:2", Level::Group),
        ];
        found == [Some(4), Some(3), Some(1), None]
    }
}

/// An interface lies in its device and in the group of that.
#[test]
fn lifts_an_interface(rt: HostRuntime) {
    assert!(rt; is_so(rt.alloc(), &Lifts));
}

/// Whether these symbols are the members of a name at a level.
#[derive(Drop)]
struct Members<'a> {
    /// The level of the members.
    level: Level,
    /// By what the name picks them.
    by: By,
    /// The name.
    name: &'a [u8],
    /// The members that it should have.
    symbols: &'a [Symbol],
}

impl Members<'_> {
    /// Whether they are those of the name, which is that of the question.
    fn are_those_of(&self, alloc: Global, locations: &Locations, name: &Name) -> bool {
        match locations.members(alloc, self.level, self.by, name) {
            Ok(found) => found.as_slice() == self.symbols,
            Err(_) => false,
        }
    }
}

impl Question for Members<'_> {
    fn is_so(&self, alloc: Global, locations: &Locations) -> bool {
        match Name::from_bytes(alloc, self.name) {
            Ok(name) => self.are_those_of(alloc, locations, &name),
            Err(_) => false,
        }
    }
}

/// A name picks the locations within it, at its own level or a finer one.
#[test]
fn gives_the_members(rt: HostRuntime) {
    for (level, by, name, symbols) in [
        (
            Level::Interface,
            By::Interface,
            b"r4:0".as_slice(),
            [3].as_slice(),
        ),
        (Level::Interface, By::Device, b"r4", &[3, 4]),
        (Level::Interface, By::Group, b"edge", &[0, 3, 4]),
        (Level::Device, By::Group, b"edge", &[0, 3]),
        (Level::Device, By::Tag, b"border", &[0]),
        (Level::Interface, By::Tag, b"border", &[0]),
    ] {
        let question = Members {
            level,
            by,
            name,
            symbols,
        };
        assert!(rt; is_so(rt.alloc(), &question), "{level:?} {by:?} {name:?}");
    }
}

/// Whether the tag is found at the level of devices, is too fine for that of groups, and is no
/// device.
fn finds(locations: &Locations, tag: &Name) -> bool {
    let device = locations.find(Level::Device, By::Tag, tag).is_ok();
    let group = locations.find(Level::Group, By::Tag, tag);
    let is_finer = matches!(&group, Err(MemberError::Finer));
    let none = locations.find(Level::Device, By::Device, tag);
    let is_unknown = matches!(&none, Err(MemberError::Unknown));
    device && is_finer && is_unknown
}

/// Whether the tag `border` is found so.
#[derive(Drop)]
struct Border;

impl Question for Border {
    fn is_so(&self, alloc: Global, locations: &Locations) -> bool {
        match Name::from_bytes(alloc, b"border") {
            Ok(tag) => finds(locations, &tag),
            Err(_) => false,
        }
    }
}

/// A name is found at its own level or a finer one, and else refused for what is wrong.
#[test]
fn finds_what_is_there(rt: HostRuntime) {
    assert!(rt; is_so(rt.alloc(), &Border));
}

/// The fault of a text of at most 1,000 bytes, or `None` where it has none or is longer.
fn fault(alloc: Global, text: &[u8]) -> Option<LoadError> {
    if text.len() > 1_000 {
        return None;
    }
    Locations::decode(alloc, text).err()
}

/// A location file is refused for its first fault.
#[test]
fn refuses_the_first_fault(rt: HostRuntime) {
    for (text, error) in [
        (b"[]".as_slice(), LoadError::WrongShape { rule: 1, row: 0 }),
        (b"{\"version\":2}", LoadError::BadVersion),
        (b"{", LoadError::NotJson),
        (
            b"{\"version\":1,\"groups\":[{\"name\":\"core\",\"devices\":[]},{\"name\":\"core\",\"devices\":[]}]}",
            LoadError::RepeatedEntry { row: 1 },
        ),
    ] {
        assert_eq!(rt; fault(rt.alloc(), text), Some(error), "{text:?}");
    }
}
