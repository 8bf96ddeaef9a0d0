//! A network as its file lists it.

ghost use Rattle.std.specs.Prelude.{◌≡◌};

use rela_names::{List, Name};
use std::marker::Model;

/// The name of a location, lent by what was read of the file. Contracts see it as its bytes.
#[derive(Drop)]
pub(crate) struct LentName<'a> {
    /// The bytes of the name.
    bytes: &'a [u8],
}

impl<'a> Model for LentName<'a> {
    ghost use Rattle.std.specs.Prelude.{List, ℕ};

    ghost Value = { List ℕ };

    ghost view = { λ name. name.bytes.now };
}

impl<'a> LentName<'a> {
    /// The name of these bytes.
    pub(crate) fn new(bytes: &'a [u8]) -> LentName<'a>
        ensures { result ≡ bytes.now }
    {
        LentName { bytes }
    }

    /// The bytes of the name.
    pub(crate) fn as_bytes(&self) -> &[u8]
        ensures bytes { result.now ≡ self.now }
    {
        self.bytes
    }
}

/// A group with its devices.
#[derive(Drop)]
pub(crate) struct GroupEntry<'a> {
    /// The name of the group.
    pub(crate) name: LentName<'a>,
    /// Its devices, in the order of the file.
    pub(crate) devices: List<DeviceEntry<'a>>,
}

impl<'a> Model for GroupEntry<'a> {
    ghost use Rattle.rela_locations.specs.Network.{Group};

    ghost Value = { Group };

    ghost view = { λ entry. record { name = entry.name; devices = entry.devices } };
}

/// A device with its tags and the names of its interfaces.
#[derive(Drop)]
pub(crate) struct DeviceEntry<'a> {
    /// The name of the device.
    pub(crate) name: LentName<'a>,
    /// Its tags, in the order of the file. One may be repeated.
    pub(crate) tags: List<Name>,
    /// The names of its interfaces, in the order of the file.
    pub(crate) interfaces: List<LentName<'a>>,
}

impl<'a> Model for DeviceEntry<'a> {
    ghost use Rattle.rela_locations.specs.Network.{Device};

    ghost Value = { Device };

    ghost view = { λ entry. record {
      name = entry.name;
      tags = entry.tags;
      interfaces = entry.interfaces;
    } };
}
