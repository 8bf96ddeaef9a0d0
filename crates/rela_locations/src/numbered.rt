//! A network whose locations are told by their symbols, so that no name is kept twice.

ghost use Rattle.std.specs.Prelude.{◌≡◌, IsTrue, IfOk, map};
ghost use Rattle.rela_locations.specs.Names.{has_name};
ghost use Rattle.rela_locations.specs.Network.{devices_in};
ghost use Rattle.rela_locations.specs.Numbered.{named, device_of, group_of, network_of};
ghost use Rattle.rela_locations.specs.Tables.{AreKnown, device_names, interface_names};

use crate::alphabets::Alphabets;
use crate::name_index::NameIndex;
use crate::network::{DeviceEntry, GroupEntry, LentName};
use crate::pairs::{symbol_near, symbol_of};
use rela_names::{List, Name, Symbol};
use std::alloc::{AllocError, Global};

/// A group with its devices.
#[derive(Drop)]
pub(crate) struct NumberedGroup {
    /// The symbol of the group.
    pub(crate) group: Symbol,
    /// Its devices, in the order of the file.
    pub(crate) devices: Vec<NumberedDevice>,
}

/// A device with its tags and its interfaces.
#[derive(Drop)]
pub(crate) struct NumberedDevice {
    /// The symbol of the device.
    pub(crate) device: Symbol,
    /// Its tags, in the order of the file. One may be repeated.
    pub(crate) tags: List<Name>,
    /// The symbols of its interfaces, in the order of the file.
    pub(crate) interfaces: Vec<Symbol>,
}

/// These groups, told by the symbols that their names have in the alphabets. Time: expected linear
/// in the bytes of the names; space: linear in the locations and the tags.
///
/// # Errors
///
/// Only where memory is wanted.
pub(crate) fn number_groups(
    alloc: Global,
    alphabets: &Alphabets,
    groups: &[GroupEntry<'_>],
) -> Result<Vec<NumberedGroup>, AllocError>
    requires groups { AreKnown alphabets.now.groups (map (λ group. group.name) groups.now) }
    requires devices { AreKnown alphabets.now.devices (device_names (devices_in groups.now)) }
    requires interfaces { AreKnown alphabets.now.interfaces
        (interface_names (devices_in groups.now)) }
    ensures { IfOk result (λ numbered. network_of alphabets.now numbered.items ≡ groups.now) }
{
    let mut numbered = Vec::with_capacity(alloc, groups.len())?;
    for group in groups {
        let next = number_group(alloc, alphabets, group)?;
        numbered.push(next)?;
    }
    Ok(numbered)
}

/// A group, told by symbols.
fn number_group(
    alloc: Global,
    alphabets: &Alphabets,
    group: &GroupEntry<'_>,
) -> Result<NumberedGroup, AllocError>
    requires group { IsTrue (has_name alphabets.now.groups group.now.name) }
    requires devices { AreKnown alphabets.now.devices (device_names group.now.devices) }
    requires interfaces { AreKnown alphabets.now.interfaces (interface_names group.now.devices) }
    ensures { IfOk result (λ numbered. group_of alphabets.now numbered ≡ group.now) }
{
    let symbol = symbol_of(&alphabets.groups, &group.name);
    let devices = number_devices(alloc, alphabets, group.devices.as_slice())?;
    Ok(NumberedGroup {
        group: symbol,
        devices,
    })
}

/// Devices, told by symbols.
fn number_devices(
    alloc: Global,
    alphabets: &Alphabets,
    devices: &[DeviceEntry<'_>],
) -> Result<Vec<NumberedDevice>, AllocError>
    requires devices { AreKnown alphabets.now.devices (device_names devices.now) }
    requires interfaces { AreKnown alphabets.now.interfaces (interface_names devices.now) }
    ensures { IfOk result (λ numbered. map (device_of alphabets.now) numbered.items ≡ devices.now) }
{
    let mut numbered = Vec::with_capacity(alloc, devices.len())?;
    for device in devices {
        let next = number_device(alloc, alphabets, device)?;
        numbered.push(next)?;
    }
    Ok(numbered)
}

/// A device, told by symbols.
fn number_device(
    alloc: Global,
    alphabets: &Alphabets,
    device: &DeviceEntry<'_>,
) -> Result<NumberedDevice, AllocError>
    requires device { IsTrue (has_name alphabets.now.devices device.now.name) }
    requires interfaces { AreKnown alphabets.now.interfaces device.now.interfaces }
    ensures { IfOk result (λ numbered. device_of alphabets.now numbered ≡ device.now) }
{
    let symbol = symbol_of(&alphabets.devices, &device.name);
    let names = device.interfaces.as_slice();
    let interfaces = number_names(alloc, &alphabets.interfaces, names)?;
    let tags = copies_of(alloc, device.tags.as_slice())?;
    Ok(NumberedDevice {
        device: symbol,
        tags: List::from_vec(tags),
        interfaces,
    })
}

/// The symbols of these names, in their order.
fn number_names(
    alloc: Global,
    alphabet: &NameIndex,
    names: &[LentName<'_>],
) -> Result<Vec<Symbol>, AllocError>
    requires { AreKnown alphabet.now names.now }
    ensures { IfOk result (λ symbols. map (named alphabet.now) symbols.items ≡ names.now) }
{
    let mut symbols = Vec::with_capacity(alloc, names.len())?;
    let mut guess = 0;
    for name in names {
        let symbol = symbol_near(alphabet, name, guess);
        symbols.push(symbol)?;
        guess = symbol.wrapping_add(1);
    }
    Ok(symbols)
}

/// The same names once more, with bytes of their own.
fn copies_of(alloc: Global, names: &[Name]) -> Result<Vec<Name>, AllocError>
    ensures { IfOk result (λ copies. copies.items ≡ names.now) }
{
    let mut copies = Vec::with_capacity(alloc, names.len())?;
    for name in names {
        let copy = name.copy(alloc)?;
        copies.push(copy)?;
    }
    Ok(copies)
}
