//! Which locations lie in which, as pairs of symbols that are read off the groups of a file.

ghost use Rattle.std.specs.Prelude.{◌≡◌, ◌++◌, IsTrue, IfOk, map};
ghost use Rattle.rela_locations.specs.Names.{has_name};
ghost use Rattle.rela_locations.specs.Network.{devices_in};
ghost use Rattle.rela_locations.specs.Tables.{index_of, AreKnown, device_names, interface_names, under, numbered_pairs};

use crate::alphabets::Alphabets;
use crate::name_index::NameIndex;
use crate::network::{DeviceEntry, GroupEntry, LentName};
use rela_names::Symbol;
use std::alloc::{AllocError, Global};

/// A location, and the one of a coarser level that it lies in.
pub(crate) type Pair = (Symbol, Symbol);

/// Each interface with its device, in the order of the file. Time: expected linear in the
/// interfaces and devices.
pub(crate) fn interfaces_with_devices(
    alloc: Global,
    alphabets: &Alphabets,
    groups: &[GroupEntry<'_>],
) -> Result<Vec<Pair>, AllocError>
    requires interfaces { AreKnown alphabets.now.interfaces
        (interface_names (devices_in groups.now)) }
    requires devices { AreKnown alphabets.now.devices (device_names (devices_in groups.now)) }
    ensures { IfOk result (λ pairs. pairs.items ≡ numbered_pairs alphabets.now.interfaces
        alphabets.now.devices (λ device. device.name) (λ device. device.interfaces)
        (devices_in groups.now)) }
{
    let mut pairs = Vec::new(alloc);
    for group in groups {
        add_interfaces(
            &mut pairs,
            &alphabets.interfaces,
            &alphabets.devices,
            group.devices.as_slice(),
        )?;
    }
    Ok(pairs)
}

/// Adds each interface of these devices with its device.
fn add_interfaces(
    pairs: &mut Vec<Pair>,
    interfaces: &NameIndex,
    devices: &NameIndex,
    entries: &[DeviceEntry<'_>],
) -> Result<(), AllocError>
    requires interfaces { AreKnown interfaces.now (interface_names entries.now) }
    requires devices { AreKnown devices.now (device_names entries.now) }
    ensures { IfOk result (λ _. pairs.new.items ≡ pairs.old.items ++ numbered_pairs interfaces.now
        devices.now (λ device. device.name) (λ device. device.interfaces) entries.now) }
{
    for device in entries {
        let symbol = symbol_of(devices, &device.name);
        add_each(pairs, interfaces, device.interfaces.as_slice(), symbol)?;
    }
    Ok(())
}

/// Each interface with its group, in the order of the file. Time: expected linear in the interfaces
/// and groups.
pub(crate) fn interfaces_with_groups(
    alloc: Global,
    alphabets: &Alphabets,
    groups: &[GroupEntry<'_>],
) -> Result<Vec<Pair>, AllocError>
    requires interfaces { AreKnown alphabets.now.interfaces
        (interface_names (devices_in groups.now)) }
    requires groups { AreKnown alphabets.now.groups (map (λ group. group.name) groups.now) }
    ensures { IfOk result (λ pairs. pairs.items ≡ numbered_pairs alphabets.now.interfaces
        alphabets.now.groups (λ group. group.name) (λ group.
        interface_names group.devices) groups.now) }
{
    let mut pairs = Vec::new(alloc);
    for group in groups {
        let symbol = symbol_of(&alphabets.groups, &group.name);
        add_all_interfaces(
            &mut pairs,
            &alphabets.interfaces,
            group.devices.as_slice(),
            symbol,
        )?;
    }
    Ok(pairs)
}

/// Adds each interface of these devices with the group.
fn add_all_interfaces(
    pairs: &mut Vec<Pair>,
    interfaces: &NameIndex,
    entries: &[DeviceEntry<'_>],
    group: Symbol,
) -> Result<(), AllocError>
    requires { AreKnown interfaces.now (interface_names entries.now) }
    ensures { IfOk result (λ _. pairs.new.items ≡ pairs.old.items
        ++ under interfaces.now (interface_names entries.now) group) }
{
    for device in entries {
        add_each(pairs, interfaces, device.interfaces.as_slice(), group)?;
    }
    Ok(())
}

/// Adds each location of these names with `parent`, the location that it lies in.
fn add_each(
    pairs: &mut Vec<Pair>,
    alphabet: &NameIndex,
    names: &[LentName<'_>],
    parent: Symbol,
) -> Result<(), AllocError>
    requires { AreKnown alphabet.now names.now }
    ensures { IfOk result (λ _. pairs.new.items ≡ pairs.old.items
        ++ under alphabet.now names.now parent) }
{
    let mut guess = 0;
    for name in names {
        let symbol = symbol_near(alphabet, name, guess);
        pairs.push((symbol, parent))?;
        guess = symbol.wrapping_add(1);
    }
    Ok(())
}

/// Each device with its group, in the order of the file. Time: expected linear in the devices and
/// groups.
pub(crate) fn devices_with_groups(
    alloc: Global,
    alphabets: &Alphabets,
    groups: &[GroupEntry<'_>],
) -> Result<Vec<Pair>, AllocError>
    requires devices { AreKnown alphabets.now.devices (device_names (devices_in groups.now)) }
    requires groups { AreKnown alphabets.now.groups (map (λ group. group.name) groups.now) }
    ensures { IfOk result (λ pairs. pairs.items
        ≡ numbered_pairs alphabets.now.devices alphabets.now.groups (λ group. group.name) (λ group.
        device_names group.devices) groups.now) }
{
    let mut pairs = Vec::new(alloc);
    for group in groups {
        let symbol = symbol_of(&alphabets.groups, &group.name);
        add_devices(
            &mut pairs,
            &alphabets.devices,
            group.devices.as_slice(),
            symbol,
        )?;
    }
    Ok(pairs)
}

/// Adds each of these devices with the group.
fn add_devices(
    pairs: &mut Vec<Pair>,
    alphabet: &NameIndex,
    entries: &[DeviceEntry<'_>],
    group: Symbol,
) -> Result<(), AllocError>
    requires { AreKnown alphabet.now (device_names entries.now) }
    ensures { IfOk result (λ _. pairs.new.items ≡ pairs.old.items
        ++ under alphabet.now (device_names entries.now) group) }
{
    for device in entries {
        pairs.push((symbol_of(alphabet, &device.name), group))?;
    }
    Ok(())
}

/// The symbol of the location of this name, which the index has. Time: expected constant.
pub(crate) fn symbol_of(alphabet: &NameIndex, name: &LentName<'_>) -> Symbol
    requires { IsTrue (has_name alphabet.now name.now) }
    ensures { result ≡ index_of alphabet.now name.now }
{
    symbol_near(alphabet, name, 0)
}

/// The symbol of the location of this name, which the index has. Time: one comparison, where it is
/// the one that is guessed, as the next one is where names come in order; else expected constant.
pub(crate) fn symbol_near(alphabet: &NameIndex, name: &LentName<'_>, guess: Symbol) -> Symbol
    requires { IsTrue (has_name alphabet.now name.now) }
    ensures { result ≡ index_of alphabet.now name.now }
{
    match alphabet.find_near(name.as_bytes(), guess) {
        Some(symbol) => symbol,
        None => unreachable!(),
    }
}
