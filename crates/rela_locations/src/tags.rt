//! The devices with each tag.

ghost use Rattle.std.specs.Prelude.{◌≡◌, ℕ, List, ◌&&◌, ◌||◌, ◌==◌, is_some, OnOk, IfOk};
ghost use Rattle.std.specs.BTreeMap.{get};
ghost use Rattle.std.specs.List.{flat_map};
ghost use Rattle.std.specs.Str.{bytes_eq};
ghost use Rattle.rela_locations.specs.Names.{has_name};
ghost use Rattle.rela_names.specs.Name.{bytes_cmp};
ghost use Rattle.rela_locations.specs.Network.{devices_in};
ghost use Rattle.rela_locations.specs.Tables.{AreKnown, device_names, has_number, devices_for, is_tagged, AreTagged};

use crate::name_index::NameIndex;
use crate::network::{DeviceEntry, GroupEntry};
use crate::pairs::symbol_of;
use rela_names::{Name, Symbol};
use std::alloc::{AllocError, Global};
use std::collections::BTreeMap;

/// The symbols of the devices with each tag, in no particular order.
pub(crate) type Tagged = BTreeMap<Name, Vec<Symbol>>;

/// The devices with each tag that these groups have. Time: a search in an ordered map for each tag
/// of a device.
///
/// # Errors
///
/// Only where memory is wanted.
pub(crate) fn tagged_devices(
    alloc: Global,
    devices: &NameIndex,
    groups: &[GroupEntry<'_>],
) -> Result<Tagged, AllocError>
    requires { AreKnown devices.now (device_names (devices_in groups.now)) }
    ensures { IfOk result (λ tagged. AreTagged devices.now (devices_in groups.now) tagged) }
{
    let mut tagged = BTreeMap::new(alloc);
    for group in groups {
        add_devices(alloc, &mut tagged, devices, group.devices.as_slice())?;
    }
    Ok(tagged)
}

/// Adds each of these devices to those with its tags.
fn add_devices(
    alloc: Global,
    tagged: &mut Tagged,
    devices: &NameIndex,
    entries: &[DeviceEntry<'_>],
) -> Result<(), AllocError>
    requires { AreKnown devices.now (device_names entries.now) }
    ensures with_tag { OnOk result ((t : List ℕ) (n : ℕ) → has_number (devices_for tagged.new t) n
        ≡ (has_number (devices_for tagged.old t) n || is_tagged devices.now entries.now t n)) }
    ensures tags { OnOk result ((t : List ℕ) → is_some (get bytes_cmp tagged.new t)
        ≡ (is_some (get bytes_cmp tagged.old t)
        || has_name (flat_map (λ device. device.tags) entries.now) t)) }
{
    for device in entries {
        let symbol = symbol_of(devices, &device.name);
        add_tags(alloc, tagged, device.tags.as_slice(), symbol)?;
    }
    Ok(())
}

/// Adds a device to those with each of these tags.
fn add_tags(
    alloc: Global,
    tagged: &mut Tagged,
    tags: &[Name],
    device: Symbol,
) -> Result<(), AllocError>
    ensures with_tag { OnOk result ((t : List ℕ) (n : ℕ) → has_number (devices_for tagged.new t) n
        ≡ (has_number (devices_for tagged.old t) n || (has_name tags.now t && (device == n)))) }
    ensures tags { OnOk result ((t : List ℕ) → is_some (get bytes_cmp tagged.new t)
        ≡ (is_some (get bytes_cmp tagged.old t) || has_name tags.now t)) }
{
    for tag in tags {
        add_tag(alloc, tagged, tag, device)?;
    }
    Ok(())
}

/// Adds a device to those with the tag. A tag that the device repeats adds it once, since all tags
/// of a device come before those of the next.
fn add_tag(alloc: Global, tagged: &mut Tagged, tag: &Name, device: Symbol) -> Result<(), AllocError>
    ensures with_tag { OnOk result ((t : List ℕ) (n : ℕ) → has_number (devices_for tagged.new t) n
        ≡ (has_number (devices_for tagged.old t) n || (bytes_eq t tag.now && (device == n)))) }
    ensures tags { OnOk result ((t : List ℕ) → is_some (get bytes_cmp tagged.new t)
        ≡ (is_some (get bytes_cmp tagged.old t) || bytes_eq t tag.now)) }
{
    if let Some(devices) = tagged.get_mut(tag) {
        if devices.last() != Some(&device) {
            devices.push(device)?;
        }
        return Ok(());
    }
    let devices = vec![in alloc; device]?;
    tagged.insert(tag.copy(alloc)?, devices)?;
    Ok(())
}
