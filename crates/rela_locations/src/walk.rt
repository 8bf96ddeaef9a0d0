//! The walk of the file: groups in order, in each its devices, in each device its tags and then its
//! interfaces. The first fault of the walk is the answer.

ghost use Rattle.std.specs.Prelude.{◌≡◌, ◌≢◌, Ok, Err, [], map, option_map, is_ok, IsTrue, IfOk, IfErr, IsErrOf};
ghost use Rattle.std.specs.List.{flat_map};
ghost use Rattle.serde_json.specs.View.{view};
ghost use Rattle.rela_names.specs.declared.level.Level.TheVariants as level;
ghost use Rattle.rela_locations.specs.Names.{with_name, with_names};
ghost use Rattle.rela_locations.specs.Network.{names_at, alphabet_of};
ghost use Rattle.rela_locations.specs.Load.{load_interface, load_interfaces, load_tag, load_tags, load_device, load_devices, load_group, load_groups, load_file};

use crate::alphabets::Alphabets;
use crate::name_index::NameIndex;
use crate::name_set::NameSet;
use crate::network::{DeviceEntry, GroupEntry, LentName};
use crate::parts::{bytes, entries, part, whole_number};
use rela_json::{LoadError, Value};
use rela_names::{List, Name, NameError};
use std::alloc::{AllocError, Global};

/// The names that a walk has come by, at each level.
#[derive(Drop)]
pub(crate) struct Seen {
    /// The names of the groups so far.
    pub(crate) groups: NameSet,
    /// The names of the devices so far, in all groups.
    pub(crate) devices: NameSet,
    /// The names of the interfaces so far, in all devices.
    pub(crate) interfaces: NameSet,
}

impl Seen {
    /// No names.
    pub(crate) fn new(alloc: Global) -> Seen
        ensures groups { result.groups ≡ [] }
        ensures devices { result.devices ≡ [] }
        ensures interfaces { result.interfaces ≡ [] }
    {
        Seen {
            groups: NameSet::new(alloc),
            devices: NameSet::new(alloc),
            interfaces: NameSet::new(alloc),
        }
    }

    /// The names as alphabets with their indexes.
    ///
    /// # Errors
    ///
    /// Only where memory is wanted.
    pub(crate) fn into_alphabets(self, alloc: Global) -> Result<Alphabets, AllocError>
        ensures interfaces { IfOk result (λ alphabets. alphabets.interfaces ≡ self.interfaces) }
        ensures devices { IfOk result (λ alphabets. alphabets.devices ≡ self.devices) }
        ensures groups { IfOk result (λ alphabets. alphabets.groups ≡ self.groups) }
    {
        let Seen {
            groups,
            devices,
            interfaces,
        } = self;
        let (interfaces, (devices, groups)) = both(
            index_of(alloc, interfaces),
            both(index_of(alloc, devices), index_of(alloc, groups)),
        )?;
        Ok(Alphabets {
            interfaces,
            devices,
            groups,
        })
    }
}

/// The names as an alphabet with its index.
fn index_of(alloc: Global, names: NameSet) -> Result<NameIndex, AllocError>
    ensures { IfOk result (λ index. index ≡ names) }
{
    NameIndex::new(alloc, names.into_alphabet(alloc)?)
}

/// Both values, where both could be made. So neither is held where the making of the other may end.
fn both<T: Drop, U: Drop>(
    first: Result<T, AllocError>,
    second: Result<U, AllocError>,
) -> Result<(T, U), AllocError>
    ensures first { IfOk result (λ made. first ≡ Ok made.0) }
    ensures second { IfOk result (λ made. second ≡ Ok made.1) }
{
    Ok((first?, second?))
}

/// The groups of a file, and the names of all that is in them.
///
/// # Errors
///
/// The first fault of the walk, as [`Locations::decode`](crate::Locations::decode) tells it.
pub(crate) fn read_network<'a>(
    alloc: Global,
    root: &'a Value,
) -> Result<(Vec<GroupEntry<'a>>, Seen), LoadError>
    ensures network { IfOk result (λ r. load_file (view root.now) ≡ Ok r.0.items) }
    ensures groups { IfOk result (λ r. r.1.groups ≡ alphabet_of level.Group r.0.items) }
    ensures devices { IfOk result (λ r. r.1.devices ≡ alphabet_of level.Device r.0.items) }
    ensures interfaces { IfOk result (λ r. r.1.interfaces ≡ alphabet_of level.Interface r.0.items) }
    ensures fault { IfErr result (λ e. e ≢ LoadError.Memory → load_file (view root.now) ≡ Err e) }
{
    let version = part(root, "version", 1, 0)?;
    let groups = part(root, "groups", 1, 0)?;
    if whole_number(version, 2, 0)? != 1 {
        return Err(LoadError::BadVersion);
    }
    let mut seen = Seen::new(alloc);
    let groups = read_groups(alloc, &mut seen, entries(groups, 3, 0)?)?;
    Ok((groups, seen))
}

/// The groups of these entries, whose names and whose devices' and interfaces' names are added to
/// `seen`.
fn read_groups<'a>(
    alloc: Global,
    seen: &mut Seen,
    values: &'a [Value],
) -> Result<Vec<GroupEntry<'a>>, LoadError>
    ensures groups { IfOk result (λ groups. load_groups seen.old.groups seen.old.devices
        seen.old.interfaces (map view values.now) ≡ Ok groups.items) }
    ensures seen_groups { IfOk result (λ groups. seen.new.groups
        ≡ with_names seen.old.groups (names_at level.Group groups.items)) }
    ensures seen_devices { IfOk result (λ groups. seen.new.devices
        ≡ with_names seen.old.devices (names_at level.Device groups.items)) }
    ensures seen_interfaces { IfOk result (λ groups. seen.new.interfaces
        ≡ with_names seen.old.interfaces (names_at level.Interface groups.items)) }
    ensures fault { IfErr result (λ e. e ≢ LoadError.Memory →
        load_groups seen.old.groups seen.old.devices seen.old.interfaces (map view values.now)
        ≡ Err e) }
{
    let mut groups = Vec::new(alloc);
    for value in values {
        let group = read_group(alloc, seen, value)?;
        groups.push(group)?;
    }
    Ok(groups)
}

/// The group of this entry, whose name and whose devices' and interfaces' names are added to
/// `seen`.
fn read_group<'a>(
    alloc: Global,
    seen: &mut Seen,
    value: &'a Value,
) -> Result<GroupEntry<'a>, LoadError>
    ensures group { IfOk result (λ group. load_group seen.old.groups seen.old.devices
        seen.old.interfaces (view value.now) ≡ Ok group) }
    ensures seen_groups { IfOk result (λ group. seen.new.groups
        ≡ with_name seen.old.groups group.name) }
    ensures seen_devices { IfOk result (λ group. seen.new.devices
        ≡ with_names seen.old.devices (map (λ device. device.name) group.devices)) }
    ensures seen_interfaces { IfOk result (λ group. seen.new.interfaces
        ≡ with_names seen.old.interfaces (flat_map (λ device. device.interfaces) group.devices)) }
    ensures fault { IfErr result (λ e. e ≢ LoadError.Memory →
        load_group seen.old.groups seen.old.devices seen.old.interfaces (view value.now) ≡ Err e) }
{
    let row = seen.groups.next_row()?;
    let name = part(value, "name", 4, row)?;
    let devices = part(value, "devices", 4, row)?;
    let name = seen.groups.add(alloc, bytes(name, 5, row)?, row)?;
    let devices = entries(devices, 6, row)?;
    let devices = read_devices(alloc, &mut seen.devices, &mut seen.interfaces, devices)?;
    Ok(GroupEntry {
        name,
        devices: List::from_vec(devices),
    })
}

/// The devices of these entries. Their names are added to `seen`, and those of their interfaces to
/// `seen_interfaces`.
fn read_devices<'a>(
    alloc: Global,
    seen: &mut NameSet,
    seen_interfaces: &mut NameSet,
    values: &'a [Value],
) -> Result<Vec<DeviceEntry<'a>>, LoadError>
    ensures devices { IfOk result (λ devices. load_devices seen.old seen_interfaces.old
        (map view values.now) ≡ Ok devices.items) }
    ensures seen { IfOk result (λ devices. seen.new
        ≡ with_names seen.old (map (λ device. device.name) devices.items)) }
    ensures seen_interfaces { IfOk result (λ devices. seen_interfaces.new
        ≡ with_names seen_interfaces.old (flat_map (λ device. device.interfaces) devices.items)) }
    ensures fault { IfErr result (λ e. e ≢ LoadError.Memory →
        load_devices seen.old seen_interfaces.old (map view values.now) ≡ Err e) }
{
    let mut devices = Vec::new(alloc);
    for value in values {
        let device = read_device(alloc, seen, seen_interfaces, value)?;
        devices.push(device)?;
    }
    Ok(devices)
}

/// The device of this entry. Its name is added to `seen`, and those of its interfaces to
/// `seen_interfaces`.
fn read_device<'a>(
    alloc: Global,
    seen: &mut NameSet,
    seen_interfaces: &mut NameSet,
    value: &'a Value,
) -> Result<DeviceEntry<'a>, LoadError>
    ensures device { IfOk result (λ device. load_device seen.old seen_interfaces.old
        (view value.now) ≡ Ok device) }
    ensures seen { IfOk result (λ device. seen.new ≡ with_name seen.old device.name) }
    ensures seen_interfaces { IfOk result (λ device. seen_interfaces.new
        ≡ with_names seen_interfaces.old device.interfaces) }
    ensures fault { IfErr result (λ e. e ≢ LoadError.Memory →
        load_device seen.old seen_interfaces.old (view value.now) ≡ Err e) }
{
    let row = seen.next_row()?;
    let name = part(value, "name", 7, row)?;
    let tags = part(value, "tags", 7, row)?;
    let interfaces = part(value, "interfaces", 7, row)?;
    let name = seen.add(alloc, bytes(name, 8, row)?, row)?;
    let tags = read_tags(alloc, tags, row)?;
    let interfaces = read_interfaces(alloc, seen_interfaces, entries(interfaces, 11, row)?)?;
    Ok(DeviceEntry {
        name,
        tags: List::from_vec(tags),
        interfaces: List::from_vec(interfaces),
    })
}

/// The tags of a device, of which there are none where the member is missing. `row` is that of the
/// device.
fn read_tags(alloc: Global, tags: Option<&Value>, row: u32) -> Result<Vec<Name>, LoadError>
    ensures names { IfOk result (λ names. load_tags row (option_map (λ v. view v.now) tags.entry)
        ≡ Ok names.items) }
    ensures fault { IfErr result (λ e. e ≢ LoadError.Memory →
        load_tags row (option_map (λ v. view v.now) tags.entry) ≡ Err e) }
{
    if tags.is_none() {
        return Ok(Vec::new(alloc));
    }
    let values = entries(tags, 9, row)?;
    let mut tags = Vec::new(alloc);
    for value in values {
        let tag = read_tag(alloc, value, row)?;
        tags.push(tag)?;
    }
    Ok(tags)
}

/// The tag of this entry, which is any name. `row` is that of the device.
fn read_tag(alloc: Global, value: &Value, row: u32) -> Result<Name, LoadError>
    ensures tag { IfOk result (λ tag. load_tag row (view value.now) ≡ Ok tag) }
    ensures fault { IfErr result (λ e. e ≢ LoadError.Memory →
        load_tag row (view value.now) ≡ Err e) }
    ensures memory { IsErrOf result LoadError.Memory →
        IsTrue (is_ok (load_tag row (view value.now))) }
{
    match Name::from_bytes(alloc, bytes(Some(value), 10, row)?) {
        Ok(tag) => Ok(tag),
        Err(NameError::Memory) => Err(LoadError::Memory),
        Err(_) => Err(LoadError::BadName { row }),
    }
}

/// The names of the interfaces of these entries, which are added to `seen`.
fn read_interfaces<'a>(
    alloc: Global,
    seen: &mut NameSet,
    values: &'a [Value],
) -> Result<Vec<LentName<'a>>, LoadError>
    ensures names { IfOk result (λ names. load_interfaces seen.old (map view values.now)
        ≡ Ok names.items) }
    ensures seen { IfOk result (λ names. seen.new ≡ with_names seen.old names.items) }
    ensures fault { IfErr result (λ e. e ≢ LoadError.Memory →
        load_interfaces seen.old (map view values.now) ≡ Err e) }
{
    let mut interfaces = Vec::new(alloc);
    for value in values {
        let name = read_interface(alloc, seen, value)?;
        interfaces.push(name)?;
    }
    Ok(interfaces)
}

/// The name of the interface of this entry, which is added to `seen`.
fn read_interface<'a>(
    alloc: Global,
    seen: &mut NameSet,
    value: &'a Value,
) -> Result<LentName<'a>, LoadError>
    ensures name { IfOk result (λ name. load_interface seen.old (view value.now) ≡ Ok name) }
    ensures seen { IfOk result (λ name. seen.new ≡ with_name seen.old name) }
    ensures fault { IfErr result (λ e. e ≢ LoadError.Memory →
        load_interface seen.old (view value.now) ≡ Err e) }
{
    let row = seen.next_row()?;
    seen.add(alloc, bytes(Some(value), 12, row)?, row)
}
