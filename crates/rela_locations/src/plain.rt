//! A plain location file, read token by token with no tree of its text.
//!
//! Plain is a file that is laid out as it is mostly written: the members `version` and `groups`, in
//! this order, groups with the members `name` and `devices`, in this order, and devices whose
//! members are pieces. What is read here is what the file stands for; what is not read is left to a
//! reader that tells faults apart.

ghost use Rattle.std.specs.Prelude.{◌≡◌, ◌<◌, ◌∷◌, Ok, IfOk, OnOk, length, map};
ghost use Rattle.std.specs.List.{flat_map};
ghost use Rattle.json.specs.Token.{begin_array};
ghost use Rattle.rela_names.specs.declared.level.Level.TheVariants as level;
ghost use Rattle.rela_locations.specs.Load.{Load};
ghost use Rattle.rela_locations.specs.Names.{with_name, with_names};
ghost use Rattle.rela_locations.specs.Network.{alphabet_of, names_at};
ghost use Rattle.rela_locations.specs.Plain.{ArePlainGroups, IsPlainGroup, Opens, OpensGroup};

use crate::network::GroupEntry;
use crate::plain_device::{add_name, read_devices};
use crate::walk::Seen;
use rela_names::List;
use rela_tokens::{
    Reader, Unread, close_object, close_text, open_array, open_object, read_number, read_text,
    take_key, what_holds,
};
use std::alloc::Global;

/// The groups of a plain file, and the names of all that is in them. Time: O(n log n) in the file;
/// space: linear in what it lists.
///
/// # Errors
///
/// `Unread`, which says nothing of the file.
pub(crate) fn read_plain<'a>(
    alloc: Global,
    bytes: &'a [u8],
) -> Result<(Vec<GroupEntry<'a>>, Seen), Unread>
    ensures network { IfOk result (λ r. Load bytes.now ≡ Ok r.0.items) }
    ensures groups { IfOk result (λ r. r.1.groups ≡ alphabet_of level.Group r.0.items) }
    ensures devices { IfOk result (λ r. r.1.devices ≡ alphabet_of level.Device r.0.items) }
    ensures interfaces { IfOk result (λ r. r.1.interfaces ≡ alphabet_of level.Interface r.0.items) }
{
    what_holds();
    let Ok(text) = std::str::from_utf8(bytes) else {
        return Err(Unread);
    };
    let mut reader = Reader::new(text);
    open_groups(&mut reader)?;
    let mut seen = Seen::new(alloc);
    let groups = read_groups(alloc, &mut seen, &mut reader)?;
    close_text(&mut reader)?;
    Ok((groups, seen))
}

/// Takes the beginning of a file of version 1, up to the bracket that opens its groups.
fn open_groups(reader: &mut Reader<'_>) -> Result<(), Unread>
    ensures { OnOk result (Opens reader.old reader.new) }
{
    open_object(reader)?;
    take_key(reader, "version")?;
    if read_number(reader)? != 1 {
        return Err(Unread);
    }
    open_array(reader, "groups")
}

/// Takes the rest of the array of the groups, behind its opening bracket. Their names and those of
/// their devices and interfaces go to `seen`.
fn read_groups<'a>(
    alloc: Global,
    seen: &mut Seen,
    reader: &mut Reader<'a>,
) -> Result<Vec<GroupEntry<'a>>, Unread>
    ensures groups { IfOk result (λ groups. ArePlainGroups seen.old.groups seen.old.devices
        seen.old.interfaces (begin_array ∷ reader.old) groups.items reader.new) }
    ensures seen_groups { IfOk result (λ groups. seen.new.groups
        ≡ with_names seen.old.groups (names_at level.Group groups.items)) }
    ensures seen_devices { IfOk result (λ groups. seen.new.devices
        ≡ with_names seen.old.devices (names_at level.Device groups.items)) }
    ensures seen_interfaces { IfOk result (λ groups. seen.new.interfaces
        ≡ with_names seen.old.interfaces (names_at level.Interface groups.items)) }
{
    what_holds();
    let mut groups = Vec::new(alloc);
    'groups: while !reader.take_end_array() {
        let group = read_group(alloc, seen, reader)?;
        groups.push(group)?;
    }
    Ok(groups)
}

/// Takes the next group. Its name and those of its devices and interfaces go to `seen`.
fn read_group<'a>(
    alloc: Global,
    seen: &mut Seen,
    reader: &mut Reader<'a>,
) -> Result<GroupEntry<'a>, Unread>
    ensures group { IfOk result (λ group. IsPlainGroup seen.old.groups seen.old.devices
        seen.old.interfaces reader.old group reader.new) }
    ensures shorter { OnOk result (length reader.new < length reader.old) }
    ensures seen_groups { IfOk result (λ group. seen.new.groups
        ≡ with_name seen.old.groups group.name) }
    ensures seen_devices { IfOk result (λ group. seen.new.devices
        ≡ with_names seen.old.devices (map (λ device. device.name) group.devices)) }
    ensures seen_interfaces { IfOk result (λ group. seen.new.interfaces
        ≡ with_names seen.old.interfaces (flat_map (λ device. device.interfaces) group.devices)) }
{
    what_holds();
    let text = open_group(reader)?;
    let name = add_name(alloc, &mut seen.groups, text)?;
    let devices = read_devices(alloc, &mut seen.devices, &mut seen.interfaces, reader)?;
    close_object(reader)?;
    Ok(GroupEntry {
        name,
        devices: List::from_vec(devices),
    })
}

/// Takes the beginning of a group, up to the bracket that opens its devices, and gives its name.
fn open_group<'a>(reader: &mut Reader<'a>) -> Result<&'a str, Unread>
    ensures group { IfOk result (λ name. OpensGroup reader.old name.now reader.new) }
    ensures shorter { OnOk result (length reader.new < length reader.old) }
{
    open_object(reader)?;
    take_key(reader, "name")?;
    let name = read_text(reader)?;
    open_array(reader, "devices")?;
    Ok(name)
}
