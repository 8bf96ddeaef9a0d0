//! The devices of a group, read token by token.

ghost use Rattle.std.specs.Prelude.{◌≡◌, ◌<◌, ◌∷◌, ℕ, Ok, IfOk, OnOk, length, map};
ghost use Rattle.std.specs.List.{flat_map};
ghost use Rattle.json.specs.Token.{begin_array};
ghost use Rattle.serde_json.specs.Data.{string};
ghost use Rattle.rela_json.specs.Results.{try_map};
ghost use Rattle.rela_tokens.specs.Pieces.{text as text_of};
ghost use Rattle.rela_locations.specs.Load.{load_device, load_interfaces, load_tag};
ghost use Rattle.rela_locations.specs.Names.{new_name, next_row, with_name, with_names};
ghost use Rattle.rela_locations.specs.Plain.{ArePlainDevices, IsPlainDevice, entry_of, tags_of};

use crate::name_set::NameSet;
use crate::network::{DeviceEntry, LentName};
use rela_names::{List, Name};
use rela_tokens::{Member, Reader, Unread, find, read_members, what_holds};
use std::alloc::Global;

/// Takes the rest of the array of a group's devices, behind its opening bracket. Their names go to
/// `seen`, and those of their interfaces to `seen_interfaces`.
///
/// # Errors
///
/// `Unread`, which says nothing of what stands there.
pub(crate) fn read_devices<'a>(
    alloc: Global,
    seen: &mut NameSet,
    seen_interfaces: &mut NameSet,
    reader: &mut Reader<'a>,
) -> Result<Vec<DeviceEntry<'a>>, Unread>
    ensures devices { IfOk result (λ devices. ArePlainDevices seen.old seen_interfaces.old
        (begin_array ∷ reader.old) devices.items reader.new) }
    ensures shorter { OnOk result (length reader.new < length reader.old) }
    ensures seen { IfOk result (λ devices. seen.new
        ≡ with_names seen.old (map (λ device. device.name) devices.items)) }
    ensures seen_interfaces { IfOk result (λ devices. seen_interfaces.new
        ≡ with_names seen_interfaces.old (flat_map (λ device. device.interfaces) devices.items)) }
{
    what_holds();
    let mut devices = Vec::new(alloc);
    'devices: while !reader.take_end_array() {
        let device = read_device(alloc, seen, seen_interfaces, reader)?;
        devices.push(device)?;
    }
    Ok(devices)
}

/// Takes the next device. Its name goes to `seen`, and those of its interfaces to
/// `seen_interfaces`.
fn read_device<'a>(
    alloc: Global,
    seen: &mut NameSet,
    seen_interfaces: &mut NameSet,
    reader: &mut Reader<'a>,
) -> Result<DeviceEntry<'a>, Unread>
    ensures device { IfOk result (λ device. IsPlainDevice seen.old seen_interfaces.old
        reader.old device reader.new) }
    ensures shorter { OnOk result (length reader.new < length reader.old) }
    ensures seen { IfOk result (λ device. seen.new ≡ with_name seen.old device.name) }
    ensures seen_interfaces { IfOk result (λ device. seen_interfaces.new
        ≡ with_names seen_interfaces.old device.interfaces) }
{
    let members = read_members(alloc, reader)?;
    device_of(alloc, seen, seen_interfaces, members.as_slice())
}

/// The device of these members. Its name goes to `seen`, and those of its interfaces to
/// `seen_interfaces`.
fn device_of<'a>(
    alloc: Global,
    seen: &mut NameSet,
    seen_interfaces: &mut NameSet,
    members: &[Member<'a>],
) -> Result<DeviceEntry<'a>, Unread>
    ensures device { IfOk result (λ device. load_device seen.old seen_interfaces.old
        (entry_of members.now) ≡ Ok device) }
    ensures seen { IfOk result (λ device. seen.new ≡ with_name seen.old device.name) }
    ensures seen_interfaces { IfOk result (λ device. seen_interfaces.new
        ≡ with_names seen_interfaces.old device.interfaces) }
{
    let text = find(members, "name").ok_or(Unread)?.text()?;
    let texts = find(members, "interfaces").ok_or(Unread)?.texts()?;
    let name = add_name(alloc, seen, text)?;
    let tags = tags_in(alloc, members)?;
    let interfaces = add_interfaces(alloc, seen_interfaces, texts)?;
    Ok(DeviceEntry {
        name,
        tags: List::from_vec(tags),
        interfaces: List::from_vec(interfaces),
    })
}

/// The tags that the members tell, none where they tell none.
fn tags_in(alloc: Global, members: &[Member<'_>]) -> Result<Vec<Name>, Unread>
    ensures { IfOk result (λ tags. (row : ℕ) → tags_of row (entry_of members.now)
        ≡ Ok tags.items) }
{
    match find(members, "tags") {
        Some(piece) => {
            let texts = piece.texts()?;
            let tags = tags_at(alloc, texts)?;
            Ok(tags)
        }
        None => Ok(Vec::new(alloc)),
    }
}

/// These texts as tags, in order.
fn tags_at(alloc: Global, texts: &[&str]) -> Result<Vec<Name>, Unread>
    ensures { IfOk result (λ tags. (row : ℕ) → try_map (load_tag row) (map text_of texts.now)
        ≡ Ok tags.items) }
{
    let mut tags = Vec::with_capacity(alloc, texts.len())?;
    for text in texts {
        let tag = tag_of(alloc, text)?;
        tags.push(tag)?;
    }
    Ok(tags)
}

/// A text as a tag, which is any name.
fn tag_of(alloc: Global, text: &str) -> Result<Name, Unread>
    ensures { IfOk result (λ tag. (row : ℕ) → load_tag row (string text.now) ≡ Ok tag) }
{
    match Name::from_bytes(alloc, text.as_bytes()) {
        Ok(tag) => Ok(tag),
        Err(_) => Err(Unread),
    }
}

/// The names of interfaces, which go to those of the earlier ones.
fn add_interfaces<'a>(
    alloc: Global,
    seen: &mut NameSet,
    texts: &[&'a str],
) -> Result<Vec<LentName<'a>>, Unread>
    ensures names { IfOk result (λ names. load_interfaces seen.old (map text_of texts.now)
        ≡ Ok names.items) }
    ensures seen { IfOk result (λ names. seen.new ≡ with_names seen.old names.items) }
{
    let mut names = Vec::with_capacity(alloc, texts.len())?;
    for text in texts {
        let name = add_name(alloc, seen, text)?;
        names.push(name)?;
    }
    Ok(names)
}

/// The name of a location, which goes to those of the earlier ones of its kind.
///
/// # Errors
///
/// `Unread`, where no location may have the name, an earlier one has it or there are too many, or
/// memory runs out.
pub(crate) fn add_name<'a>(
    alloc: Global,
    seen: &mut NameSet,
    text: &'a str,
) -> Result<LentName<'a>, Unread>
    ensures row { OnOk result (next_row seen.old ≡ Ok (length seen.old)) }
    ensures name { IfOk result (λ name. new_name seen.old (length seen.old) text.now ≡ Ok name) }
    ensures seen { IfOk result (λ name. seen.new ≡ with_name seen.old name) }
{
    let Ok(row) = seen.next_row() else {
        return Err(Unread);
    };
    match seen.add(alloc, text.as_bytes(), row) {
        Ok(name) => Ok(name),
        Err(_) => Err(Unread),
    }
}
