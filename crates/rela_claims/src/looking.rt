//! Whether the classes that are mentioned name some symbols.

ghost use Rattle.std.specs.Prelude.{◌≡◌, Ok, Err, IfErr, OnOk, map};
ghost use Rattle.rela_json.specs.Results.{try_map};
ghost use Rattle.rela_claims.specs.Classes.{located, resolved_class, Within};
ghost use Rattle.rela_claims.specs.Written.{class_of, classes_of, mentioned};

use crate::classes::{Mention, Written};
use rela_lex::SpecError;
use rela_locations::{By, Locations, MemberError};
use rela_names::{Level, Name};

/// Sees that each class names some symbols.
///
/// # Errors
///
/// For the first that names none: `FinerLevel` where it is named by a finer level, else
/// `UnknownLocation`, at its name.
pub(crate) fn look_at_all(
    locations: &Locations,
    level: Level,
    mentions: &[Mention<'_>],
) -> Result<(), SpecError>
    ensures all { OnOk result (try_map (resolved_class (record {
      network = locations.now;
      level = level;
    })) (map mentioned mentions.now) ≡ Ok (classes_of mentions.now)) }
    ensures refused { IfErr result (λ e.
        try_map (resolved_class (record { network = locations.now; level = level }))
        (map mentioned mentions.now) ≡ Err e) }
{
    for mention in mentions {
        look_at(locations, level, mention)?;
    }
    Ok(())
}

/// Sees that the class names some symbols.
fn look_at(locations: &Locations, level: Level, mention: &Mention<'_>) -> Result<(), SpecError>
    ensures some { OnOk result (resolved_class (record {
      network = locations.now;
      level = level;
    }) (mentioned mention.now) ≡ Ok (class_of mention.now.class)) }
    ensures refused { IfErr result (λ e.
        resolved_class (record { network = locations.now; level = level })
        (mentioned mention.now) ≡ Err e) }
{
    match mention.class {
        Written::Within(by, name) => look_for(locations, level, by, name, mention.at),
        Written::All | Written::Drop | Written::Loop => Ok(()),
    }
}

/// Sees that the name picks some location, and none that is finer than the level.
///
/// # Errors
///
/// At the name `FinerLevel` where what it picks is finer than the level; else `UnknownLocation`
/// where no such location is there.
fn look_for(
    locations: &Locations,
    level: Level,
    by: By,
    name: &Name,
    at: u32,
) -> Result<(), SpecError>
    ensures some { OnOk result (located (record {
      network = locations.now;
      level = level;
    }) by name.now at ≡ Ok (Within by name.now)) }
    ensures refused { IfErr result (λ e.
        located (record { network = locations.now; level = level }) by name.now at ≡ Err e) }
{
    match locations.find(level, by, name) {
        Ok(()) => Ok(()),
        Err(MemberError::Finer) => Err(SpecError::FinerLevel { at }),
        Err(MemberError::Unknown) => Err(SpecError::UnknownLocation { at }),
        // Looking a name up wants no memory.
        Err(MemberError::Memory) => unreachable!(),
    }
}
