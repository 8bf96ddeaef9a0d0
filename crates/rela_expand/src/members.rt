//! Whether the members of a class name some symbols.

ghost use Rattle.std.specs.Prelude.{◌≡◌, Err, IfErr, OnOk};
ghost use Rattle.rela_locations.specs.Network.{by_level};
ghost use Rattle.rela_expand.specs.Numbered.{Succeeds};
ghost use Rattle.rela_expand.specs.Places.{listed, located, symbols_of};

use rela_lex::SpecError;
use rela_locations::{By, Locations, MemberError};
use rela_names::{Level, Name};
use rela_spec::Member;

/// Sees that each member names some symbols.
///
/// # Errors
///
/// For the first that names none: `FinerLevel` where it is named by a finer level, else
/// `UnknownLocation`, at its name.
#[tactic(auto, unfolding(crate::specs::Places::listed))]
pub(crate) fn look_at_all(
    locations: &Locations,
    level: Level,
    members: &[Member],
) -> Result<(), SpecError>
    ensures all { OnOk result (Succeeds (listed (record {
      network = locations.now;
      level = level;
    }) members.now)) }
    ensures refused { IfErr result (λ e.
        listed (record { network = locations.now; level = level }) members.now ≡ Err e) }
{
    for member in members {
        look_at(locations, level, member)?;
    }
    Ok(())
}

/// Sees that the member names some symbols.
#[tactic(auto, unfolding(crate::specs::Places::symbols_of))]
fn look_at(locations: &Locations, level: Level, member: &Member) -> Result<(), SpecError>
    ensures some { OnOk result (Succeeds (symbols_of (record {
      network = locations.now;
      level = level;
    }) member.now)) }
    ensures refused { IfErr result (λ e.
        symbols_of (record { network = locations.now; level = level }) member.now ≡ Err e) }
{
    match member {
        Member::Here { name, at } => look_for(locations, level, by_level(level), name, *at),
        Member::Within { by, name, at } => look_for(locations, level, *by, name, *at),
        Member::Drop | Member::Loop => Ok(()),
    }
}

/// The way of picking that picks a location of the level by its own name.
pub(crate) fn by_level(level: Level) -> By
    ensures { result ≡ by_level level }
{
    match level {
        Level::Interface => By::Interface,
        Level::Device => By::Device,
        Level::Group => By::Group,
    }
}

/// Sees that the name picks some location, and none that is finer than the level.
///
/// # Errors
///
/// At the name `FinerLevel` where what it picks is finer than the level; else `UnknownLocation`
/// where no such location is there.
fn look_for(
    locations: &Locations,
    level: Level,
    by: By,
    name: &Name,
    at: u32,
) -> Result<(), SpecError>
    ensures some { OnOk result (Succeeds (located (record {
      network = locations.now;
      level = level;
    }) by name.now at)) }
    ensures refused { IfErr result (λ e.
        located (record { network = locations.now; level = level }) by name.now at ≡ Err e) }
{
    match locations.find(level, by, name) {
        Ok(()) => Ok(()),
        Err(MemberError::Finer) => Err(SpecError::FinerLevel { at }),
        Err(MemberError::Unknown) => Err(SpecError::UnknownLocation { at }),
        // Looking a name up wants no memory.
        Err(MemberError::Memory) => unreachable!(),
    }
}
