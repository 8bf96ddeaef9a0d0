//! What the members of a network may be asked for by.

ghost use Rattle.std.specs.Prelude.{◌≡◌};
ghost use Rattle.rela_locations.specs.Network.{is_finer};

use rela_names::Level;
use std::alloc::{AllocError, AllocFailed};
use thiserror::Error;

/// What a name picks: a location of a level, or the devices with a tag.
#[derive(Clone, Copy, PartialEq, Eq, Hash, Debug)]
pub enum By {
    /// The interface of the name.
    Interface,
    /// The device of the name.
    Device,
    /// The group of the name.
    Group,
    /// The devices that carry the name as a tag.
    Tag,
}

/// Whether what the name picks is finer than the level. A tag counts as a device.
pub(crate) fn is_finer(by: By, level: Level) -> bool
    ensures { result ≡ is_finer by level }
{
    match by {
        By::Interface => level != Level::Interface,
        By::Device | By::Tag => level == Level::Group,
        By::Group => false,
    }
}

/// Why no members of a level are given.
#[derive(Debug, Drop, Error)]
pub enum MemberError {
    /// What the name picks is finer than the level. A tag counts as a device.
    #[error("finer than the level")]
    Finer,
    /// No such location is there, or no device carries the tag.
    #[error("unknown location")]
    Unknown,
    /// Memory ran out.
    #[error("out of memory")]
    Memory,
}

impl From<AllocError> for MemberError {
    ghost use Rattle.rela_locations.specs.declared.members.MemberError.TheVariants.{Memory};

    ghost from_gives = { λ _ e. e ≡ Memory };

    fn from(_refused: AllocError) -> MemberError {
        MemberError::Memory
    }
}

impl<T: Drop> From<AllocFailed<T>> for MemberError {
    ghost use Rattle.rela_locations.specs.declared.members.MemberError.TheVariants.{Memory};

    ghost from_gives = { λ _ e. e ≡ Memory };

    fn from(_refused: AllocFailed<T>) -> MemberError {
        MemberError::Memory
    }
}
