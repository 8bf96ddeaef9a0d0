//! The three levels at which the places of a network are told apart.

/// How finely the places of a network are told apart: each interface belongs to one device, and
/// each device to one group.
#[derive(Clone, Copy, PartialEq, Eq, Debug)]
pub enum Level {
    /// Each interface is a place of its own.
    Interface,
    /// The interfaces of one device are one place.
    Device,
    /// The devices of one group are one place.
    Group,
}
