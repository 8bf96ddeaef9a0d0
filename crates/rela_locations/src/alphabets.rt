//! The alphabets of the three levels.

use crate::name_index::NameIndex;

/// The alphabets of the three levels, with the indexes of their names.
#[derive(Drop)]
pub(crate) struct Alphabets {
    /// The interfaces, by their names.
    pub(crate) interfaces: NameIndex,
    /// The devices, by their names.
    pub(crate) devices: NameIndex,
    /// The groups, by their names.
    pub(crate) groups: NameIndex,
}
