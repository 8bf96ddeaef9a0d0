//! What an audit and a certificate are made from.

use rela_names::Alphabet;
use rela_snapshot::FlowPair;
use rela_translate::Check;

/// Checks of one level, the flows that they are for, and the alphabet of that level.
#[derive(Drop)]
pub(crate) struct Inputs<'a> {
    /// The checks, whose names differ.
    pub(crate) checks: &'a [Check],
    /// The flows before and after the change, whose names differ.
    pub(crate) pairs: &'a [FlowPair],
    /// The alphabet of the checks' level.
    pub(crate) alphabet: &'a Alphabet,
}
