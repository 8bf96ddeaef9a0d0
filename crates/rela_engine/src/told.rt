//! What the comparison of two images tells.
use crate::offence::Offence;

/// What the comparison of two images tells of a check.
#[derive(Drop)]
pub(crate) enum Told {
    /// The images are such as the check asks.
    Met,
    /// They aren't: this is the first word that offends.
    Differ(Offence),
    /// Nothing, since the images or the comparison would be too large.
    Open,
}
