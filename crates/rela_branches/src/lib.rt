//! Which alternative of a check's body claims a path: the first one whose zone the path is in. It
//! is found by reading the path along the body, and no automaton is made.
#![tactic(auto)]

mod claiming;
mod each;
mod laws;
mod letters;
mod places;
mod walk;

pub use claiming::{Branches, branches_of};
pub use laws::alternatives_share_the_zone;
