//! From assertion files to the claims that are decided: names of locations become classes of
//! symbols.
#![tactic(auto)]

mod claim;
mod classes;
mod laws;
mod listing;
mod looking;
mod mentions;
mod names;
mod numbers;
mod pairs;
mod resolving;
mod size;
mod terms;

pub use claim::{Claim, Tree};
pub use laws::classes_have_their_numbers;
pub use resolving::resolve;
