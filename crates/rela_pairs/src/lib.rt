//! The pairs of states that are reachable together, found once and numbered, up to a limit. A want
//! of memory is told as `AllocError` or as `BuildError::Memory`. Beside them the marks by which a walk
//! knows where it has been, and what is made of a limit.
#![tactic(auto)]

mod errors;
mod explored;
mod exploring;
mod found;
mod hashed;
mod limits;
mod lists;
mod marks;
mod pair;
mod shape;
mod successors;
mod table;

pub use errors::BuildError;
pub use explored::Explored;
pub use exploring::explore;
pub use limits::{pass_limit, within};
pub use marks::Marks;
pub use pair::Pair;
pub use shape::Shape;
pub use successors::Successors;
