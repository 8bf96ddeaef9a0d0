//! From the trees of a specification to its checks.
#![tactic(auto)]

mod bodies;
mod body_trees;
mod body_unfolding;
mod entry;
mod expansion;
mod faithful;
mod fitting;
mod forms;
mod gathering;
mod laws;
mod listing;
mod making;
mod members;
mod names;
mod numbers;
mod spec_gathering;
mod trees;
mod unfit;
mod unfolding;
mod walking;
mod written;

pub use expansion::expand;
pub use faithful::checks_are_faithful;
