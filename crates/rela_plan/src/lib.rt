//! Which rows a report has: those of its flows and of the checks that select them. And which flows
//! look the same, so that they can share what is found of one of them.
#![tactic(auto)]

mod alike;
mod flow_bits;
mod known;
mod laws;
mod leaf;
mod planning;
mod selection;

pub use alike::alike_flows;
pub use laws::plans_are_equal;
pub use planning::plan_rows;
