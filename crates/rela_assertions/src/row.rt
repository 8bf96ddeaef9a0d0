//! A row: what is told of an assertion for a flow.

use rela_engine::Leaf;
use rela_names::Name;
use rela_rir::Value;

/// What is told of an assertion for a flow.
#[derive(Debug, Drop)]
pub struct AssertionRow {
    /// The flow's name.
    pub flow: Name,
    /// The assertion's name.
    pub assertion: Name,
    /// What is known of the whole.
    pub value: Value,
    /// What is told of each assertion that it is put together of, from left to right.
    pub leaves: Vec<Leaf>,
}
