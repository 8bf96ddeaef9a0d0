//! A check that is to be decided for a flow.
use crate::compiled::Compiled;
use crate::relations::Relations;
use rela_labels::Partition;
use rela_names::Alphabet;
use rela_snapshot::FlowPair;

/// A check that is to be decided for a flow, by automata whose letters are blocks of symbols. What
/// holds of one is `IsCase`.
#[derive(Drop)]
pub(crate) struct Case<'a, 'c> {
    /// The check.
    pub(crate) compiled: &'a Compiled<'c>,
    /// Its two relations.
    pub(crate) relations: &'a Relations,
    /// The flow.
    pub(crate) pair: &'a FlowPair,
    /// The alphabet of the check's level.
    pub(crate) alphabet: &'a Alphabet,
    /// The blocks: those of the check's symbols, split so that the symbols of the flow's paths stand
    /// alone.
    pub(crate) blocks: &'a Partition,
}
