//! Sets of letters, and partitions of symbols into blocks. An `AllocError` comes only where memory
//! is refused.
#![tactic(auto)]

mod ascending;
mod base;
mod block_set;
mod boxed_words;
mod label_set;
mod letters;
mod numbering;
mod partition;
mod splitter;
mod wide_members;
mod wide_set;
mod word;
mod words;

pub use block_set::BlockSet;
pub use label_set::LabelSet;
pub use partition::Partition;
pub use splitter::Splitter;
pub use wide_set::WideSet;
