//! The blocks of a check's symbols, those over which it is judged for one flow, and the paths of the
//! flow as they are read by them.
#![tactic(auto)]

mod blocks;
mod flow_paths;
mod laws;
mod letters;
mod markers;
mod split;

pub use blocks::{check_blocks, row_blocks, symbols_of};
pub use flow_paths::FlowPaths;
pub use laws::named_symbols_are_alone;
pub use letters::check_letters;
pub use split::blocks_of_classes;
