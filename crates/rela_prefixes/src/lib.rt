//! Prefixes of IPv4 addresses: the longest one that holds an address, and the classes of addresses
//! that they cut.
#![tactic(auto)]

mod classes;
mod laws;
mod leaf;
mod leaves;
mod split;
mod table;

pub use classes::classes_of;
pub use laws::classes_are_unique;
pub use table::PrefixTable;
