//! Flow classes, the address prefixes that they hold, and the predicates that pick them.
#![tactic(auto)]

mod laws;
mod planning;
mod predicate;
mod prefix;
mod selection;

pub use laws::{
    canonical_texts_write_their_prefixes, prefixes_are_read_exactly,
    prefixes_of_one_length_are_apart,
};
pub use planning::PlannedRow;
pub use predicate::{FlowClass, Predicate};
pub use prefix::{Ipv4Prefix, Ipv6Prefix, Prefix};
pub use selection::selects;
