//! What devices do with the packets to an address, by their forwarding tables, and the snapshots
//! that two table files give: a flow for each class of addresses that all devices treat alike.
#![tactic(auto)]

mod classes;
mod device;
mod devices;
mod drawing;
mod error;
mod graph;
mod nodes;
mod numbers;
mod numerals;
mod pieces;
mod places;
mod snapshot;
mod step;
mod writing;

pub use classes::address_classes;
pub use error::FibError;
pub use nodes::nodes_of;
pub use snapshot::snapshot_text;
