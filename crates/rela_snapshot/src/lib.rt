//! Snapshots of how a network forwards its flows, read from JSON files, and the pairing of the
//! flows of two snapshots.
#![tactic(auto)]

mod class;
mod listing;
mod name_table;
mod named;
mod numbered;
mod pairing;
mod plain;
mod plain_flow;
mod plain_graph;
mod snapshot;
mod version;
mod walk;

pub use pairing::{FlowPair, PairError, pair};
pub use snapshot::{MAX_FLOWS, Snapshot};
