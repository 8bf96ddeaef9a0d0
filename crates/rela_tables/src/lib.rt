//! The forwarding tables of a network's devices, read from a JSON file.
#![tactic(auto)]

mod plain;
mod plain_route;
mod plain_table;
mod route;
mod starts;
mod symbols;
mod table;
mod tables;

pub use route::{MAX_ROUTES, Route};
pub use table::{MAX_TABLES, Table};
pub use tables::Tables;
