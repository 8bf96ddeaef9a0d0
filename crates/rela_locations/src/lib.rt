//! The locations of a network: groups of devices with their interfaces and tags, read from a JSON
//! file.
#![tactic(auto)]

mod alphabets;
mod containment;
mod locations;
mod lookup;
mod members;
mod name_index;
mod name_set;
mod network;
mod numbered;
mod pairs;
mod parts;
mod plain;
mod plain_device;
mod tables;
mod tags;
mod walk;

pub use locations::Locations;
pub use members::{By, MemberError};
