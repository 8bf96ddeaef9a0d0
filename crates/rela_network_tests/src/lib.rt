//! Tests of locations, flows, snapshots and forwarding tables, by public calls alone.
#![tactic(auto)]

#[cfg(test)]
mod flows;
#[cfg(test)]
mod locations;
#[cfg(test)]
mod network;
#[cfg(test)]
mod snapshots;
#[cfg(test)]
mod tables;
