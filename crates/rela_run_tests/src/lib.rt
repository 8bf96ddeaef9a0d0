//! Tests of reports, of compiled checks, and of whole runs, by public calls alone.
#![tactic(auto)]

#[cfg(test)]
mod cases;
#[cfg(test)]
mod changes;
#[cfg(test)]
mod compiled;
#[cfg(test)]
mod network;
#[cfg(test)]
mod refusals;
#[cfg(test)]
mod reports;
#[cfg(test)]
mod rows;
#[cfg(test)]
mod runs;
#[cfg(test)]
mod tables;
#[cfg(test)]
mod zones;
