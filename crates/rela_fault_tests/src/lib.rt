//! Tests of runs whose files and sinks fail, whose files are cut off, or that are large, by public calls alone.
#![tactic(auto)]

#[cfg(test)]
mod cases;
#[cfg(test)]
mod commands;
#[cfg(test)]
mod faults;
#[cfg(test)]
mod large;
#[cfg(test)]
mod network;
#[cfg(test)]
mod prefixes;
