//! Tests of sets of letters, partitions, pairs of states and graphs, by public calls alone.
#![tactic(auto)]

#[cfg(test)]
mod graphs;
#[cfg(test)]
mod labels;
#[cfg(test)]
mod outlines;
#[cfg(test)]
mod pairs;
