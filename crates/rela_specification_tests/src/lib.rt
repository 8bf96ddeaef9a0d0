//! Tests of the tokens of specifications, their trees and their canonical texts, by public calls alone.
#![tactic(auto)]

#[cfg(test)]
mod cutting;
#[cfg(test)]
mod texts;
