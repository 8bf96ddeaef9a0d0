//! Tests of files, names and JSON values, by public calls alone.
#![tactic(auto)]

#[cfg(test)]
mod files;
#[cfg(test)]
mod json_values;
#[cfg(test)]
mod names;
