//! Tests of the checks that specifications are expanded to, of the claims that assertion files are
//! resolved to, and of terms, by public calls alone.
#![tactic(auto)]

#[cfg(test)]
mod claims;
#[cfg(test)]
mod expansion;
#[cfg(test)]
mod network;
#[cfg(test)]
mod terms;
#[cfg(test)]
mod translation;
