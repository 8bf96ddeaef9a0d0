//! Tests of the commands that write certificates and audit them, by public calls alone.
#![tactic(auto)]

#[cfg(test)]
mod answers;
#[cfg(test)]
mod certified;
#[cfg(test)]
mod long;
#[cfg(test)]
mod network;
#[cfg(test)]
mod rejected;
#[cfg(test)]
mod renamed;
