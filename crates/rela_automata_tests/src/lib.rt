//! Tests of automata and transducers, of how they are compared, and of first words, by public calls alone.
#![tactic(auto)]

#[cfg(test)]
mod automata;
#[cfg(test)]
mod comparison;
#[cfg(test)]
mod far_letters;
#[cfg(test)]
mod letter_images;
#[cfg(test)]
mod minimal;
#[cfg(test)]
mod subsets;
#[cfg(test)]
mod three_letters;
#[cfg(test)]
mod transducers;
#[cfg(test)]
mod witnesses;
