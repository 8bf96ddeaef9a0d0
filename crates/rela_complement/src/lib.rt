//! Complements under a limit of states, made once for parts that are the same but for letters that
//! they don't tell apart; and minimal automata under the limit. An `AllocError` comes only where
//! memory is refused.
#![tactic(auto)]

mod complement;
mod copied;
mod fingerprint;
mod kept_complements;
mod least;
mod letter_classes;
mod limited_complements;
mod members;
mod merging;
mod relabelled;
mod same_automaton;

pub use least::least_over;
pub use limited_complements::LimitedComplements;
