//! Deterministic automata: the sets of states that an automaton reaches, the first word that
//! reaches a wanted one, and the complement. An `AllocError` comes only where memory is refused.
#![tactic(auto)]

mod alike;
mod arrival;
mod blocks;
mod bundle;
mod construction;
mod dfa;
mod expansion;
mod letter_edge;
mod opposite;
mod outgoing;
mod places;
mod search;
mod silent;
mod spreading;
mod state_sets;
mod wanted;

pub use bundle::Bundle;
pub use construction::determinise;
pub use dfa::Dfa;
pub use rela_nfa::BuildError;
pub use search::first_word;
pub use wanted::Wanted;
