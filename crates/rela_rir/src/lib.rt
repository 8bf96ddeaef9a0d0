//! The terms that a specification is translated to: sets of words, relations between words, and what
//! is asserted of sets. Each has a meaning that speaks of words alone, a size, and places that a
//! reader of it passes through, which the states of an automaton may stand for.
#![tactic(auto)]

mod agreement_laws;
mod assertion;
mod built_laws;
mod copy_term;
mod inside_laws;
mod laws;
mod limit_laws;
mod made;
mod place_laws;
mod set;
mod size;
mod table_laws;
mod term;
mod value;

pub use agreement_laws::{licences_carry_over, scenes_alike};
pub use assertion::Assertion;
pub use built_laws::{built_terms_are_placed, path_states_are_placed};
pub use inside_laws::{
    complemented_parts_of_path_terms, complemented_parts_of_rel_terms, complements_inside,
    complements_of_fixed_terms, reached_inside_path_terms, reached_inside_rel_terms,
};
pub use laws::{
    Reading, fixed_terms_by_form, fixed_terms_mean_the_same, path_terms_mean, rel_terms_mean,
    sizes_of_path_terms, sizes_of_rel_terms, star_unfolds, terms_are_no_deeper_than_large,
};
pub use limit_laws::{Staging, forced_is_licensed, places_tell_what_follows};
pub use place_laws::{
    places_apart_in_path_terms, places_apart_in_rel_terms, places_of_path_terms,
    places_of_rel_terms,
};
pub use set::SymbolSet;
pub use size::{depth, nodes};
pub use table_laws::{Machinery, reached_states_are_places, tables_carry_over, words_that_agree};
pub use term::{PathTerm, RelTerm};
pub use value::Value;
