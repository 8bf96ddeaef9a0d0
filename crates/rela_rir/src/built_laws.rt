//! The states of what is built of the machines of a term's parts stand for the places of the term,
//! form by form. Each law is a function that does nothing, and its contract is the law.
ghost use Rattle.rela_rir.specs.BuiltTerms.{BuiltTerms, PathPlaces};

use crate::table_laws::Machinery;

/// The states of what is built of the machines of a term's parts, as automata and transducers are,
/// stand for the places of the term: by a table that is exact where those of the parts are.
pub fn built_terms_are_placed<M: Machinery>()
    ensures { BuiltTerms M.machines }
{}

/// The states that are a start, one for each node and one for the end stand for the places of a
/// path set.
pub fn path_states_are_placed<M: Machinery>()
    ensures { PathPlaces M.machines }
{}
