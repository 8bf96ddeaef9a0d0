//! The letters of an automaton.
ghost use Rattle.std.specs.Prelude.{◌<◌, ◌↔◌, IsTrue};
ghost use Rattle.std.specs.List.{All};
ghost use Rattle.rela_letter_paths.specs.Letters.{HasLettersBelow};

use rela_letter_nfa::{LetterEdge, LetterNfa};

/// Whether each edge's letter is below `bound`.
fn are_below(edges: &[LetterEdge], bound: u32) -> bool
    ensures { IsTrue result ↔ All (λ edge. edge.letter < bound) edges.now }
{
    edges.iter().all(|edge| edge.letter < bound)
}

/// Whether each edge's letter is below `bound`. Time: linear in the states and the edges.
pub(crate) fn has_letters_below(nfa: &LetterNfa, bound: u32) -> bool
    ensures { IsTrue result ↔ HasLettersBelow bound nfa.now }
{
    for q in 0..nfa.states() as u32 {
        if !are_below(nfa.edges(q), bound) {
            return false;
        }
    }
    true
}
