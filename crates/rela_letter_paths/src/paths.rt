//! The automaton of a graph's paths, whose letters are symbols.
ghost use Rattle.std.specs.Prelude.{◌≡◌, ℕ, ◌<◌, ◌↔◌, List, IfOk, length};
ghost use Rattle.std.specs.List.{All};
ghost use Rattle.std.specs.Option.{ForSome};
ghost use Rattle.rela_names.specs.Alphabet.{path_symbols};
ghost use Rattle.rela_letter_nfa.specs.Runs.{Accepts as AcceptsLetters};
ghost use Rattle.rela_nfa.specs.Runs.{Accepts};
ghost use Rattle.rela_graph.specs.Paths.{Paths};
ghost use Rattle.rela_graph.specs.Topology.{symbol_at};
ghost use Rattle.rela_letter_paths.specs.Letters.{HasLettersBelow};

use crate::letters::has_letters_below;
use rela_graph::Graph;
use rela_labels::{LabelSet, Partition, WideSet};
use rela_letter_image::by_letters;
use rela_letter_nfa::LetterNfa;
use rela_names::{Alphabet, Level};
use rela_nfa::Nfa;
use std::alloc::{AllocError, Global};
use std::marker::Model;

/// Makes automata of graphs' paths whose letters are the path symbols: the locations, `drop` and
/// `loop`. What [`over_blocks`](crate::over_blocks) makes of them needs no graph. Contracts see how
/// many path symbols there are.
#[derive(Debug, Drop)]
pub struct LetterPaths {
    /// The partition of the path symbols in which each is a block of its own.
    finest: Partition,
}

impl Model for LetterPaths {
    ghost use Rattle.std.specs.Prelude.{ℕ, length};
    ghost use Rattle.rela_letter_paths.specs.Finest.{IsFinest};

    ghost Value = { ℕ };

    ghost view = { λ paths. length paths.finest };

    ghost invariant = { λ paths. IsFinest paths.finest };
}

impl LetterPaths {
    /// For the graphs whose nodes are at locations of this alphabet. Time and space: linear in the
    /// locations.
    pub fn new(alloc: Global, alphabet: &Alphabet) -> Result<LetterPaths, AllocError>
        ensures symbols { IfOk result (λ made. made ≡ path_symbols alphabet.now) }
    {
        let finest = Partition::finest(alloc, alphabet.len())?;
        Ok(LetterPaths { finest })
    }

    /// The automaton that accepts just the paths of the graph at the level. Its letters are
    /// symbols, and it has no silent chains. `None` where it would have more than `most` states, or
    /// more than `most` edges and silent steps. Time and space: linear in the nodes and the edges
    /// of the graph. The only error is want of memory.
    pub fn paths(
        &self,
        alloc: Global,
        graph: &Graph,
        level: Level,
        alphabet: &Alphabet,
        most: usize,
    ) -> Result<Option<LetterNfa>, AllocError>
        requires symbols { self.now ≡ path_symbols alphabet.now }
        requires placed { All (λ node. symbol_at level node < length alphabet.now) graph.now.nodes }
        ensures language { IfOk result (λ found. ForSome found (λ nfa. (w : List ℕ) →
            AcceptsLetters nfa w ↔ Paths graph.now level alphabet.now w)) }
        ensures letters { IfOk result (λ found. ForSome found
            (HasLettersBelow (path_symbols alphabet.now))) }
        ensures of_path_symbols { IfOk result (λ _. (w : List ℕ) →
            Paths graph.now level alphabet.now w → All (λ s. s < path_symbols alphabet.now) w) }
    {
        let nfa = graph.to_nfa::<WideSet>(alloc, level, alphabet, &self.finest)?;
        let found = letters_within(alloc, &nfa, alphabet.len(), most)?;
        Ok(found)
    }
}

/// The same language, with one letter on each edge, and without silent chains. `None` where there
/// would be more than `most` states, or more than `most` edges and silent steps, or where some edge
/// is by a letter that isn't below `bound`, for which each edge is looked at.
fn letters_within<L: LabelSet>(
    alloc: Global,
    nfa: &Nfa<L>,
    bound: u32,
    most: usize,
) -> Result<Option<LetterNfa>, AllocError>
    ensures language { IfOk result (λ found. ForSome found (λ made. (w : List ℕ) →
        AcceptsLetters made w ↔ Accepts nfa.now w)) }
    ensures letters { IfOk result (λ found. ForSome found (HasLettersBelow bound)) }
{
    let Some(whole) = by_letters(alloc, nfa, most)? else {
        return Ok(None);
    };
    let short = whole.without_silent_chains(alloc)?;
    if has_letters_below(&short, bound) {
        Ok(Some(short))
    } else {
        Ok(None)
    }
}
