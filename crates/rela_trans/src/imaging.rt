//! Images of automata under transducers.
ghost use Rattle.std.specs.Prelude.{◌≡◌, ◌≢◌, ℕ, ◌<◌, ◌≤◌, ◌↔◌, List, IsTrue, IfOk, IfErr, map};
ghost use Rattle.std.specs.List.{All};
ghost use Rattle.rela_nfa.specs.Automaton.{states};
ghost use Rattle.rela_nfa.specs.Runs.{Accepts};
ghost use Rattle.rela_pairs.specs.Reachable.{MoreThan};
ghost use Rattle.rela_pairs.specs.declared.pair.Pair.{Pair};
ghost use Rattle.rela_trans.specs.Composition.{Covers};
ghost use Rattle.rela_trans.specs.Images.{IsImage, AreReachedFrom};
ghost use Rattle.rela_trans.specs.Runs.{Relates};

use crate::image_edges::{image_edges, image_finals};
use crate::image_pairs::ReadingSources;
use crate::transducer::Transducer;
use rela_labels::LabelSet;
use rela_nfa::Nfa;
use rela_pairs::{BuildError, Pair, explore};
use std::alloc::Global;

/// The words that the transducer writes where it reads a word of the automaton, the source. Each
/// state is a pair of states that some source leads to, and is reached by just the words that are
/// written from such a source. Time: for each such pair the product of the numbers of edges and
/// moves that leave its two states, each with a meet of two sets; space: linear in the pairs and
/// the edges of the result.
///
/// # Errors
///
/// - `Limit` exactly where more than `limit` pairs are reached by one source; never for the
///   greatest limit.
/// - `Memory` where there isn't memory for them.
pub fn image<L: LabelSet>(
    alloc: Global,
    a: &Nfa<L>,
    transducer: &Transducer<L>,
    limit: usize,
) -> Result<Nfa<L>, BuildError>
    requires letters { a.now.letters ≡ transducer.now.letters }
    requires limit { 1 ≤ limit }
    ensures letters { IfOk result (λ nfa. nfa.letters ≡ a.now.letters) }
    ensures few { IfOk result (λ nfa. states nfa ≤ limit) }
    ensures pairs { IfOk result (λ nfa. (pairs : List Pair)
        × IsImage a.now transducer.now pairs nfa) }
    ensures language { IfOk result (λ nfa. (read : ℕ → ℕ) → Covers read a.now.letters
        → (v : List ℕ) → Accepts nfa (map read v) ↔
        ((source : List ℕ) × Accepts a.now (map read source)
        × Relates read transducer.now source v)) }

    // The limit, exactly.
    ensures within { IfOk result (λ _. ¬ MoreThan limit (AreReachedFrom a.now transducer.now)) }
    ensures limit { IfErr result (λ e. e ≡ BuildError.Limit →
        MoreThan limit (AreReachedFrom a.now transducer.now)) }
    ensures greatest { limit ≡ usize.MAX → IfErr result (λ e. e ≢ BuildError.Limit) }
{
    let reading = ReadingSources {
        source: a,
        transducer,
    };
    let start = Pair {
        left: a.start(),
        right: transducer.start(),
    };
    let explored = explore(alloc, &reading, start, limit)?;
    let finals = image_finals(alloc, a, transducer, explored.pairs())?;
    let edges = image_edges(alloc, a, transducer, &explored)?;
    Ok(Nfa::from_lists(a.letters(), 0, finals, edges))
}

/// Whether each number of the word is a letter. Time: linear in the word.
pub fn are_letters(word: &[u32], letters: u32) -> bool
    ensures { IsTrue result ↔ All (λ k. k < letters) word.now }
{
    word.iter().all(|k| *k < letters)
}
