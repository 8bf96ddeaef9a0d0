//! The automaton whose words reach fewer sets of states.
ghost use Rattle.std.specs.Prelude.{◌≡◌, ℕ, ◌<◌, ◌↔◌, List, IfOk, length};
ghost use Rattle.rela_nfa.specs.Automaton.{states};
ghost use Rattle.rela_nfa.specs.Runs.{Accepts, Reach};
ghost use Rattle.rela_reduce.specs.Apart.{AreApart, ReachSame};
ghost use Rattle.rela_reduce.specs.Bits.{HasBit};
ghost use Rattle.rela_reduce.specs.Numbered.{IsPlain};
ghost use Rattle.rela_reduce.specs.Simulation.{Simulates};
ghost use Rattle.rela_reduce.specs.Stored.{lists_of, plain};

use crate::closed::closed_steps;
use crate::containment::containments;
use crate::edges::edge_lists;
use crate::labels::Labels;
use crate::numbered::{Numbered, with_numbers};
use crate::simulation::simulation;
use crate::widening::widened;
use rela_labels::LabelSet;
use rela_nfa::Nfa;
use std::alloc::{AllocError, Global};

/// The most states of an automaton whose states are compared.
const MOST_STATES: usize = 2_048;

/// The most labels of an automaton whose states are compared.
const MOST_LABELS: usize = 256;

/// The most steps, in all its states, of an automaton whose states are compared.
const MOST_STEPS: usize = 4_096;

/// The automaton with the same states and edges, and silent edges that lead from each state to each
/// that it simulates (R. Milner, "An algebraic definition of simulation between programs", 1971),
/// which adds no word to the language. A word so reaches, with a state, all that it simulates: of
/// sets that differ in these alone, which there may be by the thousand, one is left. Words that
/// reached the same states still do, and a state tells no two words apart that none told apart
/// before. No edge is added where others lead on so.
///
/// States are compared where the automaton is small, and else none is said to simulate another.
/// Time: for each round, of which there are at most 256, a look at the edges of each pair of states
/// at most, then a look at each pair, and a copy of each edge; space: a bit for each pair of states,
/// and the edges. An automaton that isn't small costs the copy alone, with a look at each pair of
/// states, and at each letter for each label.
pub fn reduce<L: LabelSet>(alloc: Global, a: &Nfa<L>) -> Result<Nfa<L>, AllocError>
    ensures letters { IfOk result (λ nfa. nfa.letters ≡ a.now.letters) }
    ensures states { IfOk result (λ nfa. states nfa ≡ states a.now) }
    ensures language { IfOk result (λ nfa. (w : List ℕ) → Accepts nfa w ↔ Accepts a.now w) }
    ensures reached { IfOk result (λ nfa. (q : ℕ) (w : List ℕ) → Reach a.now q w → Reach nfa q w) }
    ensures same { IfOk result (λ nfa. (v w : List ℕ) → ReachSame a.now v w → ReachSame nfa v w) }
    ensures apart { IfOk result (λ nfa. (v w : List ℕ) → AreApart nfa v w → AreApart a.now v w) }
{
    let mut labels = Labels::new(alloc);
    let whole = with_numbers(alloc, a, &mut labels)?;
    let relation = relation_of(alloc, &whole, &labels)?;
    let lists = widened(alloc, &whole, &relation)?;
    let edges = edge_lists(alloc, &lists, &labels)?;
    let Numbered {
        labels: _,
        start,
        finals,
        arrows: _,
    } = whole;
    Ok(Nfa::from_lists(a.letters(), start, finals, edges))
}

/// For each state a bit for each that it simulates; no row of bits where the automaton isn't
/// small, which says that no state simulates another.
fn relation_of<L: LabelSet>(
    alloc: Global,
    whole: &Numbered,
    labels: &Labels<'_, L>,
) -> Result<Vec<Vec<u64>>, AllocError>
    requires { IsPlain (plain whole.now) }
    ensures { IfOk result (λ rows. (p q : ℕ) → p < length whole.now.finals.items →
        q < length whole.now.finals.items → HasBit (lists_of rows.items) p q
        → Simulates labels.now (plain whole.now) (lists_of rows.items) p q) }
{
    if whole.finals.len() > MOST_STATES || labels.len() > MOST_LABELS {
        return Ok(Vec::new(alloc));
    }
    match closed_steps(alloc, whole, MOST_STEPS)? {
        Some(closed) => {
            let within = containments(alloc, labels)?;
            simulation(alloc, whole, &closed, &within)
        }
        None => Ok(Vec::new(alloc)),
    }
}
