//! The minimal automaton of the same words.
ghost use Rattle.std.specs.Prelude.{◌≡◌, ℕ, ◌↔◌, List, IfOk};
ghost use Rattle.rela_subset.specs.Deterministic.{IsAccepted, IsByArrival, IsDeterministic, IsOver, IsReachable, state_after};
ghost use Rattle.rela_minimise.specs.Classes.{AreAlike, AreClasses, IsMinimal};

use crate::columns::columns;
use crate::ordering::in_order;
use crate::passes::by_passes;
use crate::quotient::quotient;
use crate::refinement::Classes;
use crate::refining::refined;
use rela_labels::LabelSet;
use rela_subset::Dfa;
use std::alloc::{AllocError, Global};

/// The automaton over the same letters with the fewest states that accepts the same words, of one
/// whose states are all reached, and are numbered as words first arrive at them, as those of a
/// subset construction are: states that accept the same words become one. Each state of the result
/// is reached, no two of them accept the same words, and they are numbered as words first arrive at
/// them, in shortlex order: so it is the same for all automata of one language. A word leads to a
/// state that follows from its continuations alone (J. Myhill and A. Nerode, 1958).
///
/// Time: a step for each state and kind of letters in each pass, of which there are few where short
/// words tell states apart, and a set operation for each edge of a state of the result. Memory is
/// the only error.
pub fn merge_equivalent<L: LabelSet>(alloc: Global, dfa: &Dfa<L>) -> Result<Dfa<L>, AllocError>
    requires reachable { IsReachable dfa.now }
    requires arrival { IsByArrival dfa.now }
    ensures over { IfOk result (λ made. made.over ≡ dfa.now.over) }
    ensures start { IfOk result (λ made. made.start ≡ 0) }
    ensures language { IfOk result (λ made. (word : List ℕ) → IsAccepted made word ↔
        IsAccepted dfa.now word) }
    ensures reachable { IfOk result IsReachable }
    ensures minimal { IfOk result IsMinimal }
    ensures arrival { IfOk result IsByArrival }
    ensures classes { IfOk result (λ made. (v w : List ℕ) → IsOver dfa.now.over v →
        IsOver dfa.now.over w
        → (state_after made v ≡ state_after made w) ↔ AreAlike dfa.now v w) }
{
    prove!(dfa.start() < dfa.states());
    let classes = classes_of(alloc, dfa)?;
    let ordered = in_order(alloc, &classes)?;
    let made = quotient(alloc, dfa, &ordered)?;
    Ok(made)
}

/// The classes of states that accept the same words: by passes over all states where few are needed,
/// and else by a refinement that looks only at states whose letters lead to new classes.
fn classes_of<L: LabelSet>(alloc: Global, dfa: &Dfa<L>) -> Result<Classes, AllocError>
    requires { IsDeterministic dfa.now }
    ensures { IfOk result (λ made. AreClasses dfa.now made.count made.numbers.items) }
{
    let columns = columns(alloc, dfa)?;
    if let Some(classes) = by_passes(alloc, dfa, &columns)? {
        return Ok(classes);
    }
    let refinement = refined(alloc, dfa, &columns)?;
    Ok(refinement.into_classes())
}
