//! Whether two automata accept the same words, or one of them only words of the other.
ghost use Rattle.std.specs.Prelude.{◌≡◌, ℕ, ◌+◌, ◌^◌, ◌<◌, ◌↔◌, List, IfOk, IfErr};
ghost use Rattle.rela_names.specs.Shortlex.{First};
ghost use Rattle.rela_nfa.specs.Runs.{Accepts};
ghost use Rattle.rela_compare.specs.Comparison.{IfDiffer, IsInFirstAlone, IsInOneAlone, IsOnSide, ReachPairsBefore};

use crate::difference::first_difference;
use crate::sought::Sought;
use crate::verdict::{Verdict, Which};
use rela_labels::LabelSet;
use rela_names::Word;
use rela_nfa::{BuildError, Nfa};
use std::alloc::{AllocError, Global};

/// Whether the two automata accept the same words, and if not the first word, in shortlex order,
/// that one of them alone accepts. Pairs of sets of states are found as words first reach them, up
/// to the one at which the two differ; neither automaton is made deterministic first. Time: for
/// each pair of sets that is found a sort of the edges that leave its states, and a few set
/// operations for each block of letters by which the same edges may be taken; space: linear in the
/// pairs of sets. There may be exponentially many.
///
/// # Errors
///
/// - `Limit` only where words that do not come after the first difference reach more than `limit`
///   pairs of sets of states; never for the greatest limit.
/// - `Memory` where there isn't memory for them.
pub fn equal<L: LabelSet>(
    alloc: Global,
    a: &Nfa<L>,
    b: &Nfa<L>,
    limit: usize,
) -> Result<Verdict, BuildError>
    requires { a.now.letters ≡ b.now.letters }
    ensures same { IfOk result (λ verdict. (verdict ≡ Verdict.Same) ↔
        ((word : List ℕ) → Accepts a.now word ↔ Accepts b.now word)) }
    ensures first { IfOk result (λ verdict. IfDiffer verdict (λ word side.
        First (IsInOneAlone a.now b.now) word)) }
    ensures side { IfOk result (λ verdict. IfDiffer verdict (λ word side.
        IsOnSide a.now b.now word side)) }
    ensures limit { IfErr result (λ e. e ≡ BuildError.Limit →
        ReachPairsBefore a.now b.now (IsInOneAlone a.now b.now) (limit + 1)) }
    ensures bounded { IfErr result (λ e. e ≡ BuildError.Limit → limit < 2 ^ 63) }
{
    match first_difference(alloc, a, b, Sought::EitherAlone, limit)? {
        None => Ok(Verdict::Same),
        Some(word) => {
            let side = side_of(alloc, a, &word)?;
            Ok(Verdict::Differ { word, side })
        }
    }
}

/// Whether each word of the first automaton is one of the second, and if not the first word, in
/// shortlex order, that is not, on the side of the first. It is found as by [`equal`], at the same
/// cost and with the same errors.
pub fn included<L: LabelSet>(
    alloc: Global,
    a: &Nfa<L>,
    b: &Nfa<L>,
    limit: usize,
) -> Result<Verdict, BuildError>
    requires { a.now.letters ≡ b.now.letters }
    ensures same { IfOk result (λ verdict. (verdict ≡ Verdict.Same) ↔
        ((word : List ℕ) → Accepts a.now word → Accepts b.now word)) }
    ensures first { IfOk result (λ verdict. IfDiffer verdict (λ word side.
        First (IsInFirstAlone a.now b.now) word)) }
    ensures side { IfOk result (λ verdict. IfDiffer verdict (λ word side. side ≡ Which.First)) }
    ensures limit { IfErr result (λ e. e ≡ BuildError.Limit →
        ReachPairsBefore a.now b.now (IsInFirstAlone a.now b.now) (limit + 1)) }
    ensures bounded { IfErr result (λ e. e ≡ BuildError.Limit → limit < 2 ^ 63) }
{
    match first_difference(alloc, a, b, Sought::FirstAlone, limit)? {
        None => Ok(Verdict::Same),
        Some(word) => Ok(Verdict::Differ {
            word,
            side: Which::First,
        }),
    }
}

/// The first where the automaton `a`, the first one, accepts the word, and else the second.
fn side_of<L: LabelSet>(alloc: Global, a: &Nfa<L>, word: &Word) -> Result<Which, AllocError>
    ensures first { IfOk result (λ side. side ≡ Which.First → Accepts a.now word.now) }
    ensures second { IfOk result (λ side. side ≡ Which.Second → ¬ Accepts a.now word.now) }
{
    if a.accepts(alloc, word.as_slice())? {
        return Ok(Which::First);
    }
    Ok(Which::Second)
}
