//! The first word that tells two automata apart.
ghost use Rattle.std.specs.Prelude.{◌≡◌, ℕ, ◌+◌, ◌^◌, ◌<◌, List, IfOk, IfErr, IfSome, IfNone};
ghost use Rattle.rela_names.specs.Shortlex.{First};
ghost use Rattle.rela_nfa.specs.Runs.{Accepts};
ghost use Rattle.rela_compare.specs.Comparison.{ReachPairsBefore};
ghost use Rattle.rela_compare.specs.Halves.{Differs, IsAgreed};

use crate::letters::all_letters;
use crate::sought::{Sought, SoughtSets};
use rela_labels::LabelSet;
use rela_names::Word;
use rela_nfa::{BuildError, Nfa};
use rela_subset::first_word;
use std::alloc::Global;

/// The first of the sought words in shortlex order, and `None` where there is none. A set of states
/// of the union of the two automata is a pair of sets of their states, and beside these a start,
/// which the empty word alone reaches. `Limit` where more than `limit` pairs of sets are reached
/// before such a word, and `Memory` where there isn't memory for them.
pub(crate) fn first_difference<L: LabelSet>(
    alloc: Global,
    a: &Nfa<L>,
    b: &Nfa<L>,
    sought: Sought,
    limit: usize,
) -> Result<Option<Word>, BuildError>
    requires { a.now.letters ≡ b.now.letters }
    ensures first { IfOk result (λ found. IfSome found (First (Differs sought a.now b.now))) }
    ensures none { IfOk result (λ found. IfNone found ((word : List ℕ) →
        IsAgreed sought (Accepts a.now word) (Accepts b.now word))) }
    ensures limit { IfErr result (λ e. e ≡ BuildError.Limit →
        ReachPairsBefore a.now b.now (Differs sought a.now b.now) (limit + 1)) }
    ensures bounded { IfErr result (λ e. e ≡ BuildError.Limit → limit < 2 ^ 63) }
{
    let both = a.union(alloc, b)?;
    let over = all_letters(alloc, a.letters())?;
    let wanted = SoughtSets {
        first: a,
        second: b,
        split: both.states() - b.states(),
        sought,
    };
    // The start of the union makes the empty word's set one that no pair of sets is.
    first_word(alloc, &both, &over, &wanted, limit.saturating_add(1))
}
