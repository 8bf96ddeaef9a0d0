//! The complement by the minimal automaton.
ghost use Rattle.std.specs.Prelude.{◌≡◌, ◌+◌, ◌≤◌, IfOk, IfErr, length};
ghost use Rattle.rela_build.specs.Complement.{IsComplement};
ghost use Rattle.rela_subset.specs.Subsets.{ReachSets};
ghost use Rattle.rela_complement.specs.Telling.{TellsWords};

use crate::least::least_over;
use rela_labels::WideSet;
use rela_nfa::{BuildError, Nfa};
use std::alloc::Global;

/// The complement over these letters of the automaton, by the minimal automaton of its words.
pub(crate) fn complement_of(
    alloc: Global,
    a: &Nfa<WideSet>,
    over: &WideSet,
    limit: usize,
) -> Result<Nfa<WideSet>, BuildError>
    requires letters { length over.now ≡ a.now.letters }
    requires limit { 1 ≤ limit }
    ensures complement { IfOk result (IsComplement a.now over.now) }
    ensures within { IfOk result (λ _. ¬ TellsWords a.now over.now (limit + 1)) }
    ensures past { IfErr result (λ e. e ≡ BuildError.Limit → ReachSets a.now over.now (limit + 1)) }
{
    let least = least_over(alloc, a, over, limit)?;
    let others = least.into_complement(alloc)?;
    let nfa = others.into_nfa(alloc)?;
    prove!(nfa.start() < nfa.states());
    Ok(nfa)
}
