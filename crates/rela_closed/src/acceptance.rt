//! Which sets of states have a final one.
ghost use Rattle.std.specs.Prelude.{◌≡◌, ℕ, ◌<◌, ◌↔◌, false, [], ◌∷◌, IfOk, IsTrue, length, map, slice_index_or};
ghost use Rattle.std.specs.List.{All};
ghost use Rattle.rela_closed.specs.Listing.{TellAllFinals, TellsFinals};
ghost use Rattle.rela_closed.specs.Sets.{AreDistinct, AreMet, HasFinal};

use crate::table::Table;
use rela_labels::LabelSet;
use rela_nfa::Nfa;
use std::alloc::{AllocError, Global};

/// For each automaton and each of these numbers of the table whether the automaton's set has a
/// final state. Time: a look at each state of the table's sets, and a step for each automaton and
/// number.
pub(crate) fn accepting<L: LabelSet>(
    alloc: Global,
    automata: &[&Nfa<L>],
    table: &Table,
    numbers: &[usize],
) -> Result<Vec<Vec<bool>>, AllocError>
    requires met { All (AreMet (map (λ a. a.now) automata.now)) table.now }
    requires within { All (λ number. number < length table.now) numbers.now }
    ensures { IfOk result (λ accepted. TellAllFinals (map (λ a. a.now) automata.now) table.now
        numbers.now (map (λ flags. flags.items) accepted.items)) }
{
    let mut accepted = Vec::with_capacity(alloc, automata.len())?;
    for n in 0..automata.len() {
        let a = automata[n];
        accepted.push(finals_at(alloc, a, n, table, numbers)?)?;
    }
    Ok(accepted)
}

/// For each of these numbers of the table whether the set of the automaton, which is the `n`-th,
/// has a final state.
fn finals_at<L: LabelSet>(
    alloc: Global,
    a: &Nfa<L>,
    n: usize,
    table: &Table,
    numbers: &[usize],
) -> Result<Vec<bool>, AllocError>
    requires some { All (λ sets. n < length sets) table.now }
    requires met { All (λ sets. AreMet (a.now ∷ []) (slice_index_or sets n [] ∷ [])) table.now }
    requires within { All (λ number. number < length table.now) numbers.now }
    ensures { IfOk result (λ flags. TellsFinals a.now n table.now numbers.now flags.items) }
{
    let finals = finals_of(alloc, a, n, table)?;
    let mut flags = Vec::with_capacity(alloc, numbers.len())?;
    for number in numbers {
        flags.push(finals[*number])?;
    }
    Ok(flags)
}

/// For all sets of the table, which differ, whether the one of the automaton, which is the `n`-th, has a
/// final state.
pub(crate) fn finals_of<L: LabelSet>(
    alloc: Global,
    a: &Nfa<L>,
    n: usize,
    table: &Table,
) -> Result<Vec<bool>, AllocError>
    requires some { All (λ sets. n < length sets) table.now }
    requires met { All (λ sets. AreMet (a.now ∷ []) (slice_index_or sets n [] ∷ [])) table.now }
    ensures distinct { AreDistinct table.now }
    ensures each { IfOk result (λ flags. length flags.items ≡ length table.now) }
    ensures final_states { IfOk result (λ flags. (i : ℕ) → i < length table.now →
        IsTrue (slice_index_or flags.items i false)
        ↔ HasFinal a.now (slice_index_or (slice_index_or table.now i []) n [])) }
{
    let mut flags = Vec::with_capacity(alloc, table.len())?;
    for number in 0..table.len() {
        flags.push(has_final(a, &table.get(number)[n]))?;
    }
    Ok(flags)
}

/// Whether a state of the set is final.
fn has_final<L: LabelSet>(a: &Nfa<L>, set: &[usize]) -> bool
    requires { AreMet (a.now ∷ []) (set.now ∷ []) }
    ensures { IsTrue result ↔ HasFinal a.now set.now }
{
    prove!(a.start() < a.states());
    for q in set {
        if a.is_final(*q) {
            return true;
        }
    }
    false
}
