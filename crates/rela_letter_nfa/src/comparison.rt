//! The first word by which two automata differ.
ghost use Rattle.std.specs.Prelude.{◌≡◌, ℕ, ◌+◌, ◌^◌, ◌<◌, List, [], IfOk, IfErr, IfNone, IfSome};
ghost use Rattle.rela_names.specs.Shortlex.{First};
ghost use Rattle.rela_letter_nfa.specs.Differences.{Differs, IsAgreed, IsOnSide, ReachPairsBefore};
ghost use Rattle.rela_letter_nfa.specs.Pair.{ArePaired};
ghost use Rattle.rela_letter_nfa.specs.Runs.{Accepts};

use crate::arrival::Arrival;
use crate::both::Both;
use crate::difference::{Difference, Sought};
use crate::nfa::LetterNfa;
use crate::search::{search, word_of};
use crate::state_sets::{MOST_ROOM, StateSets};
use rela_pairs::BuildError;
use std::alloc::Global;

/// The first of the sought words in shortlex order and the automaton that accepts it, and `None`
/// where there is no such word. Pairs of sets of states are found as words first reach them, up to
/// the one of the first sought word; neither automaton is made deterministic first. Time: for each
/// pair of sets that is found a look at the edges that leave its states, and for each letter on
/// these at the states that follow, and a sort of those edges and those states that are out of
/// order; space: linear in the pairs of sets, and in the states. There may be exponentially many
/// pairs.
///
/// # Errors
///
/// - `Limit` only where words that do not come after the first sought one reach more than `limit`
///   pairs of sets of states; never for the greatest limit.
/// - `Memory` where there isn't memory for them.
pub fn first_difference(
    alloc: Global,
    a: &LetterNfa,
    b: &LetterNfa,
    sought: Sought,
    limit: usize,
) -> Result<Option<Difference>, BuildError>
    ensures none { IfOk result (λ found. IfNone found ((word : List ℕ) →
        IsAgreed sought (Accepts a.now word) (Accepts b.now word))) }
    ensures first { IfOk result (λ found. IfSome found (λ difference.
        First (Differs sought a.now b.now) difference.word)) }
    ensures side { IfOk result (λ found. IfSome found (λ difference.
        IsOnSide a.now b.now difference.word difference.side)) }
    ensures limit { IfErr result (λ e. e ≡ BuildError.Limit →
        ReachPairsBefore a.now b.now (Differs sought a.now b.now) (limit + 1)) }
    ensures bounded { IfErr result (λ e. e ≡ BuildError.Limit → limit < 2 ^ 63) }
{
    let both = Both::new(a, b);
    let room = both.states() / 2;
    let mut sets = StateSets::with_capacity(alloc, room)?;
    let mut arrivals = Vec::with_capacity(alloc, room.min(MOST_ROOM))?;
    difference_of(alloc, &both, sought, &mut sets, &mut arrivals, limit)
}

/// The first of the sought words and the automaton that accepts it, as by [`first_difference`] and
/// with its errors. The sets that are found are put into `sets`, and how they were found into
/// `arrivals`, which are empty before.
fn difference_of(
    alloc: Global,
    both: &Both,
    sought: Sought,
    sets: &mut StateSets,
    arrivals: &mut Vec<Arrival>,
    limit: usize,
) -> Result<Option<Difference>, BuildError>
    requires paired { ArePaired both.now }
    requires no_sets { sets.old ≡ [] }
    requires no_arrivals { arrivals.old.items ≡ [] }
    ensures none { IfOk result (λ found. IfNone found ((word : List ℕ) →
        IsAgreed sought (Accepts both.now.first word) (Accepts both.now.second word))) }
    ensures first { IfOk result (λ found. IfSome found (λ difference.
        First (Differs sought both.now.first both.now.second) difference.word)) }
    ensures side { IfOk result (λ found. IfSome found (λ difference.
        IsOnSide both.now.first both.now.second difference.word difference.side)) }
    ensures limit { IfErr result (λ e. e ≡ BuildError.Limit → ReachPairsBefore both.now.first
        both.now.second (Differs sought both.now.first both.now.second) (limit + 1)) }
    ensures bounded { IfErr result (λ e. e ≡ BuildError.Limit → limit < 2 ^ 63) }
{
    let found = search(alloc, both, sought, sets, arrivals, limit)?;
    if !found {
        return Ok(None);
    }
    let last = arrivals.len();
    let word = word_of(alloc, arrivals, last)?;
    let side = both.side_of(sets.get(last));
    Ok(Some(Difference { word, side }))
}
