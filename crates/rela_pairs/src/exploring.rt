//! The search for the pairs that are reachable.
ghost use Rattle.std.specs.Prelude.{◌≡◌, ◌≢◌, ℕ, ◌≤◌, ◌↔◌, Some, Contains, IfOk, IfErr, length, slice_get};
ghost use Rattle.rela_pairs.specs.Exploration.{NumbersNext, FoundEarlier};
ghost use Rattle.rela_pairs.specs.Reachable.{Reachable, AreDistinct, MoreThan};
ghost use Rattle.rela_pairs.specs.declared.pair.Pair.{Pair};

use crate::errors::BuildError;
use crate::explored::Explored;
use crate::found::Found;
use crate::lists::Lists;
use crate::pair::Pair;
use crate::successors::Successors;
use std::alloc::Global;

/// The pairs that are reachable from the start, if they are at most `limit`, in the order of a
/// breadth-first search: the start is number 0. Each is looked at once. Time: linear in the pairs
/// and in what follows each, in expectation where they are looked up by hash; space: likewise.
/// Where they are looked up in a table, one step and one place more for each pair of states.
///
/// # Errors
///
/// - `Limit` exactly where more than `limit` pairs are reachable; never for the greatest limit.
/// - `Memory` where there isn't memory for them.
pub fn explore<S: Successors>(
    alloc: Global,
    successors: &S,
    start: Pair,
    limit: usize,
) -> Result<Explored, BuildError>
    requires start { S.is_pair successors.now start }
    requires limit { 1 ≤ limit }
    ensures distinct { IfOk result (λ e. AreDistinct e.pairs) }
    ensures first { IfOk result (λ e. slice_get e.pairs 0 ≡ Some start) }
    ensures reachable { IfOk result (λ e. (x : Pair) → Contains e.pairs x ↔
        Reachable (S.next successors.now) start x) }
    ensures one_list_each { IfOk result (λ e. length e.targets ≡ length e.pairs) }
    ensures targets { IfOk result (λ e. NumbersNext (S.next successors.now) e) }
    ensures earlier { IfOk result (λ e. FoundEarlier (S.next successors.now) e) }
    ensures few { IfOk result (λ e. length e.pairs ≤ limit) }

    // The limit, exactly.
    ensures within { IfOk result (λ _. ¬ MoreThan limit (Reachable (S.next successors.now) start)) }
    ensures limit { IfErr result (λ e. e ≡ BuildError.Limit →
        MoreThan limit (Reachable (S.next successors.now) start)) }
    ensures greatest { limit ≡ usize.MAX → IfErr result (λ e. e ≢ BuildError.Limit) }
{
    let mut found = Found::new(alloc, successors.shape())?;
    found.number(start, limit)?;
    let mut targets = Lists::new(alloc);
    let mut followers = Vec::new(alloc);
    let mut numbers = Vec::new(alloc);
    // The pairs that were found stand in a queue: those with targets were asked for what follows.
    'queue: while targets.len() < found.pairs().len() {
        let pair = found.pairs()[targets.len()];
        followers.clear();
        successors.add_next(alloc, pair, &mut followers)?;
        found.number_all(&followers, limit, &mut numbers)?;
        targets.push(&numbers)?;
    }
    Ok(Explored { found, targets })
}
