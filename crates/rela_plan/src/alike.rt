//! Flows that look the same: those that do at a level have the same paths there.

ghost use Rattle.std.specs.Prelude.{◌≡◌, ◌<◌, IfOk, IfSome, OnOk, All, length};
ghost use Rattle.rela_names.specs.declared.level.Level.{Level};
ghost use Rattle.rela_plan.specs.Alike.{AreAlike, AreNumbered, LooksAs};

use rela_graph::LevelGraph;
use rela_names::Level;
use rela_snapshot::FlowPair;
use rela_translate::Check;
use std::alloc::{AllocError, Global};
use std::collections::HashMap;

/// For each flow the index of one that looks the same at the level of each check, before and after
/// the change. Where the checks have one level it is the first such flow, else the flow itself.
/// Time and space: expected linear in the graphs and the checks.
///
/// # Errors
///
/// Only where memory is wanted.
pub fn alike_flows(
    alloc: Global,
    pairs: &[FlowPair],
    checks: &[Check],
) -> Result<Vec<usize>, AllocError>
    ensures { IfOk result (λ others. All (λ check.
        AreAlike check.level pairs.now others.items) checks.now) }
{
    match one_level(checks) {
        Some(level) => alike_at(alloc, pairs, level),
        None => own_numbers(alloc, pairs),
    }
}

/// The level that the checks have in common, and `None` where there is no check or they differ.
fn one_level(checks: &[Check]) -> Option<Level>
    ensures { IfSome result (λ level. All (λ check. check.level ≡ level) checks.now) }
{
    let level = checks.first()?.level();
    for check in checks {
        if check.level() != level {
            return None;
        }
    }
    Some(level)
}

/// The index of each flow, for itself.
fn own_numbers(alloc: Global, pairs: &[FlowPair]) -> Result<Vec<usize>, AllocError>
    ensures { IfOk result (λ own. (level : Level) → AreAlike level pairs.now own.items) }
{
    let mut own = Vec::with_capacity(alloc, pairs.len())?;
    for n in 0..pairs.len() {
        own.push(n)?;
    }
    Ok(own)
}

/// For each flow the index of the first that looks the same at the level. Time: expected linear in
/// the graphs.
fn alike_at(alloc: Global, pairs: &[FlowPair], level: Level) -> Result<Vec<usize>, AllocError>
    ensures { IfOk result (λ firsts. AreAlike level pairs.now firsts.items) }
{
    let mut numbers = HashMap::new(alloc);
    let mut firsts = Vec::with_capacity(alloc, pairs.len())?;
    for n in 0..pairs.len() {
        firsts.push(number_of(&mut numbers, pairs, level, n)?)?;
    }
    Ok(firsts)
}

/// The index that the look of flow `n` has in `numbers`, where it is put with `n` itself if it is
/// new.
fn number_of<'a>(
    numbers: &mut HashMap<(LevelGraph<'a>, LevelGraph<'a>), usize>,
    pairs: &'a [FlowPair],
    level: Level,
    n: usize,
) -> Result<usize, AllocError>
    requires flow { n < length pairs.now }
    requires numbered { AreNumbered level pairs.now numbers.old }
    ensures number { IfOk result (LooksAs level pairs.now n) }
    ensures numbered { OnOk result (AreNumbered level pairs.now numbers.new) }
{
    let pair = &pairs[n];
    let look = (pair.before.at(level), pair.after.at(level));
    if let Some(number) = numbers.get(&look) {
        return Ok(*number);
    }
    numbers.insert(look, n)?;
    Ok(n)
}
