//! To which state each symbol leads from a state.
ghost use Rattle.std.specs.Prelude.{◌≡◌, ◌==◌, ℕ, List, if◌then◌else◌, ◌+◌, ◌^◌, ◌<◌, ◌≤◌, not, [], ◌∷◌, ◌++◌, All, IfOk, OnOk, filter, length, map, replicate, slice_index, slice_index_or, slice_set};
ghost use Rattle.std.specs.List.{range_with_len};
ghost use Rattle.rela_labels.specs.Apart.{IsAscending};
ghost use Rattle.rela_labels.specs.Partition.{block_count, block_of};
ghost use Rattle.rela_engine.specs.AutomatonText.{symbols_to, targets_besides};

use rela_labels::Partition;
use rela_names::Symbol;
use std::alloc::{AllocError, Global};

/// The state to which each of the first symbols leads, where it is given to which each block does.
pub(crate) fn symbol_targets(
    alloc: Global,
    blocks: &Partition,
    symbols: u32,
    by_letter: &[usize],
) -> Result<Vec<usize>, AllocError>
    requires symbols { symbols ≤ length blocks.now }
    requires letters { length by_letter.now ≡ block_count blocks.now }
    ensures { IfOk result (λ row. row.items
        ≡ map (λ s. slice_index by_letter.now (block_of blocks.now s))
        (range_with_len 0 symbols)) }
{
    let mut row = Vec::with_capacity(alloc, symbols as usize)?;
    for s in 0..symbols {
        row.push(by_letter[blocks.block_of(s) as usize])?;
    }
    Ok(row)
}

/// The states in the row other than this one, each once, in ascending order. Time: that of a sort of
/// those that aren't this one.
pub(crate) fn targets_besides(
    alloc: Global,
    row: &[usize],
    other: usize,
) -> Result<Vec<usize>, AllocError>
    ensures ascending { IfOk result (λ targets. IsAscending targets.items) }
    ensures targets { IfOk result (λ targets. (states : ℕ) → All (λ to. to < states) row.now →
        targets.items ≡ targets_besides states row.now other) }
{
    let mut targets = others_in(alloc, row, other)?;
    targets.sort_unstable();
    targets.dedup();
    Ok(targets)
}

/// The states in the row other than this one, in its order.
fn others_in(alloc: Global, row: &[usize], other: usize) -> Result<Vec<usize>, AllocError>
    ensures { IfOk result (λ others. others.items ≡ filter (λ to. not (to == other)) row.now) }
{
    row.iter().copied().filter(|to| *to != other).collect(alloc)
}

/// For each of the targets, which ascend, the symbols that lead to it, in order. Time: a binary search
/// for each symbol.
pub(crate) fn symbols_by_target(
    alloc: Global,
    row: &[usize],
    targets: &[usize],
) -> Result<Vec<Vec<Symbol>>, AllocError>
    requires few { length row.now < 2 ^ 32 }
    requires ascending { IsAscending targets.now }
    ensures { IfOk result (λ lists. map (λ list. list.items) lists.items
        ≡ map (symbols_to row.now) targets.now) }
{
    let mut lists = empty_lists(alloc, targets.len())?;
    for (s, to) in row.iter().enumerate() {
        put(&mut lists, targets, *to, s as u32)?;
    }
    Ok(lists)
}

/// As many empty lists as this.
fn empty_lists(alloc: Global, count: usize) -> Result<Vec<Vec<Symbol>>, AllocError>
    ensures { IfOk result (λ lists. map (λ list. list.items) lists.items ≡ replicate count []) }
{
    let mut lists = Vec::with_capacity(alloc, count)?;
    for _i in 0..count {
        lists.push(Vec::new(alloc))?;
    }
    Ok(lists)
}

/// Puts the symbol at the end of the list of its target. If that is none of the targets, which ascend, it is
/// left out.
fn put(
    lists: &mut Vec<Vec<Symbol>>,
    targets: &[usize],
    to: usize,
    symbol: Symbol,
) -> Result<(), AllocError>
    requires ascending { IsAscending targets.now }
    requires each { length lists.old.items ≡ length targets.now }
    ensures { OnOk result ((symbols : ℕ → List ℕ) → map (λ list. list.items) lists.old.items
        ≡ map symbols targets.now → map (λ list. list.items) lists.new.items
        ≡ map (λ t. symbols t ++ (if to == t then symbol ∷ [] else [])) targets.now) }
{
    match targets.binary_search(&to) {
        Ok(place) => push_to(lists, place, symbol),
        Err(_) => Ok(()),
    }
}

/// Puts the symbol at the end of the list at this place.
fn push_to(lists: &mut Vec<Vec<Symbol>>, at: usize, symbol: Symbol) -> Result<(), AllocError>
    requires { at < length lists.old.items }
    ensures { OnOk result (map (λ list. list.items) lists.new.items
        ≡ slice_set (map (λ list. list.items) lists.old.items) at
        (slice_index_or (map (λ list. list.items) lists.old.items) at [] ++ symbol ∷ [])) }
{
    lists[at].push(symbol)?;
    Ok(())
}
