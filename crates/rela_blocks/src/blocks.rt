//! The blocks of a check's symbols, and those by which it is judged for one flow.
ghost use Rattle.std.specs.Prelude.{◌≡◌, ◌<◌, ◌≤◌, ◌++◌, IfOk, All, length};
ghost use Rattle.std.specs.List.{range_with_len};
ghost use Rattle.rela_names.specs.Alphabet.{path_symbols};
ghost use Rattle.rela_nfa.specs.Relabelling.{Refines};
ghost use Rattle.rela_snapshot.specs.PairsLocated.{IsPairLocated};
ghost use Rattle.rela_translate.specs.Checked.{IsCheck, markers_of};
ghost use Rattle.rela_blocks.specs.Blocks.{AreBlocks};
ghost use Rattle.rela_blocks.specs.RowBlocks.{AreCheckBlocks, AreRowBlocks, check_symbols_apart, node_symbols, symbols_of};

use crate::laws::named_symbols_are_alone;
use crate::markers::count_markers;
use crate::split::blocks_of_classes;
use rela_graph::push_locations;
use rela_labels::Partition;
use rela_names::{Alphabet, Symbol};
use rela_snapshot::FlowPair;
use rela_translate::Check;
use std::alloc::{AllocError, Global};

/// The check's symbols in blocks: those by the classes of its table, of which `drop`, `loop` and the
/// markers are set apart. So each symbol that the check's terms name by itself is a block of its own,
/// and two locations share a block just where each class lists both or neither.
///
/// It takes the time of the symbols and the members of the classes. The only error is want of memory.
pub fn check_blocks(
    alloc: Global,
    check: &Check,
    alphabet: &Alphabet,
) -> Result<Partition, AllocError>
    requires { All (λ set. All (λ s. s < path_symbols alphabet.now) set.members) check.now.classes }
    ensures blocks { IfOk result (AreCheckBlocks check.now (length alphabet.now)) }
    ensures together { IfOk result (AreBlocks check.now (length alphabet.now)) }
{
    let symbols = symbols_of(check, alphabet);
    named_symbols_are_alone();
    let split = blocks_of_classes(alloc, check.classes(), symbols)?;
    let apart = set_apart(alloc, check, alphabet)?;
    split.with_alone(alloc, apart.as_slice())
}

/// The check's blocks, split so that the locations of the flow's nodes are set apart too. So both
/// graphs can be read by them.
///
/// It takes n log n in the check's blocks and the nodes, and not the time of the symbols. The only
/// error is want of memory.
pub fn row_blocks(
    alloc: Global,
    check: &Check,
    pair: &FlowPair,
    alphabet: &Alphabet,
    blocks: &Partition,
) -> Result<Partition, AllocError>
    requires blocks { AreCheckBlocks check.now (length alphabet.now) blocks.now }
    requires located { IsPairLocated alphabet.now check.now.level pair.now }
    ensures blocks { IfOk result
        (AreRowBlocks check.now alphabet.now pair.now.before pair.now.after) }
    ensures finer { IfOk result (λ finer. Refines finer blocks.now) }
{
    // By what each check keeps, its markers are numbered from 1 on.
    let _ = check.body();
    named_symbols_are_alone();
    let nodes = node_locations(alloc, check, pair)?;
    blocks.with_alone(alloc, nodes.as_slice())
}

/// The number of the check's symbols: the path symbols of the alphabet and the check's markers. It
/// goes as deep into the stack as the check's body.
pub fn symbols_of(check: &Check, alphabet: &Alphabet) -> u32
    ensures count { result ≡ symbols_of check.now (length alphabet.now) }
    ensures check { IsCheck check.now }
{
    alphabet.len() + markers(check)
}

/// The number of the check's markers.
pub(crate) fn markers(check: &Check) -> u32
    ensures count { result ≡ length (markers_of check.now.body) }
    ensures few { result ≤ 20000 }
    ensures check { IsCheck check.now }
{
    count_markers(check.body())
}

/// The symbols that are set apart for every flow.
fn set_apart(alloc: Global, check: &Check, alphabet: &Alphabet) -> Result<Vec<Symbol>, AllocError>
    ensures { IfOk result (λ apart. apart.items
        ≡ check_symbols_apart check.now (length alphabet.now)) }
{
    let mut symbols = Vec::new(alloc);
    // An alphabet has at most 100,000 locations.
    let _ = alphabet.len();
    let first = alphabet.drop_symbol();
    push_range(&mut symbols, first, 2 + markers(check))?;
    Ok(symbols)
}

/// The locations of the flow's nodes at the check's level.
fn node_locations(alloc: Global, check: &Check, pair: &FlowPair) -> Result<Vec<Symbol>, AllocError>
    ensures { IfOk result (λ locations. locations.items
        ≡ node_symbols check.now.level pair.now.before pair.now.after) }
{
    let mut symbols = Vec::new(alloc);
    push_locations(&mut symbols, pair.before.nodes(), check.level())?;
    push_locations(&mut symbols, pair.after.nodes(), check.level())?;
    Ok(symbols)
}

/// Appends so many symbols, from the first on.
fn push_range(symbols: &mut Vec<Symbol>, first: Symbol, count: u32) -> Result<(), AllocError>
    requires first { first ≤ 1000000 }
    requires count { count ≤ 1000000 }
    ensures { IfOk result (λ _. symbols.new.items ≡ symbols.old.items
        ++ range_with_len first count) }
{
    for k in 0..count {
        symbols.push(first + k)?;
    }
    Ok(())
}
