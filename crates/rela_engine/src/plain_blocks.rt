//! The blocks of path symbols by which an assertion is decided for a flow.
ghost use Rattle.std.specs.Prelude.{◌≡◌, ◌<◌, IfOk, All, length};
ghost use Rattle.rela_names.specs.Alphabet.{path_symbols};
ghost use Rattle.rela_snapshot.specs.PairsLocated.{IsPairLocated};
ghost use Rattle.rela_rir.specs.NamedSymbols.{symbols_of_terms};
ghost use Rattle.rela_engine.specs.PlainBlocks.{ArePlainBlocks, symbols_apart};

use crate::named::push_symbols;
use crate::terms::{first_term, second_term};
use rela_blocks::blocks_of_classes;
use rela_graph::push_locations;
use rela_labels::Partition;
use rela_names::{Alphabet, Level, Symbol};
use rela_rir::{Assertion, SymbolSet};
use rela_snapshot::FlowPair;
use std::alloc::{AllocError, Global};

/// The path symbols in blocks: those by the classes, of which the symbols that the assertion's terms
/// name by themselves, the locations of the flow's nodes, `drop` and `loop` are set apart. It takes
/// the time of the symbols, the members of the classes, the terms and the nodes. The only error is
/// want of memory.
pub(crate) fn plain_blocks(
    alloc: Global,
    assertion: &Assertion,
    classes: &[SymbolSet],
    level: Level,
    pair: &FlowPair,
    alphabet: &Alphabet,
) -> Result<Partition, AllocError>
    requires classes { All (λ set. All (λ s. s < path_symbols alphabet.now) set.members)
        classes.now }
    requires named { All (λ s. s < path_symbols alphabet.now)
        (symbols_of_terms assertion.now) }
    requires located { IsPairLocated alphabet.now level pair.now }
    ensures { IfOk result (ArePlainBlocks assertion.now classes.now level alphabet.now
        pair.now.before pair.now.after) }
{
    let coarse = blocks_of_classes(alloc, classes, alphabet.len())?;
    let apart = set_apart(alloc, assertion, level, pair, alphabet)?;
    coarse.with_alone(alloc, apart.as_slice())
}

/// The symbols that are to be set apart.
fn set_apart(
    alloc: Global,
    assertion: &Assertion,
    level: Level,
    pair: &FlowPair,
    alphabet: &Alphabet,
) -> Result<Vec<Symbol>, AllocError>
    ensures { IfOk result (λ apart. apart.items ≡ symbols_apart assertion.now
        (length alphabet.now) level pair.now.before pair.now.after) }
{
    let mut symbols = Vec::new(alloc);
    push_symbols(&mut symbols, first_term(assertion))?;
    push_symbols(&mut symbols, second_term(assertion))?;
    push_locations(&mut symbols, pair.before.nodes(), level)?;
    push_locations(&mut symbols, pair.after.nodes(), level)?;
    symbols.push(alphabet.drop_symbol())?;
    symbols.push(alphabet.loop_symbol())?;
    Ok(symbols)
}
