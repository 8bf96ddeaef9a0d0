//! The row of a check for a flow.
ghost use Rattle.std.specs.Prelude.{◌≡◌, ℕ, ◌<◌, List, IfOk, IsTrue, All, length, map};
ghost use Rattle.rela_build.specs.Reading.{read_by};
ghost use Rattle.rela_graph.specs.Paths.{Paths};
ghost use Rattle.rela_graph.specs.Topology.{symbol_at};
ghost use Rattle.rela_labels.specs.Partition.{block_count, block_of};
ghost use Rattle.rela_names.specs.Alphabet.{path_symbols};
ghost use Rattle.rela_restriction.specs.Excess.{IsReadAs};
ghost use Rattle.rela_snapshot.specs.PairsLocated.{IsPairLocated};
ghost use Rattle.rela_translate.specs.Verdict.{Meets};
ghost use Rattle.rela_engine.specs.Differing.{path_symbols_of};
ghost use Rattle.rela_engine.specs.FlowLetters.{AreAt, AreLettersOf};
ghost use Rattle.rela_engine.specs.RowOf.{RowOf};
ghost use Rattle.rela_blocks.specs.Scenes.{paths_of};

use crate::by_automata::row_by_automata;
use crate::compiled::Compiled;
use crate::flow_letters::FlowLetters;
use crate::laws::relations_tell_of_open_rows;
use rela_graph::{Graph, Node, push_locations};
use rela_labels::Partition;
use rela_letter_paths::LetterPaths;
use rela_names::{Alphabet, Level, Symbol};
use rela_report::Row;
use rela_snapshot::FlowPair;
use std::alloc::{AllocError, Global};

/// The row of a compiled check for a flow: whether the flow's paths before and after the change have
/// the same image, and if not the first word in shortlex order that tells, with its first source. It
/// is undecided only where that is licensed, and always where it has to be. The images are compared
/// over blocks of symbols: those of the check, split so that the locations of the flow's nodes stand
/// alone.
///
/// The alphabet is the one that the check was compiled with, and the nodes of both graphs stand at
/// its locations. The automata of the flow's paths are taken from `letters` where those of the check's
/// level are there, and else made by `maker`, which is of the same alphabet, and kept there for the
/// checks that follow. The only error is want of memory.
///
/// Time and space: linear in the nodes and edges of the flow and in the blocks; where the two graphs
/// don't look the same, or the check doesn't treat both sides alike, also those of two images and of
/// their comparison, each of which makes at most `states` states, at most twice.
pub fn decide_with_letters(
    alloc: Global,
    compiled: &Compiled<'_>,
    pair: &FlowPair,
    alphabet: &Alphabet,
    maker: &LetterPaths,
    letters: &mut FlowLetters,
) -> Result<Row, AllocError>
    requires alphabet { length alphabet.now ≡ compiled.now.locations }
    requires located { IsPairLocated alphabet.now compiled.now.check.level pair.now }
    requires maker { maker.now ≡ path_symbols alphabet.now }
    requires letters { AreLettersOf alphabet.now pair.now letters.old }
    ensures row { IfOk result (RowOf compiled.now.check (length alphabet.now)
        (paths_of compiled.now.check.level alphabet.now pair.now.before pair.now.after)
        compiled.now.states) }
    ensures letters { AreLettersOf alphabet.now pair.now letters.new }
    ensures there { AreAt compiled.now.check.level letters.old → letters.new ≡ letters.old }
{
    relations_tell_of_open_rows();
    // Equal outlines don't decide a row that has to be left open.
    let Some(relations) = compiled.relations() else {
        return Ok(Row::Undecided);
    };
    let met = is_met_by_looks(alloc, compiled, pair, alphabet)?;
    if met {
        return Ok(Row::Compliant);
    }
    row_by_automata(alloc, compiled, relations, pair, alphabet, maker, letters)
}

/// Whether the graphs of the flow look the same at the check's level, and the check treats both sides
/// of a change alike, at least where paths have symbols of these graphs alone. No automaton of paths
/// is made for that: it takes the time of the nodes and the edges, and else that of a search through
/// what one relation of the check has beyond the other.
fn is_met_by_looks(
    alloc: Global,
    compiled: &Compiled<'_>,
    pair: &FlowPair,
    alphabet: &Alphabet,
) -> Result<bool, AllocError>
    requires alphabet { length alphabet.now ≡ compiled.now.locations }
    requires located { IsPairLocated alphabet.now compiled.now.check.level pair.now }
    ensures { IfOk result (λ met. IsTrue met → Meets compiled.now.check compiled.now.locations
        (Paths pair.now.before compiled.now.check.level alphabet.now)
        (Paths pair.now.after compiled.now.check.level alphabet.now)) }
{
    let level = compiled.level();
    pair.before.same_outline_same_paths(&pair.after, level);
    let same = pair.before.at(level) == pair.after.at(level);
    if !same {
        return Ok(false);
    }
    if compiled.treats_sides_alike() {
        return Ok(true);
    }
    let inputs = path_blocks(alloc, compiled, &pair.before, alphabet)?;
    compiled.same_on(alloc, inputs.as_slice())
}

/// The blocks of the locations of the graph's nodes, and of `drop` and `loop`: no path has symbols of
/// others. Time and space: linear in the nodes.
fn path_blocks(
    alloc: Global,
    compiled: &Compiled<'_>,
    graph: &Graph,
    alphabet: &Alphabet,
) -> Result<Vec<u32>, AllocError>
    requires alphabet { length alphabet.now ≡ compiled.now.locations }
    requires placed { All (λ node.
        symbol_at compiled.now.check.level node < length alphabet.now) graph.now.nodes }
    ensures below { IfOk result (λ inputs.
        All (λ k. k < block_count compiled.now.blocks) inputs.items) }
    ensures paths { IfOk result (λ inputs. (w : List ℕ) →
        Paths graph.now compiled.now.check.level alphabet.now w →
        IsReadAs (read_by compiled.now.blocks) inputs.items w) }
{
    let blocks = compiled.blocks();
    let nodes = graph.nodes();
    let symbols = symbols_of_paths(alloc, compiled.level(), nodes, alphabet)?;
    blocks_of_each(alloc, blocks, symbols.as_slice())
}

/// The symbols that paths of a graph with these nodes may have.
fn symbols_of_paths(
    alloc: Global,
    level: Level,
    nodes: &[Node],
    alphabet: &Alphabet,
) -> Result<Vec<Symbol>, AllocError>
    ensures { IfOk result (λ symbols. symbols.items
        ≡ path_symbols_of level (length alphabet.now) nodes.now) }
{
    let mut symbols = Vec::new(alloc);
    push_locations(&mut symbols, nodes, level)?;
    symbols.push(alphabet.drop_symbol())?;
    symbols.push(alphabet.loop_symbol())?;
    Ok(symbols)
}

/// The block of each of the symbols.
fn blocks_of_each(
    alloc: Global,
    blocks: &Partition,
    symbols: &[Symbol],
) -> Result<Vec<u32>, AllocError>
    requires { All (λ s. s < length blocks.now) symbols.now }
    ensures { IfOk result (λ found. found.items ≡ map (block_of blocks.now) symbols.now) }
{
    let mut found = Vec::with_capacity(alloc, symbols.len())?;
    for s in symbols {
        found.push(blocks.block_of(*s))?;
    }
    Ok(found)
}
