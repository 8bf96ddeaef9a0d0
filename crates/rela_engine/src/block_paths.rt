//! The paths of a flow by letters that are blocks of symbols.
ghost use Rattle.std.specs.Prelude.{◌≡◌, ◌<◌, ◌⊎◌, IfNone, IfOk, None, All, length};
ghost use Rattle.std.specs.Option.{ForSome};
ghost use Rattle.rela_graph.specs.Paths.{Paths};
ghost use Rattle.rela_graph.specs.Topology.{symbol_at};
ghost use Rattle.rela_nfa.specs.Relabelling.{Refines};
ghost use Rattle.rela_engine.specs.Case.{AreBlockPaths, IsCase};
ghost use Rattle.rela_engine.specs.FlowLetters.{AcceptsPaths, AreAt, AreLettersOf, kept_after, kept_before};
ghost use Rattle.rela_engine.specs.LetterImages.{AreParents, IsReadOver};
ghost use Rattle.rela_engine.specs.Seen.{AreFiner};

use crate::case::Case;
use crate::compiled::Compiled;
use crate::flow_letters::FlowLetters;
use rela_graph::Graph;
use rela_labels::Partition;
use rela_letter_nfa::LetterNfa;
use rela_letter_paths::over_blocks;
use rela_names::Alphabet;
use rela_nfa::parents_of;
use std::alloc::{AllocError, Global};

/// The paths of a flow before and after a change, as automata whose letters are blocks that refine
/// those of a check.
#[derive(Drop)]
pub(crate) struct BlockPaths {
    /// The paths before the change.
    pub(crate) before: LetterNfa,
    /// The paths after the change.
    pub(crate) after: LetterNfa,
    /// For each of the blocks the check's own one in which it lies.
    pub(crate) parents: Vec<u32>,
}

/// The paths of the flow over the blocks of the case, of the automata that are kept at its level.
/// `None` where one of these isn't there. The only error is want of memory.
///
/// Time and space: linear in the two automata and the blocks.
pub(crate) fn block_paths(
    alloc: Global,
    case: &Case<'_, '_>,
    letters: &FlowLetters,
) -> Result<Option<BlockPaths>, AllocError>
    requires case { IsCase case.now }
    requires letters { AreLettersOf case.now.alphabet.now case.now.pair.now letters.now }
    requires at { AreAt case.now.compiled.now.check.level letters.now }
    ensures paths { IfOk result (λ found. ForSome found (AreBlockPaths case.now)) }
    ensures none { IfOk result (λ found. IfNone found
        ((kept_before letters.now ≡ None) ⊎ (kept_after letters.now ≡ None))) }
{
    let Case {
        compiled,
        pair,
        alphabet,
        blocks,
        ..
    } = case;
    let Some(before) = letters.before() else {
        return Ok(None);
    };
    let Some(after) = letters.after() else {
        return Ok(None);
    };
    Ok(Some(BlockPaths {
        before: read_over(alloc, compiled, &pair.before, alphabet, blocks, before)?,
        after: read_over(alloc, compiled, &pair.after, alphabet, blocks, after)?,
        parents: parents(alloc, compiled.blocks(), blocks)?,
    }))
}

/// The automaton of the graph's paths with each letter, which was a symbol, as its block. The only
/// error is want of memory.
fn read_over(
    alloc: Global,
    compiled: &Compiled<'_>,
    graph: &Graph,
    alphabet: &Alphabet,
    blocks: &Partition,
    paths: &LetterNfa,
) -> Result<LetterNfa, AllocError>
    requires alphabet { length alphabet.now ≡ compiled.now.locations }
    requires placed { All (λ node. symbol_at compiled.now.check.level node < length alphabet.now)
        graph.now.nodes }
    requires blocks { AreFiner compiled.now.blocks (length alphabet.now) compiled.now.check.level
        graph.now graph.now blocks.now }
    requires paths { AcceptsPaths alphabet.now graph.now compiled.now.check.level paths.now }
    ensures { IfOk result (IsReadOver blocks.now
        (Paths graph.now compiled.now.check.level alphabet.now)) }
{
    // By what each compiled check keeps, its blocks are of its symbols; and a graph joins its nodes.
    let _ = compiled.blocks();
    let _ = graph.nodes();
    over_blocks(alloc, paths, blocks)
}

/// For each of the finer blocks the coarse one in which it lies. Time: linear in the finer blocks,
/// with a look-up in the coarse partition for each.
fn parents(alloc: Global, coarse: &Partition, fine: &Partition) -> Result<Vec<u32>, AllocError>
    requires { Refines fine.now coarse.now }
    ensures { IfOk result (λ parents. AreParents coarse.now fine.now parents.items) }
{
    parents_of(alloc, coarse, fine)
}
