//! The row of a check for a flow, by images with one letter on each edge.
ghost use Rattle.std.specs.Prelude.{◌≡◌, ◌≤◌, ◌^◌, IfOk, length};
ghost use Rattle.std.specs.Option.{ForSome};
ghost use Rattle.rela_build.specs.Reading.{read_by};
ghost use Rattle.rela_labels.specs.Partition.{block_count};
ghost use Rattle.rela_names.specs.Alphabet.{path_symbols};
ghost use Rattle.rela_trans.specs.Machine.{IsMachine};
ghost use Rattle.rela_trans.specs.Runs.{Relates};
ghost use Rattle.rela_engine.specs.Case.{AreBlockPaths, IsCase, IsRight, IsSeenSide, paths_in};
ghost use Rattle.rela_engine.specs.FlowLetters.{AreAt, AreLettersOf};
ghost use Rattle.rela_engine.specs.LetterImages.{AreParents, IsFirstOffence, IsImageUnder, IsReadOver, TellsFirst, TellsOfFlow};

use crate::block_paths::{BlockPaths, block_paths};
use crate::case::Case;
use crate::flow_letters::FlowLetters;
use crate::laws::relations_tell_of_open_rows;
use crate::letter_offence::compare;
use crate::offence::Offence;
use crate::relations::Twofold;
use crate::seen::{short_paths, small_relation};
use crate::told::Told;
use crate::witnesses::{row_of_letters, row_of_source};
use rela_graph::Graph;
use rela_labels::{LabelSet, WideSet};
use rela_letter_image::letter_image;
use rela_letter_nfa::LetterNfa;
use rela_letter_paths::LetterPaths;
use rela_letter_source::first_source;
use rela_report::{Row, Side};
use rela_trans::Transducer;
use std::alloc::{AllocError, Global};

/// An image may have at most this many states, and as many edges. Larger ones are made by automata
/// whose edges are labelled by sets.
const MOST_STATES: usize = 1_048_576;

/// The row by the images of the flow's paths, as automata with one letter on each edge, whose
/// letters are the case's blocks. `None` where they are too large, or where their comparison passes
/// the check's limit. The automata of the paths by symbols are kept in `letters`.
///
/// Time and space: those of two images, of at most `MOST_STATES` states each, and of their
/// comparison; where the row is violated, those of a walk through the paths of one side too.
pub(crate) fn row_by_letters<L: LabelSet>(
    alloc: Global,
    case: &Case<'_, '_>,
    maker: &LetterPaths,
    letters: &mut FlowLetters,
) -> Result<Option<Row>, AllocError>
    requires case { IsCase case.now }
    requires maker { maker.now ≡ path_symbols case.now.alphabet.now }
    requires letters { AreLettersOf case.now.alphabet.now case.now.pair.now letters.old }
    requires fits { L.fits (block_count case.now.blocks.now) }
    ensures row { IfOk result (λ found. ForSome found (IsRight case.now)) }
    ensures letters { AreLettersOf case.now.alphabet.now case.now.pair.now letters.new }
    ensures there { AreAt case.now.compiled.now.check.level letters.old →
        letters.new ≡ letters.old }
{
    let level = case.compiled.level();
    letters.make_at(alloc, maker, case.pair, case.alphabet, level)?;
    row_by_kept_paths::<L>(alloc, case, letters)
}

/// The row by the automata of the flow's paths that are kept.
fn row_by_kept_paths<L: LabelSet>(
    alloc: Global,
    case: &Case<'_, '_>,
    letters: &FlowLetters,
) -> Result<Option<Row>, AllocError>
    requires case { IsCase case.now }
    requires letters { AreLettersOf case.now.alphabet.now case.now.pair.now letters.now }
    requires at { AreAt case.now.compiled.now.check.level letters.now }
    requires fits { L.fits (block_count case.now.blocks.now) }
    ensures { IfOk result (λ found. ForSome found (IsRight case.now)) }
{
    match block_paths(alloc, case, letters)? {
        Some(paths) => row_by_images::<L>(alloc, case, &paths),
        None => Ok(None),
    }
}

/// The row by the images of these paths.
fn row_by_images<L: LabelSet>(
    alloc: Global,
    case: &Case<'_, '_>,
    paths: &BlockPaths,
) -> Result<Option<Row>, AllocError>
    requires case { IsCase case.now }
    requires paths { AreBlockPaths case.now paths.now }
    requires fits { L.fits (block_count case.now.blocks.now) }
    ensures { IfOk result (λ found. ForSome found (IsRight case.now)) }
{
    relations_tell_of_open_rows();
    match compare_images(alloc, case, paths)? {
        Told::Met => Ok(Some(Row::Compliant)),
        Told::Open => Ok(None),
        Told::Differ(offence) => {
            let row = row_of_offence::<L>(alloc, case, paths, &offence)?;
            Ok(Some(row))
        }
    }
}

/// What the images of these paths tell of the check.
fn compare_images(
    alloc: Global,
    case: &Case<'_, '_>,
    paths: &BlockPaths,
) -> Result<Told, AllocError>
    requires case { IsCase case.now }
    requires paths { AreBlockPaths case.now paths.now }
    ensures { IfOk result (TellsOfFlow case.now.compiled.now.check case.now.compiled.now.locations
        (paths_in case.now case.now.pair.now.before) (paths_in case.now case.now.pair.now.after)
        case.now.blocks.now) }
{
    // There are no more blocks than a `u32` counts.
    let _blocks = case.blocks.blocks();
    let parents = paths.parents.as_slice();
    let first = case.relations.before();
    let second = case.relations.after();
    let Some(before) = image_of(alloc, &paths.before, first, parents)? else {
        return Ok(Told::Open);
    };
    let Some(after) = image_of(alloc, &paths.after, second, parents)? else {
        return Ok(Told::Open);
    };
    let at_most = case.compiled.at_most();
    compare(alloc, at_most, &before, &after, case.compiled.states())
}

/// The image of the paths under the relation, where each letter of the paths lies in the letter of
/// the relation that `parents` lists. `None` where it is too large.
fn image_of(
    alloc: Global,
    paths: &LetterNfa,
    relation: &Twofold,
    parents: &[u32],
) -> Result<Option<LetterNfa>, AllocError>
    requires few { length parents.now ≤ 2 ^ 32 }
    ensures image { IfOk result (λ found. ForSome found
        (IsImageUnder parents.now paths.now relation.now.small)) }
    ensures machine { IsMachine relation.now.small }
{
    let small = relation.small();
    prove!(small.start() < small.states());
    letter_image(alloc, paths, relation.letters(), parents, MOST_STATES)
}

/// The row of the offence, which the image of one side has.
fn row_of_offence<L: LabelSet>(
    alloc: Global,
    case: &Case<'_, '_>,
    paths: &BlockPaths,
    offence: &Offence,
) -> Result<Row, AllocError>
    requires case { IsCase case.now }
    requires paths { AreBlockPaths case.now paths.now }
    requires fits { L.fits (block_count case.now.blocks.now) }
    requires offends { IsFirstOffence case.now.compiled.now.check case.now.compiled.now.locations
        (paths_in case.now case.now.pair.now.before) (paths_in case.now case.now.pair.now.after)
        case.now.blocks.now offence.now.letters offence.now.side }
    ensures { IfOk result (IsRight case.now) }
{
    relations_tell_of_open_rows();
    let parents = paths.parents.as_slice();
    match offence.side {
        Side::Before => {
            let (graph, paths) = (&case.pair.before, &paths.before);
            let relation = case.relations.before();
            row_with_source::<L>(alloc, case, graph, relation, paths, parents, offence)
        }
        Side::After => {
            let (graph, paths) = (&case.pair.after, &paths.after);
            let relation = case.relations.after();
            row_with_source::<L>(alloc, case, graph, relation, paths, parents, offence)
        }
    }
}

/// The row of an offence with its first source, where these are the graph of its side, the relation
/// that its paths are seen through, and the automaton of these paths. The only error is want of
/// memory.
fn row_with_source<L: LabelSet>(
    alloc: Global,
    case: &Case<'_, '_>,
    graph: &Graph,
    relation: &Twofold,
    paths: &LetterNfa,
    parents: &[u32],
    offence: &Offence,
) -> Result<Row, AllocError>
    requires side { IsSeenSide case.now graph.now relation.now.small offence.now.letters }
    requires paths { IsReadOver case.now.blocks.now (paths_in case.now graph.now) paths.now }
    requires parents { AreParents case.now.compiled.now.blocks case.now.blocks.now parents.now }
    requires fits { L.fits (block_count case.now.blocks.now) }
    ensures { IfOk result (TellsFirst case.now.blocks.now (paths_in case.now graph.now)
        (Relates (read_by case.now.compiled.now.blocks) relation.now.small) offence.now.letters
        offence.now.side) }
{
    // By what each compiled check keeps, its blocks are of its symbols; and a graph joins its nodes.
    let _ = case.compiled.blocks();
    let _ = graph.nodes();
    let letters = offence.letters.as_slice();
    match first_source(
        alloc,
        paths,
        relation.letters(),
        parents,
        letters,
        MOST_STATES,
    )? {
        Some(source) => row_of_letters(alloc, offence, source.as_slice(), case.blocks),
        None => row_with_source_by_sets::<L>(alloc, case, graph, relation.small(), offence),
    }
}

/// The row of an offence with its first source, by automata whose edges are labelled by sets of
/// blocks. The only error is want of memory.
fn row_with_source_by_sets<L: LabelSet>(
    alloc: Global,
    case: &Case<'_, '_>,
    graph: &Graph,
    relation: &Transducer<WideSet>,
    offence: &Offence,
) -> Result<Row, AllocError>
    requires side { IsSeenSide case.now graph.now relation.now offence.now.letters }
    requires fits { L.fits (block_count case.now.blocks.now) }
    ensures { IfOk result (TellsFirst case.now.blocks.now (paths_in case.now graph.now)
        (Relates (read_by case.now.compiled.now.blocks) relation.now) offence.now.letters
        offence.now.side) }
{
    let level = case.compiled.level();
    let coarse = case.compiled.blocks();
    let paths = short_paths::<L>(alloc, graph, level, case.alphabet, case.blocks)?;
    let finer = small_relation(alloc, relation, &paths, coarse, case.blocks)?;
    row_of_source(alloc, offence, &paths, &finer, case.blocks)
}
