//! The automata of a row's two images, by the relations of its check.

ghost use Rattle.std.specs.Prelude.{◌≡◌, ◌≤◌, IfOk, IfErr};
ghost use Rattle.rela_blocks.specs.RowBlocks.{AreRowBlocks};
ghost use Rattle.rela_labels.specs.Partition.{block_count};
ghost use Rattle.rela_nfa.specs.Automaton.{Automaton, states};
ghost use Rattle.rela_nfa.specs.Relabelling.{Refines};
ghost use Rattle.rela_pairs.specs.Reachable.{MoreThan};
ghost use Rattle.rela_trans.specs.Images.{AreReachedFrom};
ghost use Rattle.rela_trans.specs.Machine.{Machine};
ghost use Rattle.rela_cert.specs.CheckRelations.{AreCheckRelations, IsRefined, IsWrittenBy};
ghost use Rattle.rela_cert.specs.RowParts.{IsAfterImage, IsBeforeImage, locations_of, paths_at};
ghost use Rattle.rela_cert.specs.Rows.{MayPass};

use crate::check_relations::CheckRelations;
use crate::images::Images;
use crate::row::Row;
use crate::row_audit::MAX_STATES;
use crate::scene_laws::{Rows, written_images_are_made};
use rela_blocks::FlowPaths;
use rela_build::{PathSets, path_sets_are_made};
use rela_labels::{Partition, WideSet};
use rela_nfa::{BuildError, Nfa};
use rela_trans::{Transducer, image};
use rela_translate::terms_name_no_paths;
use std::alloc::{AllocError, Global};

/// The automata of the row's two images over its blocks, whose states stand for places of the
/// images' terms. The letters of the relations are the check's blocks.
///
/// Time and space: those of the paths' automata, and at most [`MAX_STATES`] states in each image. A
/// relation costs a step for each state and a look at each block of the row for each move that is
/// relabelled: each one, or where its states are many those that the paths may lead to.
///
/// # Errors
///
/// - `Limit` only where the images have more places than [`MAX_STATES`].
/// - `Memory` where there isn't memory.
pub(crate) fn flow_images(
    alloc: Global,
    row: &Row<'_>,
    relations: &CheckRelations,
    coarse: &Partition,
    blocks: &Partition,
) -> Result<Images, BuildError>
    requires relations { AreCheckRelations row.now.check.now (locations_of row.now) coarse.now
        relations.now }
    requires blocks { AreRowBlocks row.now.check.now row.now.alphabet.now row.now.pair.now.before
        row.now.pair.now.after blocks.now }
    requires finer { Refines blocks.now coarse.now }
    ensures before { IfOk result (λ images.
        IsBeforeImage (Unit {0}) row.now blocks.now images.before) }
    ensures after { IfOk result (λ images.
        IsAfterImage (Unit {0}) row.now blocks.now images.after) }
    ensures few_before { IfOk result (λ images. states images.before ≤ MAX_STATES) }
    ensures few_after { IfOk result (λ images. states images.after ≤ MAX_STATES) }
    ensures limit { IfErr result (λ e. e ≡ BuildError.Limit →
        MayPass row.now.check.now (locations_of row.now) (paths_at row.now) MAX_STATES) }
{
    let before = before_image(alloc, row, relations, coarse, blocks)?;
    let after = after_image(alloc, row, relations, coarse, blocks)?;
    Ok(Images { before, after })
}

/// The image of the paths before the change. The errors are those of [`flow_images`].
pub(crate) fn before_image(
    alloc: Global,
    row: &Row<'_>,
    relations: &CheckRelations,
    coarse: &Partition,
    blocks: &Partition,
) -> Result<Nfa<WideSet>, BuildError>
    requires relations { AreCheckRelations row.now.check.now (locations_of row.now) coarse.now
        relations.now }
    requires blocks { AreRowBlocks row.now.check.now row.now.alphabet.now row.now.pair.now.before
        row.now.pair.now.after blocks.now }
    requires finer { Refines blocks.now coarse.now }
    ensures made { IfOk result (IsBeforeImage (Unit {0}) row.now blocks.now) }
    ensures few { IfOk result (λ image. states image ≤ MAX_STATES) }
    ensures limit { IfErr result (λ e. e ≡ BuildError.Limit →
        MayPass row.now.check.now (locations_of row.now) (paths_at row.now) MAX_STATES) }
{
    path_sets_are_made::<Rows>();
    terms_name_no_paths();
    written_images_are_made();
    let flow = FlowPaths {
        before: &row.pair.before,
        after: &row.pair.after,
        level: row.check.level(),
        alphabet: row.alphabet,
    };
    let paths = flow.before(alloc, blocks)?;
    written(alloc, paths, &relations.before, coarse, blocks)
}

/// The image of the paths after the change. The errors are those of [`flow_images`].
fn after_image(
    alloc: Global,
    row: &Row<'_>,
    relations: &CheckRelations,
    coarse: &Partition,
    blocks: &Partition,
) -> Result<Nfa<WideSet>, BuildError>
    requires relations { AreCheckRelations row.now.check.now (locations_of row.now) coarse.now
        relations.now }
    requires blocks { AreRowBlocks row.now.check.now row.now.alphabet.now row.now.pair.now.before
        row.now.pair.now.after blocks.now }
    requires finer { Refines blocks.now coarse.now }
    ensures made { IfOk result (IsAfterImage (Unit {0}) row.now blocks.now) }
    ensures few { IfOk result (λ image. states image ≤ MAX_STATES) }
    ensures limit { IfErr result (λ e. e ≡ BuildError.Limit →
        MayPass row.now.check.now (locations_of row.now) (paths_at row.now) MAX_STATES) }
{
    path_sets_are_made::<Rows>();
    terms_name_no_paths();
    written_images_are_made();
    let flow = FlowPaths {
        before: &row.pair.before,
        after: &row.pair.after,
        level: row.check.level(),
        alphabet: row.alphabet,
    };
    let paths = flow.after(alloc, blocks)?;
    let relation = relations.after();
    written(alloc, paths, relation, coarse, blocks)
}

/// What the relation, whose letters are the coarse blocks, writes for the words, whose letters are
/// finer blocks.
///
/// # Errors
///
/// - `Limit` only where more than [`MAX_STATES`] pairs of states are reached by a word that is read.
/// - `Memory` where there isn't memory.
fn written(
    alloc: Global,
    words: Nfa<WideSet>,
    relation: &Transducer<WideSet>,
    coarse: &Partition,
    blocks: &Partition,
) -> Result<Nfa<WideSet>, BuildError>
    requires words { words.letters ≡ block_count blocks.now }
    requires relation { relation.now.letters ≡ block_count coarse.now }
    requires finer { Refines blocks.now coarse.now }
    ensures written { IfOk result (λ image. (t : Machine)
        × IsRefined coarse.now blocks.now words relation.now t × IsWrittenBy t words image) }
    ensures few { IfOk result (λ image. states image ≤ MAX_STATES) }
    ensures limit { IfErr result (λ e. e ≡ BuildError.Limit → (t : Machine)
        × IsRefined coarse.now blocks.now words relation.now t
        × MoreThan MAX_STATES (AreReachedFrom words t)) }
{
    let refined = refined(alloc, &words, relation, coarse, blocks)?;
    let image = image(alloc, &words, &refined, MAX_STATES)?;
    prove!(image.start() < image.states());
    Ok(image)
}

/// A relation is relabelled whole where it has at most this many states for each state of the paths:
/// that costs a step for each of its states, and to find those that are reached costs a step for each
/// pair.
const FEW_FOR_EACH: usize = 32;

/// The relation over the finer blocks, at least as far as it is one of the words. The only error is
/// want of memory.
fn refined(
    alloc: Global,
    words: &Nfa<WideSet>,
    relation: &Transducer<WideSet>,
    coarse: &Partition,
    blocks: &Partition,
) -> Result<Transducer<WideSet>, AllocError>
    requires words { words.now.letters ≡ block_count blocks.now }
    requires relation { relation.now.letters ≡ block_count coarse.now }
    requires finer { Refines blocks.now coarse.now }
    ensures { IfOk result (IsRefined coarse.now blocks.now words.now relation.now) }
{
    if relation.states() / FEW_FOR_EACH <= words.states() {
        refined_whole(alloc, relation, coarse, blocks)
    } else {
        refined_for_words(alloc, words, relation, coarse, blocks)
    }
}

/// The relation over the finer blocks, with all of its states. The only error is want of memory.
fn refined_whole(
    alloc: Global,
    relation: &Transducer<WideSet>,
    coarse: &Partition,
    blocks: &Partition,
) -> Result<Transducer<WideSet>, AllocError>
    requires relation { relation.now.letters ≡ block_count coarse.now }
    requires finer { Refines blocks.now coarse.now }
    ensures { IfOk result (λ t. (words : Automaton) →
        IsRefined coarse.now blocks.now words relation.now t) }
{
    let refined = relation.relabel(alloc, coarse, blocks)?;
    prove!(relation.start() < relation.states());
    prove!(refined.start() < refined.states());
    Ok(refined)
}

/// The relation over the finer blocks, of which the states that no word leads to lose their moves. The
/// only error is want of memory.
fn refined_for_words(
    alloc: Global,
    words: &Nfa<WideSet>,
    relation: &Transducer<WideSet>,
    coarse: &Partition,
    blocks: &Partition,
) -> Result<Transducer<WideSet>, AllocError>
    requires words { words.now.letters ≡ block_count blocks.now }
    requires relation { relation.now.letters ≡ block_count coarse.now }
    requires finer { Refines blocks.now coarse.now }
    ensures { IfOk result (IsRefined coarse.now blocks.now words.now relation.now) }
{
    let refined = relation.relabel_reached(alloc, words, coarse, blocks)?;
    prove!(relation.start() < relation.states());
    prove!(refined.start() < refined.states());
    Ok(refined)
}
