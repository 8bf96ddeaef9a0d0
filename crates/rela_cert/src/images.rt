//! The automata of the two images of a row.

ghost use Rattle.std.specs.Prelude.{◌≡◌, ◌≤◌, IfOk, IfErr, OnOk, length};
ghost use Rattle.rela_blocks.specs.Scenes.{after_image, before_image};
ghost use Rattle.rela_build.specs.Lettering.{IsAlone};
ghost use Rattle.rela_build.specs.Made.{IsMade};
ghost use Rattle.rela_build.specs.Named.{Names};
ghost use Rattle.rela_build.specs.Notes.{NotedTwo, StoppedTwo};
ghost use Rattle.rela_cert.specs.RowParts.{HasLetters, IsAfterImage, IsBeforeImage, after_term, before_term, lettering_at, paths_at};

use crate::row::Row;
use rela_blocks::{FlowPaths, named_symbols_are_alone};
use rela_build::{Builder, Complements, Letters, PathSets, Stop};
use rela_labels::WideSet;
use rela_names::Alphabet;
use rela_nfa::Nfa;
use rela_rir::PathTerm;
use rela_translate::{Check, translate};
use std::alloc::{AllocError, Global};

/// What the flow's paths become under the check's relations.
#[derive(Drop)]
pub(crate) struct Images {
    /// The image of the paths before the change.
    pub(crate) before: Nfa<WideSet>,
    /// The image of the paths after the change.
    pub(crate) after: Nfa<WideSet>,
}

/// The automata of the row's two images over these letters, whose states stand for places of the
/// images' terms. A note of each complement is pushed to `notes`, those of the image before first.
///
/// Time and space: each meet, image and composition makes at most `limit` states, and a complement
/// takes what `complements` does.
///
/// # Errors
///
/// - `Limit` only where a counted term in one of the images has more places than the limit.
/// - `Refused` where a complement was refused.
/// - `Memory` where there isn't memory.
pub(crate) fn row_images<C: Complements>(
    alloc: Global,
    row: &Row<'_>,
    letters: &Letters<'_>,
    complements: &C,
    limit: usize,
    notes: &mut Vec<C::Note>,
) -> Result<Images, Stop>
    requires limit { 1 ≤ limit }
    requires letters { HasLetters row.now letters.now }
    ensures before { IfOk result (λ images.
        IsBeforeImage C.tells_all row.now letters.now.blocks images.before) }
    ensures after { IfOk result (λ images.
        IsAfterImage C.tells_all row.now letters.now.blocks images.after) }
    ensures noted { OnOk result (NotedTwo (C.answers complements.now) C.tells_all
        (lettering_at row.now letters.now.blocks) (paths_at row.now) (before_term row.now)
        (after_term row.now) notes.old.items notes.new.items) }
    ensures stopped { IfErr result (StoppedTwo (C.refuses complements.now) C.tells_all
        (lettering_at row.now letters.now.blocks) (paths_at row.now) limit
        (length notes.old.items) (before_term row.now) (after_term row.now)) }
{
    named_symbols_are_alone();
    let paths = FlowPaths {
        before: &row.pair.before,
        after: &row.pair.after,
        level: row.check.level(),
        alphabet: row.alphabet,
    };
    let builder = Builder {
        letters,
        paths: &paths,
        complements,
        limit,
    };
    let terms = image_terms(alloc, row.check, row.alphabet)?;
    both_images(alloc, &builder, &terms, notes)
}

/// The automata of these terms. A note of each complement is pushed to `notes`, those of the first
/// term first. The errors are those of [`row_images`].
fn both_images<C: Complements, P: PathSets>(
    alloc: Global,
    builder: &Builder<'_, C, P>,
    terms: &ImageTerms,
    notes: &mut Vec<C::Note>,
) -> Result<Images, Stop>
    requires limit { 1 ≤ builder.now.limit }
    requires before_alone { Names (IsAlone builder.now.letters.now.blocks) terms.now.before }
    requires after_alone { Names (IsAlone builder.now.letters.now.blocks) terms.now.after }
    requires paths { P.readable builder.now.paths.now builder.now.letters.now.blocks }
    ensures before { IfOk result (λ images. IsMade C.tells_all builder.now.letters.now
        (P.paths builder.now.paths.now) terms.now.before images.before) }
    ensures after { IfOk result (λ images. IsMade C.tells_all builder.now.letters.now
        (P.paths builder.now.paths.now) terms.now.after images.after) }
    ensures noted { OnOk result (NotedTwo (C.answers builder.now.complements.now) C.tells_all
        builder.now.letters.now (P.paths builder.now.paths.now) terms.now.before terms.now.after
        notes.old.items notes.new.items) }
    ensures stopped { IfErr result (StoppedTwo (C.refuses builder.now.complements.now) C.tells_all
        builder.now.letters.now (P.paths builder.now.paths.now) builder.now.limit
        (length notes.old.items) terms.now.before terms.now.after) }
{
    let before = builder.automaton(alloc, &terms.before, notes)?;
    let after = builder.automaton(alloc, &terms.after, notes)?;
    Ok(Images { before, after })
}

/// The terms of the two images of a check.
#[derive(Drop)]
struct ImageTerms {
    /// That of the paths before the change.
    before: PathTerm,
    /// That of the paths after the change.
    after: PathTerm,
}

/// The terms of the two images of the check.
fn image_terms(alloc: Global, check: &Check, alphabet: &Alphabet) -> Result<ImageTerms, AllocError>
    ensures before { IfOk result (λ terms. terms.before
        ≡ before_image check.now (length alphabet.now)) }
    ensures after { IfOk result (λ terms. terms.after
        ≡ after_image check.now (length alphabet.now)) }
{
    let relations = translate(alloc, check, alphabet)?;
    let before = PathTerm::image(alloc, PathTerm::Pre, relations.before)?;
    let after = PathTerm::image(alloc, PathTerm::Post, relations.after)?;
    Ok(ImageTerms { before, after })
}
