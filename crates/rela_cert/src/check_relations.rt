//! The transducers of a check's two relations, by listed complement blocks.

ghost use Rattle.std.specs.Prelude.{◌≡◌, ℕ, ◌<◌, ◌≤◌, ◌↔◌, IfOk, IfErr, IsTrue, None, All, map};
ghost use Rattle.std.specs.Option.{unwrap_or};
ghost use Rattle.rela_build.specs.Lettering.{IsAlone};
ghost use Rattle.rela_build.specs.Made.{IsMadeR};
ghost use Rattle.rela_build.specs.Named.{NamesR};
ghost use Rattle.rela_build.specs.Notes.{StoppedTwoR};
ghost use Rattle.rela_build.specs.PathSets.{no_paths};
ghost use Rattle.rela_certfile.specs.Listed.{IsBlock};
ghost use Rattle.rela_translate.specs.Terms.{after_of, before_of};
ghost use Rattle.rela_translate.specs.Zones.{path_symbols};
ghost use Rattle.rela_cert.specs.CheckRelations.{AreCheckParts, AreCheckRelations, AreRepeated};
ghost use Rattle.rela_cert.specs.RowParts.{locations_of, paths_at};
ghost use Rattle.rela_cert.specs.Rows.{IsOpenAt, MayPass};

use crate::check_parts::CheckParts;
use crate::checking::Checking;
use crate::repeated::are_repeated;
use crate::row::Row;
use crate::row_audit::MAX_STATES;
use crate::scene_laws::{parts_agree, relations_pass_on};
use crate::sides::treats_sides_alike;
use rela_blocks::check_letters;
use rela_build::{Builder, Complements, NoPaths, Stop};
use rela_certfile::Step;
use rela_labels::WideSet;
use rela_trans::Transducer;
use rela_translate::{Check, Relations};
use std::alloc::Global;

/// The transducers of a check's relations, whose letters are the blocks of its symbols.
#[derive(Drop)]
pub(crate) struct CheckRelations {
    /// That which the paths before the change are seen through.
    pub(crate) before: Transducer<WideSet>,
    /// That which the paths after the change are seen through; `None` where `before` serves both sides.
    pub(crate) after: Option<Transducer<WideSet>>,
}

impl CheckRelations {
    /// That which the paths after the change are seen through.
    pub(crate) fn after(&self) -> &Transducer<WideSet>
        ensures { result.now ≡ unwrap_or self.now.after self.now.before }
    {
        match &self.after {
            Some(after) => after,
            None => &self.before,
        }
    }
}

/// The relations of the row's check, with the complements that the blocks list: those of the
/// relation before first. Where both have one term, and the blocks of both are the same, one is made
/// for both.
///
/// Time and space: each meet, image and composition makes at most [`MAX_STATES`] states, and each
/// complement as many as its block has words, with a look-up for each word and each letter.
///
/// # Errors
///
/// - `Limit` only where the row's images have more places than [`MAX_STATES`].
/// - `Refused` with the number of a complement block that isn't closed.
/// - `Memory` where there isn't memory.
pub(crate) fn check_relations(
    alloc: Global,
    row: &Row<'_>,
    parts: &CheckParts,
    complements: &[&[Step]],
) -> Result<CheckRelations, Stop>
    requires classes { All (λ set. All (λ s. s < path_symbols (locations_of row.now)) set.members)
        row.now.check.now.classes }
    requires parts { AreCheckParts row.now.check.now (locations_of row.now) parts.now }
    requires complements { All (λ block. IsBlock (path_symbols (locations_of row.now)) block.now)
        complements.now }
    ensures made { IfOk result
        (AreCheckRelations row.now.check.now (locations_of row.now) parts.now.blocks) }
    ensures alone { IfOk result (λ relations. relations.after ≡ None →
        AreRepeated (map (λ block. block.now) complements.now)) }
    ensures limit { IfErr result (λ e. e ≡ Stop.Limit →
        MayPass row.now.check.now (locations_of row.now) (paths_at row.now) MAX_STATES) }
    ensures refused { IfErr result (λ e. (number : ℕ) → e ≡ Stop.Refused number →
        IsOpenAt row.now.check.now (locations_of row.now) (paths_at row.now)
        (map (λ block. block.now) complements.now) number) }
{
    relations_pass_on();
    parts_agree();
    let letters = check_letters(alloc, row.check, row.alphabet, &parts.blocks)?;
    let checking = Checking {
        letters: &parts.blocks,
        listed: complements,
    };
    let builder = Builder {
        letters: &letters,
        paths: &NoPaths,
        complements: &checking,
        limit: MAX_STATES,
    };
    let alone = one_serves(row.check, complements);
    both_relations(alloc, &builder, &parts.terms, alone)
}

/// Whether one relation of the check serves both sides, as far as these complement blocks go: both
/// relations have one term, and the blocks of that after are those of that before again, so that none
/// is left unread. Time: linear in the body and in the blocks.
fn one_serves(check: &Check, complements: &[&[Step]]) -> bool
    ensures terms { IsTrue result → (locations : ℕ) →
        before_of locations check.now.body ≡ after_of locations check.now.body }
    ensures blocks { IsTrue result → AreRepeated (map (λ block. block.now) complements.now) }
{
    treats_sides_alike(check.body()) && are_repeated(complements)
}

/// The transducers of these terms, of which that before is made first; it alone where it serves both
/// sides. The errors are those of the builder.
fn both_relations<C: Complements>(
    alloc: Global,
    builder: &Builder<'_, C, NoPaths>,
    terms: &Relations,
    alone: bool,
) -> Result<CheckRelations, Stop>
    requires limit { 1 ≤ builder.now.limit }
    requires before_alone { NamesR (IsAlone builder.now.letters.now.blocks) terms.now.before }
    requires after_alone { NamesR (IsAlone builder.now.letters.now.blocks) terms.now.after }
    requires alone { IsTrue alone → terms.now.before ≡ terms.now.after }
    ensures before { IfOk result (λ relations. IsMadeR C.tells_all builder.now.letters.now no_paths
        terms.now.before relations.before) }
    ensures after { IfOk result (λ relations. IsMadeR C.tells_all builder.now.letters.now no_paths
        terms.now.after (unwrap_or relations.after relations.before)) }
    ensures alone { IfOk result (λ relations. (relations.after ≡ None) ↔ IsTrue alone) }
    ensures stopped { IfErr result (StoppedTwoR (C.refuses builder.now.complements.now) C.tells_all
        builder.now.letters.now no_paths builder.now.limit 0 terms.now.before terms.now.after) }
{
    let mut notes = Vec::new(alloc);
    let before = builder.transducer(alloc, &terms.before, &mut notes)?;
    if alone {
        return Ok(CheckRelations {
            before,
            after: None,
        });
    }
    let after = builder.transducer(alloc, &terms.after, &mut notes)?;
    Ok(CheckRelations {
        before,
        after: Some(after),
    })
}
