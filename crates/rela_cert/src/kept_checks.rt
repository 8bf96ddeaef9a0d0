//! The relations of checks, kept for rows with the same complement blocks, and what is known by them.

ghost use Rattle.std.specs.Prelude.{◌≡◌, ℕ, ◌<◌, IfOk, IfErr, IfSome, All, length, map};
ghost use Rattle.std.specs.List.{slice_get};
ghost use Rattle.rela_certfile.specs.Listed.{IsBlock};
ghost use Rattle.rela_translate.specs.Zones.{path_symbols};
ghost use Rattle.rela_cert.specs.CheckRelations.{AreCheckParts};
ghost use Rattle.rela_cert.specs.KeptChecks.{IsKeptWithForms, complements_of_row};
ghost use Rattle.rela_cert.specs.RowParts.{locations_of, paths_at};
ghost use Rattle.rela_cert.specs.Rows.{IsOpenAt, MayPass};

use crate::check_parts::{CheckParts, check_parts};
use crate::check_relations::{CheckRelations, check_relations};
use crate::row::Row;
use crate::row_audit::MAX_STATES;
use crate::row_forms::MetForms;
use crate::same_blocks::have_same_complements;
use rela_build::Stop;
use rela_certfile::{Certificate, Step};
use std::alloc::Global;
use std::collections::{HashMap, HashSet};

/// By the index of a check, what is kept of it.
pub(crate) type KeptChecks = HashMap<usize, KeptCheck>;

/// A check's relations, for its rows with the complement blocks that they were made by.
#[derive(Drop)]
pub(crate) struct KeptCheck {
    /// What they are made of.
    pub(crate) parts: CheckParts,
    /// The relations.
    pub(crate) relations: CheckRelations,
    /// The number of the listed row by whose complement blocks they were made.
    pub(crate) row: usize,
    /// The forms of rows that were judged by them to be met.
    pub(crate) met: MetForms,
}

/// The relations of the check of the listed row of this number, which has these complement blocks:
/// those that are kept of the check, if they were made by the same blocks, and else they are made
/// anew.
///
/// Time and space: linear in the blocks, and where the relations are made those of
/// [`check_relations`].
///
/// # Errors
///
/// Those of [`check_relations`].
pub(crate) fn relations_of_row(
    alloc: Global,
    certificate: &Certificate,
    number: usize,
    row: &Row<'_>,
    complements: &[&[Step]],
    kept: Option<KeptCheck>,
) -> Result<KeptCheck, Stop>
    requires number { number < length certificate.now }
    requires classes { All (λ set. All (λ s. s < path_symbols (locations_of row.now)) set.members)
        row.now.check.now.classes }
    requires complements { All (λ block. IsBlock (path_symbols (locations_of row.now)) block.now)
        complements.now }
    requires kept { IfSome kept (IsKeptWithForms (length certificate.now) row.now.alphabet.now
        row.now.check.now) }
    ensures kept { IfOk result (IsKeptWithForms (length certificate.now) row.now.alphabet.now
        row.now.check.now) }
    ensures by_same_blocks { IfOk result (λ one.
        complements_of_row (slice_get certificate.now one.row)
        ≡ complements_of_row (slice_get certificate.now number)) }
    ensures limit { IfErr result (λ e. e ≡ Stop.Limit →
        MayPass row.now.check.now (locations_of row.now) (paths_at row.now) MAX_STATES) }
    ensures refused { IfErr result (λ e. (number : ℕ) → e ≡ Stop.Refused number →
        IsOpenAt row.now.check.now (locations_of row.now) (paths_at row.now)
        (map (λ block. block.now) complements.now) number) }
{
    match kept {
        Some(
            KeptCheck {
                parts,
                relations,
                row: made_for,
                met,
            },
        ) => {
            if have_same_complements(certificate, made_for, number) {
                return Ok(KeptCheck {
                    parts,
                    relations,
                    row: made_for,
                    met,
                });
            }
            made_anew(alloc, number, row, complements, parts)
        }
        None => {
            let parts = check_parts(alloc, row.check, row.alphabet)?;
            made_anew(alloc, number, row, complements, parts)
        }
    }
}

/// The relations of the check of the listed row of this number, made by its complement blocks; nothing
/// is known by them yet. The errors are those of [`check_relations`].
fn made_anew(
    alloc: Global,
    number: usize,
    row: &Row<'_>,
    complements: &[&[Step]],
    parts: CheckParts,
) -> Result<KeptCheck, Stop>
    requires classes { All (λ set. All (λ s. s < path_symbols (locations_of row.now)) set.members)
        row.now.check.now.classes }
    requires complements { All (λ block. IsBlock (path_symbols (locations_of row.now)) block.now)
        complements.now }
    requires parts { AreCheckParts row.now.check.now (locations_of row.now) parts }
    ensures kept { IfOk result (λ one. (count : ℕ) → number < count →
        IsKeptWithForms count row.now.alphabet.now row.now.check.now one) }
    ensures number { IfOk result (λ one. one.row ≡ number) }
    ensures limit { IfErr result (λ e. e ≡ Stop.Limit →
        MayPass row.now.check.now (locations_of row.now) (paths_at row.now) MAX_STATES) }
    ensures refused { IfErr result (λ e. (number : ℕ) → e ≡ Stop.Refused number →
        IsOpenAt row.now.check.now (locations_of row.now) (paths_at row.now)
        (map (λ block. block.now) complements.now) number) }
{
    let relations = check_relations(alloc, row, &parts, complements)?;
    Ok(KeptCheck {
        parts,
        relations,
        row: number,
        met: HashSet::new(alloc),
    })
}
