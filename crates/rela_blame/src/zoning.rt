//! The zones of the violated rows of a report.
ghost use Rattle.std.specs.Prelude.{◌≡◌, ◌<◌, All, IfOk, MatchOption, OnOk, filter, length, option_map};
ghost use Rattle.std.specs.List.{AllZip};
ghost use Rattle.rela_branches.specs.Alternatives.{IsBlame, alternatives_of};
ghost use Rattle.rela_report.specs.Status.{is_violated};
ghost use Rattle.rela_translate.specs.Zones.{Zone as IsInZone};
ghost use Rattle.rela_blame.specs.Alternatives.{check_leads};
ghost use Rattle.rela_blame.specs.Zones.{AreOffsets, HasClaim, IsBlamed, IsNumber, IsOffset, IsZoneOf, SomeBranches, checks_of, claim_of};

use crate::placing::place;
use rela_branches::{Branches, alternatives_share_the_zone, branches_of};
use rela_lex::Token;
use rela_names::{Alphabet, Name, Symbol};
use rela_report::{ReportRow, Row, Zone};
use rela_spec::SpecFile;
use rela_translate::Check;
use std::alloc::{AllocError, Global};
use std::collections::HashMap;

/// The offsets of alternatives, by the index of their check and their number.
type Offsets = HashMap<(usize, u32), u32>;

/// A specification, as it is written and as it is expanded.
#[derive(Clone, Copy)]
struct Specification<'a> {
    /// The specification as it is written.
    file: &'a SpecFile,
    /// The tokens of its text, which spell the file.
    tokens: &'a [Token],
    /// Its checks, expanded, each with the alternatives of its body.
    checks: &'a [Branches<'a>],
}

/// For each violated row, in order, which alternative of its check's body claimed the source, and
/// where that stands in the text with these tokens, which spell the file. The alphabet is that of the
/// checks' level.
///
/// Time: linear in the alternatives of all bodies; for each violated row a look at the checks' names
/// and a walk of its source along the body of its check; and, once for each alternative that claims a
/// source, what [`crate::place`] takes. Space: linear in the alternatives and the violated rows, and
/// what a walk and [`crate::place`] take.
///
/// # Errors
///
/// Only where memory is wanted.
pub fn zones(
    alloc: Global,
    rows: &[ReportRow],
    checks: &[Check],
    file: &SpecFile,
    tokens: &[Token],
    alphabet: &Alphabet,
) -> Result<Vec<Zone>, AllocError>
    requires claimed { All (HasClaim (length alphabet.now) checks.now) rows.now }
    requires placed { All (λ check. length (check_leads file.now tokens.now check.name)
        ≡ length (alternatives_of check.body)) checks.now }
    ensures { IfOk result (λ zones. AllZip
        (IsZoneOf file.now tokens.now (length alphabet.now) checks.now)
        (filter is_violated rows.now) zones.items) }
{
    let branches = branches_of_each(alloc, checks, alphabet)?;
    let spec = Specification {
        file,
        tokens,
        checks: branches.as_slice(),
    };
    let mut offsets = HashMap::new(alloc);
    let mut zones = Vec::new(alloc);
    for row in rows {
        if let Some((check, source)) = source_of(row) {
            zones.push(spec.zone_of(alloc, &mut offsets, check, source)?)?;
        }
    }
    Ok(zones)
}

/// Each check with the alternatives of its body, under the alphabet of the checks' level. The only
/// error is want of memory. Time and space: linear in the alternatives.
fn branches_of_each<'a>(
    alloc: Global,
    checks: &'a [Check],
    alphabet: &Alphabet,
) -> Result<Vec<Branches<'a>>, AllocError>
    ensures checks { IfOk result (λ all. checks_of all.items ≡ checks.now) }
    ensures locations { IfOk result (λ all.
        All (λ branches. branches.locations ≡ length alphabet.now) all.items) }
{
    let mut all = Vec::with_capacity(alloc, checks.len())?;
    for check in checks {
        all.push(branches_of(alloc, check, alphabet)?)?;
    }
    Ok(all)
}

/// Where the row is violated, the name of its check and the source.
fn source_of(row: &ReportRow) -> Option<(&Name, &[Symbol])>
    ensures { option_map (λ pair. (pair.0.now, pair.1.now)) result ≡ claim_of row.now }
{
    match row {
        ReportRow::Selected {
            check,
            row: Row::Violated { source, .. },
            ..
        } => Some((check, source.as_slice())),
        _ => None,
    }
}

impl<'a> Specification<'a> {
    /// The alternative of the check of this name that claims the source, and where it stands. Time: a
    /// walk of the source along the body of each check that has the name, and what an offset takes
    /// that is not known yet.
    ///
    /// # Errors
    ///
    /// Only where memory is wanted.
    fn zone_of(
        &self,
        alloc: Global,
        offsets: &mut Offsets,
        name: &Name,
        source: &[Symbol],
    ) -> Result<Zone, AllocError>
        requires claimed { SomeBranches (λ branches. IsInZone branches.check.now.classes
            branches.locations branches.check.now.body source.now) name.now self.now.checks.now }
        requires placed { All (λ check.
            length (check_leads self.now.file.now self.now.tokens.now check.name)
            ≡ length (alternatives_of check.body)) (checks_of self.now.checks.now) }
        requires offsets { AreOffsets self.now.file.now self.now.tokens.now
            (checks_of self.now.checks.now) offsets.old }
        ensures zone { IfOk result (λ zone. SomeBranches (λ branches. IsBlamed self.now.file.now
            self.now.tokens.now branches.locations source.now zone branches.check.now) name.now
            self.now.checks.now) }
        ensures offsets { OnOk result (AreOffsets self.now.file.now self.now.tokens.now
            (checks_of self.now.checks.now) offsets.new) }
    {
        for (index, branches) in self.checks.iter().enumerate() {
            if let Some(number) = number_in(alloc, branches, name, source)? {
                let at = self.offset_of(alloc, offsets, index, number)?;
                return Ok(Zone { number, at });
            }
        }
        unreachable!()
    }

    /// The offset of the alternative of this number of the check of this index: a kept one, or else it
    /// is found and kept.
    ///
    /// # Errors
    ///
    /// Only where memory is wanted.
    fn offset_of(
        &self,
        alloc: Global,
        offsets: &mut Offsets,
        index: usize,
        number: u32,
    ) -> Result<u32, AllocError>
        requires index { index < length self.now.checks.now }
        requires number { IsNumber self.now.file.now self.now.tokens.now
            (checks_of self.now.checks.now) index number }
        requires offsets { AreOffsets self.now.file.now self.now.tokens.now
            (checks_of self.now.checks.now) offsets.old }
        ensures offset { IfOk result (IsOffset self.now.file.now self.now.tokens.now
            (checks_of self.now.checks.now) index number) }
        ensures offsets { OnOk result (AreOffsets self.now.file.now self.now.tokens.now
            (checks_of self.now.checks.now) offsets.new) }
    {
        if let Some(at) = offsets.get(&(index, number)) {
            return Ok(*at);
        }
        let check = self.checks[index].check.name();
        let at = place(alloc, self.file, self.tokens, check, number)?;
        offsets.insert((index, number), at)?;
        Ok(at)
    }
}

/// The number, from 1, of the alternative of the check's body that claims the source. `None` where the
/// check has another name, or the source is not in the zone of its body.
///
/// # Errors
///
/// Only where memory is wanted.
fn number_in(
    alloc: Global,
    branches: &Branches<'_>,
    name: &Name,
    source: &[Symbol],
) -> Result<Option<u32>, AllocError>
    ensures { IfOk result (λ number. MatchOption number
        (branches.now.check.now.name ≡ name.now → ¬ IsInZone branches.now.check.now.classes
        branches.now.locations branches.now.check.now.body source.now)
        (λ k. (branches.now.check.now.name ≡ name.now) × IsBlame branches.now.check.now.classes
        branches.now.locations branches.now.check.now.body source.now k)) }
{
    if branches.check.name().as_bytes() != name.as_bytes() {
        return Ok(None);
    }
    alternatives_share_the_zone();
    branches.claiming(alloc, source)
}
