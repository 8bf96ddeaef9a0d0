//! What checks ask for, each thing once.

ghost use Rattle.std.specs.Prelude.{◌↔◌, IfOk, OnOk, IsTrue, All, Contains, map};
ghost use Rattle.rela_same_checks.specs.SameChecks.{AreAskedAt, IsAskedAt, IsGrown};

use crate::fingerprint::fingerprint;
use crate::same_check::ask_the_same;
use rela_translate::Check;
use std::alloc::{AllocError, Global};
use std::collections::HashMap;

/// What checks ask for.
#[derive(Drop)]
pub struct Asked<'a> {
    /// One check for each thing that is asked for, in the order in which these come.
    pub checks: Vec<&'a Check>,
    /// For each of all checks the index of the one above that asks for the same.
    pub places: Vec<usize>,
}

/// What the checks ask for, each thing once, but for checks whose fingerprints happen to be one.
/// Time and space: expected linear in the checks, their bodies and their class tables.
///
/// # Errors
///
/// Only where memory is wanted.
pub fn asked_by<'a>(alloc: Global, checks: &'a [Check]) -> Result<Asked<'a>, AllocError>
    ensures places { IfOk result (λ asked. AreAskedAt (map (λ c. c.now) asked.checks.items)
        checks.now asked.places.items) }
    ensures given { IfOk result (λ asked. All (Contains checks.now)
        (map (λ c. c.now) asked.checks.items)) }
{
    let mut asked = Vec::new(alloc);
    let mut known = HashMap::new(alloc);
    let mut places = Vec::with_capacity(alloc, checks.len())?;
    for check in checks {
        places.push(place_of(check, &mut asked, &mut known)?)?;
    }
    Ok(Asked {
        checks: asked,
        places,
    })
}

/// The index of the check among those asked that asks for the same as this one, which is put behind
/// them where none is found. The last check with each fingerprint is known by its index.
///
/// # Errors
///
/// Only where memory is wanted.
fn place_of<'a>(
    check: &'a Check,
    asked: &mut Vec<&'a Check>,
    known: &mut HashMap<u64, usize>,
) -> Result<usize, AllocError>
    ensures place { IfOk result (IsAskedAt (map (λ c. c.now) asked.new.items) check.now) }
    ensures asked { OnOk result (IsGrown (map (λ c. c.now) asked.old.items) check.now
        (map (λ c. c.now) asked.new.items)) }
{
    let print = fingerprint(check);
    if let Some(place) = known.get(&print) {
        if is_asked_at(asked, check, *place) {
            return Ok(*place);
        }
    }
    let place = asked.len();
    asked.push(check)?;
    known.insert(print, place)?;
    Ok(place)
}

/// Whether the check of this index among those asked asks for the same.
fn is_asked_at(asked: &[&Check], check: &Check, place: usize) -> bool
    ensures { IsTrue result ↔ IsAskedAt (map (λ c. c.now) asked.now) check.now place }
{
    match asked.get(place) {
        Some(other) => ask_the_same(check, other),
        None => false,
    }
}
