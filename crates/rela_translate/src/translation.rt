//! The terms that a check is translated to. Each function goes as deep into the stack as the term that
//! it makes, and the only error is want of memory.
mod units;

ghost use Rattle.std.specs.Prelude.{◌≡◌, ℕ, ◌↔◌, IfOk, List, length};
ghost use Rattle.std.specs.List.{All};
ghost use Rattle.rela_rir.specs.Meaning.{In, InR};
ghost use Rattle.rela_translate.specs.Zones.{Zone, Before, After};
ghost use Rattle.rela_translate.specs.Terms.{zone_of, before_of, after_of};
ghost use Rattle.rela_translate.specs.Checked.{markers_of};
ghost use Rattle.rela_translate.specs.Settings.{bare, IsMarker};

use crate::body::Core;
use crate::checks::Check;
use rela_names::Alphabet;
use rela_rir::{PathTerm, RelTerm};
use std::alloc::{AllocError, Global};
use units::{after_of_unit, before_of_unit, both, outside, zone_of_unit};

/// The two relations of a check. The change is as the check asks where the paths before the change have
/// under the first the image that the paths after it have under the second.
#[derive(Drop)]
pub struct Relations {
    /// The relation that the paths before the change are seen through.
    pub before: RelTerm,
    /// The relation that the paths after the change are seen through.
    pub after: RelTerm,
}

/// The terms of the check's two relations, under the alphabet of the check's level.
///
/// Time and space: linear in the nodes of the two terms, of which there are at most 20,000.
pub fn translate(alloc: Global, check: &Check, alphabet: &Alphabet) -> Result<Relations, AllocError>
    ensures before_term { IfOk result (λ r. r.before
        ≡ before_of (length alphabet.now) check.now.body) }
    ensures after_term { IfOk result (λ r. r.after
        ≡ after_of (length alphabet.now) check.now.body) }
    ensures before { IfOk result (λ r. (u v : List ℕ) →
        InR (bare check.now.classes (length alphabet.now)) r.before u v
        ↔ Before check.now.classes (length alphabet.now) check.now.body u v) }
    ensures after { IfOk result (λ r. (u v : List ℕ) →
        InR (bare check.now.classes (length alphabet.now)) r.after u v
        ↔ After check.now.classes (length alphabet.now) check.now.body u v) }
{
    let body = check.body();
    Ok(Relations {
        before: before_of(alloc, body, alphabet)?,
        after: after_of(alloc, body, alphabet)?,
    })
}

/// The term of the words that the check speaks of, under the alphabet of the check's level.
///
/// Time and space: linear in the nodes of the term.
pub fn zone_term(alloc: Global, check: &Check, alphabet: &Alphabet) -> Result<PathTerm, AllocError>
    ensures term { IfOk result (λ t. t ≡ zone_of (length alphabet.now) check.now.body) }
    ensures zone { IfOk result (λ t. (w : List ℕ) →
        In (bare check.now.classes (length alphabet.now)) t w
        ↔ Zone check.now.classes (length alphabet.now) check.now.body w) }
{
    zone_of(alloc, check.body(), alphabet)
}

/// The relation through which a body sees the paths before the change.
#[tactic(auto, using(crate::proofs::TermForms::body_forms, crate::proofs::Markers::in_unit))]
fn before_of(alloc: Global, body: &Core, alphabet: &Alphabet) -> Result<RelTerm, AllocError>
    requires { All IsMarker (markers_of body.now) }
    ensures { IfOk result (λ r. r ≡ before_of (length alphabet.now) body.now) }
{
    match body {
        Core::Unit { zone, modifier } => before_of_unit(alloc, zone, modifier, alphabet),
        Core::Then(a, b) => {
            let first = before_of(alloc, a.get(), alphabet);
            let (first, second) = both(first, before_of(alloc, b.get(), alphabet))?;
            RelTerm::concat(alloc, first, second)
        }
        Core::Else(a, b) => {
            let claimed = zone_of(alloc, a.get(), alphabet);
            let (claimed, second) = both(claimed, before_of(alloc, b.get(), alphabet))?;
            let others = outside(alloc, claimed, second);
            let (first, others) = both(before_of(alloc, a.get(), alphabet), others)?;
            RelTerm::union(alloc, first, others)
        }
    }
}

/// The relation through which a body sees the paths after the change.
#[tactic(auto, using(crate::proofs::TermForms::body_forms, crate::proofs::Markers::in_unit))]
fn after_of(alloc: Global, body: &Core, alphabet: &Alphabet) -> Result<RelTerm, AllocError>
    requires { All IsMarker (markers_of body.now) }
    ensures { IfOk result (λ r. r ≡ after_of (length alphabet.now) body.now) }
{
    match body {
        Core::Unit { zone, modifier } => after_of_unit(alloc, zone, modifier, alphabet),
        Core::Then(a, b) => {
            let first = after_of(alloc, a.get(), alphabet);
            let (first, second) = both(first, after_of(alloc, b.get(), alphabet))?;
            RelTerm::concat(alloc, first, second)
        }
        Core::Else(a, b) => {
            let claimed = zone_of(alloc, a.get(), alphabet);
            let (claimed, second) = both(claimed, after_of(alloc, b.get(), alphabet))?;
            let others = outside(alloc, claimed, second);
            let (first, others) = both(after_of(alloc, a.get(), alphabet), others)?;
            RelTerm::union(alloc, first, others)
        }
    }
}

/// The words that a body speaks of.
#[tactic(auto, using(crate::proofs::TermForms::body_forms))]
fn zone_of(alloc: Global, body: &Core, alphabet: &Alphabet) -> Result<PathTerm, AllocError>
    ensures { IfOk result (λ t. t ≡ zone_of (length alphabet.now) body.now) }
{
    match body {
        Core::Unit { zone, modifier } => zone_of_unit(alloc, zone, modifier, alphabet),
        Core::Then(a, b) => {
            let first = zone_of(alloc, a.get(), alphabet);
            let (first, second) = both(first, zone_of(alloc, b.get(), alphabet))?;
            PathTerm::concat(alloc, first, second)
        }
        Core::Else(a, b) => {
            let first = zone_of(alloc, a.get(), alphabet);
            let (first, second) = both(first, zone_of(alloc, b.get(), alphabet))?;
            PathTerm::union(alloc, first, second)
        }
    }
}
