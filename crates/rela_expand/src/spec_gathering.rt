//! From trees of specifications to bodies.

ghost use Rattle.std.specs.Prelude.{◌≡◌, ◌≢◌, ◌<◌, Err, Ok, IfErr, IfOk, List, OnOk, length, map};
ghost use Rattle.std.specs.List.{All};
ghost use Rattle.rela_json.specs.Results.{ok_or};
ghost use Rattle.rela_lex.specs.declared.error.SpecError.TheVariants.{Memory, UnknownName};
ghost use Rattle.rela_expand.specs.Bodies.{AreBodies, Grows, StandsFor, bodies_of, body_at, body_joined};
ghost use Rattle.rela_expand.specs.BodyGathers.{AreBodiesKnown, AreBodiesMade, IsBody, IsModifier, modifier_shape, spec_shape, specs_named, unit_shape};
ghost use Rattle.rela_expand.specs.Expansions.{tree_of};
ghost use Rattle.rela_expand.specs.Forms.{Extends, shapes_of};
ghost use Rattle.rela_expand.specs.Gathers.{made_of};
ghost use Rattle.rela_expand.specs.Scopes.{AreKnown};
ghost use Rattle.rela_expand.specs.Shapes.{BodyShape, all_of, no_body};

use crate::bodies::{Bodies, BodyJoint, BodyLayer};
use crate::body_trees::body_tree;
use crate::forms::{Forms, Layer};
use crate::gathering::{Scope, gather};
use crate::names::Meaning;
use rela_lex::SpecError;
use rela_names::Name;
use rela_spec::{Modifier, PathExpr, SpecExpr};
use std::alloc::{AllocError, Global};

/// Adds the forms of a modifier's paths, and gives the modifier with their places. Errors are those
/// of [`gather`].
fn gather_modifier<'a>(
    alloc: Global,
    scope: &Scope<'a, '_>,
    forms: &mut Forms<'a>,
    modifier: &'a Modifier<PathExpr>,
) -> Result<Modifier<usize>, SpecError>
    requires { AreKnown (shapes_of forms.old.forms.items) scope.now.names.now }
    ensures grown { Extends (shapes_of forms.old.forms.items) (shapes_of forms.new.forms.items) }
    ensures made { IfOk result (λ c. IsModifier
        (modifier_shape scope.now (shapes_of forms.old.forms.items) modifier.now)
        (shapes_of forms.new.forms.items) c) }
    ensures refused { IfErr result (λ e. e ≢ Memory →
        modifier_shape scope.now (shapes_of forms.old.forms.items) modifier.now ≡ Err e) }
{
    match modifier {
        Modifier::Preserve => Ok(Modifier::Preserve),
        Modifier::Add(path) => Ok(Modifier::Add(gather(alloc, scope, forms, path)?)),
        Modifier::Remove(path) => Ok(Modifier::Remove(gather(alloc, scope, forms, path)?)),
        Modifier::Replace(old, new) => {
            let old = gather(alloc, scope, forms, old)?;
            let new = gather(alloc, scope, forms, new)?;
            Ok(Modifier::Replace(old, new))
        }
        Modifier::Drop => Ok(Modifier::Drop),
        Modifier::AnyOf(path) => Ok(Modifier::AnyOf(gather(alloc, scope, forms, path)?)),
        Modifier::Ignore(path) => Ok(Modifier::Ignore(gather(alloc, scope, forms, path)?)),
    }
}

/// Adds the body of a unit and the forms of its paths, and gives its place. Errors are those of
/// [`gather`].
fn unit<'a>(
    alloc: Global,
    scope: &Scope<'a, '_>,
    forms: &mut Forms<'a>,
    bodies: &mut Bodies,
    zone: &'a PathExpr,
    modifier: &'a Modifier<PathExpr>,
) -> Result<usize, SpecError>
    requires known { AreKnown (shapes_of forms.old.forms.items) scope.now.names.now }
    requires are { AreBodies (shapes_of forms.old.forms.items) bodies.old.forms.items }
    ensures paths { Extends (shapes_of forms.old.forms.items) (shapes_of forms.new.forms.items) }
    ensures are { OnOk result (AreBodies (shapes_of forms.new.forms.items) bodies.new.forms.items) }
    ensures grown { OnOk result (Grows (bodies_of (shapes_of forms.old.forms.items)
        bodies.old.forms.items) (bodies_of (shapes_of forms.new.forms.items)
        bodies.new.forms.items)) }
    ensures made { IfOk result (λ k. IsBody (unit_shape scope.now (shapes_of forms.old.forms.items)
        zone.now modifier.now) (bodies_of (shapes_of forms.new.forms.items) bodies.new.forms.items)
        k) }
    ensures refused { IfErr result (λ e. e ≢ Memory →
        unit_shape scope.now (shapes_of forms.old.forms.items) zone.now modifier.now ≡ Err e) }
{
    let zone = gather(alloc, scope, forms, zone)?;
    let modifier = gather_modifier(alloc, scope, forms, modifier)?;
    Ok(bodies.add(forms, BodyLayer::Unit { zone, modifier })?)
}

/// Where the specification stands that a reference names: `UnknownName` where no earlier
/// specification has the name.
fn named_spec(scope: &Scope<'_, '_>, name: &Name, at: u32) -> Result<usize, SpecError>
    ensures made { (bodies : List BodyShape) → AreBodiesKnown bodies scope.now.names.now →
        IfOk result (λ k. IsBody (ok_or (UnknownName at) (specs_named bodies scope.now.names.now
        name.now)) bodies k) }
    ensures refused { (bodies : List BodyShape) →
        IfErr result (λ e. ok_or (UnknownName at) (specs_named bodies scope.now.names.now name.now)
        ≡ Err e) }
{
    match scope.names.get(name.as_bytes()) {
        Some(Meaning::Spec(place)) => Ok(place),
        Some(Meaning::Path(_)) | None => Err(SpecError::UnknownName { at }),
    }
}

/// Adds the bodies of a specification and the forms of its paths, and gives the place of the
/// outermost body. What a reference names stands there already, and a list becomes a balanced
/// binary tree.
///
/// # Errors
///
/// From left to right those of [`gather`], and `UnknownName` at a reference that names no earlier
/// specification. `Memory`.
#[cycle(gather_spec)]
#[tactic(auto, using(crate::proofs::SpecShapes::spec_shape_forms))]
pub(crate) fn gather_spec<'a>(
    alloc: Global,
    scope: &Scope<'a, '_>,
    forms: &mut Forms<'a>,
    bodies: &mut Bodies,
    spec: &'a SpecExpr,
) -> Result<usize, SpecError>
    requires known { AreKnown (shapes_of forms.old.forms.items) scope.now.names.now }
    requires specs_known { AreBodiesKnown (bodies_of (shapes_of forms.old.forms.items)
        bodies.old.forms.items) scope.now.names.now }
    requires are { AreBodies (shapes_of forms.old.forms.items) bodies.old.forms.items }
    ensures paths { Extends (shapes_of forms.old.forms.items) (shapes_of forms.new.forms.items) }
    ensures are { OnOk result (AreBodies (shapes_of forms.new.forms.items) bodies.new.forms.items) }
    ensures grown { OnOk result (Grows (bodies_of (shapes_of forms.old.forms.items)
        bodies.old.forms.items) (bodies_of (shapes_of forms.new.forms.items)
        bodies.new.forms.items)) }
    ensures made { IfOk result (λ k. IsBody (spec_shape scope.now (shapes_of forms.old.forms.items)
        (bodies_of (shapes_of forms.old.forms.items) bodies.old.forms.items) spec.now)
        (bodies_of (shapes_of forms.new.forms.items) bodies.new.forms.items) k) }
    ensures refused { IfErr result (λ e. e ≢ Memory →
        spec_shape scope.now (shapes_of forms.old.forms.items)
        (bodies_of (shapes_of forms.old.forms.items) bodies.old.forms.items) spec.now ≡ Err e) }
{
    match spec {
        SpecExpr::Unit { zone, modifier } => unit(alloc, scope, forms, bodies, zone, modifier),
        SpecExpr::Reference { name, at } => named_spec(scope, name, *at),
        SpecExpr::Then(parts) => join_specs(
            alloc,
            scope,
            forms,
            bodies,
            BodyJoint::Then,
            parts.as_slice(),
        ),
        SpecExpr::Else(parts) => join_specs(
            alloc,
            scope,
            forms,
            bodies,
            BodyJoint::Else,
            parts.as_slice(),
        ),
    }
}

/// Adds the bodies of the parts, and behind them those of the tree that joins them. Errors are
/// those of [`gather_spec`].
#[cycle(gather_spec)]
fn join_specs<'a>(
    alloc: Global,
    scope: &Scope<'a, '_>,
    forms: &mut Forms<'a>,
    bodies: &mut Bodies,
    by: BodyJoint,
    parts: &'a [SpecExpr],
) -> Result<usize, SpecError>
    requires known { AreKnown (shapes_of forms.old.forms.items) scope.now.names.now }
    requires specs_known { AreBodiesKnown (bodies_of (shapes_of forms.old.forms.items)
        bodies.old.forms.items) scope.now.names.now }
    requires are { AreBodies (shapes_of forms.old.forms.items) bodies.old.forms.items }
    ensures paths { Extends (shapes_of forms.old.forms.items) (shapes_of forms.new.forms.items) }
    ensures are { OnOk result (AreBodies (shapes_of forms.new.forms.items) bodies.new.forms.items) }
    ensures grown { OnOk result (Grows (bodies_of (shapes_of forms.old.forms.items)
        bodies.old.forms.items) (bodies_of (shapes_of forms.new.forms.items)
        bodies.new.forms.items)) }
    ensures made { IfOk result (λ k. IsBody (made_of (tree_of (body_joined by) no_body)
        (all_of (map (spec_shape scope.now (shapes_of forms.old.forms.items)
        (bodies_of (shapes_of forms.old.forms.items) bodies.old.forms.items)) parts.now)))
        (bodies_of (shapes_of forms.new.forms.items) bodies.new.forms.items) k) }
    ensures refused { IfErr result (λ e. e ≢ Memory → made_of (tree_of (body_joined by) no_body)
        (all_of (map (spec_shape scope.now (shapes_of forms.old.forms.items)
        (bodies_of (shapes_of forms.old.forms.items) bodies.old.forms.items)) parts.now)) ≡ Err e) }
{
    let places = gather_specs(alloc, scope, forms, bodies, parts)?;
    Ok(joined(forms, bodies, by, places.as_slice())?)
}

/// Adds the bodies of each part, and gives their places in the order of the parts. Errors are those
/// of [`gather_spec`].
#[cycle(gather_spec)]
fn gather_specs<'a>(
    alloc: Global,
    scope: &Scope<'a, '_>,
    forms: &mut Forms<'a>,
    bodies: &mut Bodies,
    parts: &'a [SpecExpr],
) -> Result<Vec<usize>, SpecError>
    requires known { AreKnown (shapes_of forms.old.forms.items) scope.now.names.now }
    requires specs_known { AreBodiesKnown (bodies_of (shapes_of forms.old.forms.items)
        bodies.old.forms.items) scope.now.names.now }
    requires are { AreBodies (shapes_of forms.old.forms.items) bodies.old.forms.items }
    ensures paths { Extends (shapes_of forms.old.forms.items) (shapes_of forms.new.forms.items) }
    ensures are { OnOk result (AreBodies (shapes_of forms.new.forms.items) bodies.new.forms.items) }
    ensures grown { OnOk result (Grows (bodies_of (shapes_of forms.old.forms.items)
        bodies.old.forms.items) (bodies_of (shapes_of forms.new.forms.items)
        bodies.new.forms.items)) }
    ensures made { IfOk result (λ ks. AreBodiesMade
        (all_of (map (spec_shape scope.now (shapes_of forms.old.forms.items)
        (bodies_of (shapes_of forms.old.forms.items) bodies.old.forms.items)) parts.now))
        (bodies_of (shapes_of forms.new.forms.items) bodies.new.forms.items) ks.items) }
    ensures refused { IfErr result (λ e. e ≢ Memory →
        all_of (map (spec_shape scope.now (shapes_of forms.old.forms.items)
        (bodies_of (shapes_of forms.old.forms.items) bodies.old.forms.items)) parts.now) ≡ Err e) }
{
    let mut places = Vec::new(alloc);
    for part in parts {
        places.push(gather_spec(alloc, scope, forms, bodies, part)?)?;
    }
    Ok(places)
}

/// Adds the tree that joins the bodies at these places, and gives its place. Of none, which no list
/// has, it is the unit that preserves the empty path. The only error is want of memory.
fn joined(
    forms: &mut Forms<'_>,
    bodies: &mut Bodies,
    by: BodyJoint,
    places: &[usize],
) -> Result<usize, AllocError>
    requires are { AreBodies (shapes_of forms.old.forms.items) bodies.old.forms.items }
    requires inside { All (λ k. k < length (bodies_of (shapes_of forms.old.forms.items)
        bodies.old.forms.items)) places.now }
    ensures paths { Extends (shapes_of forms.old.forms.items) (shapes_of forms.new.forms.items) }
    ensures are { OnOk result (AreBodies (shapes_of forms.new.forms.items) bodies.new.forms.items) }
    ensures grown { OnOk result (Grows (bodies_of (shapes_of forms.old.forms.items)
        bodies.old.forms.items) (bodies_of (shapes_of forms.new.forms.items)
        bodies.new.forms.items)) }
    ensures made { IfOk result (λ k. StandsFor (bodies_of (shapes_of forms.new.forms.items)
        bodies.new.forms.items)
        (tree_of (body_joined by) no_body
        (map (body_at (bodies_of (shapes_of forms.old.forms.items) bodies.old.forms.items))
        places.now)) k) }
{
    if places.is_empty() {
        let zone = forms.add(Layer::Empty)?;
        let modifier = Modifier::Preserve;
        return bodies.add(forms, BodyLayer::Unit { zone, modifier });
    }
    body_tree(bodies, forms, by, places)
}
