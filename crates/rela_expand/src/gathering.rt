//! From trees of path expressions to forms.

ghost use Rattle.std.specs.Prelude.{◌≡◌, ◌≢◌, ◌<◌, Err, Ok, IfErr, IfOk, [], ◌∷◌, ◌≤◌, false, length, map};
ghost use Rattle.rela_json.specs.Results.{ok_or};
ghost use Rattle.rela_lex.specs.declared.error.SpecError.TheVariants.{Memory, UnknownName};
ghost use Rattle.rela_expand.specs.Expansions.{tree_of};
ghost use Rattle.rela_expand.specs.Forms.{Extends, StandsAt, behind, joined, shape_at, shape_in, shapes_of};
ghost use Rattle.rela_expand.specs.Gathers.{made_of, path_shape, wrapped};
ghost use Rattle.rela_expand.specs.Scopes.{AreKnown, AreMade, IsMade, paths_named};
ghost use Rattle.rela_expand.specs.Shapes.{Empty, all_of, class_shape};

use crate::forms::{Forms, Joint, Layer};
use crate::members::look_at_all;
use crate::names::{Definitions, Meaning};
use crate::trees::{copies, tree};
use rela_lex::SpecError;
use rela_locations::Locations;
use rela_names::{Level, Name};
use rela_spec::{Member, PathExpr};
use std::alloc::{AllocError, Global};
use std::slice;

/// Where an expression is read: the network, the level of its locations, and the names before it.
#[derive(Clone, Copy)]
pub(crate) struct Scope<'a, 'b> {
    /// The locations of the network.
    pub(crate) locations: &'b Locations,
    /// How finely the specification tells them apart.
    pub(crate) level: Level,
    /// What the names of earlier items stand for.
    pub(crate) names: &'b Definitions<'a>,
}

/// What is made of one part.
#[derive(Clone, Copy)]
pub(crate) enum Wrap {
    /// `!e`: its complement.
    Not,
    /// `e*`: none, one or more of its paths.
    Star,
    /// `e+`: one or more of its paths.
    Plus,
    /// `e?`: none or one of its paths.
    Maybe,
    /// `e{n}`: exactly so many of its paths.
    Times(u32),
}

/// Adds the forms of a path expression, and gives the place of the outermost one. What a reference
/// names stands there already, and a list becomes a balanced binary tree.
///
/// # Errors
///
/// From left to right `UnknownName` at a reference that names no earlier path, and `FinerLevel` and
/// then `UnknownLocation` at the name of a member. `Memory`.
#[cycle(gather)]
#[tactic(auto, using(crate::proofs::PathShapes::path_shape_forms))]
pub(crate) fn gather<'a>(
    alloc: Global,
    scope: &Scope<'a, '_>,
    forms: &mut Forms<'a>,
    path: &'a PathExpr,
) -> Result<usize, SpecError>
    requires { AreKnown (shapes_of forms.old.forms.items) scope.now.names.now }
    ensures grown { Extends (shapes_of forms.old.forms.items) (shapes_of forms.new.forms.items) }
    ensures made { IfOk result (λ k. IsMade (path_shape scope.now (shapes_of forms.old.forms.items)
        path.now) (shapes_of forms.new.forms.items) k) }
    ensures refused { IfErr result (λ e. e ≢ Memory →
        path_shape scope.now (shapes_of forms.old.forms.items) path.now ≡ Err e) }
{
    match path {
        PathExpr::Any => leaf(forms, Layer::Any),
        PathExpr::Empty => leaf(forms, Layer::Empty),
        PathExpr::One(member) => one(scope, forms, member),
        PathExpr::Class { negated, members } => class(scope, forms, *negated, members.as_slice()),
        PathExpr::Reference { name, at } => named(scope, forms, name, *at),
        PathExpr::Seq(parts) => join(alloc, scope, forms, Joint::Seq, parts.as_slice()),
        PathExpr::Alt(parts) => join(alloc, scope, forms, Joint::Alt, parts.as_slice()),
        PathExpr::And(parts) => join(alloc, scope, forms, Joint::Meet, parts.as_slice()),
        PathExpr::Not(part) => around(alloc, scope, forms, Wrap::Not, part.get()),
        PathExpr::Star(part) => around(alloc, scope, forms, Wrap::Star, part.get()),
        PathExpr::Plus(part) => around(alloc, scope, forms, Wrap::Plus, part.get()),
        PathExpr::Maybe(part) => around(alloc, scope, forms, Wrap::Maybe, part.get()),
        PathExpr::Times { part, n } => around(alloc, scope, forms, Wrap::Times(*n), part.get()),
    }
}

/// Adds the forms of the part, and behind them those of what is made of it. Errors are those of
/// [`gather`].
#[cycle(gather)]
fn around<'a>(
    alloc: Global,
    scope: &Scope<'a, '_>,
    forms: &mut Forms<'a>,
    how: Wrap,
    part: &'a PathExpr,
) -> Result<usize, SpecError>
    requires { AreKnown (shapes_of forms.old.forms.items) scope.now.names.now }
    ensures grown { Extends (shapes_of forms.old.forms.items) (shapes_of forms.new.forms.items) }
    ensures made { IfOk result (λ k. IsMade
        (made_of (wrapped how) (path_shape scope.now (shapes_of forms.old.forms.items) part.now))
        (shapes_of forms.new.forms.items) k) }
    ensures refused { IfErr result (λ e. e ≢ Memory →
        (made_of (wrapped how) (path_shape scope.now (shapes_of forms.old.forms.items) part.now))
        ≡ Err e) }
{
    let place = gather(alloc, scope, forms, part)?;
    Ok(made_around(forms, how, place)?)
}

/// Adds the forms of the parts, and behind them those of the tree that joins them. Errors are those
/// of [`gather`].
#[cycle(gather)]
fn join<'a>(
    alloc: Global,
    scope: &Scope<'a, '_>,
    forms: &mut Forms<'a>,
    by: Joint,
    parts: &'a [PathExpr],
) -> Result<usize, SpecError>
    requires { AreKnown (shapes_of forms.old.forms.items) scope.now.names.now }
    ensures grown { Extends (shapes_of forms.old.forms.items) (shapes_of forms.new.forms.items) }
    ensures made { IfOk result (λ k. IsMade (made_of (tree_of (joined by) Empty)
        (all_of (map (path_shape scope.now (shapes_of forms.old.forms.items)) parts.now)))
        (shapes_of forms.new.forms.items) k) }
    ensures refused { IfErr result (λ e. e ≢ Memory →
        (made_of (tree_of (joined by) Empty)
        (all_of (map (path_shape scope.now (shapes_of forms.old.forms.items)) parts.now)))
        ≡ Err e) }
{
    let places = gather_all(alloc, scope, forms, parts)?;
    Ok(tree(forms, by, places.as_slice())?)
}

/// Adds the forms of each part, and gives their places in the order of the parts. Errors are those
/// of [`gather`].
#[cycle(gather)]
fn gather_all<'a>(
    alloc: Global,
    scope: &Scope<'a, '_>,
    forms: &mut Forms<'a>,
    parts: &'a [PathExpr],
) -> Result<Vec<usize>, SpecError>
    requires { AreKnown (shapes_of forms.old.forms.items) scope.now.names.now }
    ensures grown { Extends (shapes_of forms.old.forms.items) (shapes_of forms.new.forms.items) }
    ensures made { IfOk result (λ ks. AreMade
        (all_of (map (path_shape scope.now (shapes_of forms.old.forms.items)) parts.now))
        (shapes_of forms.new.forms.items) ks.items) }
    ensures refused { IfErr result (λ e. e ≢ Memory →
        all_of (map (path_shape scope.now (shapes_of forms.old.forms.items)) parts.now) ≡ Err e) }
{
    let mut places = Vec::new(alloc);
    for part in parts {
        places.push(gather(alloc, scope, forms, part)?)?;
    }
    Ok(places)
}

/// Adds the form of a layer whose parts stand there already. The only error is `Memory`.
fn leaf<'a>(forms: &mut Forms<'a>, layer: Layer<'a>) -> Result<usize, SpecError>
    requires { behind layer ≤ length (shapes_of forms.old.forms.items) }
    ensures grown { Extends (shapes_of forms.old.forms.items) (shapes_of forms.new.forms.items) }
    ensures made { IfOk result (λ k. StandsAt (shapes_of forms.new.forms.items)
        (shape_in (shapes_of forms.old.forms.items) layer.entry) k) }
    ensures refused { IfErr result (λ e. e ≡ Memory) }
{
    Ok(forms.add(layer)?)
}

/// Adds the forms of what is made of the part at this place. The only error is want of memory.
fn made_around(forms: &mut Forms<'_>, how: Wrap, part: usize) -> Result<usize, AllocError>
    requires { part < length (shapes_of forms.old.forms.items) }
    ensures grown { Extends (shapes_of forms.old.forms.items) (shapes_of forms.new.forms.items) }
    ensures made { IfOk result (λ k. StandsAt (shapes_of forms.new.forms.items)
        (wrapped how (shape_at (shapes_of forms.old.forms.items) part)) k) }
{
    match how {
        Wrap::Not => forms.add(Layer::Not(part)),
        Wrap::Star => forms.add(Layer::Star(part)),
        Wrap::Plus => {
            let more = forms.add(Layer::Star(part))?;
            forms.add(Layer::Join(Joint::Seq, part, more))
        }
        Wrap::Maybe => {
            let none = forms.add(Layer::Empty)?;
            forms.add(Layer::Join(Joint::Alt, none, part))
        }
        Wrap::Times(n) => copies(forms, part, n),
    }
}

/// Adds the class of one member. Errors are those of [`look_at_all`].
fn one<'a>(
    scope: &Scope<'a, '_>,
    forms: &mut Forms<'a>,
    member: &'a Member,
) -> Result<usize, SpecError>
    ensures grown { Extends (shapes_of forms.old.forms.items) (shapes_of forms.new.forms.items) }
    ensures made { IfOk result (λ k. IsMade
        (class_shape (record { network = scope.now.locations.now; level = scope.now.level }) false
        (member.now ∷ [])) (shapes_of forms.new.forms.items) k) }
    ensures refused { IfErr result (λ e. e ≢ Memory →
        class_shape (record { network = scope.now.locations.now; level = scope.now.level }) false
        (member.now ∷ []) ≡ Err e) }
{
    look_at_all(scope.locations, scope.level, slice::from_ref(member))?;
    leaf(forms, Layer::One(member))
}

/// Adds the class of some members. Errors are those of [`look_at_all`].
fn class<'a>(
    scope: &Scope<'a, '_>,
    forms: &mut Forms<'a>,
    negated: bool,
    members: &'a [Member],
) -> Result<usize, SpecError>
    ensures grown { Extends (shapes_of forms.old.forms.items) (shapes_of forms.new.forms.items) }
    ensures made { IfOk result (λ k. IsMade
        (class_shape (record { network = scope.now.locations.now; level = scope.now.level }) negated
        members.now) (shapes_of forms.new.forms.items) k) }
    ensures refused { IfErr result (λ e. e ≢ Memory →
        class_shape (record { network = scope.now.locations.now; level = scope.now.level }) negated
        members.now ≡ Err e) }
{
    look_at_all(scope.locations, scope.level, members)?;
    leaf(forms, Layer::Class { negated, members })
}

/// Where the path stands that a reference names: `UnknownName` where no earlier path has the name.
fn named(scope: &Scope<'_, '_>, forms: &Forms<'_>, name: &Name, at: u32) -> Result<usize, SpecError>
    requires { AreKnown (shapes_of forms.now.forms.items) scope.now.names.now }
    ensures made { IfOk result (λ k. IsMade
        (ok_or (UnknownName at) (paths_named (shapes_of forms.now.forms.items) scope.now.names.now
        name.now)) (shapes_of forms.now.forms.items) k) }
    ensures refused { IfErr result (λ e.
        ok_or (UnknownName at) (paths_named (shapes_of forms.now.forms.items) scope.now.names.now
        name.now) ≡ Err e) }
{
    match scope.names.get(name.as_bytes()) {
        Some(Meaning::Path(place)) => Ok(place),
        Some(Meaning::Spec(_)) | None => Err(SpecError::UnknownName { at }),
    }
}
