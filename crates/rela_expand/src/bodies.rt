//! Expanded specifications as a graph, over that of the path expressions.

ghost use Rattle.std.specs.Prelude.{◌≡◌, ◌<◌, ◌≤◌, [], length, IfOk, List};
ghost use Rattle.rela_expand.specs.Bodies.{AreBodies, Grows, StandsFor, behind_modifier, behind_parts, behind_paths, bodies_of, body_at, body_in, body_joined, capped_sizes, modifier_at, size_of_body};
ghost use Rattle.rela_expand.specs.Forms.{capped_size, shape_at, shapes_of};
ghost use Rattle.rela_expand.specs.Measures.{Measure, over, over_without, unit_measures};
ghost use Rattle.rela_expand.specs.Shapes.{BodyShape, Shape, Unit as UnitShape};

use crate::forms::{Forms, Size, of_one, of_two};
use rela_spec::Modifier;
use std::alloc::{AllocError, Global};

/// How two bodies are joined.
#[derive(Clone, Copy)]
pub(crate) enum BodyJoint {
    /// By `then`: a path has a front of the first and a rest of the second.
    Then,
    /// By `else`: the first for the paths of its zone, and the second for others.
    Else,
}

/// One layer of an expanded specification. Its parts are named by their places among the bodies, and
/// its paths by theirs among the forms.
#[derive(Drop)]
pub(crate) enum BodyLayer {
    /// A zone with its modifier.
    Unit {
        zone: usize,
        modifier: Modifier<usize>,
    },
    /// Two bodies, joined so.
    Join(BodyJoint, usize, usize),
}

/// How large the terms of a zone and of its two relations are.
#[derive(Clone, Copy)]
pub(crate) struct BodySize {
    /// The size of the zone's term.
    pub(crate) zone: Size,
    /// The size of the relation that the paths before the change are seen through.
    pub(crate) before: Size,
    /// The size of the relation that the paths after the change are seen through.
    pub(crate) after: Size,
}

/// A layer, with the sizes of all that it stands for.
#[derive(Drop)]
pub(crate) struct BodyForm {
    /// The layer itself.
    pub(crate) layer: BodyLayer,
    /// How large the terms are of the body that it is the outermost layer of.
    pub(crate) size: BodySize,
}

/// Bodies, each behind its parts. A body is named by its place, from 0.
#[derive(Drop)]
pub(crate) struct Bodies {
    /// The outermost layer of each body, by its place.
    pub(crate) forms: Vec<BodyForm>,
}

impl Bodies {
    /// No bodies.
    pub(crate) fn new(alloc: Global) -> Bodies
        ensures { result.forms.items ≡ [] }
    {
        Bodies {
            forms: Vec::new(alloc),
        }
    }

    /// The outermost layer of the body at this place.
    pub(crate) fn get(&self, place: usize) -> &BodyLayer
        requires { place < length self.now.forms.items }
        ensures shape { (paths : List Shape) → AreBodies paths self.now.forms.items →
            body_at (bodies_of paths self.now.forms.items) place
            ≡ body_in paths (bodies_of paths self.now.forms.items) result.now }
        ensures below { (paths : List Shape) → AreBodies paths self.now.forms.items →
            behind_parts result.now ≤ place }
        ensures zoned { (paths : List Shape) → AreBodies paths self.now.forms.items →
            behind_paths result.now ≤ length paths }
    {
        &self.forms[place].layer
    }

    /// How large the terms of the body at this place are.
    pub(crate) fn size(&self, place: usize) -> BodySize
        requires { place < length self.now.forms.items }
        ensures { (paths : List Shape) → AreBodies paths self.now.forms.items →
            result ≡ size_of_body (body_at (bodies_of paths self.now.forms.items) place) }
    {
        self.forms[place].size
    }

    /// Appends a layer, of which the parts stand there already, and gives its place. The only error
    /// is want of memory.
    pub(crate) fn add(&mut self, paths: &Forms<'_>, layer: BodyLayer) -> Result<usize, AllocError>
        requires are { AreBodies (shapes_of paths.now.forms.items) self.old.forms.items }
        requires below { behind_parts layer ≤ length self.old.forms.items }
        requires zoned { behind_paths layer ≤ length (shapes_of paths.now.forms.items) }
        ensures are { AreBodies (shapes_of paths.now.forms.items) self.new.forms.items }
        ensures grown { Grows (bodies_of (shapes_of paths.now.forms.items) self.old.forms.items)
            (bodies_of (shapes_of paths.now.forms.items) self.new.forms.items) }
        ensures made { IfOk result (λ k.
            StandsFor (bodies_of (shapes_of paths.now.forms.items) self.new.forms.items)
            (body_in (shapes_of paths.now.forms.items) (bodies_of (shapes_of paths.now.forms.items)
            self.old.forms.items) layer) k) }
    {
        let place = self.forms.len();
        let size = self.size_of(paths, &layer);
        self.forms.push(BodyForm { layer, size })?;
        Ok(place)
    }

    /// How large the terms of the body of this layer are, of which the parts stand there already.
    fn size_of(&self, paths: &Forms<'_>, layer: &BodyLayer) -> BodySize
        requires are { AreBodies (shapes_of paths.now.forms.items) self.now.forms.items }
        requires below { behind_parts layer.now ≤ length self.now.forms.items }
        requires zoned { behind_paths layer.now ≤ length (shapes_of paths.now.forms.items) }
        ensures { result ≡ size_of_body (body_in (shapes_of paths.now.forms.items)
            (bodies_of (shapes_of paths.now.forms.items) self.now.forms.items) layer.now) }
    {
        match layer {
            BodyLayer::Unit { zone, modifier } => unit_size(paths, *zone, modifier),
            BodyLayer::Join(by, a, b) => joined_size(*by, self.size(*a), self.size(*b)),
        }
    }
}

/// How large the terms of two bodies are that are joined so.
fn joined_size(by: BodyJoint, a: BodySize, b: BodySize) -> BodySize
    ensures { (x y : BodyShape) → a ≡ size_of_body x → b ≡ size_of_body y →
        result ≡ size_of_body (body_joined by x y) }
{
    let zone = of_two(a.zone, b.zone);
    match by {
        BodyJoint::Then => BodySize {
            zone,
            before: of_two(a.before, b.before),
            after: of_two(a.after, b.after),
        },
        BodyJoint::Else => {
            let others = of_one(of_one(a.zone));
            BodySize {
                zone,
                before: of_two(a.before, of_two(others, b.before)),
                after: of_two(a.after, of_two(others, b.after)),
            }
        }
    }
}

/// How large the terms of a unit are.
fn unit_size(paths: &Forms<'_>, zone: usize, modifier: &Modifier<usize>) -> BodySize
    requires zone { zone < length (shapes_of paths.now.forms.items) }
    requires paths { behind_modifier modifier.now ≤ length (shapes_of paths.now.forms.items) }
    ensures { result ≡ size_of_body (UnitShape (shape_at (shapes_of paths.now.forms.items) zone)
        (modifier_at (shapes_of paths.now.forms.items) modifier.now)) }
{
    let z = paths.size(zone);
    match modifier {
        Modifier::Preserve => BodySize {
            zone: z,
            before: of_one(z),
            after: of_one(z),
        },
        Modifier::Add(path) => {
            let all = of_two(z, paths.size(*path));
            BodySize {
                zone: all,
                before: of_two(of_one(all), all),
                after: of_one(all),
            }
        }
        Modifier::Remove(path) => BodySize {
            zone: z,
            before: size_without(z, paths.size(*path)),
            after: of_one(z),
        },
        Modifier::Replace(old, new) => replaced_size(z, paths.size(*old), paths.size(*new)),
        Modifier::Drop => {
            let all = of_two(z, LEAF);
            BodySize {
                zone: all,
                before: of_two(all, LEAF),
                after: of_one(all),
            }
        }
        Modifier::AnyOf(path) => any_size(z, paths.size(*path)),
        Modifier::Ignore(path) => {
            let kept = size_without(z, paths.size(*path));
            BodySize {
                zone: z,
                before: kept,
                after: kept,
            }
        }
    }
}

/// The size of one symbol.
const LEAF: Size = Size { nodes: 1, depth: 1 };

/// The size of the identity on the words of the first term that are not in the second.
fn size_without(a: Size, b: Size) -> Size
    ensures { (x y : Measure) → a ≡ capped_size x → b ≡ capped_size y →
        result ≡ capped_size (over (over_without x y)) }
{
    of_one(of_two(a, of_one(b)))
}

/// How large the terms of a unit are that replaces the old paths of its zone by the new ones.
fn replaced_size(zone: Size, old: Size, new: Size) -> BodySize
    ensures { (z p q : Measure) → zone ≡ capped_size z → old ≡ capped_size p → new ≡ capped_size q →
        result ≡ capped_sizes (unit_measures z (Modifier.Replace p q)) }
{
    let all = of_two(zone, new);
    let gone = of_two(old, zone);
    BodySize {
        zone: all,
        before: of_two(size_without(all, gone), of_two(gone, new)),
        after: of_one(all),
    }
}

/// How large the terms of a unit are that asks for any of the paths.
fn any_size(zone: Size, path: Size) -> BodySize
    ensures { (z p : Measure) → zone ≡ capped_size z → path ≡ capped_size p →
        result ≡ capped_sizes (unit_measures z (Modifier.AnyOf p)) }
{
    let all = of_two(zone, path);
    BodySize {
        zone: all,
        before: of_two(all, LEAF),
        after: of_two(of_two(path, LEAF), size_without(zone, path)),
    }
}
