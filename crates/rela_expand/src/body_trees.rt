//! Lists of specifications as binary trees of bodies.

ghost use Rattle.std.specs.Prelude.{◌<◌, ◌≤◌, length, map, IfOk};
ghost use Rattle.std.specs.List.{All};
ghost use Rattle.rela_expand.specs.Bodies.{AreBodies, Grows, StandsFor, bodies_of, body_at, body_joined};
ghost use Rattle.rela_expand.specs.Expansions.{tree_of};
ghost use Rattle.rela_expand.specs.Forms.{shapes_of};
ghost use Rattle.rela_expand.specs.Shapes.{no_body};

use crate::bodies::{Bodies, BodyJoint, BodyLayer};
use crate::forms::Forms;
use std::alloc::AllocError;

/// Joins the bodies at these places by a balanced binary tree, in their order, and gives its place.
/// A body alone is its own tree. The only error is want of memory.
pub(crate) fn body_tree(
    bodies: &mut Bodies,
    paths: &Forms<'_>,
    by: BodyJoint,
    places: &[usize],
) -> Result<usize, AllocError>
    requires are { AreBodies (shapes_of paths.now.forms.items) bodies.old.forms.items }
    requires some { 1 ≤ length places.now }
    requires inside { All (λ k. k < length bodies.old.forms.items) places.now }
    ensures are { AreBodies (shapes_of paths.now.forms.items) bodies.new.forms.items }
    ensures grown { Grows (bodies_of (shapes_of paths.now.forms.items) bodies.old.forms.items)
        (bodies_of (shapes_of paths.now.forms.items) bodies.new.forms.items) }
    ensures made { IfOk result (λ k. StandsFor (bodies_of (shapes_of paths.now.forms.items)
        bodies.new.forms.items)
        (tree_of (body_joined by) no_body
        (map (body_at (bodies_of (shapes_of paths.now.forms.items) bodies.old.forms.items))
        places.now)) k) }
{
    if places.len() == 1 {
        return Ok(places[0]);
    }
    let (front, rest) = places.split_at(places.len() - places.len() / 2);
    let a = body_tree(bodies, paths, by, front)?;
    let b = body_tree(bodies, paths, by, rest)?;
    bodies.add(paths, BodyLayer::Join(by, a, b))
}
