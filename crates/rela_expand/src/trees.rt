//! Lists of parts as binary trees of forms.

ghost use Rattle.std.specs.Prelude.{◌+◌, ◌<◌, ◌≤◌, length, map, replicate, IfOk};
ghost use Rattle.std.specs.List.{All};
ghost use Rattle.rela_expand.specs.Expansions.{tree_of};
ghost use Rattle.rela_expand.specs.Forms.{Extends, StandsAt, joined, shape_at, shapes_of};
ghost use Rattle.rela_expand.specs.Shapes.{Empty, sequence_shape};

use crate::forms::{Forms, Joint, Layer};
use std::alloc::AllocError;

/// Joins the forms at these places by a balanced binary tree, in their order, and gives its place.
/// A form alone is its own tree, and of none it is the empty path. The only error is want of
/// memory.
pub(crate) fn tree(forms: &mut Forms<'_>, by: Joint, places: &[usize]) -> Result<usize, AllocError>
    requires { All (λ k. k < length (shapes_of forms.old.forms.items)) places.now }
    ensures grown { Extends (shapes_of forms.old.forms.items) (shapes_of forms.new.forms.items) }
    ensures made { IfOk result (λ k. StandsAt (shapes_of forms.new.forms.items)
        (tree_of (joined by) Empty (map (shape_at (shapes_of forms.old.forms.items)) places.now))
        k) }
{
    if places.is_empty() {
        return forms.add(Layer::Empty);
    }
    if places.len() == 1 {
        return Ok(places[0]);
    }
    let (front, rest) = places.split_at(places.len() - places.len() / 2);
    let a = tree(forms, by, front)?;
    let b = tree(forms, by, rest)?;
    forms.add(Layer::Join(by, a, b))
}

/// Adds the sequence that has the part `n` times, by a number of forms that is logarithmic in `n`,
/// and gives its place. The only error is want of memory.
pub(crate) fn copies(forms: &mut Forms<'_>, part: usize, n: u32) -> Result<usize, AllocError>
    requires { part < length (shapes_of forms.old.forms.items) }
    ensures grown { Extends (shapes_of forms.old.forms.items) (shapes_of forms.new.forms.items) }
    ensures made { IfOk result (λ k. StandsAt (shapes_of forms.new.forms.items)
        (sequence_shape (replicate n (shape_at (shapes_of forms.old.forms.items) part))) k) }
{
    if n == 0 {
        return forms.add(Layer::Empty);
    }
    let (row, _) = row_and_longer(forms, part, n)?;
    Ok(row)
}

/// Adds the sequences that have the part `n` times and once more than that, and gives their places.
/// Those for half of `n` make both.
fn row_and_longer(forms: &mut Forms<'_>, part: usize, n: u32) -> Result<(usize, usize), AllocError>
    requires inside { part < length (shapes_of forms.old.forms.items) }
    requires some { 1 ≤ n }
    ensures grown { Extends (shapes_of forms.old.forms.items) (shapes_of forms.new.forms.items) }
    ensures row { IfOk result (λ p. StandsAt (shapes_of forms.new.forms.items)
        (sequence_shape (replicate n (shape_at (shapes_of forms.old.forms.items) part))) p.0) }
    ensures longer { IfOk result (λ p. StandsAt (shapes_of forms.new.forms.items)
        (sequence_shape (replicate (n + 1) (shape_at (shapes_of forms.old.forms.items) part)))
        p.1) }
{
    if n == 1 {
        let two = forms.add(Layer::Join(Joint::Seq, part, part))?;
        return Ok((part, two));
    }
    let (fewer, more) = row_and_longer(forms, part, n / 2)?;
    let middle = forms.add(Layer::Join(Joint::Seq, more, fewer))?;
    if n % 2 == 0 {
        let row = forms.add(Layer::Join(Joint::Seq, fewer, fewer))?;
        return Ok((row, middle));
    }
    let longer = forms.add(Layer::Join(Joint::Seq, more, more))?;
    Ok((middle, longer))
}
