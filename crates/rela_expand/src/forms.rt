//! Expanded path expressions as a graph. What a name stands for is there once, however often it is
//! used, so that the graph stays linear in the text, and its sizes are known before it is unfolded.

ghost use Rattle.std.specs.Prelude.{◌≡◌, ◌+◌, ◌-◌, ◌<◌, ◌≤◌, [], length, max, IfOk};
ghost use Rattle.rela_expand.specs.Forms.{AreForms, Extends, StandsAt, behind, capped, capped_size, shape_at, shape_in, shapes_of, size_of};
ghost use Rattle.rela_expand.specs.Measures.{Measure, over, over_two};
ghost use Rattle.rela_expand.specs.Shapes.{Empty};

use rela_spec::Member;
use std::alloc::{AllocError, Global};

/// How two path expressions are joined.
#[derive(Clone, Copy)]
pub(crate) enum Joint {
    /// One after the other.
    Seq,
    /// The paths that are in one of them, or in both.
    Alt,
    /// The paths that are in both.
    Meet,
}

/// One layer of an expanded path expression. Its parts are named by their places among the forms.
#[derive(Clone, Copy)]
pub(crate) enum Layer<'a> {
    /// The empty path.
    Empty,
    /// Any one path symbol.
    Any,
    /// One of the symbols that the member names.
    One(&'a Member),
    /// One symbol that some member names, or, where negated, that none names.
    Class {
        negated: bool,
        members: &'a [Member],
    },
    /// Two expressions, joined so.
    Join(Joint, usize, usize),
    /// The words of path symbols that are not in the part.
    Not(usize),
    /// Paths of the part, one after another: none, one or more.
    Star(usize),
}

/// How large a term is. Both numbers are at most 2^64 - 1, which also stands for any greater one.
#[derive(Clone, Copy)]
pub(crate) struct Size {
    /// The number of its nodes.
    pub(crate) nodes: u64,
    /// The number of nodes on a longest way down.
    pub(crate) depth: u64,
}

/// A layer, with the size of all that it stands for.
#[derive(Clone, Copy)]
pub(crate) struct Form<'a> {
    /// The layer itself.
    layer: Layer<'a>,
    /// The size of the expression that it is the outermost layer of.
    size: Size,
}

/// Forms, each behind its parts. A form is named by its place, from 0.
#[derive(Drop)]
pub(crate) struct Forms<'a> {
    /// The forms, by their places.
    pub(crate) forms: Vec<Form<'a>>,
    ghost sound: { AreForms forms.items },
}

impl<'a> Forms<'a> {
    /// No forms.
    pub(crate) fn new(alloc: Global) -> Forms<'a>
        ensures { shapes_of result.forms.items ≡ [] }
    {
        Forms {
            forms: Vec::new(alloc),
        }
    }

    /// The layer of the form at this place.
    pub(crate) fn get(&self, place: usize) -> Layer<'a>
        requires { place < length (shapes_of self.now.forms.items) }
        ensures shape { shape_at (shapes_of self.now.forms.items) place
            ≡ shape_in (shapes_of self.now.forms.items) result }
        ensures below { behind result ≤ place }
    {
        self.forms[place].layer
    }

    /// How large the form at this place is.
    pub(crate) fn size(&self, place: usize) -> Size
        requires { place < length (shapes_of self.now.forms.items) }
        ensures { result ≡ size_of (shape_at (shapes_of self.now.forms.items) place) }
    {
        self.forms[place].size
    }

    /// Appends a layer, of which the parts stand there already, and gives its place. The only error
    /// is want of memory.
    pub(crate) fn add(&mut self, layer: Layer<'a>) -> Result<usize, AllocError>
        requires { behind layer ≤ length (shapes_of self.old.forms.items) }
        ensures grown { Extends (shapes_of self.old.forms.items) (shapes_of self.new.forms.items) }
        ensures made { IfOk result (λ k. StandsAt (shapes_of self.new.forms.items)
            (shape_in (shapes_of self.old.forms.items) layer.entry) k) }
    {
        let place = self.forms.len();
        let size = self.size_of(layer);
        self.forms.push(Form { layer, size })?;
        Ok(place)
    }

    /// How large a layer is with its parts, which stand there already.
    fn size_of(&self, layer: Layer<'a>) -> Size
        requires { behind layer ≤ length (shapes_of self.now.forms.items) }
        ensures { result ≡ size_of (shape_in (shapes_of self.now.forms.items) layer.entry) }
    {
        match layer {
            Layer::Empty | Layer::Any | Layer::One(_) | Layer::Class { .. } => {
                Size { nodes: 1, depth: 1 }
            }
            Layer::Join(_, a, b) => of_two(self.size(a), self.size(b)),
            Layer::Not(a) | Layer::Star(a) => of_one(self.size(a)),
        }
    }
}

/// The size of a term with one part: one node more than the part, and one deeper.
pub(crate) fn of_one(part: Size) -> Size
    ensures size { result ≡ record {
      nodes = capped (part.nodes + 1);
      depth = capped (part.depth + 1);
    } }
    ensures measure { (m : Measure) → part ≡ capped_size m → result ≡ capped_size (over m) }
{
    Size {
        nodes: part.nodes.saturating_add(1),
        depth: part.depth.saturating_add(1),
    }
}

/// The size of a term with two parts: one node more than both, and one deeper than the deeper one.
pub(crate) fn of_two(a: Size, b: Size) -> Size
    ensures size { result ≡ record {
      nodes = capped (a.nodes + b.nodes + 1);
      depth = capped (max a.depth b.depth + 1);
    } }
    ensures measure { (x y : Measure) → a ≡ capped_size x → b ≡ capped_size y →
        result ≡ capped_size (over_two x y) }
{
    Size {
        nodes: a.nodes.saturating_add(b.nodes).saturating_add(1),
        depth: a.depth.max(b.depth).saturating_add(1),
    }
}
