//! Assertions as they are written.

ghost use Rattle.std.specs.Prelude.{◌≡◌};

use rela_names::{Boxed, Level, List, Name};
use rela_spec::Member;

/// An assertion file: the level of its locations, and its assertions in their order.
#[derive(Drop)]
pub struct AssertFile {
    /// How finely its locations are told apart.
    pub level: Level,
    /// Its assertions.
    pub asserts: List<Assert>,
}

impl AssertFile {
    /// How finely its locations are told apart.
    pub fn level(&self) -> Level
        ensures { result ≡ self.now.level }
    {
        self.level
    }
}

/// An assertion with its name.
#[derive(Drop)]
pub struct Assert {
    /// The name that its rows are reported under.
    pub name: Name,
    /// The number of bytes of the text before the name.
    pub at: u32,
    /// What is asserted.
    pub tree: AssertExpr,
}

/// What is asserted of sets of words.
#[derive(Drop)]
pub enum AssertExpr {
    /// They have the same words.
    Equal(Boxed<PathExpr>, Boxed<PathExpr>),
    /// Each word of the first is in the second.
    Included(Boxed<PathExpr>, Boxed<PathExpr>),
    /// Both parts hold.
    And(Boxed<AssertExpr>, Boxed<AssertExpr>),
    /// One of the parts holds, or both do.
    Or(Boxed<AssertExpr>, Boxed<AssertExpr>),
    /// The part does not hold.
    Not(Boxed<AssertExpr>),
}

/// A set of words.
#[derive(Drop)]
#[cycle(expr)]
pub enum PathExpr {
    /// No word.
    None,
    /// The empty word alone.
    Empty,
    /// The paths before the change.
    Pre,
    /// The paths after the change.
    Post,
    /// Each word of one path symbol: a location, `drop` or `loop`.
    All,
    /// Each word of one path symbol that the member names.
    Member(Member),
    /// The words that are in one of them, or in both.
    Union(Boxed<PathExpr>, Boxed<PathExpr>),
    /// A word of the first, and then one of the second.
    Concat(Boxed<PathExpr>, Boxed<PathExpr>),
    /// The words that are in both.
    Meet(Boxed<PathExpr>, Boxed<PathExpr>),
    /// Words of the part, one after another: none, one or more.
    Star(Boxed<PathExpr>),
    /// The words of path symbols that are not in the part.
    Complement(Boxed<PathExpr>),
    /// The words that some word of the set is related to.
    Image(Boxed<PathExpr>, Boxed<RelExpr>),
}

/// A relation between words: a set of pairs.
#[derive(Drop)]
#[cycle(expr)]
pub enum RelExpr {
    /// Each word of the set with itself.
    Identity(Boxed<PathExpr>),
    /// Each word of the first set with each of the second.
    Product(Boxed<PathExpr>, Boxed<PathExpr>),
    /// Pairs of the part, one after another: none, one or more.
    Star(Boxed<RelExpr>),
    /// The pairs that are in one of them, or in both.
    Union(Boxed<RelExpr>, Boxed<RelExpr>),
    /// A pair of the first, and then one of the second.
    Concat(Boxed<RelExpr>, Boxed<RelExpr>),
    /// By the first to some word, and from that word by the second.
    Compose(Boxed<RelExpr>, Boxed<RelExpr>),
}
