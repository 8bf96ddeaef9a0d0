//! The tree of a specification, as it is written.

use rela_flows::Predicate;
use rela_locations::By;
use rela_names::{Boxed, Level, List, Name};

/// A specification: the level of its locations, and its items in their order.
#[derive(Drop)]
pub struct SpecFile {
    /// How finely its locations are told apart.
    pub level: Level,
    /// Its definitions and checks.
    pub items: List<Item>,
}

/// A definition or a check. `at` counts the bytes of the text before the token of its name.
#[derive(Drop)]
pub enum Item {
    /// A name for a set of paths.
    Path {
        name: Name,
        at: u32,
        body: PathExpr,
    },
    /// A name for a specification of changes.
    Spec {
        name: Name,
        at: u32,
        body: SpecExpr,
    },
    /// A check of the flows that `when` selects. Where `at_most`, only added paths offend.
    Check {
        at_most: bool,
        name: Name,
        at: u32,
        when: Predicate,
        body: SpecExpr,
    },
}

/// A regular expression over locations. A list has two parts or more.
#[derive(Drop)]
pub enum PathExpr {
    /// Any one location, `drop` or `loop`.
    Any,
    /// The empty path.
    Empty,
    /// One of the locations that the member names.
    One(Member),
    /// One location that some member names, or, where negated, that none names.
    Class {
        negated: bool,
        members: List<Member>,
    },
    /// The paths that an earlier item names. `at` counts the bytes before the reference.
    Reference {
        name: Name,
        at: u32,
    },
    /// A path of each part, one after another.
    Seq(List<PathExpr>),
    /// The paths that are in some part.
    Alt(List<PathExpr>),
    /// The paths that are in each part.
    And(List<PathExpr>),
    /// The words of path symbols that are not in the part.
    Not(Boxed<PathExpr>),
    /// Paths of the part, one after another: none, one or more.
    Star(Boxed<PathExpr>),
    /// Paths of the part, one after another: one or more.
    Plus(Boxed<PathExpr>),
    /// The paths of the part, and the empty path.
    Maybe(Boxed<PathExpr>),
    /// The part `n` times in a row.
    Times {
        part: Boxed<PathExpr>,
        n: u32,
    },
}

/// What a class lists. `at` counts the bytes of the text before the token of the name.
#[derive(Drop)]
pub enum Member {
    /// The location of this name at the level of the specification.
    Here { name: Name, at: u32 },
    /// The locations within what the name picks.
    Within { by: By, name: Name, at: u32 },
    /// The symbol `drop`.
    Drop,
    /// The symbol `loop`.
    Loop,
}

/// A specification of changes. A list has two parts or more.
#[derive(Drop)]
pub enum SpecExpr {
    /// The change that the modifier asks for on the paths of the zone.
    Unit {
        zone: PathExpr,
        modifier: Modifier<PathExpr>,
    },
    /// The changes that an earlier item names. `at` counts the bytes before the reference.
    Reference {
        name: Name,
        at: u32,
    },
    /// A path falls into pieces, one of each part's in the order of the parts.
    Then(List<SpecExpr>),
    /// The first part for the paths of its zone, the next for the others that are in its own, and
    /// so on.
    Else(List<SpecExpr>),
}

/// What has to become of the paths of a zone. The paths that a modifier brings in belong to the
/// zone of its unit too.
#[derive(Drop)]
pub enum Modifier<E> {
    /// They stay.
    Preserve,
    /// They stay, and where there are any, these come to them.
    Add(E),
    /// They stay, but for these, which go.
    Remove(E),
    /// They stay, but for the first ones, and where there are any of those, the second ones come in
    /// their place.
    Replace(E, E),
    /// They are dropped.
    Drop,
    /// Where there are any of them or of these, some of these are there afterwards, and no others
    /// of the zone.
    AnyOf(E),
    /// They stay, but for these, of which nothing is said.
    Ignore(E),
}
