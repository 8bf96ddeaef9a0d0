//! The body of a check: zones of paths, and what has to become of them.

use rela_names::Boxed;

/// A set of paths.
#[derive(Drop)]
pub enum Expr {
    /// The empty path alone.
    Empty,
    /// Each path of one path symbol that is in this entry of the class table.
    Class(u32),
    /// A path of the first, and then one of the second.
    Seq(Boxed<Expr>, Boxed<Expr>),
    /// The paths that are in one of them, or in both.
    Alt(Boxed<Expr>, Boxed<Expr>),
    /// The paths that are in both.
    Meet(Boxed<Expr>, Boxed<Expr>),
    /// The words of path symbols that are not in the part.
    Not(Boxed<Expr>),
    /// Paths of the part, one after another: none, one or more.
    Star(Boxed<Expr>),
}

/// What has to become of the paths of a zone. The paths that a modifier brings in belong to the zone
/// of its unit too.
#[derive(Drop)]
pub enum Change {
    /// They stay.
    Preserve,
    /// They stay, and where there are any, these come to them.
    Add(Expr),
    /// They stay, but for these, which go.
    Remove(Expr),
    /// They stay, but for the first ones, and where there are any of those, the second ones come in
    /// their place.
    Replace(Expr, Expr),
    /// They are dropped.
    Drop,
    /// Where there are any of them or of these, some of these are there afterwards, and no others of
    /// the zone.
    AnyOf {
        /// The paths that are asked for.
        path: Expr,
        /// The number of the marker that stands for them.
        marker: u32,
    },
    /// They stay, but for these, of which nothing is said.
    Ignore(Expr),
}

/// The body of a check.
#[derive(Drop)]
pub enum Core {
    /// The change that the modifier asks for on the paths of the zone.
    Unit {
        /// The paths that are spoken of.
        zone: Expr,
        /// What has to become of them.
        modifier: Change,
    },
    /// A path has a front of the first and a rest of the second.
    Then(Boxed<Core>, Boxed<Core>),
    /// The first for the paths of its zone, and the second for others.
    Else(Boxed<Core>, Boxed<Core>),
}
