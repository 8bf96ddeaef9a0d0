//! The terms of one unit: a zone and its modifier. The only error is want of memory.
ghost use Rattle.std.specs.Prelude.{◌≡◌, IfOk, Ok, length};
ghost use Rattle.std.specs.List.{All};
ghost use Rattle.rela_translate.specs.Terms.{path_of, unit_terms, without, outside};
ghost use Rattle.rela_translate.specs.Checked.{change_markers};
ghost use Rattle.rela_translate.specs.Settings.{IsMarker};

use crate::body::{Change, Expr};
use rela_names::{Alphabet, Symbol};
use rela_rir::{PathTerm, RelTerm};
use std::alloc::{AllocError, Global};

/// The words that the unit speaks of.
pub(super) fn zone_of_unit(
    alloc: Global,
    zone: &Expr,
    modifier: &Change,
    alphabet: &Alphabet,
) -> Result<PathTerm, AllocError>
    ensures { IfOk result (λ t. t ≡ (unit_terms (length alphabet.now) (path_of zone.now)
        modifier.now).zone) }
{
    match modifier {
        Change::Preserve | Change::Remove(_) | Change::Ignore(_) => path_of(alloc, zone),
        Change::Add(path) | Change::Replace(_, path) => either(alloc, zone, path),
        Change::Drop => or_symbol(alloc, zone, alphabet.drop_symbol()),
        Change::AnyOf { path, .. } => either(alloc, zone, path),
    }
}

/// The relation that the paths before the change are seen through.
#[tactic(auto, using(crate::proofs::Markers::unit_markers))]
pub(super) fn before_of_unit(
    alloc: Global,
    zone: &Expr,
    modifier: &Change,
    alphabet: &Alphabet,
) -> Result<RelTerm, AllocError>
    requires { All IsMarker (change_markers modifier.now) }
    ensures { IfOk result (λ r. r ≡ (unit_terms (length alphabet.now) (path_of zone.now)
        modifier.now).before) }
{
    match modifier {
        Change::Preserve => RelTerm::identity(alloc, path_of(alloc, zone)?),
        Change::Add(path) => added(alloc, zone, path),
        Change::Remove(path) | Change::Ignore(path) => kept_without(alloc, zone, path),
        Change::Replace(old, new) => replaced(alloc, zone, old, new),
        Change::Drop => dropped(alloc, zone, alphabet.drop_symbol()),
        Change::AnyOf { path, marker } => marked(
            alloc,
            either(alloc, zone, path)?,
            alphabet.marker(*marker),
        ),
    }
}

/// The relation that the paths after the change are seen through.
#[tactic(auto, using(crate::proofs::Markers::unit_markers))]
pub(super) fn after_of_unit(
    alloc: Global,
    zone: &Expr,
    modifier: &Change,
    alphabet: &Alphabet,
) -> Result<RelTerm, AllocError>
    requires { All IsMarker (change_markers modifier.now) }
    ensures { IfOk result (λ r. r ≡ (unit_terms (length alphabet.now) (path_of zone.now)
        modifier.now).after) }
{
    match modifier {
        Change::Preserve | Change::Remove(_) => RelTerm::identity(alloc, path_of(alloc, zone)?),
        Change::Add(path) | Change::Replace(_, path) => kept_or(alloc, zone, path),
        Change::Drop => RelTerm::identity(alloc, or_symbol(alloc, zone, alphabet.drop_symbol())?),
        Change::AnyOf { path, marker } => any_of(alloc, zone, path, alphabet.marker(*marker)),
        Change::Ignore(ignored) => kept_without(alloc, zone, ignored),
    }
}

/// The words of the path expression.
#[tactic(auto, using(crate::proofs::TermForms::path_forms))]
pub(super) fn path_of(alloc: Global, path: &Expr) -> Result<PathTerm, AllocError>
    ensures { IfOk result (λ t. t ≡ path_of path.now) }
{
    match path {
        Expr::Empty => Ok(PathTerm::Empty),
        Expr::Class(entry) => Ok(PathTerm::Class(*entry)),
        Expr::Seq(a, b) => {
            let (a, b) = both(path_of(alloc, a.get()), path_of(alloc, b.get()))?;
            PathTerm::concat(alloc, a, b)
        }
        Expr::Alt(a, b) => {
            let (a, b) = both(path_of(alloc, a.get()), path_of(alloc, b.get()))?;
            PathTerm::union(alloc, a, b)
        }
        Expr::Meet(a, b) => {
            let (a, b) = both(path_of(alloc, a.get()), path_of(alloc, b.get()))?;
            PathTerm::meet(alloc, a, b)
        }
        Expr::Not(part) => PathTerm::complement(alloc, path_of(alloc, part.get())?),
        Expr::Star(part) => PathTerm::star(alloc, path_of(alloc, part.get())?),
    }
}

/// Both terms, or the first error. A caller makes both before it looks at either, so that no term
/// is held where the making of another may fail.
pub(super) fn both<T: Drop, U: Drop>(
    first: Result<T, AllocError>,
    second: Result<U, AllocError>,
) -> Result<(T, U), AllocError>
    ensures first { IfOk result (λ terms. first ≡ Ok terms.0) }
    ensures second { IfOk result (λ terms. second ≡ Ok terms.1) }
{
    Ok((first?, second?))
}

/// The words of either expression.
fn either(alloc: Global, x: &Expr, y: &Expr) -> Result<PathTerm, AllocError>
    ensures { IfOk result (λ t. t ≡ PathTerm.Union (path_of x.now) (path_of y.now)) }
{
    let (x, y) = both(path_of(alloc, x), path_of(alloc, y))?;
    PathTerm::union(alloc, x, y)
}

/// The words of the expression, and the word of the symbol alone.
fn or_symbol(alloc: Global, x: &Expr, symbol: Symbol) -> Result<PathTerm, AllocError>
    ensures { IfOk result (λ t. t ≡ PathTerm.Union (path_of x.now) (PathTerm.One symbol)) }
{
    PathTerm::union(alloc, path_of(alloc, x)?, PathTerm::One(symbol))
}

/// The words of path symbols in the first that are not in the second.
fn without(alloc: Global, x: PathTerm, y: PathTerm) -> Result<PathTerm, AllocError>
    ensures { IfOk result (λ t. t ≡ without x y) }
{
    let (x, others) = both(Ok(x), PathTerm::complement(alloc, y))?;
    PathTerm::meet(alloc, x, others)
}

/// The identity on the words of the zone that are not in the path expression.
fn kept_without(alloc: Global, zone: &Expr, path: &Expr) -> Result<RelTerm, AllocError>
    ensures { IfOk result (λ r. r ≡ RelTerm.Identity (without (path_of zone.now)
        (path_of path.now))) }
{
    let (zone, path) = both(path_of(alloc, zone), path_of(alloc, path))?;
    RelTerm::identity(alloc, without(alloc, zone, path)?)
}

/// The identity on the words of either expression.
fn kept_or(alloc: Global, x: &Expr, y: &Expr) -> Result<RelTerm, AllocError>
    ensures { IfOk result (λ r. r ≡ RelTerm.Identity (PathTerm.Union (path_of x.now)
        (path_of y.now))) }
{
    RelTerm::identity(alloc, either(alloc, x, y)?)
}

/// The product: each word of the first with each word of the second.
fn with_each(alloc: Global, x: &Expr, y: &Expr) -> Result<RelTerm, AllocError>
    ensures { IfOk result (λ r. r ≡ RelTerm.Product (path_of x.now) (path_of y.now)) }
{
    let (x, y) = both(path_of(alloc, x), path_of(alloc, y))?;
    RelTerm::product(alloc, x, y)
}

/// Each word of the set with the word of the symbol alone.
fn marked(alloc: Global, set: PathTerm, symbol: Symbol) -> Result<RelTerm, AllocError>
    ensures { IfOk result (λ r. r ≡ RelTerm.Product set (PathTerm.One symbol)) }
{
    RelTerm::product(alloc, set, PathTerm::One(symbol))
}

/// Each word of the zone and each added path with itself, and each word of the zone with each added
/// path.
fn added(alloc: Global, zone: &Expr, path: &Expr) -> Result<RelTerm, AllocError>
    ensures { IfOk result (λ r. r ≡ RelTerm.Union
        (RelTerm.Identity (PathTerm.Union (path_of zone.now) (path_of path.now)))
        (RelTerm.Product (path_of zone.now) (path_of path.now))) }
{
    let (kept, come) = both(kept_or(alloc, zone, path), with_each(alloc, zone, path))?;
    RelTerm::union(alloc, kept, come)
}

/// Each word of the zone and each new path with itself, but for the old paths of the zone, and each
/// of those with each new path.
fn replaced(alloc: Global, zone: &Expr, old: &Expr, new: &Expr) -> Result<RelTerm, AllocError>
    ensures { IfOk result (λ r. r ≡ RelTerm.Union
        (RelTerm.Identity (without (PathTerm.Union (path_of zone.now) (path_of new.now))
        (PathTerm.Meet (path_of old.now) (path_of zone.now))))
        (RelTerm.Product (PathTerm.Meet (path_of old.now) (path_of zone.now)) (path_of new.now))) }
{
    let (kept, come) = both(
        not_replaced(alloc, zone, old, new),
        replacing(alloc, zone, old, new),
    )?;
    RelTerm::union(alloc, kept, come)
}

/// The identity on the words of the zone and the new paths, but for the old paths of the zone.
fn not_replaced(alloc: Global, zone: &Expr, old: &Expr, new: &Expr) -> Result<RelTerm, AllocError>
    ensures { IfOk result (λ r. r ≡ RelTerm.Identity
        (without (PathTerm.Union (path_of zone.now) (path_of new.now))
        (PathTerm.Meet (path_of old.now) (path_of zone.now)))) }
{
    let (all, gone) = both(either(alloc, zone, new), common(alloc, old, zone))?;
    RelTerm::identity(alloc, without(alloc, all, gone)?)
}

/// Each old path of the zone with each new path.
fn replacing(alloc: Global, zone: &Expr, old: &Expr, new: &Expr) -> Result<RelTerm, AllocError>
    ensures { IfOk result (λ r. r ≡ RelTerm.Product
        (PathTerm.Meet (path_of old.now) (path_of zone.now)) (path_of new.now)) }
{
    let (gone, new) = both(common(alloc, old, zone), path_of(alloc, new))?;
    RelTerm::product(alloc, gone, new)
}

/// The words that are in both.
fn common(alloc: Global, x: &Expr, y: &Expr) -> Result<PathTerm, AllocError>
    ensures { IfOk result (λ t. t ≡ PathTerm.Meet (path_of x.now) (path_of y.now)) }
{
    let (x, y) = both(path_of(alloc, x), path_of(alloc, y))?;
    PathTerm::meet(alloc, x, y)
}

/// Each word of the zone, and the word of the end alone, with the word of the end.
fn dropped(alloc: Global, zone: &Expr, end: Symbol) -> Result<RelTerm, AllocError>
    ensures { IfOk result (λ r. r ≡ RelTerm.Product
        (PathTerm.Union (path_of zone.now) (PathTerm.One end)) (PathTerm.One end)) }
{
    marked(alloc, or_symbol(alloc, zone, end)?, end)
}

/// Each path that is asked for with the marker, and the others of the zone with themselves.
fn any_of(alloc: Global, zone: &Expr, path: &Expr, marker: Symbol) -> Result<RelTerm, AllocError>
    ensures { IfOk result (λ r. r ≡ RelTerm.Union
        (RelTerm.Product (path_of path.now) (PathTerm.One marker))
        (RelTerm.Identity (without (path_of zone.now) (path_of path.now)))) }
{
    let asked = marked(alloc, path_of(alloc, path)?, marker);
    let (asked, kept) = both(asked, kept_without(alloc, zone, path))?;
    RelTerm::union(alloc, asked, kept)
}

/// The pairs of the relation whose first word is of path symbols and not in the set.
pub(super) fn outside(
    alloc: Global,
    set: PathTerm,
    relation: RelTerm,
) -> Result<RelTerm, AllocError>
    ensures { IfOk result (λ r. r ≡ outside set relation) }
{
    let (relation, others) = both(Ok(relation), PathTerm::complement(alloc, set))?;
    let (others, relation) = both(RelTerm::identity(alloc, others), Ok(relation))?;
    RelTerm::compose(alloc, others, relation)
}
