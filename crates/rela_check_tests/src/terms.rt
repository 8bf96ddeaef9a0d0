//! Terms: their sizes and copies.

ghost use Rattle.std.specs.Prelude.{◌≡◌, IfOk, Ok};
ghost use Rattle.rela_rir.specs.Size.{depth_of_rel};

use rela_rir::{PathTerm, RelTerm, depth, nodes, sizes_of_path_terms, sizes_of_rel_terms};
use std::alloc::{AllocError, Global};

/// Both values, or the first error. It knows of no field of either: the proof of a function that drops
/// a large value of a known type where another can't be made is long.
fn both<T: Drop, U: Drop>(
    first: Result<T, AllocError>,
    second: Result<U, AllocError>,
) -> Result<(T, U), AllocError>
    ensures first { IfOk result (λ values. first ≡ Ok values.0) }
    ensures second { IfOk result (λ values. second ≡ Ok values.1) }
{
    Ok((first?, second?))
}

/// Whether the term is that entry of the class table.
pub(crate) fn is_class(term: &PathTerm, entry: u32) -> bool {
    match term {
        PathTerm::Class(class) => *class == entry,
        _ => false,
    }
}

/// The members of entry 0 with themselves, and each of them with the word of symbol 7.
fn sample(alloc: Global) -> Result<RelTerm, AllocError>
    ensures { IfOk result (λ r. depth_of_rel r ≡ 3) }
{
    let (kept, changed) = both(
        RelTerm::identity(alloc, PathTerm::Class(0)),
        RelTerm::product(alloc, PathTerm::Class(0), PathTerm::One(7)),
    )?;
    sizes_of_path_terms();
    sizes_of_rel_terms();
    RelTerm::union(alloc, kept, changed)
}

/// The number of nodes of that relation and its depth, or `None` where there isn't memory.
fn sizes(alloc: Global) -> Option<[u64; 2]> {
    match sample(alloc) {
        Ok(relation) => Some([nodes(&relation), depth(&relation)]),
        Err(_) => None,
    }
}

/// Each form and each leaf is a node.
#[test]
fn measures(rt: HostRuntime) {
    assert_eq!(rt; sizes(rt.alloc()), Some([6, 3]));
}

/// A copy of that relation.
fn copied(alloc: Global) -> Result<RelTerm, AllocError> {
    let relation = sample(alloc)?;
    relation.copy(alloc)
}

/// Whether the relation has the two parts of that one.
fn has_both_parts(relation: &RelTerm) -> bool {
    match relation {
        RelTerm::Union(kept, changed) => {
            matches!(kept.get(), RelTerm::Identity(_))
                && matches!(changed.get(), RelTerm::Product(_, _))
        }
        _ => false,
    }
}

/// Whether it can be copied, and the copy has its parts.
fn is_copied(alloc: Global) -> bool {
    match copied(alloc) {
        Ok(relation) => has_both_parts(&relation),
        Err(_) => false,
    }
}

/// What the relation makes of the paths before the change.
fn image(alloc: Global) -> Result<PathTerm, AllocError> {
    let relation = sample(alloc)?;
    PathTerm::image(alloc, PathTerm::Pre, relation)
}

/// A copy of that image.
fn copied_image(alloc: Global) -> Result<PathTerm, AllocError> {
    let image = image(alloc)?;
    image.copy(alloc)
}

/// A copy has the form of what is copied.
#[test]
fn copies(rt: HostRuntime) {
    assert!(rt; is_copied(rt.alloc()));
    assert!(rt; matches!(copied_image(rt.alloc()), Ok(PathTerm::Image(_, _))));
}

/// The words of path symbols that aren't paths both before and after the change.
fn others(alloc: Global) -> Result<PathTerm, AllocError> {
    let paths = PathTerm::meet(alloc, PathTerm::Pre, PathTerm::Post)?;
    PathTerm::complement(alloc, paths)
}

/// The words that have symbol 1 alone, any number of times.
fn many(alloc: Global) -> Result<PathTerm, AllocError> {
    let many = PathTerm::star(alloc, PathTerm::One(1))?;
    PathTerm::concat(alloc, many, PathTerm::Empty)
}

/// The words of either set.
fn many_and_others(alloc: Global) -> Result<PathTerm, AllocError> {
    let (many, others) = both(many(alloc), others(alloc))?;
    PathTerm::union(alloc, many, others)
}

/// A path term of nested forms can be made.
#[test]
fn makes_path_terms(rt: HostRuntime) {
    assert!(rt; matches!(many_and_others(rt.alloc()), Ok(PathTerm::Union(_, _))));
}

/// Pairs of the relation, one after another: none, one or more.
fn repeated(alloc: Global) -> Result<RelTerm, AllocError> {
    let relation = sample(alloc)?;
    RelTerm::star(alloc, relation)
}

/// Those pairs, each with one more of the relation behind it.
fn longer(alloc: Global) -> Result<RelTerm, AllocError> {
    let (repeated, more) = both(repeated(alloc), sample(alloc))?;
    RelTerm::concat(alloc, repeated, more)
}

/// The composition of those pairs and the relation.
fn chained(alloc: Global) -> Result<RelTerm, AllocError> {
    let (longer, more) = both(longer(alloc), sample(alloc))?;
    RelTerm::compose(alloc, longer, more)
}

/// A relation term of nested forms can be made.
#[test]
fn makes_relation_terms(rt: HostRuntime) {
    assert!(rt; matches!(chained(rt.alloc()), Ok(RelTerm::Compose(_, _))));
}
