//! Terms made of their parts, which go into boxes. The only error is want of memory.
ghost use Rattle.std.specs.Prelude.{◌≡◌, IfOk, Ok};

use crate::term::{PathTerm, RelTerm};
use rela_names::Boxed;
use std::alloc::{AllocError, Global};

impl PathTerm {
    /// The words that are in one of them, or in both.
    pub fn union(alloc: Global, a: PathTerm, b: PathTerm) -> Result<PathTerm, AllocError>
        ensures { IfOk result (λ term. term ≡ PathTerm.Union a b) }
    {
        let (a, b) = boxes(alloc, a, b)?;
        Ok(PathTerm::Union(a, b))
    }

    /// A word of the first, and then one of the second.
    pub fn concat(alloc: Global, a: PathTerm, b: PathTerm) -> Result<PathTerm, AllocError>
        ensures { IfOk result (λ term. term ≡ PathTerm.Concat a b) }
    {
        let (a, b) = boxes(alloc, a, b)?;
        Ok(PathTerm::Concat(a, b))
    }

    /// Words of the part, one after another: none, one or more.
    pub fn star(alloc: Global, part: PathTerm) -> Result<PathTerm, AllocError>
        ensures { IfOk result (λ term. term ≡ PathTerm.Star part) }
    {
        Ok(PathTerm::Star(Boxed::new(alloc, part)?))
    }

    /// The words that are in both.
    pub fn meet(alloc: Global, a: PathTerm, b: PathTerm) -> Result<PathTerm, AllocError>
        ensures { IfOk result (λ term. term ≡ PathTerm.Meet a b) }
    {
        let (a, b) = boxes(alloc, a, b)?;
        Ok(PathTerm::Meet(a, b))
    }

    /// The words of path symbols that are not in the part.
    pub fn complement(alloc: Global, part: PathTerm) -> Result<PathTerm, AllocError>
        ensures { IfOk result (λ term. term ≡ PathTerm.Complement part) }
    {
        Ok(PathTerm::Complement(Boxed::new(alloc, part)?))
    }

    /// The image of the set under the relation: the words that some word of the set is related to.
    pub fn image(alloc: Global, set: PathTerm, relation: RelTerm) -> Result<PathTerm, AllocError>
        ensures { IfOk result (λ term. term ≡ PathTerm.Image set relation) }
    {
        let (set, relation) = boxes(alloc, set, relation)?;
        Ok(PathTerm::Image(set, relation))
    }
}

impl RelTerm {
    /// Each word of the set with itself.
    pub fn identity(alloc: Global, set: PathTerm) -> Result<RelTerm, AllocError>
        ensures { IfOk result (λ term. term ≡ RelTerm.Identity set) }
    {
        Ok(RelTerm::Identity(Boxed::new(alloc, set)?))
    }

    /// Each word of the first set with each of the second.
    pub fn product(alloc: Global, a: PathTerm, b: PathTerm) -> Result<RelTerm, AllocError>
        ensures { IfOk result (λ term. term ≡ RelTerm.Product a b) }
    {
        let (a, b) = boxes(alloc, a, b)?;
        Ok(RelTerm::Product(a, b))
    }

    /// The pairs that are in one of them, or in both.
    pub fn union(alloc: Global, a: RelTerm, b: RelTerm) -> Result<RelTerm, AllocError>
        ensures { IfOk result (λ term. term ≡ RelTerm.Union a b) }
    {
        let (a, b) = boxes(alloc, a, b)?;
        Ok(RelTerm::Union(a, b))
    }

    /// A pair of the first, and then one of the second.
    pub fn concat(alloc: Global, a: RelTerm, b: RelTerm) -> Result<RelTerm, AllocError>
        ensures { IfOk result (λ term. term ≡ RelTerm.Concat a b) }
    {
        let (a, b) = boxes(alloc, a, b)?;
        Ok(RelTerm::Concat(a, b))
    }

    /// Pairs of the part, one after another: none, one or more.
    pub fn star(alloc: Global, part: RelTerm) -> Result<RelTerm, AllocError>
        ensures { IfOk result (λ term. term ≡ RelTerm.Star part) }
    {
        Ok(RelTerm::Star(Boxed::new(alloc, part)?))
    }

    /// The composition: by the first to some word, and from that word by the second.
    pub fn compose(alloc: Global, a: RelTerm, b: RelTerm) -> Result<RelTerm, AllocError>
        ensures { IfOk result (λ term. term ≡ RelTerm.Compose a b) }
    {
        let (a, b) = boxes(alloc, a, b)?;
        Ok(RelTerm::Compose(a, b))
    }
}

/// Two values in boxes. It knows of no form of a term, so that no drop of one is written out here.
fn boxes<T: Drop, U: Drop>(
    alloc: Global,
    first: T,
    second: U,
) -> Result<(Boxed<T>, Boxed<U>), AllocError>
    ensures first { IfOk result (λ boxes. boxes.0 ≡ first) }
    ensures second { IfOk result (λ boxes. boxes.1 ≡ second) }
{
    Ok((Boxed::new(alloc, first)?, Boxed::new(alloc, second)?))
}

/// Both, where both were made. So no term is held where the making of another may end.
pub(crate) fn both<T: Drop, U: Drop>(
    first: Result<T, AllocError>,
    second: Result<U, AllocError>,
) -> Result<(T, U), AllocError>
    ensures first { IfOk result (λ values. first ≡ Ok values.0) }
    ensures second { IfOk result (λ values. second ≡ Ok values.1) }
{
    Ok((first?, second?))
}
