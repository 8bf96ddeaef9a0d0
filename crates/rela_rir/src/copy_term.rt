//! A term once more. The only error is want of memory.
ghost use Rattle.std.specs.Prelude.{◌≡◌, IfOk};

use crate::made::both;
use crate::term::{PathTerm, RelTerm};
use rela_names::Boxed;
use std::alloc::{AllocError, Global};

impl PathTerm {
    /// The same term once more. It goes as deep into the stack as the term is deep.
    ///
    /// Time and space: linear in the nodes of the term.
    #[cycle(copy)]
    pub fn copy(&self, alloc: Global) -> Result<PathTerm, AllocError>
        ensures { IfOk result (λ term. term ≡ self.now) }
    {
        Ok(match self {
            PathTerm::None => PathTerm::None,
            PathTerm::Empty => PathTerm::Empty,
            PathTerm::Class(entry) => PathTerm::Class(*entry),
            PathTerm::One(symbol) => PathTerm::One(*symbol),
            PathTerm::Union(a, b) => {
                let (a, b) = both(copy_path(alloc, a), copy_path(alloc, b))?;
                PathTerm::Union(a, b)
            }
            PathTerm::Concat(a, b) => {
                let (a, b) = both(copy_path(alloc, a), copy_path(alloc, b))?;
                PathTerm::Concat(a, b)
            }
            PathTerm::Star(part) => PathTerm::Star(copy_path(alloc, part)?),
            PathTerm::Meet(a, b) => {
                let (a, b) = both(copy_path(alloc, a), copy_path(alloc, b))?;
                PathTerm::Meet(a, b)
            }
            PathTerm::Complement(part) => PathTerm::Complement(copy_path(alloc, part)?),
            PathTerm::Pre => PathTerm::Pre,
            PathTerm::Post => PathTerm::Post,
            PathTerm::Image(set, relation) => {
                let (set, relation) = both(copy_path(alloc, set), copy_relation(alloc, relation))?;
                PathTerm::Image(set, relation)
            }
        })
    }
}

impl RelTerm {
    /// The same term once more. It goes as deep into the stack as the term is deep.
    ///
    /// Time and space: linear in the nodes of the term.
    #[cycle(copy)]
    pub fn copy(&self, alloc: Global) -> Result<RelTerm, AllocError>
        ensures { IfOk result (λ term. term ≡ self.now) }
    {
        Ok(match self {
            RelTerm::Identity(set) => RelTerm::Identity(copy_path(alloc, set)?),
            RelTerm::Product(a, b) => {
                let (a, b) = both(copy_path(alloc, a), copy_path(alloc, b))?;
                RelTerm::Product(a, b)
            }
            RelTerm::Union(a, b) => {
                let (a, b) = both(copy_relation(alloc, a), copy_relation(alloc, b))?;
                RelTerm::Union(a, b)
            }
            RelTerm::Concat(a, b) => {
                let (a, b) = both(copy_relation(alloc, a), copy_relation(alloc, b))?;
                RelTerm::Concat(a, b)
            }
            RelTerm::Star(part) => RelTerm::Star(copy_relation(alloc, part)?),
            RelTerm::Compose(a, b) => {
                let (a, b) = both(copy_relation(alloc, a), copy_relation(alloc, b))?;
                RelTerm::Compose(a, b)
            }
        })
    }
}

/// The path term in a box of its own, once more.
#[cycle(copy)]
fn copy_path(alloc: Global, term: &Boxed<PathTerm>) -> Result<Boxed<PathTerm>, AllocError>
    ensures { IfOk result (λ copy. copy ≡ term.now) }
{
    Boxed::new(alloc, term.get().copy(alloc)?)
}

/// The relation term in a box of its own, once more.
#[cycle(copy)]
fn copy_relation(alloc: Global, term: &Boxed<RelTerm>) -> Result<Boxed<RelTerm>, AllocError>
    ensures { IfOk result (λ copy. copy ≡ term.now) }
{
    Boxed::new(alloc, term.get().copy(alloc)?)
}
