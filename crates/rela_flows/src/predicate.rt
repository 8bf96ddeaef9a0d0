//! Flow classes, and the predicates that pick them.
ghost use Rattle.std.specs.Prelude.{◌≡◌, IfOk};

use crate::prefix::Prefix;
use rela_names::{Boxed, List, Name};
use std::alloc::{AllocError, Global};

/// What is said of a flow: where it goes, where it comes from, and how it is treated.
#[derive(Debug, PartialEq, Eq, Drop)]
pub struct FlowClass {
    /// The name of the flow.
    pub name: Name,
    /// The addresses that it goes to.
    pub dst: Prefix,
    /// The addresses that it comes from.
    pub src: Prefix,
    /// The name of the traffic class by which it is treated.
    pub class: Name,
}

/// A test of flow classes.
#[derive(Debug, PartialEq, Eq, Drop)]
pub enum Predicate {
    /// Every flow.
    All,
    /// Each destination of the flow lies in the prefix.
    DstIn(Prefix),
    /// Some destination of the flow lies in the prefix.
    DstOverlaps(Prefix),
    /// Each source of the flow lies in the prefix.
    SrcIn(Prefix),
    /// Some source of the flow lies in the prefix.
    SrcOverlaps(Prefix),
    /// The flow has this name.
    Flow(Name),
    /// The flow has this class.
    Class(Name),
    /// The part does not hold.
    Not(Boxed<Predicate>),
    /// Each part holds.
    And(List<Predicate>),
    /// Some part holds.
    Or(List<Predicate>),
}

impl Predicate {
    ghost use Rattle.std.specs.Prelude.{◌+◌, map};
    ghost use Rattle.rela_flows.specs.Selects.{depth, greatest};
    ghost use Rattle.rela_flows.specs.declared.predicate.Predicate.TheVariants.{Not, And, Or};

    /// The negation of the part.
    pub fn negated(alloc: Global, part: Predicate) -> Result<Predicate, AllocError>
        ensures negated { IfOk result (λ p. p ≡ Not part) }
        ensures deep { IfOk result (λ p. depth p ≡ depth part + 1) }
    {
        Ok(Predicate::Not(Boxed::new(alloc, part)?))
    }

    /// The conjunction of the parts: what holds where each part does.
    pub fn all_of(parts: List<Predicate>) -> Predicate
        ensures all { result ≡ And parts }
        ensures deep { depth result ≡ greatest (map depth parts) + 1 }
    {
        Predicate::And(parts)
    }

    /// The disjunction of the parts: what holds where some part does.
    pub fn any_of(parts: List<Predicate>) -> Predicate
        ensures any { result ≡ Or parts }
        ensures deep { depth result ≡ greatest (map depth parts) + 1 }
    {
        Predicate::Or(parts)
    }

    /// The same predicate once more. It goes as deep into the stack as the predicate is deep.
    ///
    /// Time and space: linear in the nodes and the bytes of the names.
    #[cycle(copy)]
    pub fn copy(&self, alloc: Global) -> Result<Predicate, AllocError>
        ensures { IfOk result (λ p. p ≡ self.now) }
    {
        Ok(match self {
            Predicate::All => Predicate::All,
            Predicate::DstIn(prefix) => Predicate::DstIn(*prefix),
            Predicate::DstOverlaps(prefix) => Predicate::DstOverlaps(*prefix),
            Predicate::SrcIn(prefix) => Predicate::SrcIn(*prefix),
            Predicate::SrcOverlaps(prefix) => Predicate::SrcOverlaps(*prefix),
            Predicate::Flow(name) => Predicate::Flow(name.copy(alloc)?),
            Predicate::Class(name) => Predicate::Class(name.copy(alloc)?),
            Predicate::Not(part) => Predicate::Not(Boxed::new(alloc, part.get().copy(alloc)?)?),
            Predicate::And(parts) => Predicate::And(copies(alloc, parts.as_slice())?),
            Predicate::Or(parts) => Predicate::Or(copies(alloc, parts.as_slice())?),
        })
    }
}

/// The same predicates once more, in their order.
#[cycle(copy)]
fn copies(alloc: Global, parts: &[Predicate]) -> Result<List<Predicate>, AllocError>
    ensures { IfOk result (λ copies. copies ≡ parts.now) }
{
    let mut copies = Vec::with_capacity(alloc, parts.len())?;
    for part in parts {
        copies.push(part.copy(alloc)?)?;
    }
    Ok(List::from_vec(copies))
}
