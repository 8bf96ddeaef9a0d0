//! Which flow classes a predicate selects.
ghost use Rattle.std.specs.Prelude.{◌≤◌, ◌↔◌, IsTrue, All};
ghost use Rattle.std.specs.List.{AllByRecursion};
ghost use Rattle.rela_flows.specs.Selects.{Selects, SomeByRecursion, depth};

use crate::predicate::{FlowClass, Predicate};

/// Whether the predicate selects a flow of this class. It goes as deep into the stack as the
/// predicate is deep.
///
/// Time: linear in the nodes of the predicate and the bytes of the names in it.
#[cycle(selects)]
pub fn selects(predicate: &Predicate, class: &FlowClass) -> bool
    requires { depth predicate.now ≤ 1000 }
    ensures { IsTrue result ↔ Selects predicate.now class.now }
{
    match predicate {
        Predicate::All => true,
        Predicate::DstIn(prefix) => class.dst.within(prefix),
        Predicate::DstOverlaps(prefix) => class.dst.overlaps(prefix),
        Predicate::SrcIn(prefix) => class.src.within(prefix),
        Predicate::SrcOverlaps(prefix) => class.src.overlaps(prefix),
        Predicate::Flow(name) => class.name == *name,
        Predicate::Class(name) => class.class == *name,
        Predicate::Not(part) => !selects(part.get(), class),
        Predicate::And(parts) => all_select(parts.as_slice(), class),
        Predicate::Or(parts) => any_selects(parts.as_slice(), class),
    }
}

/// Whether each of the predicates selects a flow of this class.
#[cycle(selects)]
fn all_select(parts: &[Predicate], class: &FlowClass) -> bool
    requires shallow { All (λ p. depth p ≤ 1000) parts.now }
    ensures { IsTrue result ↔ AllByRecursion (λ p. Selects p class.now) parts.now }
{
    for part in parts {
        if !selects(part, class) {
            return false;
        }
    }
    true
}

/// Whether some of the predicates selects a flow of this class.
#[cycle(selects)]
fn any_selects(parts: &[Predicate], class: &FlowClass) -> bool
    requires shallow { All (λ p. depth p ≤ 1000) parts.now }
    ensures { IsTrue result ↔ SomeByRecursion (λ p. Selects p class.now) parts.now }
{
    for part in parts {
        if selects(part, class) {
            return true;
        }
    }
    false
}
