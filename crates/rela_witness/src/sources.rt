//! Edges turned round, by their kind.
ghost use Rattle.std.specs.Prelude.{◌≡◌, ℕ, ◌<◌, ◌⊎◌, ◌↔◌, IsTrue, IfOk, OnOk, length};
ghost use Rattle.rela_nfa.specs.Automaton.{states};
ghost use Rattle.rela_nfa.specs.Stored.{move_of};
ghost use Rattle.rela_witness.specs.Labels.{IsOfKind, HasEdge};
ghost use Rattle.rela_witness.specs.Linked.{IsLinked};

use crate::links::Links;
use rela_labels::LabelSet;
use rela_nfa::{Edge, Nfa};
use std::alloc::{AllocError, Global};

/// A kind of edges.
#[derive(Clone, Copy)]
pub(crate) enum Kind {
    /// Those without a label.
    Silent,
    /// Those that some letter takes.
    Lettered,
}

/// Whether the edge is of the kind.
fn is_of_kind<L: LabelSet>(edge: &Edge<L>, kind: Kind) -> bool
    ensures { IsTrue result ↔ IsOfKind kind (move_of L.letters edge.now).label }
{
    match (&edge.label, kind) {
        (None, Kind::Silent) => true,
        (Some(set), Kind::Lettered) => !set.is_empty(),
        (None, Kind::Lettered) => false,
        (Some(_), Kind::Silent) => false,
    }
}

/// For each state those from which edges of the kind lead to it, each once for each such edge. Time
/// and space: linear in the states and the edges.
pub(crate) fn sources<L: LabelSet>(
    alloc: Global,
    a: &Nfa<L>,
    kind: Kind,
) -> Result<Links, AllocError>
    ensures count { IfOk result (λ links. length links ≡ states a.now) }
    ensures edges { IfOk result (λ links. (p q : ℕ) → IsLinked links q p ↔ HasEdge a.now kind p q) }
{
    let mut links = Links::new(alloc, a.states())?;
    for p in 0..a.states() {
        add_source(a, &mut links, p, kind)?;
    }
    Ok(links)
}

/// Puts the state `p` on the lists of those to which its edges of the kind lead.
fn add_source<L: LabelSet>(
    a: &Nfa<L>,
    links: &mut Links,
    p: usize,
    kind: Kind,
) -> Result<(), AllocError>
    requires state { p < states a.now }
    requires links { length links.old ≡ states a.now }
    ensures count { length links.new ≡ length links.old }
    ensures added { OnOk result ((m q : ℕ) → IsLinked links.new q m ↔
        (IsLinked links.old q m ⊎ ((p ≡ m) × HasEdge a.now kind p q))) }
{
    for edge in a.edges(p) {
        if is_of_kind(edge, kind) {
            links.add(edge.to, p)?;
        }
    }
    Ok(())
}
