//! How large a term is. Both measures go as deep into the stack as the term is deep, so they ask for a
//! term whose depth is at most 1,000.
ghost use Rattle.std.specs.Prelude.{◌≡◌, ◌+◌, ◌-◌, ◌^◌, ◌≤◌, min};
ghost use Rattle.rela_rir.specs.Size.{nodes_of_path, nodes_of_rel, depth_of_path, depth_of_rel};

use crate::term::{PathTerm, RelTerm};

/// The number of nodes of the term, which are one and those of its parts; a class is one node.
/// Where there are more than 2^64 - 1, it is 2^64 - 1.
///
/// Time: linear in the nodes.
#[cycle(nodes)]
#[tactic(auto, using(crate::proofs::SizeForms::size_forms))]
pub fn nodes(r: &RelTerm) -> u64
    requires { depth_of_rel r.now ≤ 1000 }
    ensures { result ≡ min (nodes_of_rel r.now) (2 ^ 64 - 1) }
{
    match r {
        RelTerm::Identity(set) => path_nodes(set.get()).saturating_add(1),
        RelTerm::Product(a, b) => with_parts(path_nodes(a.get()), path_nodes(b.get())),
        RelTerm::Union(a, b) => with_parts(nodes(a.get()), nodes(b.get())),
        RelTerm::Concat(a, b) => with_parts(nodes(a.get()), nodes(b.get())),
        RelTerm::Star(part) => nodes(part.get()).saturating_add(1),
        RelTerm::Compose(a, b) => with_parts(nodes(a.get()), nodes(b.get())),
    }
}

/// The number of nodes of a path term, up to 2^64 - 1 likewise.
#[cycle(nodes)]
#[tactic(auto, using(crate::proofs::SizeForms::size_forms))]
fn path_nodes(t: &PathTerm) -> u64
    requires { depth_of_path t.now ≤ 1000 }
    ensures { result ≡ min (nodes_of_path t.now) (2 ^ 64 - 1) }
{
    match t {
        PathTerm::Union(a, b) => with_parts(path_nodes(a.get()), path_nodes(b.get())),
        PathTerm::Concat(a, b) => with_parts(path_nodes(a.get()), path_nodes(b.get())),
        PathTerm::Star(part) => path_nodes(part.get()).saturating_add(1),
        PathTerm::Meet(a, b) => with_parts(path_nodes(a.get()), path_nodes(b.get())),
        PathTerm::Complement(part) => path_nodes(part.get()).saturating_add(1),
        PathTerm::Image(set, relation) => with_parts(path_nodes(set.get()), nodes(relation.get())),
        PathTerm::None
        | PathTerm::Empty
        | PathTerm::Class(_)
        | PathTerm::One(_)
        | PathTerm::Pre
        | PathTerm::Post => 1,
    }
}

/// The number of nodes of a term whose two parts have these: one more than both, up to 2^64 - 1.
fn with_parts(a: u64, b: u64) -> u64
    ensures { result ≡ min (a + b + 1) (2 ^ 64 - 1) }
{
    a.saturating_add(b).saturating_add(1)
}

/// The number of nodes on a longest way down the term: 1 more than that of its deepest part.
///
/// Time: linear in the nodes.
#[cycle(depth)]
#[tactic(auto, using(crate::proofs::SizeForms::depth_forms))]
pub fn depth(r: &RelTerm) -> u64
    requires { depth_of_rel r.now ≤ 1000 }
    ensures { result ≡ depth_of_rel r.now }
{
    match r {
        RelTerm::Identity(set) => path_depth(set.get()) + 1,
        RelTerm::Product(a, b) => path_depth(a.get()).max(path_depth(b.get())) + 1,
        RelTerm::Union(a, b) => depth(a.get()).max(depth(b.get())) + 1,
        RelTerm::Concat(a, b) => depth(a.get()).max(depth(b.get())) + 1,
        RelTerm::Star(part) => depth(part.get()) + 1,
        RelTerm::Compose(a, b) => depth(a.get()).max(depth(b.get())) + 1,
    }
}

/// The number of nodes on a longest way down a path term.
#[cycle(depth)]
#[tactic(auto, using(crate::proofs::SizeForms::depth_forms))]
fn path_depth(t: &PathTerm) -> u64
    requires { depth_of_path t.now ≤ 1000 }
    ensures { result ≡ depth_of_path t.now }
{
    match t {
        PathTerm::Union(a, b) => path_depth(a.get()).max(path_depth(b.get())) + 1,
        PathTerm::Concat(a, b) => path_depth(a.get()).max(path_depth(b.get())) + 1,
        PathTerm::Star(part) => path_depth(part.get()) + 1,
        PathTerm::Meet(a, b) => path_depth(a.get()).max(path_depth(b.get())) + 1,
        PathTerm::Complement(part) => path_depth(part.get()) + 1,
        PathTerm::Image(set, relation) => path_depth(set.get()).max(depth(relation.get())) + 1,
        PathTerm::None
        | PathTerm::Empty
        | PathTerm::Class(_)
        | PathTerm::One(_)
        | PathTerm::Pre
        | PathTerm::Post => 1,
    }
}
