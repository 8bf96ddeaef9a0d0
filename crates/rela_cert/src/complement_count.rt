//! How many complements a term has.

ghost use Rattle.std.specs.Prelude.{◌≡◌, ◌≤◌, length};
ghost use Rattle.rela_rir.specs.Complements.{complemented_parts, complemented_parts_r};
ghost use Rattle.rela_rir.specs.Size.{nodes_of_path, nodes_of_rel};

use rela_rir::{PathTerm, RelTerm};

/// How many complements there are in the relation, those in parts of parts too. Time: linear in the
/// nodes; it goes as deep into the stack as the term.
#[cycle(complements)]
#[tactic(auto, using(crate::proofs::ComplementCounts::counts_and_sizes))]
pub(crate) fn count_complements(r: &RelTerm) -> u32
    requires { nodes_of_rel r.now ≤ 20000 }
    ensures count { result ≡ length (complemented_parts_r r.now) }
    ensures few { result ≤ nodes_of_rel r.now }
{
    match r {
        RelTerm::Identity(set) => count_in_path(set.get()),
        RelTerm::Product(a, b) => count_in_path(a.get()) + count_in_path(b.get()),
        RelTerm::Union(a, b) => count_complements(a.get()) + count_complements(b.get()),
        RelTerm::Concat(a, b) => count_complements(a.get()) + count_complements(b.get()),
        RelTerm::Star(part) => count_complements(part.get()),
        RelTerm::Compose(a, b) => count_complements(a.get()) + count_complements(b.get()),
    }
}

/// How many complements there are in the path term, likewise.
#[cycle(complements)]
#[tactic(auto, using(crate::proofs::ComplementCounts::counts_and_sizes))]
fn count_in_path(t: &PathTerm) -> u32
    requires { nodes_of_path t.now ≤ 20000 }
    ensures count { result ≡ length (complemented_parts t.now) }
    ensures few { result ≤ nodes_of_path t.now }
{
    match t {
        PathTerm::Union(a, b) => count_in_path(a.get()) + count_in_path(b.get()),
        PathTerm::Concat(a, b) => count_in_path(a.get()) + count_in_path(b.get()),
        PathTerm::Star(part) => count_in_path(part.get()),
        PathTerm::Meet(a, b) => count_in_path(a.get()) + count_in_path(b.get()),
        PathTerm::Complement(part) => count_in_path(part.get()) + 1,
        PathTerm::Image(set, relation) => count_in_path(set.get())
            + count_complements(relation.get()),
        PathTerm::None
        | PathTerm::Empty
        | PathTerm::Class(_)
        | PathTerm::One(_)
        | PathTerm::Pre
        | PathTerm::Post => 0,
    }
}
