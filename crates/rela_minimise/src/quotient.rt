//! The automaton whose states are classes of states.
ghost use Rattle.std.specs.Prelude.{◌≡◌, ℕ, ◌<◌, ◌↔◌, List, [], IfOk, length, map};
ghost use Rattle.std.specs.List.{All};
ghost use Rattle.rela_nfa.specs.Stored.{moves_in};
ghost use Rattle.rela_subset.specs.Deterministic.{IsAccepted, IsByArrival, IsDeterministic, IsOver, IsReachable, moves_of, state_after, states};
ghost use Rattle.rela_minimise.specs.Classes.{AreAlike, AreClasses, AreFirst, finality};
ghost use Rattle.rela_minimise.specs.Joining.{AreOnto, HaveEdgesOnto};

use crate::joining::put;
use crate::ordering::OrderedClasses;
use rela_labels::LabelSet;
use rela_nfa::Edge;
use rela_subset::{Bundle, Dfa};
use std::alloc::{AllocError, Global};

/// The automaton with one state for each class, where states are in one class that accept the same
/// words. It is final and has edges as the first state of the class, but of these edges one leads to
/// each class. Time: linear in the states, with a set operation for each edge that is copied or
/// joined.
pub(crate) fn quotient<L: LabelSet>(
    alloc: Global,
    dfa: &Dfa<L>,
    classes: &OrderedClasses,
) -> Result<Dfa<L>, AllocError>
    requires deterministic { IsDeterministic dfa.now }
    requires classes { AreClasses dfa.now (length classes.now.heads.items)
        classes.now.numbers.items }
    requires heads { AreFirst (states dfa.now) classes.now.numbers.items classes.now.heads.items }
    ensures over { IfOk result (λ made. made.over ≡ dfa.now.over) }
    ensures language { IfOk result (λ made. (word : List ℕ) → IsAccepted made word ↔
        IsAccepted dfa.now word) }
    ensures alike { IfOk result (λ made. (v w : List ℕ) → IsOver dfa.now.over v →
        IsOver dfa.now.over w → (state_after made v ≡ state_after made w) ↔ AreAlike dfa.now v w) }
    ensures reachable { IsReachable dfa.now → IfOk result IsReachable }
    ensures arrival { IsByArrival dfa.now → IfOk result IsByArrival }
{
    let OrderedClasses { numbers, heads } = classes;
    let finals = finals_of(alloc, dfa, heads)?;
    let edges = edges_of(alloc, dfa, numbers, heads)?;
    let start = numbers[dfa.start()];
    let made = Dfa::from_parts(alloc, dfa.over(), start, &finals, edges)?;
    Ok(made)
}

/// For each of the states whether it is final.
fn finals_of<L: LabelSet>(
    alloc: Global,
    dfa: &Dfa<L>,
    heads: &[usize],
) -> Result<Vec<bool>, AllocError>
    requires { All (λ q. q < states dfa.now) heads.now }
    ensures { IfOk result (λ finals. finals.items ≡ map (finality dfa.now) heads.now) }
{
    let mut finals = Vec::with_capacity(alloc, heads.len())?;
    for q in heads {
        finals.push(dfa.is_final(*q))?;
    }
    Ok(finals)
}

/// The edges of each of the states, to classes instead of states, of which one leads to each class.
fn edges_of<L: LabelSet>(
    alloc: Global,
    dfa: &Dfa<L>,
    classes: &[usize],
    heads: &[usize],
) -> Result<Vec<Vec<Edge<L>>>, AllocError>
    requires deterministic { IsDeterministic dfa.now }
    requires classes { length classes.now ≡ states dfa.now }
    requires counted { All (λ class. class < length heads.now) classes.now }
    requires heads { All (λ q. q < states dfa.now) heads.now }
    ensures { IfOk result (λ edges. HaveEdgesOnto dfa.now classes.now heads.now
        (moves_in L.letters edges.items)) }
{
    let mut joined = Bundle::new(alloc);
    let mut edges = Vec::with_capacity(alloc, heads.len())?;
    for q in heads {
        put_all(alloc, dfa, classes, *q, &mut joined)?;
        edges.push(joined.take_edges(alloc)?)?;
    }
    Ok(edges)
}

/// Puts the edges of the state, to classes instead of states.
fn put_all<L: LabelSet>(
    alloc: Global,
    dfa: &Dfa<L>,
    classes: &[usize],
    q: usize,
    joined: &mut Bundle<L>,
) -> Result<(), AllocError>
    requires deterministic { IsDeterministic dfa.now }
    requires classes { length classes.now ≡ states dfa.now }
    requires state { q < states dfa.now }
    requires none { joined.old ≡ [] }
    ensures { IfOk result (λ _. AreOnto (length dfa.now.over) classes.now (moves_of dfa.now q)
        joined.new) }
{
    for edge in dfa.edges(q) {
        if let Some(label) = &edge.label {
            put(alloc, joined, label, classes[edge.to])?;
        }
    }
    Ok(())
}
