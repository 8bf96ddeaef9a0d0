//! The automaton of the acts of a transducer.
ghost use Rattle.std.specs.Prelude.{◌≡◌, ◌<◌, ◌^◌, IfOk, map};
ghost use Rattle.std.specs.List.{All, range_with_len};
ghost use Rattle.std.specs.Option.{option_map};
ghost use Rattle.rela_nfa.specs.Stored.{move_of as edge_of, moves_in as edges_in};
ghost use Rattle.rela_trans.specs.Machine.{IsSized, machine_states};
ghost use Rattle.rela_trans.specs.Stored.{kind_of, move_of};
ghost use Rattle.rela_restriction.specs.Automata.{act_automaton, act_count, act_edge, act_edges, act_label};

use crate::moved::moved;
use rela_labels::LabelSet;
use rela_nfa::{Edge, Nfa};
use rela_trans::{Move, MoveKind, Transducer};
use std::alloc::{AllocError, Global};

/// The letters of the acts of a move of this kind, and `None` where it does nothing.
fn act_label<L: LabelSet>(
    alloc: Global,
    kind: &MoveKind<L>,
    letters: u32,
) -> Result<Option<L>, AllocError>
    requires fits { L.fits (act_count letters) }
    requires few { act_count letters < 2 ^ 32 }
    requires sized { IsSized letters (kind_of L.letters kind.now) }
    ensures { IfOk result (λ label. option_map L.letters label
        ≡ act_label letters (kind_of L.letters kind.now)) }
{
    let size = letters + (letters + letters);
    match kind {
        MoveKind::Silent => Ok(None),
        MoveKind::In(set) => Ok(Some(moved(alloc, set, size, 0)?)),
        MoveKind::Out(set) => Ok(Some(moved(alloc, set, size, letters)?)),
        MoveKind::Same(set) => Ok(Some(moved(alloc, set, size, letters + letters)?)),
    }
}

/// An edge for each of the moves, by the letters of its acts.
fn edges_for<L: LabelSet>(
    alloc: Global,
    moves: &[Move<L>],
    letters: u32,
) -> Result<Vec<Edge<L>>, AllocError>
    requires fits { L.fits (act_count letters) }
    requires few { act_count letters < 2 ^ 32 }
    requires sized { All (λ edge. IsSized letters (kind_of L.letters edge.kind)) moves.now }
    ensures { IfOk result (λ edges. map (edge_of L.letters) edges.items
        ≡ map (act_edge letters) (map (move_of L.letters) moves.now)) }
{
    let mut edges = Vec::with_capacity(alloc, moves.len())?;
    for edge in moves {
        let label = act_label(alloc, &edge.kind, letters)?;
        edges.push(Edge { label, to: edge.to })?;
    }
    Ok(edges)
}

/// The edges of each state.
fn act_lists<L: LabelSet>(
    alloc: Global,
    transducer: &Transducer<L>,
) -> Result<Vec<Vec<Edge<L>>>, AllocError>
    requires fits { L.fits (act_count transducer.now.letters) }
    requires few { act_count transducer.now.letters < 2 ^ 32 }
    ensures { IfOk result (λ lists. edges_in L.letters lists.items
        ≡ map (act_edges transducer.now) (range_with_len 0 (machine_states transducer.now))) }
{
    let letters = transducer.letters();
    let mut lists = Vec::with_capacity(alloc, transducer.states())?;
    for q in 0..transducer.states() {
        lists.push(edges_for(alloc, transducer.moves(q), letters)?)?;
    }
    Ok(lists)
}

/// For each state whether it is final.
fn finals_of<L: LabelSet>(
    alloc: Global,
    transducer: &Transducer<L>,
) -> Result<Vec<bool>, AllocError>
    ensures { IfOk result (λ finals. finals.items ≡ transducer.now.finals) }
{
    let mut finals = Vec::with_capacity(alloc, transducer.states())?;
    for q in 0..transducer.states() {
        finals.push(transducer.is_final(q))?;
    }
    Ok(finals)
}

/// The automaton with the transducer's states, and an edge for each of its moves. Its letters are
/// acts: it accepts what the transducer may do for a pair of words that it relates. Time and space:
/// for each move a step for each letter.
pub(crate) fn act_automaton<L: LabelSet>(
    alloc: Global,
    transducer: &Transducer<L>,
) -> Result<Nfa<L>, AllocError>
    requires fits { L.fits (act_count transducer.now.letters) }
    requires few { act_count transducer.now.letters < 2 ^ 32 }
    ensures { IfOk result (λ nfa. nfa ≡ act_automaton transducer.now) }
{
    let letters = transducer.letters();
    let size = letters + (letters + letters);
    let finals = finals_of(alloc, transducer)?;
    let edges = act_lists(alloc, transducer)?;
    let nfa = Nfa::from_parts(alloc, size, transducer.start(), &finals, edges)?;
    Ok(nfa)
}
