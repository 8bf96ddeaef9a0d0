//! Transducers that read or write the words of automata.
ghost use Rattle.std.specs.Prelude.{◌≡◌, ℕ, ◌+◌, ◌<◌, ◌↔◌, List, [], IfOk, map};
ghost use Rattle.std.specs.List.{range_with_len};
ghost use Rattle.rela_nfa.specs.Automaton.{states};
ghost use Rattle.rela_nfa.specs.Runs.{Reach, Accepts};
ghost use Rattle.rela_nfa.specs.Stored.{move_of as edge_of};
ghost use Rattle.rela_trans.specs.Machine.{machine_states};
ghost use Rattle.rela_trans.specs.Runs.{ReachR, Relates};
ghost use Rattle.rela_trans.specs.Stored.{kind_of, move_of, moves_in};
ghost use Rattle.rela_trans.specs.Tapes.{kind_on, lifted, lifted_at, OnTape};

use crate::moves::{Move, MoveKind};
use crate::transducer::Transducer;
use rela_labels::LabelSet;
use rela_nfa::{Edge, Nfa};
use std::alloc::{AllocError, Global};

/// Where the words of an automaton stand.
#[derive(Clone, Copy, Debug)]
pub(crate) enum Tape {
    /// They are read.
    Input,
    /// They are written.
    Output,
    /// They are read and written again.
    Both,
}

/// The kind of move that has a letter of the set on the tape.
fn kind_on<L: LabelSet>(tape: Tape, set: L) -> MoveKind<L>
    ensures { kind_of L.letters result ≡ kind_on tape (L.letters set) }
{
    match tape {
        Tape::Input => MoveKind::In(set),
        Tape::Output => MoveKind::Out(set),
        Tape::Both => MoveKind::Same(set),
    }
}

/// The edge as a move, with its letter on the tape. The label is copied.
fn lifted<L: LabelSet>(alloc: Global, edge: &Edge<L>, tape: Tape) -> Result<Move<L>, AllocError>
    ensures { IfOk result (λ result. move_of L.letters result
        ≡ lifted tape (edge_of L.letters edge.now)) }
{
    let to = edge.to;
    match &edge.label {
        Some(set) => Ok(Move {
            kind: kind_on(tape, set.copy(alloc)?),
            to,
        }),
        None => Ok(Move {
            kind: MoveKind::Silent,
            to,
        }),
    }
}

/// Each of the edges as a move, with its letter on the tape.
fn lifted_edges<L: LabelSet>(
    alloc: Global,
    edges: &[Edge<L>],
    tape: Tape,
) -> Result<Vec<Move<L>>, AllocError>
    ensures { IfOk result (λ moves. map (move_of L.letters) moves.items
        ≡ map (lifted tape) (map (edge_of L.letters) edges.now)) }
{
    let mut moves = Vec::with_capacity(alloc, edges.len())?;
    for edge in edges {
        moves.push(lifted(alloc, edge, tape)?)?;
    }
    Ok(moves)
}

/// The edges of each state as moves, with their letters on the tape.
fn lifted_lists<L: LabelSet>(
    alloc: Global,
    a: &Nfa<L>,
    tape: Tape,
) -> Result<Vec<Vec<Move<L>>>, AllocError>
    ensures { IfOk result (λ moves. moves_in L.letters moves.items
        ≡ map (lifted_at tape a.now) (range_with_len 0 (states a.now))) }
{
    let mut moves = Vec::with_capacity(alloc, a.states())?;
    for q in 0..a.states() {
        moves.push(lifted_edges(alloc, a.edges(q), tape)?)?;
    }
    Ok(moves)
}

/// A transducer whose words on the tape are those of the automaton. The states are the same.
fn on_tape<L: LabelSet>(alloc: Global, a: &Nfa<L>, tape: Tape) -> Result<Transducer<L>, AllocError>
    ensures letters { IfOk result (λ t. t.letters ≡ a.now.letters) }
    ensures states { IfOk result (λ t. machine_states t ≡ states a.now) }
    ensures reached { IfOk result (λ t. (read : ℕ → ℕ) (q : ℕ) (u v : List ℕ)
        → ReachR read t q u v ↔ OnTape tape (λ w. Reach a.now q (map read w)) u v) }
    ensures relation { IfOk result (λ t. (read : ℕ → ℕ) (u v : List ℕ)
        → Relates read t u v ↔ OnTape tape (λ w. Accepts a.now (map read w)) u v) }
{
    let finals = finals_of(alloc, a)?;
    let moves = lifted_lists(alloc, a, tape)?;
    Ok(Transducer {
        letters: a.letters(),
        start: a.start(),
        finals,
        moves,
    })
}

/// For each state whether it is final.
fn finals_of<L: LabelSet>(alloc: Global, a: &Nfa<L>) -> Result<Vec<bool>, AllocError>
    ensures { IfOk result (λ finals. finals.items ≡ a.now.finals) }
{
    let mut finals = Vec::with_capacity(alloc, a.states())?;
    for q in 0..a.states() {
        finals.push(a.is_final(q))?;
    }
    Ok(finals)
}

impl<L: LabelSet> Transducer<L> {
    /// Each word of the automaton with itself, symbol for symbol. The states are those of the
    /// automaton. Time and space: linear in the automaton, whose labels are copied.
    pub fn identity(alloc: Global, a: &Nfa<L>) -> Result<Transducer<L>, AllocError>
        ensures letters { IfOk result (λ t. t.letters ≡ a.now.letters) }
        ensures states { IfOk result (λ t. machine_states t ≡ states a.now) }
        ensures reached { IfOk result (λ t. (read : ℕ → ℕ) (q : ℕ) (u v : List ℕ)
            → ReachR read t q u v ↔ (Reach a.now q (map read u) × (v ≡ u))) }
        ensures relation { IfOk result (λ t. (read : ℕ → ℕ) (u v : List ℕ)
            → Relates read t u v ↔ (Accepts a.now (map read u) × (v ≡ u))) }
    {
        on_tape(alloc, a, Tape::Both)
    }

    /// Each word of the first automaton with each of the second. First a word of `a` is read by the
    /// states of `a`, and then one of `b` is written by those of `b`. Time and space: linear in
    /// both automata, whose labels are copied.
    pub fn product(alloc: Global, a: &Nfa<L>, b: &Nfa<L>) -> Result<Transducer<L>, AllocError>
        requires letters { a.now.letters ≡ b.now.letters }
        ensures letters { IfOk result (λ t. t.letters ≡ a.now.letters) }
        ensures states { IfOk result (λ t. machine_states t ≡ states a.now + states b.now) }
        ensures first { IfOk result (λ t. (read : ℕ → ℕ) (q : ℕ) (u v : List ℕ) → q < states a.now
            → ReachR read t q u v ↔ (Reach a.now q (map read u) × (v ≡ []))) }
        ensures second { IfOk result (λ t. (read : ℕ → ℕ) (q : ℕ) (u v : List ℕ)
            → ReachR read t (states a.now + q) u v ↔
            (Accepts a.now (map read u) × Reach b.now q (map read v))) }
        ensures relation { IfOk result (λ t. (read : ℕ → ℕ) (u v : List ℕ)
            → Relates read t u v ↔ (Accepts a.now (map read u) × Accepts b.now (map read v))) }
    {
        let reading = on_tape(alloc, a, Tape::Input)?;
        let writing = on_tape(alloc, b, Tape::Output)?;
        reading.into_concat(alloc, writing)
    }
}
