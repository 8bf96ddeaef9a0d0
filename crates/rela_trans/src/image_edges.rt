//! The automaton of what a transducer writes for the words of an automaton.
ghost use Rattle.std.specs.Prelude.{◌≡◌, ◌<◌, [], IfOk, OnOk, map, length};
ghost use Rattle.std.specs.List.{All, range_with_len};
ghost use Rattle.std.specs.Option.{ForSome, option_map};
ghost use Rattle.rela_nfa.specs.Automaton.{states};
ghost use Rattle.rela_nfa.specs.Directing.{extended};
ghost use Rattle.rela_nfa.specs.Stored.{move_of as edge_of};
ghost use Rattle.rela_trans.specs.Composition.{joint_moves, numbered, product_moves_at};
ghost use Rattle.rela_trans.specs.ImageMoves.{source_of, read_by, written_label, written_labels, alone_labels, read_labels, final_image};
ghost use Rattle.rela_trans.specs.Images.{written_edges};
ghost use Rattle.rela_trans.specs.Machine.{IsSized, machine_states};
ghost use Rattle.rela_trans.specs.Stored.{kind_of, move_of};

use crate::joint::{after_same, second_alone};
use crate::moves::{Move, MoveKind};
use crate::transducer::Transducer;
use rela_labels::LabelSet;
use rela_nfa::{Edge, EdgeLists, Nfa, add_directed, add_silent};
use rela_pairs::{Explored, Pair};
use std::alloc::{AllocError, Global};

/// What a move of this kind writes, as a label: `None` where it writes nothing.
fn written_label<L: LabelSet>(kind: MoveKind<L>) -> Option<L>
    ensures { option_map L.letters result ≡ written_label (kind_of L.letters kind) }
{
    match kind {
        MoveKind::Silent => None,
        MoveKind::In(_) => None,
        MoveKind::Out(set) => Some(set),
        MoveKind::Same(set) => Some(set),
    }
}

/// Adds an edge by what a move of this kind writes, where there is a kind, to the next of the
/// targets.
fn add_written<L: LabelSet>(
    edges: &mut Vec<Edge<L>>,
    kind: Option<MoveKind<L>>,
    targets: &[usize],
) -> Result<(), AllocError>
    ensures { OnOk result (map (edge_of L.letters) edges.new.items
        ≡ extended (map (edge_of L.letters) edges.old.items)
        (written_labels (option_map (kind_of L.letters) kind)) targets.now) }
{
    if let Some(kind) = kind {
        add_directed(edges, written_label(kind), targets)?;
    }
    Ok(())
}

/// Adds what the transducer does by these moves while the automaton stays: they read nothing.
fn add_alone<L: LabelSet>(
    alloc: Global,
    edges: &mut Vec<Edge<L>>,
    moves: &[Move<L>],
    targets: &[usize],
) -> Result<(), AllocError>
    ensures { OnOk result (map (edge_of L.letters) edges.new.items
        ≡ extended (map (edge_of L.letters) edges.old.items)
        (alone_labels (map (move_of L.letters) moves.now)) targets.now) }
{
    for second in moves {
        let alone = second_alone(alloc, &second.kind)?;
        add_written(edges, alone, targets)?;
    }
    Ok(())
}

/// Adds an edge by what the move writes where it reads a letter of the automaton's edge, if it
/// reads one, to the next of the targets.
fn add_if_read<L: LabelSet>(
    alloc: Global,
    edges: &mut Vec<Edge<L>>,
    source: &Edge<L>,
    second: &Move<L>,
    targets: &[usize],
) -> Result<(), AllocError>
    requires { ForSome source.now.label (λ read.
        IsSized (length (L.letters read)) (kind_of L.letters second.now.kind)) }
    ensures { OnOk result (map (edge_of L.letters) edges.new.items
        ≡ extended (map (edge_of L.letters) edges.old.items)
        (written_labels (read_by (edge_of L.letters source.now).label
        (kind_of L.letters second.now.kind))) targets.now) }
{
    if let Some(read) = &source.label {
        let both = after_same(alloc, read, &second.kind)?;
        add_written(edges, both, targets)?;
    }
    Ok(())
}

/// Adds an edge for each of the moves that reads a letter of the automaton's edge, by what it
/// writes then, to the next of the targets.
fn add_read<L: LabelSet>(
    alloc: Global,
    edges: &mut Vec<Edge<L>>,
    source: &Edge<L>,
    moves: &[Move<L>],
    targets: &[usize],
) -> Result<(), AllocError>
    requires { ForSome source.now.label (λ read.
        All (λ second. IsSized (length (L.letters read)) (kind_of L.letters second.kind))
        moves.now) }
    ensures { OnOk result (map (edge_of L.letters) edges.new.items
        ≡ extended (map (edge_of L.letters) edges.old.items)
        (read_labels (edge_of L.letters source.now).label (map (move_of L.letters) moves.now))
        targets.now) }
{
    for second in moves {
        add_if_read(alloc, edges, source, second, targets)?;
    }
    Ok(())
}

/// Adds the edges by what is written from a pair of states on, to these numbers of the pairs to
/// which they lead, in the order in which the pairs were found to follow. There are none before.
fn add_edges_from<L: LabelSet>(
    alloc: Global,
    edges: &mut Vec<Edge<L>>,
    source: &Nfa<L>,
    transducer: &Transducer<L>,
    pair: Pair,
    targets: &[usize],
) -> Result<(), AllocError>
    requires empty { edges.old.items ≡ [] }
    requires letters { source.now.letters ≡ transducer.now.letters }
    requires left { pair.left < states source.now }
    requires right { pair.right < machine_states transducer.now }
    ensures { OnOk result (map (edge_of L.letters) edges.new.items
        ≡ written_edges (numbered (joint_moves (source_of source.now) transducer.now
        pair) targets.now)) }
{
    let sources = source.edges(pair.left);
    let moves = transducer.moves(pair.right);
    add_silent(edges, sources, targets)?;
    add_alone(alloc, edges, moves, targets)?;
    for edge in sources {
        add_read(alloc, edges, edge, moves, targets)?;
    }
    Ok(())
}

/// For each pair the edges by what is written from it on, to the numbers of the pairs.
pub(crate) fn image_edges<L: LabelSet>(
    alloc: Global,
    source: &Nfa<L>,
    transducer: &Transducer<L>,
    explored: &Explored,
) -> Result<EdgeLists<L>, AllocError>
    requires letters { source.now.letters ≡ transducer.now.letters }
    requires pairs { All (λ x. (x.left < states source.now)
        × (x.right < machine_states transducer.now)) explored.now.pairs }
    requires one_list_each { length explored.now.targets ≡ length explored.now.pairs }
    ensures { IfOk result (λ edges. edges
        ≡ map written_edges (map (product_moves_at (source_of source.now) transducer.now
        explored.now) (range_with_len 0 (length explored.now.pairs)))) }
{
    let pairs = explored.pairs();
    let mut edges = EdgeLists::with_capacity(alloc, pairs.len(), explored.follower_count())?;
    let mut leaving = Vec::new(alloc);
    for number in 0..pairs.len() {
        let targets = explored.targets(number);
        add_edges_from(
            alloc,
            &mut leaving,
            source,
            transducer,
            pairs[number],
            targets,
        )?;
        edges.push(&mut leaving)?;
    }
    Ok(edges)
}

/// Whether both states of the pair are final.
fn is_final_pair<L: LabelSet>(source: &Nfa<L>, transducer: &Transducer<L>, pair: Pair) -> bool
    requires left { pair.left < states source.now }
    requires right { pair.right < machine_states transducer.now }
    ensures { result ≡ final_image source.now transducer.now pair }
{
    source.is_final(pair.left) && transducer.is_final(pair.right)
}

/// For each pair whether both states are final.
pub(crate) fn image_finals<L: LabelSet>(
    alloc: Global,
    source: &Nfa<L>,
    transducer: &Transducer<L>,
    pairs: &[Pair],
) -> Result<Vec<bool>, AllocError>
    requires { All (λ x. (x.left < states source.now)
        × (x.right < machine_states transducer.now)) pairs.now }
    ensures { IfOk result (λ finals. finals.items
        ≡ map (final_image source.now transducer.now) pairs.now) }
{
    let mut finals = Vec::with_capacity(alloc, pairs.len())?;
    for pair in pairs {
        finals.push(is_final_pair(source, transducer, *pair))?;
    }
    Ok(finals)
}
