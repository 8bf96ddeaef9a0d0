//! An automaton over blocks of symbols, made of one over the symbols.
ghost use Rattle.std.specs.Prelude.{◌≡◌, ℕ, ◌<◌, ◌↔◌, ◌++◌, List, [], IfOk, OnOk, length, map};
ghost use Rattle.std.specs.List.{All};
ghost use Rattle.rela_labels.specs.Partition.{block_of};
ghost use Rattle.rela_letter_nfa.specs.Runs.{Accepts};
ghost use Rattle.rela_nfa.specs.Relabelling.{blocks_of};
ghost use Rattle.rela_letter_paths.specs.Letters.{HasLettersBelow, renamed, renamed_edge};

use rela_labels::Partition;
use rela_letter_nfa::{EdgeLists, LetterEdge, LetterNfa};
use std::alloc::{AllocError, Global};

/// The next state has these edges too, each by the block of its letter.
fn add_edges(
    lists: &mut EdgeLists,
    edges: &[LetterEdge],
    blocks: &Partition,
) -> Result<(), AllocError>
    requires { All (λ edge. edge.letter < length blocks.now) edges.now }
    ensures { OnOk result (lists.new ≡ (
      lists.old.0,
      lists.old.1 ++ map (renamed_edge (block_of blocks.now)) edges.now,
    )) }
{
    for edge in edges {
        lists.push(LetterEdge {
            letter: blocks.block_of(edge.letter),
            to: edge.to,
        })?;
    }
    Ok(())
}

/// The edges of each state of the automaton, each by the block of its letter.
fn edges_over(alloc: Global, paths: &LetterNfa, blocks: &Partition) -> Result<EdgeLists, AllocError>
    requires letters { HasLettersBelow (length blocks.now) paths.now }
    ensures { IfOk result (λ lists. lists
        ≡ (map (map (renamed_edge (block_of blocks.now))) paths.now.edges, [])) }
{
    let mut lists = EdgeLists::with_room_for(alloc, paths)?;
    for q in 0..paths.states() as u32 {
        add_edges(&mut lists, paths.edges(q), blocks)?;
        lists.end_state()?;
    }
    Ok(lists)
}

/// The same automaton, in which each edge is by the block of its letter: it accepts just the words
/// that the other one accepts, each symbol read as its block. Time: linear in the states, the
/// silent steps and the edges, with a look-up in the partition for each edge; space: linear in
/// them. The only error is want of memory.
pub fn over_blocks(
    alloc: Global,
    paths: &LetterNfa,
    blocks: &Partition,
) -> Result<LetterNfa, AllocError>
    requires letters { HasLettersBelow (length blocks.now) paths.now }
    ensures renamed { IfOk result (λ made. made ≡ renamed (block_of blocks.now) paths.now) }
    ensures language { IfOk result (λ made. (v : List ℕ) → Accepts made v ↔
        ((u : List ℕ) × Accepts paths.now u × (blocks_of blocks.now u ≡ v))) }
{
    // The edges of an automaton lead to its states.
    let _ = paths.states();
    let edges = edges_over(alloc, paths, blocks)?;
    paths.with_edges(alloc, edges)
}
