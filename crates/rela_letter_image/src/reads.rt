//! What both do by an edge and a move that reads its letter.
ghost use Rattle.std.specs.Prelude.{◌<◌, [], ◌∷◌, OnOk, map, nat_eq};
ghost use Rattle.std.specs.List.{All};
ghost use Rattle.rela_nfa.specs.Meeting.{pair_of};
ghost use Rattle.rela_pairs.specs.Places.{Fits};
ghost use Rattle.rela_letter_image.specs.Growth.{Grows};
ghost use Rattle.rela_letter_image.specs.LetterMoves.{laid, LeadBelow, reading, set_move};
ghost use Rattle.rela_letter_image.specs.Steps.{laid_out_steps, letter_steps, read_by, read_steps, step_if, step_to, written_by};

use crate::growing::Growing;
use crate::letter_moves::{LetterMove, SetMove, StateMoves};
use rela_labels::LabelSet;
use rela_letter_nfa::LetterEdge;
use rela_pairs::{BuildError, Pair};

/// Adds what both do by an edge of this letter and a move that reads it, to the pair.
#[inline(always)]
fn add_read(growing: &mut Growing, letter: u32, writes: bool, to: Pair) -> Result<(), BuildError>
    requires { Fits growing.old.shape to }
    ensures { OnOk result (Grows (step_to (written_by letter writes) to ∷ [])
        growing.old growing.new) }
{
    if writes {
        growing.add_edge(letter, to)
    } else {
        growing.add_silent(to)
    }
}

/// Adds what both do by an edge of this letter and a move to the pair, if the move reads it.
#[inline(always)]
fn add_read_if(
    growing: &mut Growing,
    is_read: bool,
    letter: u32,
    writes: bool,
    to: Pair,
) -> Result<(), BuildError>
    requires { Fits growing.old.shape to }
    ensures { OnOk result (Grows (step_if is_read (step_to (written_by letter writes) to))
        growing.old growing.new) }
{
    if is_read {
        return add_read(growing, letter, writes, to);
    }
    Ok(())
}

/// Adds what both do by the edge and the move, if the move's set has the coarse letter of the edge,
/// which is `coarse`.
fn add_by_set(
    growing: &mut Growing,
    edge: LetterEdge,
    coarse: u32,
    step: &SetMove,
) -> Result<(), BuildError>
    requires { Fits growing.old.shape (pair_of edge.to step.now.to) }
    ensures { OnOk result (Grows (read_by coarse edge.letter (reading step.now.set step.now.writes)
        (pair_of edge.to step.now.to)) growing.old growing.new) }
{
    let to = Pair {
        left: edge.to as usize,
        right: step.to,
    };
    add_read_if(
        growing,
        step.set.contains(coarse),
        edge.letter,
        step.writes,
        to,
    )
}

/// Adds what both do by the edge, whose coarse letter is `coarse`, and one of the moves.
fn add_by_sets(
    growing: &mut Growing,
    edge: LetterEdge,
    coarse: u32,
    moves: &[SetMove],
) -> Result<(), BuildError>
    requires left { edge.to < growing.old.shape.lefts }
    requires rights { All (λ step. step.to < growing.old.shape.rights) moves.now }
    ensures { OnOk result (Grows (read_steps coarse edge (map set_move moves.now))
        growing.old growing.new) }
{
    for step in moves {
        add_by_set(growing, edge, coarse, step)?;
    }
    Ok(())
}

/// Adds what both do by the edge and the move, if the move's letter is the coarse letter of the
/// edge, which is `coarse`.
fn add_by_letter(
    growing: &mut Growing,
    edge: LetterEdge,
    coarse: u32,
    step: LetterMove,
) -> Result<(), BuildError>
    requires { Fits growing.old.shape (pair_of edge.to step.to) }
    ensures { OnOk result (Grows (step_if (nat_eq step.letter coarse)
        (step_to (written_by edge.letter step.writes) (pair_of edge.to step.to)))
        growing.old growing.new) }
{
    let to = Pair {
        left: edge.to as usize,
        right: step.to,
    };
    add_read_if(growing, step.letter == coarse, edge.letter, step.writes, to)
}

/// Adds what both do by the edge, whose coarse letter is `coarse`, and one of the moves.
fn add_by_letters(
    growing: &mut Growing,
    edge: LetterEdge,
    coarse: u32,
    moves: &[LetterMove],
) -> Result<(), BuildError>
    requires left { edge.to < growing.old.shape.lefts }
    requires rights { All (λ step. step.to < growing.old.shape.rights) moves.now }
    ensures { OnOk result (Grows (letter_steps coarse edge moves.now) growing.old growing.new) }
{
    for step in moves {
        add_by_letter(growing, edge, coarse, *step)?;
    }
    Ok(())
}

/// Adds what both do by the edge, whose coarse letter is `coarse`, and one of the state's moves.
pub(crate) fn add_edge_moves(
    growing: &mut Growing,
    edge: LetterEdge,
    coarse: u32,
    moves: StateMoves<'_>,
) -> Result<(), BuildError>
    requires left { edge.to < growing.old.shape.lefts }
    requires rights { LeadBelow growing.old.shape.rights (laid moves) }
    ensures { OnOk result (Grows (laid_out_steps coarse edge (laid moves.entry))
        growing.old growing.new) }
{
    add_by_sets(growing, edge, coarse, moves.by_set)?;
    add_by_letters(growing, edge, coarse, moves.by_letter)
}
