//! The automaton of the sources of a word.
ghost use Rattle.std.specs.Prelude.{◌≡◌, ℕ, ◌<◌, ◌↔◌, None, Some, IsTrue, IfOk, OnOk, List, map};
ghost use Rattle.std.specs.List.{All};
ghost use Rattle.rela_letter_image.specs.Coarse.{coarse_of};
ghost use Rattle.rela_letter_image.specs.LetterMoves.{all_moves, alone_move, AreLettersOf, laid, LeadBelow, reading, set_move, writing};
ghost use Rattle.rela_letter_nfa.specs.LetterAutomaton.{states};
ghost use Rattle.rela_letter_nfa.specs.Runs.{Accepts};
ghost use Rattle.rela_trans.specs.Machine.{machine_states};
ghost use Rattle.rela_letter_source.specs.Growth.{AddsState, Fits, Grows};
ghost use Rattle.rela_letter_source.specs.Product.{IsEnd};
ghost use Rattle.rela_letter_source.specs.Sources.{IsSourceOf};
ghost use Rattle.rela_letter_source.specs.Steps.{after_read, alone_by, alone_steps, edge_steps, laid_out_steps, letter_steps, read_by, read_if, read_steps, read_to, silent_steps, step_if, step_to, steps_from, write_by};

use crate::configuration::Configuration;
use crate::growing::Growing;
use crate::next::{Next, Reading, as_read, next_letter, written_after};
use rela_labels::{LabelSet, WideSet};
use rela_letter_image::{AloneMove, LetterMove, LetterRelation, SetMove, StateMoves};
use rela_letter_nfa::{LetterEdge, LetterNfa};
use rela_pairs::{BuildError, Shape};
use std::alloc::Global;

/// Adds a silent step to the configuration, if it is to be added.
fn add_silent_if(growing: &mut Growing, is_added: bool, to: Configuration) -> Result<(), BuildError>
    requires { Fits growing.old.shape to }
    ensures { OnOk result (Grows (step_if is_added (step_to None to)) growing.old growing.new) }
{
    if is_added {
        return growing.add_silent(to);
    }
    Ok(())
}

/// Adds what is done by a move that reads nothing and writes a letter of the set: the next letter
/// is written, if there is one and its coarse letter is in the set.
fn add_written(
    growing: &mut Growing,
    set: &WideSet,
    next: Option<Next>,
    path: u32,
    machine: usize,
) -> Result<(), BuildError>
    requires left { path < growing.old.shape.lefts }
    requires right { machine < growing.old.shape.rights }
    ensures { OnOk result (Grows (write_by next set.now path machine) growing.old growing.new) }
{
    let Some(next) = next else {
        return Ok(());
    };
    let to = Configuration {
        path,
        machine,
        written: next.after,
    };
    add_silent_if(growing, set.contains(next.coarse), to)
}

/// Adds what the transducer does alone by the move.
fn add_alone(
    growing: &mut Growing,
    step: &AloneMove,
    x: Configuration,
    next: Option<Next>,
) -> Result<(), BuildError>
    requires left { x.path < growing.old.shape.lefts }
    requires right { step.now.to < growing.old.shape.rights }
    ensures { OnOk result (Grows (alone_by next x (writing step.now.written) step.now.to)
        growing.old growing.new) }
{
    match &step.written {
        None => growing.add_silent(Configuration {
            path: x.path,
            machine: step.to,
            written: x.written,
        }),
        Some(set) => add_written(growing, set, next, x.path, step.to),
    }
}

/// Adds what the transducer does alone by the moves.
fn add_moves(
    growing: &mut Growing,
    moves: &[AloneMove],
    x: Configuration,
    next: Option<Next>,
) -> Result<(), BuildError>
    requires left { x.path < growing.old.shape.lefts }
    requires rights { All (λ step. step.to < growing.old.shape.rights) moves.now }
    ensures { OnOk result (Grows (alone_steps next x (map alone_move moves.now))
        growing.old growing.new) }
{
    for step in moves {
        add_alone(growing, step, x, next)?;
    }
    Ok(())
}

/// Adds what both do by the edge and a move to this state, which reads the edge's letter. A move
/// that writes it too can be taken where it is the letter that is to be written next.
fn add_read(
    growing: &mut Growing,
    edge: Reading,
    writes: bool,
    machine: usize,
) -> Result<(), BuildError>
    requires left { edge.edge.to < growing.old.shape.lefts }
    requires right { machine < growing.old.shape.rights }
    ensures { OnOk result (Grows (read_to (after_read edge writes) edge machine)
        growing.old growing.new) }
{
    let Some(written) = written_after(edge, writes) else {
        return Ok(());
    };
    let to = Configuration {
        path: edge.edge.to,
        machine,
        written,
    };
    growing.add_edge(edge.edge.letter, to)
}

/// Adds what both do by the edge and a move to this state, if the move reads the edge's letter.
#[inline(always)]
fn add_read_if(
    growing: &mut Growing,
    is_read: bool,
    edge: Reading,
    writes: bool,
    machine: usize,
) -> Result<(), BuildError>
    requires left { edge.edge.to < growing.old.shape.lefts }
    requires right { machine < growing.old.shape.rights }
    ensures { OnOk result (Grows (read_if is_read edge writes machine) growing.old growing.new) }
{
    if is_read {
        return add_read(growing, edge, writes, machine);
    }
    Ok(())
}

/// Adds what both do by the edge and the move, if the move's set has the coarse letter of the edge.
fn add_by_set(growing: &mut Growing, edge: Reading, step: &SetMove) -> Result<(), BuildError>
    requires left { edge.edge.to < growing.old.shape.lefts }
    requires right { step.now.to < growing.old.shape.rights }
    ensures { OnOk result (Grows (read_by edge (reading step.now.set step.now.writes) step.now.to)
        growing.old growing.new) }
{
    let is_read = step.set.contains(edge.coarse);
    add_read_if(growing, is_read, edge, step.writes, step.to)
}

/// Adds what both do by the edge and one of the moves.
fn add_by_sets(growing: &mut Growing, edge: Reading, moves: &[SetMove]) -> Result<(), BuildError>
    requires left { edge.edge.to < growing.old.shape.lefts }
    requires rights { All (λ step. step.to < growing.old.shape.rights) moves.now }
    ensures { OnOk result (Grows (read_steps edge (map set_move moves.now))
        growing.old growing.new) }
{
    for step in moves {
        add_by_set(growing, edge, step)?;
    }
    Ok(())
}

/// Adds what both do by the edge and one of the moves, each of which reads one letter.
fn add_by_letters(
    growing: &mut Growing,
    edge: Reading,
    moves: &[LetterMove],
) -> Result<(), BuildError>
    requires left { edge.edge.to < growing.old.shape.lefts }
    requires rights { All (λ step. step.to < growing.old.shape.rights) moves.now }
    ensures { OnOk result (Grows (letter_steps edge moves.now) growing.old growing.new) }
{
    for step in moves {
        let is_read = step.letter == edge.coarse;
        add_read_if(growing, is_read, edge, step.writes, step.to)?;
    }
    Ok(())
}

/// Adds what both do by the edge and one of the state's moves.
fn add_edge_moves(
    growing: &mut Growing,
    edge: Reading,
    moves: StateMoves<'_>,
) -> Result<(), BuildError>
    requires left { edge.edge.to < growing.old.shape.lefts }
    requires rights { LeadBelow growing.old.shape.rights (laid moves) }
    ensures { OnOk result (Grows (laid_out_steps edge (laid moves.entry)) growing.old growing.new) }
{
    add_by_sets(growing, edge, moves.by_set)?;
    add_by_letters(growing, edge, moves.by_letter)
}

/// Adds what both do by one of the edges and one of the moves, of a transducer with this number of
/// letters, where so many letters have been written.
fn add_edges(
    growing: &mut Growing,
    edges: &[LetterEdge],
    letters: u32,
    coarse: &[u32],
    next: Option<Next>,
    written: usize,
    moves: StateMoves<'_>,
) -> Result<(), BuildError>
    requires lefts { All (λ edge. edge.to < growing.old.shape.lefts) edges.now }
    requires rights { LeadBelow growing.old.shape.rights (laid moves) }
    requires below { AreLettersOf letters (laid moves) }
    ensures { OnOk result (Grows (edge_steps letters coarse.now next written
        (all_moves letters (laid moves.entry)) edges.now) growing.old growing.new) }
{
    for edge in edges {
        let edge = as_read(letters, coarse, next, written, *edge);
        add_edge_moves(growing, edge, moves)?;
    }
    Ok(())
}

/// Adds what both do by one of the edges and one of the moves, as by [`add_edges`]. Where no move
/// reads, no edge is looked at.
fn add_reads(
    growing: &mut Growing,
    edges: &[LetterEdge],
    letters: u32,
    coarse: &[u32],
    next: Option<Next>,
    written: usize,
    moves: StateMoves<'_>,
) -> Result<(), BuildError>
    requires lefts { All (λ edge. edge.to < growing.old.shape.lefts) edges.now }
    requires rights { LeadBelow growing.old.shape.rights (laid moves) }
    requires below { AreLettersOf letters (laid moves) }
    ensures { OnOk result (Grows (edge_steps letters coarse.now next written
        (all_moves letters (laid moves.entry)) edges.now) growing.old growing.new) }
{
    if moves.by_set.is_empty() && moves.by_letter.is_empty() {
        return Ok(());
    }
    add_edges(growing, edges, letters, coarse, next, written, moves)
}

/// Adds the states to which the automaton goes silently, while the transducer stays.
fn add_silents(growing: &mut Growing, ends: &[u32], x: Configuration) -> Result<(), BuildError>
    requires lefts { All (λ q. q < growing.old.shape.lefts) ends.now }
    requires right { x.machine < growing.old.shape.rights }
    ensures { OnOk result (Grows (silent_steps x ends.now) growing.old growing.new) }
{
    for end in ends {
        growing.add_silent(Configuration {
            path: *end,
            machine: x.machine,
            written: x.written,
        })?;
    }
    Ok(())
}

/// Adds what the two do from the configuration. Time: the product of the numbers of edges and of
/// moves that read, and a step for each move that reads nothing.
fn add_steps(
    growing: &mut Growing,
    paths: &LetterNfa,
    relation: &LetterRelation,
    coarse: &[u32],
    word: &[u32],
    x: Configuration,
) -> Result<(), BuildError>
    requires lefts { growing.old.shape.lefts ≡ states paths.now }
    requires rights { growing.old.shape.rights ≡ machine_states relation.now }
    requires left { x.path < states paths.now }
    requires right { x.machine < machine_states relation.now }
    ensures { OnOk result (Grows (steps_from coarse.now word.now paths.now relation.now x)
        growing.old growing.new) }
{
    let letters = relation.letters();
    let next = next_letter(letters, coarse, word, x.written);
    let moves = relation.moves(x.machine);
    add_silents(growing, paths.silent(x.path), x)?;
    add_moves(growing, moves.alone, x, next)?;
    add_reads(
        growing,
        paths.edges(x.path),
        letters,
        coarse,
        next,
        x.written,
        moves,
    )
}

/// Whether both states are final, and all letters of the word have been written.
fn is_end(paths: &LetterNfa, relation: &LetterRelation, word: &[u32], x: Configuration) -> bool
    requires left { x.path < states paths.now }
    requires right { x.machine < machine_states relation.now }
    ensures { IsTrue result ↔ IsEnd paths.now relation.now word.now x }
{
    paths.is_final(x.path) && relation.is_final(x.machine) && x.written == word.len()
}

/// Builds the state of the configuration: what the two do from it, and whether it is an end.
fn add_state(
    growing: &mut Growing,
    paths: &LetterNfa,
    relation: &LetterRelation,
    coarse: &[u32],
    word: &[u32],
    x: Configuration,
) -> Result<(), BuildError>
    requires lefts { growing.old.shape.lefts ≡ states paths.now }
    requires rights { growing.old.shape.rights ≡ machine_states relation.now }
    requires left { x.path < states paths.now }
    requires right { x.machine < machine_states relation.now }
    ensures { OnOk result (AddsState coarse.now word.now paths.now relation.now x
        growing.old growing.new) }
{
    add_steps(growing, paths, relation, coarse, word, x)?;
    let is_final = is_end(paths, relation, word, x);
    growing.end_state(is_final)?;
    Ok(())
}

/// The automaton of the sources of the word. Its states are the configurations that are found from
/// the two starts on, where nothing has been written; its final ones are those of two final states
/// where all has been; and it goes by what the transducer reads. Time: that of [`add_steps`] for
/// each configuration; space: linear in the result.
///
/// # Errors
///
/// - `Limit` where it would have more than `most` states, or more than `most` edges and silent
///   steps.
/// - `Memory` where there isn't memory for it.
pub(crate) fn sources(
    alloc: Global,
    paths: &LetterNfa,
    relation: &LetterRelation,
    coarse: &[u32],
    word: &[u32],
    most: usize,
) -> Result<LetterNfa, BuildError>
    ensures { IfOk result (λ sources. (u : List ℕ) → Accepts sources u ↔ IsSourceOf
        (coarse_of relation.now.letters coarse.now) paths.now relation.now word.now u) }
{
    let shape = Shape {
        lefts: paths.states(),
        rights: relation.states(),
    };
    let mut growing = Growing::new(alloc, shape, most)?;
    growing.number(Configuration {
        path: paths.start(),
        machine: relation.start(),
        written: 0,
    })?;
    // Those that were found stand in a queue: those whose states were built come first.
    'queue: while growing.states() < growing.found().len() {
        let x = growing.found()[growing.states()];
        add_state(&mut growing, paths, relation, coarse, word, x)?;
    }
    Ok(growing.finish())
}
