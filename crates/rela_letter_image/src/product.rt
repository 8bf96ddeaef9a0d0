//! What an automaton and a transducer that reads its words do together, as one automaton.
ghost use Rattle.std.specs.Prelude.{◌≡◌, ◌<◌, ◌≤◌, ◌↔◌, ◌^◌, List, Some, IsTrue, IfOk, OnOk, length, map, if◌then◌else◌};
ghost use Rattle.std.specs.List.{All};
ghost use Rattle.std.specs.Option.{ForSome};
ghost use Rattle.rela_letter_nfa.specs.Counted.{edge_to};
ghost use Rattle.rela_letter_nfa.specs.LetterAutomaton.{IsFinal, states, with_edge};
ghost use Rattle.rela_nfa.specs.Meeting.{pair_of};
ghost use Rattle.rela_pairs.specs.Places.{Fits};
ghost use Rattle.rela_pairs.specs.declared.pair.Pair.{Pair};
ghost use Rattle.rela_trans.specs.Machine.{machine_states, IsFinal as IsFinalMachine};
ghost use Rattle.rela_letter_image.specs.Coarse.{coarse_of, fine_letters};
ghost use Rattle.rela_letter_image.specs.Growth.{AddsState, Grows, with_parts};
ghost use Rattle.rela_letter_image.specs.LetterMoves.{all_moves, alone_move, AreLettersOf, laid, LeadBelow, only_letter, writing};
ghost use Rattle.rela_letter_image.specs.Needs.{AreAhead, TellsLive, Told};
ghost use Rattle.rela_letter_image.specs.Product.{IsProduct};
ghost use Rattle.rela_letter_image.specs.Steps.{step_to, silent_steps, alone_by, alone_steps, edge_steps, steps_from};

use crate::ahead::ahead_of;
use crate::growing::Growing;
use crate::laying_out::letter_alone;
use crate::letter_moves::{AloneMove, StateMoves};
use crate::letter_relation::LetterRelation;
use crate::reads::add_edge_moves;
use rela_labels::{LabelSet, WideSet};
use rela_letter_nfa::{LetterEdge, LetterNfa};
use rela_pairs::{BuildError, Pair, Shape};
use std::alloc::{AllocError, Global};

/// The coarse letter of a fine one; that of a letter past the list is `letters`, their number.
pub(crate) fn coarse_letter(coarse: &[u32], letters: u32, letter: u32) -> u32
    ensures { result ≡ coarse_of letters coarse.now letter }
{
    match coarse.get(letter as usize) {
        Some(letter) => *letter,
        None => letters,
    }
}

/// Adds an edge by the letter to the state of this number, if it is to be added.
fn add_edge_if(
    growing: &mut Growing,
    is_added: bool,
    letter: u32,
    number: u32,
) -> Result<(), BuildError>
    ensures { OnOk result (growing.new ≡ if is_added then
        with_parts growing.old (with_edge growing.old.parts (edge_to letter number))
        else growing.old) }
{
    if is_added {
        growing.add_edge_to(letter, number)?;
    }
    Ok(())
}

/// Adds an edge to the pair by each fine letter whose coarse letter is this one. Time: a comparison
/// for each fine letter.
fn add_letter_written(
    growing: &mut Growing,
    only: u32,
    letters: u32,
    coarse: &[u32],
    to: Pair,
) -> Result<(), BuildError>
    requires few { length coarse.now ≤ 2 ^ 32 }
    requires fits { Fits growing.old.shape to }
    requires only { only < letters }
    ensures { OnOk result (Grows (map (λ k. step_to (Some k) to)
        (fine_letters coarse.now (only_letter letters only))) growing.old growing.new) }
{
    let number = growing.number(to)?;
    for (letter, coarse_letter) in coarse.iter().enumerate() {
        add_edge_if(growing, only == *coarse_letter, letter as u32, number)?;
    }
    Ok(())
}

/// Adds an edge to the pair by each fine letter whose coarse letter is in the set. Time: a look into
/// the set for each fine letter.
fn add_set_written(
    growing: &mut Growing,
    set: &WideSet,
    coarse: &[u32],
    to: Pair,
) -> Result<(), BuildError>
    requires few { length coarse.now ≤ 2 ^ 32 }
    requires fits { Fits growing.old.shape to }
    ensures { OnOk result (Grows (map (λ k. step_to (Some k) to)
        (fine_letters coarse.now set.now)) growing.old growing.new) }
{
    let number = growing.number(to)?;
    for (letter, coarse_letter) in coarse.iter().enumerate() {
        add_edge_if(growing, set.contains(*coarse_letter), letter as u32, number)?;
    }
    Ok(())
}

/// Adds an edge to the pair by each fine letter whose coarse letter is in the set, which mostly has
/// one letter. Time: a step for each fine letter.
fn add_written(
    growing: &mut Growing,
    set: &WideSet,
    coarse: &[u32],
    to: Pair,
) -> Result<(), BuildError>
    requires few { length coarse.now ≤ 2 ^ 32 }
    requires fits { Fits growing.old.shape to }
    ensures { OnOk result (Grows (map (λ k. step_to (Some k) to)
        (fine_letters coarse.now set.now)) growing.old growing.new) }
{
    match letter_alone(set) {
        Some(only) => add_letter_written(growing, only, set.size(), coarse, to),
        None => add_set_written(growing, set, coarse, to),
    }
}

/// Adds what the transducer does alone by the move.
fn add_alone(
    growing: &mut Growing,
    step: &AloneMove,
    left: usize,
    coarse: &[u32],
) -> Result<(), BuildError>
    requires few { length coarse.now ≤ 2 ^ 32 }
    requires fits { Fits growing.old.shape (pair_of left step.now.to) }
    ensures { OnOk result (Grows (alone_by coarse.now (writing step.now.written)
        (pair_of left step.now.to)) growing.old growing.new) }
{
    let to = Pair {
        left,
        right: step.to,
    };
    match &step.written {
        None => growing.add_silent(to),
        Some(set) => add_written(growing, set, coarse, to),
    }
}

/// Adds what the transducer does alone by the moves.
fn add_moves(
    growing: &mut Growing,
    moves: &[AloneMove],
    left: usize,
    coarse: &[u32],
) -> Result<(), BuildError>
    requires few { length coarse.now ≤ 2 ^ 32 }
    requires left { left < growing.old.shape.lefts }
    requires rights { All (λ step. step.to < growing.old.shape.rights) moves.now }
    ensures { OnOk result (Grows (alone_steps coarse.now left (map alone_move moves.now))
        growing.old growing.new) }
{
    for step in moves {
        add_alone(growing, step, left, coarse)?;
    }
    Ok(())
}

/// Adds what both do by one of the edges and one of the moves, of a transducer with this number of
/// letters.
fn add_edges(
    growing: &mut Growing,
    edges: &[LetterEdge],
    letters: u32,
    coarse: &[u32],
    moves: StateMoves<'_>,
) -> Result<(), BuildError>
    requires lefts { All (λ edge. edge.to < growing.old.shape.lefts) edges.now }
    requires rights { LeadBelow growing.old.shape.rights (laid moves) }
    requires below { AreLettersOf letters (laid moves) }
    ensures { OnOk result (Grows
        (edge_steps letters coarse.now (all_moves letters (laid moves.entry)) edges.now)
        growing.old growing.new) }
{
    for edge in edges {
        let letter = coarse_letter(coarse, letters, edge.letter);
        add_edge_moves(growing, *edge, letter, moves)?;
    }
    Ok(())
}

/// Adds what both do by one of the edges and one of the moves, of a transducer with this number of
/// letters. Where no move reads, no edge is looked at.
fn add_reads(
    growing: &mut Growing,
    edges: &[LetterEdge],
    letters: u32,
    coarse: &[u32],
    moves: StateMoves<'_>,
) -> Result<(), BuildError>
    requires lefts { All (λ edge. edge.to < growing.old.shape.lefts) edges.now }
    requires rights { LeadBelow growing.old.shape.rights (laid moves) }
    requires below { AreLettersOf letters (laid moves) }
    ensures { OnOk result (Grows
        (edge_steps letters coarse.now (all_moves letters (laid moves.entry)) edges.now)
        growing.old growing.new) }
{
    if moves.by_set.is_empty() && moves.by_letter.is_empty() {
        return Ok(());
    }
    add_edges(growing, edges, letters, coarse, moves)
}

/// Adds the states to which the automaton goes silently, while the transducer stays.
fn add_silents(growing: &mut Growing, ends: &[u32], right: usize) -> Result<(), BuildError>
    requires lefts { All (λ q. q < growing.old.shape.lefts) ends.now }
    requires right { right < growing.old.shape.rights }
    ensures { OnOk result (Grows (silent_steps right ends.now) growing.old growing.new) }
{
    for end in ends {
        let left = *end as usize;
        growing.add_silent(Pair { left, right })?;
    }
    Ok(())
}

/// Adds what the two do from the pair. Time: the product of the numbers of edges and of moves that
/// read, and a step for each fine letter for each move that writes alone.
fn add_steps(
    growing: &mut Growing,
    paths: &LetterNfa,
    relation: &LetterRelation,
    coarse: &[u32],
    pair: Pair,
) -> Result<(), BuildError>
    requires few { length coarse.now ≤ 2 ^ 32 }
    requires lefts { growing.old.shape.lefts ≡ states paths.now }
    requires rights { growing.old.shape.rights ≡ machine_states relation.now }
    requires left { pair.left < states paths.now }
    requires right { pair.right < machine_states relation.now }
    requires small { pair.left < 2 ^ 32 }
    ensures { OnOk result (Grows (steps_from coarse.now paths.now relation.now pair)
        growing.old growing.new) }
{
    let left = pair.left as u32;
    let moves = relation.moves(pair.right);
    add_silents(growing, paths.silent(left), pair.right)?;
    add_moves(growing, moves.alone, pair.left, coarse)?;
    add_reads(
        growing,
        paths.edges(left),
        relation.letters(),
        coarse,
        moves,
    )
}

/// Whether both states of the pair are final.
fn is_final_pair(paths: &LetterNfa, relation: &LetterRelation, pair: Pair) -> bool
    requires left { pair.left < states paths.now }
    requires right { pair.right < machine_states relation.now }
    requires small { pair.left < 2 ^ 32 }
    ensures { IsTrue result ↔ (IsFinal paths.now pair.left
        × IsFinalMachine relation.now pair.right) }
{
    paths.is_final(pair.left as u32) && relation.is_final(pair.right)
}

/// Builds the state of the pair: what the two do from it, and whether it is final.
fn add_state(
    growing: &mut Growing,
    paths: &LetterNfa,
    relation: &LetterRelation,
    coarse: &[u32],
    pair: Pair,
) -> Result<(), BuildError>
    requires few { length coarse.now ≤ 2 ^ 32 }
    requires lefts { growing.old.shape.lefts ≡ states paths.now }
    requires rights { growing.old.shape.rights ≡ machine_states relation.now }
    requires left { pair.left < states paths.now }
    requires right { pair.right < machine_states relation.now }
    requires small { pair.left < 2 ^ 32 }
    ensures { OnOk result (AddsState coarse.now paths.now relation.now pair
        growing.old growing.new) }
{
    add_steps(growing, paths, relation, coarse, pair)?;
    let is_final = is_final_pair(paths, relation, pair);
    growing.end_state(is_final)?;
    Ok(())
}

/// The automaton of what the two do together: its states are the pairs of states that are found
/// from the two starts on, but for some that aren't live, by what is told of letters. Its final ones
/// are those of two final states, and it goes by what the transducer writes. Time: that of
/// [`add_steps`] for each pair; space: linear in the result.
///
/// # Errors
///
/// - `Limit` where it would have more than `most` states or more than `most` edges and silent
///   steps.
/// - `Memory` where there isn't memory for it.
fn product_told(
    alloc: Global,
    paths: &LetterNfa,
    relation: &LetterRelation,
    coarse: &[u32],
    needs: &[u64],
    ahead: &[u64],
    most: usize,
) -> Result<LetterNfa, BuildError>
    requires { length coarse.now ≤ 2 ^ 32 }
    ensures { IfOk result (λ image. (pairs : List Pair)
        × IsProduct (coarse_of relation.now.letters coarse.now) paths.now relation.now
        (record { needs = needs.now; ahead = ahead.now }) pairs image) }
{
    let shape = Shape {
        lefts: paths.states(),
        rights: relation.states(),
    };
    let mut growing = Growing::new(alloc, shape, needs, ahead, most)?;
    growing.number(Pair {
        left: paths.start() as usize,
        right: relation.start(),
    })?;
    // The pairs that were found stand in a queue: those whose states were built come first.
    'queue: while growing.states() < growing.pairs().len() {
        let pair = growing.pairs()[growing.states()];
        add_state(&mut growing, paths, relation, coarse, pair)?;
    }
    Ok(growing.finish())
}

/// What is ahead on the paths, as by [`ahead_of`]; `None` too where the relation needs no letter.
fn ahead_where_needed(
    alloc: Global,
    paths: &LetterNfa,
    relation: &LetterRelation,
    coarse: &[u32],
) -> Result<Option<Vec<u64>>, AllocError>
    ensures { IfOk result (λ found. ForSome found (λ ahead.
        AreAhead (coarse_of relation.now.letters coarse.now) paths.now ahead.items)) }
{
    if relation.needs().is_empty() {
        return Ok(None);
    }
    ahead_of(alloc, paths, relation.letters(), coarse)
}

/// The automaton of what the two do together, as by [`product_told`] and with its errors. A pair is
/// left out where the transducer needs a letter that no longer lies ahead, as far as letters below 64
/// tell that.
pub(crate) fn product(
    alloc: Global,
    paths: &LetterNfa,
    relation: &LetterRelation,
    coarse: &[u32],
    most: usize,
) -> Result<LetterNfa, BuildError>
    requires { length coarse.now ≤ 2 ^ 32 }
    ensures { IfOk result (λ image. (told : Told) × (pairs : List Pair)
        × TellsLive (coarse_of relation.now.letters coarse.now) paths.now relation.now told
        × IsProduct (coarse_of relation.now.letters coarse.now) paths.now relation.now told pairs
        image) }
{
    let found = ahead_where_needed(alloc, paths, relation, coarse)?;
    match found {
        Some(ahead) => {
            let needs = relation.needs();
            product_told(alloc, paths, relation, coarse, needs, &ahead, most)
        }
        None => product_told(alloc, paths, relation, coarse, &[], &[], most),
    }
}
