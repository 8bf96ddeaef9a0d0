//! Automata with one letter on each edge, made of automata whose edges have sets of letters.
ghost use Rattle.std.specs.Prelude.{◌≡◌, ℕ, ◌<◌, ◌≤◌, ◌^◌, ◌↔◌, List, [], ◌∷◌, None, Some, IfOk, OnOk, map, if◌then◌else◌};
ghost use Rattle.std.specs.List.{All};
ghost use Rattle.std.specs.Option.{ForSome};
ghost use Rattle.rela_labels.specs.Letters.{has};
ghost use Rattle.rela_letter_nfa.specs.Counted.{edge_to};
ghost use Rattle.rela_letter_nfa.specs.LetterAutomaton.{no_parts, with_edge};
ghost use Rattle.rela_letter_nfa.specs.Runs.{Accepts as AcceptsLetters};
ghost use Rattle.rela_nfa.specs.Automaton.{states};
ghost use Rattle.rela_nfa.specs.Runs.{Accepts};
ghost use Rattle.rela_nfa.specs.Stored.{move_of};
ghost use Rattle.rela_letter_image.specs.ByLetters.{AddsCopy, AddsMoves, IsByLetters};

use rela_labels::LabelSet;
use rela_letter_nfa::{CountedBuilder, LetterNfa, MAX_STATES};
use rela_nfa::{Edge, Nfa};
use rela_pairs::{BuildError, pass_limit};
use std::alloc::{AllocError, Global};

/// Adds an edge by the letter, if it is to be added.
fn push_edge_if(
    builder: &mut CountedBuilder,
    is_added: bool,
    letter: u32,
    to: u32,
) -> Result<(), BuildError>
    ensures { OnOk result (builder.new.parts ≡ if is_added
        then with_edge builder.old.parts (edge_to letter to)
        else builder.old.parts) }
{
    if is_added {
        builder.push_edge(letter, to)?;
    }
    Ok(())
}

/// Adds an edge by each letter of the set. Time: a step for each letter below its size.
fn add_each<L: LabelSet>(builder: &mut CountedBuilder, set: &L, to: u32) -> Result<(), BuildError>
    ensures { OnOk result (AddsMoves (record { label = Some (L.letters set.now); to = to } ∷ [])
        builder.old.parts builder.new.parts) }
{
    for letter in 0..set.size() {
        push_edge_if(builder, set.contains(letter), letter, to)?;
    }
    Ok(())
}

/// Adds an edge by each letter of the set. Time: that of a look for the only letter, and a step for
/// each letter below the set's size where it has several or none.
fn add_letters<L: LabelSet>(
    builder: &mut CountedBuilder,
    set: &L,
    to: u32,
) -> Result<(), BuildError>
    ensures { OnOk result (AddsMoves (record { label = Some (L.letters set.now); to = to } ∷ [])
        builder.old.parts builder.new.parts) }
{
    match set.only() {
        Some(letter) => builder.push_edge(letter, to),
        None => add_each(builder, set, to),
    }
}

/// Adds what the edge does.
fn add_edge<L: LabelSet>(builder: &mut CountedBuilder, edge: &Edge<L>) -> Result<(), BuildError>
    requires { edge.now.to < 2 ^ 32 }
    ensures { OnOk result (AddsMoves (move_of L.letters edge.now ∷ [])
        builder.old.parts builder.new.parts) }
{
    let to = edge.to as u32;
    match &edge.label {
        Some(set) => add_letters(builder, set, to),
        None => builder.push_silent(to),
    }
}

/// Adds what the edges do.
fn add_edges<L: LabelSet>(builder: &mut CountedBuilder, edges: &[Edge<L>]) -> Result<(), BuildError>
    requires { All (λ edge. edge.to < 2 ^ 32) edges.now }
    ensures { OnOk result (AddsMoves (map (move_of L.letters) edges.now)
        builder.old.parts builder.new.parts) }
{
    for edge in edges {
        add_edge(builder, edge)?;
    }
    Ok(())
}

/// Builds a state that does what the state `q` does.
fn add_copy<L: LabelSet>(
    builder: &mut CountedBuilder,
    nfa: &Nfa<L>,
    q: usize,
) -> Result<(), BuildError>
    requires state { q < states nfa.now }
    requires few { states nfa.now ≤ 2 ^ 31 }
    ensures { OnOk result (AddsCopy nfa.now q builder.old.parts builder.new.parts) }
{
    add_edges(builder, nfa.edges(q))?;
    builder.end_state(nfa.is_final(q))?;
    Ok(())
}

/// A builder without any state, with room for the states of the automaton, and for as many edges as
/// it has, but not for more than `most`.
fn builder_for<L: LabelSet>(
    alloc: Global,
    nfa: &Nfa<L>,
    most: usize,
) -> Result<CountedBuilder, AllocError>
    ensures { IfOk result (λ counted. counted.parts ≡ no_parts) }
{
    let edges = nfa.edge_count().min(most);
    CountedBuilder::with_capacity(alloc, most, nfa.states(), 0, edges)
}

/// The automaton, as [`by_letters`] says, or an error.
///
/// # Errors
///
/// - `Limit` where it would have more than `most` states, or more than `most` edges and silent
///   steps.
/// - `Memory` where there isn't memory for it.
fn by_letters_within<L: LabelSet>(
    alloc: Global,
    nfa: &Nfa<L>,
    most: usize,
) -> Result<LetterNfa, BuildError>
    ensures { IfOk result (λ new. IsByLetters nfa.now new) }
{
    if nfa.states() > most || nfa.states() > MAX_STATES {
        return Err(BuildError::Limit);
    }
    let mut builder = builder_for(alloc, nfa, most)?;
    for q in 0..nfa.states() {
        add_copy(&mut builder, nfa, q)?;
    }
    Ok(builder.finish(nfa.start() as u32))
}

/// The automaton of the same words that has for each edge of the other one an edge by each letter
/// of its label. `None` where it would have more than `most` states, or more than `most` edges and
/// silent steps.
///
/// Time and space: linear in the states and the edges, where each edge has one letter or none; one
/// of several letters costs a step for each letter of the automaton, and an edge for each of its
/// own.
pub fn by_letters<L: LabelSet>(
    alloc: Global,
    nfa: &Nfa<L>,
    most: usize,
) -> Result<Option<LetterNfa>, AllocError>
    ensures language { IfOk result (λ found. ForSome found (λ made. (word : List ℕ) →
        AcceptsLetters made word ↔ Accepts nfa.now word)) }
{
    match by_letters_within(alloc, nfa, most) {
        Ok(made) => Ok(Some(made)),
        Err(error) => {
            pass_limit(error)?;
            Ok(None)
        }
    }
}
