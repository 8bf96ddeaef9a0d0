//! Automata with silent edges: their languages, and how they are shortened.

ghost use Rattle.std.specs.Prelude.{◌≤◌};

use crate::three_letters::{Question, Table, has, hold, is_past_limit, is_so_of_classes, word};
use rela_nfa::BuildError;
use std::alloc::Global;

/// How an automaton is made: some forms are made of the word 0, the first, and of the word 1, the
/// second.
enum Form {
    /// No word.
    Nothing,
    /// The empty word.
    EmptyWord,
    /// The word 0 1.
    Pair,
    /// The words of both.
    Union,
    /// One of each, one after the other.
    Concat,
    /// Any number of the first.
    Star,
    /// The meet of any number of the first and of the first itself.
    Meet,
}

/// The meet of any number of the words and of the words themselves. `Limit` where that takes more
/// than `limit` pairs of states.
fn star_and_one(alloc: Global, words: &Table, limit: usize) -> Result<Table, BuildError>
    requires { 1 ≤ limit }
{
    let many = words.star(alloc)?;
    many.meet(alloc, words, limit)
}

/// Whether the automaton that is made so accepts the word, or not: the form, the word, and whether
/// it is accepted.
struct Accepts<'a>(Form, &'a [u32], bool);

impl Question for Accepts<'_> {
    fn is_so(&self, alloc: Global, zero: &Table, one: &Table) -> bool {
        let Accepts(form, letters, accepted) = self;
        let found = match form {
            Form::Nothing => has(alloc, Table::none(alloc, 3), letters),
            Form::EmptyWord => has(alloc, Table::empty_word(alloc, 3), letters),
            Form::Pair => has(alloc, word(alloc, &[0, 1]), letters),
            Form::Union => has(alloc, zero.union(alloc, one), letters),
            Form::Concat => has(alloc, zero.concat(alloc, one), letters),
            Form::Star => has(alloc, zero.star(alloc), letters),
            Form::Meet => has(alloc, star_and_one(alloc, zero, 100), letters),
        };
        found == Some(*accepted)
    }
}

/// Questions about unions, concatenations and stars of the words 0 and 1.
const JOINED: &[Accepts<'static>] = &[
    Accepts(Form::Union, &[0], true),
    Accepts(Form::Union, &[1], true),
    Accepts(Form::Union, &[], false),
    Accepts(Form::Union, &[2], false),
    Accepts(Form::Concat, &[0, 1], true),
    Accepts(Form::Concat, &[1, 0], false),
    Accepts(Form::Star, &[], true),
    Accepts(Form::Star, &[0, 0], true),
    Accepts(Form::Star, &[0, 1], false),
];

/// Unions, concatenations and stars accept just the words that they should.
#[test]
fn letters_joined(rt: HostRuntime) {
    hold(&rt, rt.alloc(), &[0], &[1], JOINED);
}

/// That one pair of states isn't enough for the words of both.
struct MorePairs;

impl Question for MorePairs {
    fn is_so(&self, alloc: Global, zero: &Table, _one: &Table) -> bool {
        is_past_limit(star_and_one(alloc, zero, 1))
    }
}

/// Questions about the meet of any number of letters 0 and the word 0.
const MET: &[Accepts<'static>] = &[
    Accepts(Form::Meet, &[0], true),
    Accepts(Form::Meet, &[], false),
    Accepts(Form::Meet, &[0, 0], false),
];

/// A meet accepts just the words of both, and needs more than one pair of states.
#[test]
fn words_that_both_accept(rt: HostRuntime) {
    hold(&rt, rt.alloc(), &[0], &[1], MET);
    assert!(rt; is_so_of_classes(rt.alloc(), &[0], &[1], &MorePairs));
}

/// Questions about the automata of no word and of the empty word.
const AT_MOST_EMPTY: &[Accepts<'static>] = &[
    Accepts(Form::Nothing, &[], false),
    Accepts(Form::EmptyWord, &[], true),
    Accepts(Form::EmptyWord, &[0], false),
];

/// The automaton of no word accepts none, and that of the empty word no other.
#[test]
fn no_word_and_the_empty_one(rt: HostRuntime) {
    hold(&rt, rt.alloc(), &[0], &[1], AT_MOST_EMPTY);
}

/// Whether the word 0 1 has three states, and begins at state 0.
fn pair_has_three_states(alloc: Global) -> bool {
    match word(alloc, &[0, 1]) {
        Ok(pair) => pair.states() == 3 && pair.start() == 0,
        Err(_) => false,
    }
}

/// Questions about the automaton of the word 0 1.
const THE_PAIR: &[Accepts<'static>] = &[
    Accepts(Form::Pair, &[0, 1], true),
    Accepts(Form::Pair, &[0], false),
    Accepts(Form::Pair, &[0, 1, 1], false),
];

/// The automaton of a word accepts no part of it and nothing longer, and has a state for each
/// place.
#[test]
fn one_word(rt: HostRuntime) {
    hold(&rt, rt.alloc(), &[0], &[1], THE_PAIR);
    assert!(rt; pair_has_three_states(rt.alloc()));
}

/// Whether some edge leads from the one state to the other.
fn leads_to(table: &Table, q: usize, to: usize) -> bool {
    if q < table.states() {
        for edge in table.edges(q) {
            if edge.to == to {
                return true;
            }
        }
    }
    false
}

/// Whether it goes from state 0 to 2 at once, and has still the word 0 1, but not 0 alone.
fn goes_straight(alloc: Global, short: &Table) -> bool {
    leads_to(short, 0, 2)
        && !leads_to(short, 0, 1)
        && short.accepts(alloc, &[0, 1]).ok() == Some(true)
        && short.accepts(alloc, &[0]).ok() == Some(false)
}

/// Whether it goes from state 0 to 1, and straight to 2 once it is shortened.
fn is_shortened(alloc: Global, both: &Table) -> bool {
    match both.shortened(alloc) {
        Ok(short) => leads_to(both, 0, 1) && goes_straight(alloc, &short),
        Err(_) => false,
    }
}

/// The detour of a word of each: by the one from state 0 to 1, silently on to 2, and by the other to 3.
struct Detour;

impl Question for Detour {
    fn is_so(&self, alloc: Global, zero: &Table, one: &Table) -> bool {
        match zero.concat(alloc, one) {
            Ok(both) => is_shortened(alloc, &both),
            Err(_) => false,
        }
    }
}

/// A shortened automaton passes no state with a silent edge alone, and accepts the same words.
#[test]
fn detours_left_out(rt: HostRuntime) {
    assert!(rt; is_so_of_classes(rt.alloc(), &[0], &[1], &Detour));
}
