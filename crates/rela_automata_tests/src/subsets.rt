//! The subset construction, complements and first words.

ghost use Rattle.std.specs.Prelude.{◌≡◌, ◌≤◌, IfOk, length};
ghost use Rattle.rela_subset.specs.Deterministic.{IsByArrival, IsReachable};

use crate::far_letters::one_before;
use crate::three_letters::{
    Letters, Question, Table, has, hold, is_past_limit, is_so_of_classes, is_so_of_words, is_word,
    set_of,
};
use rela_labels::LabelSet;
use rela_names::Word;
use rela_subset::{BuildError, Dfa, Wanted, determinise, first_word};
use std::alloc::{AllocError, Global};

/// The deterministic automaton of the sets of states that the words reach, over these of three
/// letters.
pub(crate) fn determinised(
    alloc: Global,
    words: &Table,
    over: &[u32],
    limit: usize,
) -> Result<Dfa<Letters>, BuildError>
    requires letters { words.now.letters ≡ 3 }
    requires limit { 1 ≤ limit }
    ensures reachable { IfOk result IsReachable }
    ensures arrival { IfOk result IsByArrival }
{
    let over = set_of(alloc, over)?;
    determinise(alloc, words, &over, limit)
}

/// The words over the same letters that the automaton doesn't accept.
fn others(alloc: Global, dfa: Dfa<Letters>) -> Result<Table, AllocError> {
    let others = dfa.into_complement(alloc)?;
    others.into_nfa(alloc)
}

/// Whether the word is one of all words of three letters but those of the first automaton, or not:
/// the word, and whether it is.
struct Other<'a>(&'a [u32], bool);

impl Question for Other<'_> {
    fn is_so(&self, alloc: Global, words: &Table, _second: &Table) -> bool {
        match determinised(alloc, words, &[0, 1, 2], 3) {
            Ok(dfa) => has(alloc, others(alloc, dfa), self.0) == Some(self.1),
            Err(_) => false,
        }
    }
}

/// Questions about all words but 0.
const ALL_BUT_ZERO: &[Other<'static>] = &[
    Other(&[], true),
    Other(&[1], true),
    Other(&[0, 0], true),
    Other(&[0], false),
];

/// The complement of one word accepts every other.
#[test]
fn all_words_but_one(rt: HostRuntime) {
    hold(&rt, rt.alloc(), &[0], &[1], ALL_BUT_ZERO);
}

/// Whether it reads letters 0 and 2 of three.
fn is_reading(dfa: &Dfa<Letters>) -> bool {
    let start = dfa.start();
    dfa.letters() == 3
        && dfa.states() == 3
        && dfa.edges(start).len() == 2
        && !dfa.over().contains(1)
        && dfa.over().contains(2)
        && !dfa.is_final(start)
}

/// That an automaton over letters 0 and 2 alone reads the word of letter 2 so.
struct Reading;

impl Question for Reading {
    fn is_so(&self, alloc: Global, words: &Table, _second: &Table) -> bool {
        match determinised(alloc, words, &[0, 2], 3) {
            Ok(dfa) => is_reading(&dfa) && has(alloc, dfa.into_nfa(alloc), &[2]) == Some(true),
            Err(_) => false,
        }
    }
}

/// A deterministic automaton over some of the letters reads these and no other.
#[test]
fn reads_a_letter(rt: HostRuntime) {
    assert!(rt; is_so_of_classes(rt.alloc(), &[2], &[0], &Reading));
}

/// How many sets of states the words reach, `Limit` where there are more than `limit`.
fn sets_reached(alloc: Global, words: &Table, limit: usize) -> Result<usize, BuildError>
    requires letters { words.now.letters ≡ 3 }
    requires limit { 1 ≤ limit }
{
    let dfa = determinised(alloc, words, &[0, 1, 2], limit)?;
    Ok(dfa.states())
}

/// Whether the number of sets of states that the words reach is enough as a limit, and one less is
/// too low.
fn has_exact_limit(alloc: Global, words: &Table) -> bool
    requires { words.now.letters ≡ 3 }
{
    match sets_reached(alloc, words, 4_000_000) {
        Ok(states) => {
            states > 1
                && sets_reached(alloc, words, states).ok() == Some(states)
                && is_past_limit(sets_reached(alloc, words, states - 1))
        }
        Err(_) => false,
    }
}

/// The limit on the sets of states that words with a letter just before the last reach.
struct ExactLimit;

impl Question for ExactLimit {
    fn is_so(&self, alloc: Global, any: &Table, one: &Table) -> bool {
        match one_before(alloc, any, one, 1) {
            Ok(words) => has_exact_limit(alloc, &words),
            Err(_) => false,
        }
    }
}

/// The limit on sets of states is exact.
#[test]
fn as_many_states_as_the_limit(rt: HostRuntime) {
    assert!(rt; is_so_of_classes(rt.alloc(), &[0, 1, 2], &[0], &ExactLimit));
}

/// The property of sets of states to have this many.
#[derive(Drop)]
struct OfSize {
    /// The number of states.
    size: usize,
}

impl Wanted for OfSize {
    ghost wants = { λ of set. length set ≡ of.size };

    fn is_wanted(&self, set: &[usize]) -> bool {
        set.len() == self.size
    }
}

/// The first word that reaches a set of `size` states of the automaton, `None` where there is none.
fn first_to(
    alloc: Global,
    words: &Table,
    size: usize,
    limit: usize,
) -> Result<Option<Word>, BuildError>
    requires letters { words.now.letters ≡ 3 }
    requires limit { 1 ≤ limit }
{
    let all = set_of(alloc, &[0, 1, 2])?;
    first_word(alloc, words, &all, &OfSize { size }, limit)
}

/// The first word that reaches two states of the automaton of both, `None` where there is none.
fn first_to_two(alloc: Global, first: &Table, second: &Table) -> Result<Option<Word>, BuildError>
    requires first { first.now.letters ≡ 3 }
    requires second { second.now.letters ≡ 3 }
{
    let both = first.union(alloc, second)?;
    first_to(alloc, &both, 2, 100)
}

/// First words to sets of states of the word 1 2 alone, whose sets are those of the empty word, of 0,
/// of 1 and of 1 2; and of this word and a longer one.
struct FirstWords;

impl Question for FirstWords {
    fn is_so(&self, alloc: Global, pair: &Table, longer: &Table) -> bool {
        is_word(first_to(alloc, pair, 0, 1), Some(&[0]))
            && is_word(first_to(alloc, pair, 2, 4), None)
            && is_past_limit(first_to(alloc, pair, 2, 3))
            && is_word(first_to_two(alloc, pair, longer), Some(&[1]))
    }
}

/// The first word to a wanted set is found, if there is one, within the limit.
#[test]
fn first_words(rt: HostRuntime) {
    assert!(rt; is_so_of_words(rt.alloc(), &[1, 2], &[1, 2, 0], &FirstWords));
}
