//! Minimal automata.

ghost use Rattle.std.specs.Prelude.{◌≡◌, IfOk, length};
ghost use Rattle.rela_subset.specs.Deterministic.{IsByArrival, IsReachable};

use crate::far_letters::one_before;
use crate::subsets::determinised;
use crate::three_letters::{Letters, Question, Table, is_so_of_classes, is_so_of_words};
use rela_labels::{LabelSet, WideSet};
use rela_minimise::merge_equivalent;
use rela_nfa::Nfa;
use rela_subset::{BuildError, Dfa, determinise};
use std::alloc::{AllocError, Global};

/// All words but those of the automaton, minimal.
fn minimal_others(alloc: Global, dfa: &Dfa<Letters>) -> Result<Dfa<Letters>, AllocError>
    requires reachable { IsReachable dfa.now }
    requires arrival { IsByArrival dfa.now }
{
    let least = merge_equivalent(alloc, dfa)?;
    least.into_complement(alloc)
}

/// Whether it has a state for the empty word, one for letter 0 alone and one for all other words,
/// with one edge to each state that follows, and accepts all but letter 0.
fn lacks_zero(made: &Dfa<Letters>) -> bool {
    made.states() == 3
        && made.start() == 0
        && made.over().contains(0)
        && made.over().contains(1)
        && [
            made.edges(0).len(),
            made.edges(1).len(),
            made.edges(2).len(),
        ] == [2, 1, 1]
        && [made.is_final(0), made.is_final(1), made.is_final(2)] == [true, false, true]
}

/// Whether the minimal automaton of all words but those lacks letter 0.
fn others_lack_zero(alloc: Global, dfa: &Dfa<Letters>) -> bool
    requires reachable { IsReachable dfa.now }
    requires arrival { IsByArrival dfa.now }
{
    match minimal_others(alloc, dfa) {
        Ok(made) => lacks_zero(&made),
        Err(_) => false,
    }
}

/// That the minimal automaton of all words but letter 0 lacks just that one.
struct Others;

impl Question for Others {
    fn is_so(&self, alloc: Global, zero: &Table, _one: &Table) -> bool {
        match determinised(alloc, zero, &[0, 1, 2], 10) {
            Ok(dfa) => others_lack_zero(alloc, &dfa),
            Err(_) => false,
        }
    }
}

/// The minimal automaton of all words but one has the states that it should, numbered as words
/// arrive.
#[test]
fn all_words_but_one_letter(rt: HostRuntime) {
    assert!(rt; is_so_of_classes(rt.alloc(), &[0], &[1], &Others));
}

/// Whether the minimal automaton has four states, and two edges from where it starts.
fn has_four_states(alloc: Global, dfa: &Dfa<Letters>) -> bool
    requires reachable { IsReachable dfa.now }
    requires arrival { IsByArrival dfa.now }
{
    match merge_equivalent(alloc, dfa) {
        Ok(made) => made.states() == 4 && made.edges(0).len() == 2,
        Err(_) => false,
    }
}

/// Whether the words reach more than four sets of states, and four are enough.
fn are_merged(alloc: Global, words: &Table) -> bool
    requires { words.now.letters ≡ 3 }
{
    match determinised(alloc, words, &[0, 1, 2], 10) {
        Ok(dfa) => dfa.states() > 4 && has_four_states(alloc, &dfa),
        Err(_) => false,
    }
}

/// That states with the same words to come are one, in the automaton of both.
struct Merged;

impl Question for Merged {
    fn is_so(&self, alloc: Global, first: &Table, second: &Table) -> bool {
        match first.union(alloc, second) {
            Ok(words) => are_merged(alloc, &words),
            Err(_) => false,
        }
    }
}

/// States with the same words to come are merged.
#[test]
fn states_with_the_same_words_are_one(rt: HostRuntime) {
    assert!(rt; is_so_of_words(rt.alloc(), &[0, 2], &[1, 2], &Merged));
}

/// All of 300 letters.
fn all(alloc: Global) -> Result<WideSet, AllocError>
    ensures { IfOk result (λ set. length set ≡ 300) }
{
    let mut set = WideSet::none(alloc, 300)?;
    for letter in 0..300 {
        set.add(alloc, letter)?;
    }
    Ok(set)
}

/// Letter 7 of 300, as a word.
fn seventh(alloc: Global) -> Result<Nfa<WideSet>, AllocError>
    ensures { IfOk result (λ nfa. nfa.letters ≡ 300) }
{
    let mut set = WideSet::none(alloc, 300)?;
    set.add(alloc, 7)?;
    Nfa::class(alloc, 300, &set)
}

/// The words with letter 7 at five places before the last.
fn seventh_before_five(alloc: Global, any: &Nfa<WideSet>) -> Result<Nfa<WideSet>, AllocError>
    requires { any.now.letters ≡ 300 }
    ensures { IfOk result (λ nfa. nfa.letters ≡ 300) }
{
    let seventh = seventh(alloc)?;
    one_before(alloc, any, &seventh, 5)
}

/// The words over these letters, all of 300, with letter 7 at five places before the last.
fn many_letters(alloc: Global, all: &WideSet) -> Result<Nfa<WideSet>, AllocError>
    requires { length all.now ≡ 300 }
    ensures { IfOk result (λ nfa. nfa.letters ≡ 300) }
{
    let any = Nfa::class(alloc, 300, all)?;
    seventh_before_five(alloc, &any)
}

/// The deterministic automaton of the sets of states that these words reach, over these letters.
fn many_letters_determinised(alloc: Global, all: &WideSet) -> Result<Dfa<WideSet>, BuildError>
    requires { length all.now ≡ 300 }
    ensures reachable { IfOk result IsReachable }
    ensures arrival { IfOk result IsByArrival }
{
    let words = many_letters(alloc, all)?;
    determinise(alloc, &words, all, 100)
}

/// Whether the minimal automaton has 64 states.
fn has_64_states(alloc: Global, dfa: &Dfa<WideSet>) -> bool
    requires reachable { IsReachable dfa.now }
    requires arrival { IsByArrival dfa.now }
{
    match merge_equivalent(alloc, dfa) {
        Ok(made) => made.states() == 64,
        Err(_) => false,
    }
}

/// Whether these words reach more than 64 sets of states, and 64 are enough.
fn are_of_two_kinds(alloc: Global, all: &WideSet) -> bool
    requires { length all.now ≡ 300 }
{
    match many_letters_determinised(alloc, all) {
        Ok(dfa) => dfa.states() > 64 && has_64_states(alloc, &dfa),
        Err(_) => false,
    }
}

/// Whether the words over all letters reach more than 64 sets of states, and 64 are enough.
fn are_all_of_two_kinds(alloc: Global) -> bool {
    match all(alloc) {
        Ok(all) => are_of_two_kinds(alloc, &all),
        Err(_) => false,
    }
}

/// Many letters of two kinds are minimised to as few states as two letters would be.
#[test]
fn many_letters_of_two_kinds(rt: HostRuntime) {
    assert!(rt; are_all_of_two_kinds(rt.alloc()));
}
