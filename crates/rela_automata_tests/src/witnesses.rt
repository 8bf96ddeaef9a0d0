//! The first words of automata, and the first words for which transducers write others.

ghost use Rattle.std.specs.Prelude.{◌≡◌, IfOk};

use crate::three_letters::{Letters, Question, Table, class, hold, is_so_of_words, is_word, word};
use rela_trans::Transducer;
use rela_witness::{least_source, least_word};
use std::alloc::{AllocError, Global};

/// Whether the first word of the automaton is that of these letters, or there is none as asked for.
fn is_least(alloc: Global, words: &Table, letters: Option<&[u32]>) -> bool {
    is_word(least_word(alloc, words), letters)
}

/// Whether the first word of the automaton is that of these letters, or there is none as asked for,
/// where the automaton was made.
fn has_least(alloc: Global, words: Result<Table, AllocError>, letters: Option<&[u32]>) -> bool {
    match words {
        Ok(words) => is_least(alloc, &words, letters),
        Err(_) => false,
    }
}

/// The words of the automaton, and the word 2 0.
fn with_less(alloc: Global, words: &Table) -> Result<Table, AllocError>
    requires { words.now.letters ≡ 3 }
    ensures { IfOk result (λ nfa. nfa.letters ≡ 3) }
{
    let less = word(alloc, &[2, 0])?;
    words.union(alloc, &less)
}

/// The first words of two words, of these and a lesser one, and of these followed by the two.
fn has_lesser(alloc: Global, both: &Table) -> bool
    requires { both.now.letters ≡ 3 }
{
    match with_less(alloc, both) {
        Ok(all) => {
            is_least(alloc, both, Some(&[2, 1]))
                && is_least(alloc, &all, Some(&[2, 0]))
                && has_least(alloc, all.concat(alloc, both), Some(&[2, 0, 2, 1]))
        }
        Err(_) => false,
    }
}

/// That a shorter word comes before a lesser one.
struct ShorterFirst;

impl Question for ShorterFirst {
    fn is_so(&self, alloc: Global, long: &Table, short: &Table) -> bool {
        match long.union(alloc, short) {
            Ok(both) => has_lesser(alloc, &both),
            Err(_) => false,
        }
    }
}

/// Of words of different lengths a shorter one comes first, whatever its letters.
#[test]
fn shorter_before_less(rt: HostRuntime) {
    assert!(rt; is_so_of_words(rt.alloc(), &[0, 0, 0], &[2, 1], &ShorterFirst));
}

/// That of two letters the lesser comes first, and behind a letter too.
struct LesserFirst;

impl Question for LesserFirst {
    fn is_so(&self, alloc: Global, one: &Table, zero: &Table) -> bool {
        match one.union(alloc, zero) {
            Ok(either) => {
                is_least(alloc, &either, Some(&[0]))
                    && has_least(alloc, one.concat(alloc, &either), Some(&[1, 0]))
            }
            Err(_) => false,
        }
    }
}

/// Of words of one length that of the lesser letters comes first.
#[test]
fn least_of_one_length(rt: HostRuntime) {
    assert!(rt; is_so_of_words(rt.alloc(), &[1], &[0], &LesserFirst));
}

/// That the empty word comes first, where there is one.
struct EmptyFirst;

impl Question for EmptyFirst {
    fn is_so(&self, alloc: Global, one: &Table, _zero: &Table) -> bool {
        is_least(alloc, one, Some(&[1])) && has_least(alloc, one.star(alloc), Some(&[]))
    }
}

/// The empty word comes before all others.
#[test]
fn the_empty_word(rt: HostRuntime) {
    assert!(rt; is_so_of_words(rt.alloc(), &[1], &[0], &EmptyFirst));
}

/// That there is no first word of none, of no letter, and of a word followed by none.
struct NoneFirst;

impl Question for NoneFirst {
    fn is_so(&self, alloc: Global, one: &Table, _zero: &Table) -> bool {
        match Table::none(alloc, 3) {
            Ok(none) => {
                is_least(alloc, &none, None)
                    && has_least(alloc, class(alloc, &[]), None)
                    && has_least(alloc, one.concat(alloc, &none), None)
            }
            Err(_) => false,
        }
    }
}

/// An automaton without a word has no first one.
#[test]
fn no_word(rt: HostRuntime) {
    assert!(rt; is_so_of_words(rt.alloc(), &[1], &[0], &NoneFirst));
}

/// The first of the words of one of these letters for which a machine writes the target, if there
/// is one: the letters, the target, and the first word. The machine reads a letter of the first
/// automaton, and writes one of the second.
struct Source<'a>(&'a [u32], &'a [u32], Option<&'a [u32]>);

impl Source<'_> {
    /// Whether the first word is found by this machine.
    fn is_found(&self, alloc: Global, turned: &Transducer<Letters>) -> bool
        requires { turned.now.letters ≡ 3 }
    {
        match class(alloc, self.0) {
            Ok(words) => is_word(least_source(alloc, &words, turned, self.1), self.2),
            Err(_) => false,
        }
    }
}

impl Question for Source<'_> {
    fn is_so(&self, alloc: Global, read: &Table, written: &Table) -> bool {
        match Transducer::product(alloc, read, written) {
            Ok(turned) => self.is_found(alloc, &turned),
            Err(_) => false,
        }
    }
}

/// Questions about the machine that reads letter 0 or 1 and writes letter 2.
const SOURCES: &[Source<'static>] = &[
    Source(&[0, 1], &[2], Some(&[0])),
    Source(&[1], &[2], Some(&[1])),
    Source(&[2], &[2], None),
    Source(&[0, 1], &[1], None),
    Source(&[0, 1], &[3], None),
];

/// The first source of a word is found, if there is one.
#[test]
fn sources_of_one_letter(rt: HostRuntime) {
    hold(&rt, rt.alloc(), &[0, 1], &[2], SOURCES);
}
