//! Numbers by which automata are looked up. Nothing that is proved rests on them.
use rela_labels::{LabelSet, WideSet};
use rela_nfa::{Edge, Nfa};

/// An odd number of which the bits look random: 2^64 by the golden ratio.
const MIXER: u64 = 0x9E37_79B9_7F4A_7C15;

/// How many letters of a set are looked at.
const MOST_LETTERS: u32 = 64;

/// A number of the automaton and a set of its letters, which for others is rarely the same. Time:
/// linear in the states and the edges.
pub(crate) fn fingerprint(nfa: &Nfa<WideSet>, over: &WideSet) -> u64 {
    let mut print = mixed(nfa.states() as u64, nfa.start() as u64);
    print = with_letters(print, over);
    for q in 0..nfa.states() {
        print = mixed(print, nfa.is_final(q) as u64);
        print = with_edges(print, nfa.edges(q));
    }
    print
}

/// The number with these edges mixed in.
fn with_edges(print: u64, edges: &[Edge<WideSet>]) -> u64 {
    let mut print = print;
    for edge in edges {
        print = mixed(print, edge.to as u64);
        print = match &edge.label {
            Some(label) => with_letters(print, label),
            None => mixed(print, 0),
        };
    }
    print
}

/// The number with the set's size, its least letter and its first letters mixed in.
fn with_letters(print: u64, set: &WideSet) -> u64 {
    let size = set.size();
    let least = set.least().map_or(1, |letter| letter as u64 + 2);
    mixed(
        mixed(mixed(print, size as u64), least),
        first_letters(set, size),
    )
}

/// The letters of the set below 64, as the bits of a word.
fn first_letters(set: &WideSet, size: u32) -> u64 {
    let mut word = 0u64;
    for letter in 0..size.min(MOST_LETTERS) {
        word = word.wrapping_mul(2) | set.contains(letter) as u64;
    }
    word
}

/// The number with another mixed in.
fn mixed(print: u64, number: u64) -> u64 {
    (print ^ number).wrapping_mul(MIXER).rotate_left(29)
}
