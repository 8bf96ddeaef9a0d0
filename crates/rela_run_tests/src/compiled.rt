//! Checks compiled over the devices of a small network.

ghost use Rattle.std.specs.Prelude.{◌<◌};
ghost use Rattle.std.specs.Bool.{OnTrue};
ghost use Rattle.std.specs.List.{All};
ghost use Rattle.rela_names.specs.Alphabet.{path_symbols};

use crate::network::network;
use rela_engine::{Compiled, compile};
use rela_labels::WideSet;
use rela_locations::Locations;
use rela_names::{Alphabet, Level};
use rela_nfa::{BuildError, Nfa};
use rela_rir::SymbolSet;
use rela_top::read_asked;
use rela_trans::{Transducer, are_letters, image};
use rela_translate::Check;
use std::alloc::Global;

const PRESERVE: &[u8] = b"level device; check c1 : { .* : preserve };";

const REPLACE: &[u8] = b"level device; check c1 : { .* : replace(r1 r3, r1 r2) };";

/// The words whose eleventh symbol from the end isn't r1.
const COMPLEMENT: &[u8] = b"level device; check c1 : { !(.* r1 .{10}) : preserve };";

/// A question about a compiled check.
trait Question {
    fn is_so(&self, alloc: Global, compiled: &Compiled<'_>) -> bool;
}

/// Asks it of the last check of a short text, compiled under a limit of 1,000 states, and is false
/// where there is none. What owns a large value lends it at once: the proof of a function that does
/// more with it is long.
fn is_so(alloc: Global, text: &[u8], question: &impl Question) -> bool {
    match network(alloc) {
        Ok(locations) => is_so_over(alloc, text, &locations, question),
        Err(_) => false,
    }
}

/// The same over these locations.
fn is_so_over(alloc: Global, text: &[u8], locations: &Locations, question: &impl Question) -> bool {
    if text.len() > 1_000 {
        return false;
    }
    match read_asked(alloc, text, locations) {
        Ok(asked) => is_so_of(
            alloc,
            asked.checks.as_slice(),
            locations.alphabet(Level::Device),
            question,
        ),
        Err(_) => false,
    }
}

/// The same of the last of these checks.
fn is_so_of(
    alloc: Global,
    checks: &[Check],
    alphabet: &Alphabet,
    question: &impl Question,
) -> bool {
    let Some(check) = checks.last() else {
        return false;
    };
    if !are_listed(check.classes(), alphabet) {
        return false;
    }
    match compile(alloc, check, alphabet, 1_000) {
        Ok(compiled) => question.is_so(alloc, &compiled),
        Err(_) => false,
    }
}

/// Whether the symbols of the set are path symbols of the alphabet.
fn is_listed(set: &SymbolSet, alphabet: &Alphabet) -> bool
    ensures { OnTrue result (All (λ s. s < path_symbols alphabet.now) set.now.members) }
{
    let symbols = alphabet.len();
    set.members.as_slice().iter().all(|s| *s < symbols)
}

/// Whether those of each set are.
pub(crate) fn are_listed(sets: &[SymbolSet], alphabet: &Alphabet) -> bool
    ensures { OnTrue result (All (λ set. All (λ s. s < path_symbols alphabet.now)
        set.members) sets.now) }
{
    sets.iter().all(|set| is_listed(set, alphabet))
}

/// Whether the automaton accepts the word, where it was made, and `None` where it wasn't or there
/// is no memory to tell.
fn accepts(alloc: Global, made: Result<Nfa<WideSet>, BuildError>, word: &[u32]) -> Option<bool> {
    match made {
        Ok(nfa) => nfa.accepts(alloc, word).ok(),
        Err(_) => None,
    }
}

/// Whether the relation has the pair of words: whether the image of the first word has the second.
/// `None` where a number that is read is no letter, or there is no memory to tell.
fn has(alloc: Global, relation: &Transducer<WideSet>, u: &[u32], v: &[u32]) -> Option<bool> {
    if !are_letters(u, relation.letters()) {
        return None;
    }
    match Nfa::word(alloc, relation.letters(), u) {
        Ok(word) => accepts(alloc, image(alloc, &word, relation, 1_000), v),
        Err(_) => None,
    }
}

/// A check that asks for no change.
#[derive(Drop)]
struct NoChange;

impl Question for NoChange {
    fn is_so(&self, alloc: Global, compiled: &Compiled<'_>) -> bool {
        if !compiled.complete() {
            return false;
        }
        let relation = compiled.before();
        // The locations, drop and loop.
        compiled.blocks().blocks() == 3
            && compiled.treats_sides_alike()
            && has(alloc, relation, &[0, 1], &[0, 1]) == Some(true)
            && has(alloc, relation, &[0, 1], &[0]) == Some(false)
    }
}

/// A check that asks for a change.
#[derive(Drop)]
struct Replaced;

impl Question for Replaced {
    fn is_so(&self, alloc: Global, compiled: &Compiled<'_>) -> bool {
        if !compiled.complete() {
            return false;
        }
        // r1, r2, r3, r4, drop and loop.
        compiled.blocks().blocks() == 6
            && !compiled.treats_sides_alike()
            && has(alloc, compiled.before(), &[0, 2], &[0, 1]) == Some(true)
            && has(alloc, compiled.before(), &[0, 2], &[0, 2]) == Some(false)
            && has(alloc, compiled.after(), &[0, 1], &[0, 1]) == Some(true)
    }
}

/// A check that can't be compiled under the limit: its complement tells 2,048 words apart by how they
/// may go on.
#[derive(Drop)]
struct LeftOpen;

impl Question for LeftOpen {
    fn is_so(&self, _alloc: Global, compiled: &Compiled<'_>) -> bool {
        compiled.states() == 1_000 && !compiled.complete()
    }
}

#[test]
fn compiles_what_asks_for_no_change(rt: HostRuntime) {
    assert!(rt; is_so(rt.alloc(), PRESERVE, &NoChange));
}

#[test]
fn compiles_what_asks_for_a_change(rt: HostRuntime) {
    assert!(rt; is_so(rt.alloc(), REPLACE, &Replaced));
}

#[test]
fn leaves_a_check_open_past_the_limit(rt: HostRuntime) {
    assert!(rt; is_so(rt.alloc(), COMPLEMENT, &LeftOpen));
}
