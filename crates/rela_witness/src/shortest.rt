//! The first word that an automaton accepts.
ghost use Rattle.std.specs.Prelude.{◌≡◌, ℕ, List, Some, IfOk, IfSome, IfNone, length};
ghost use Rattle.rela_names.specs.Shortlex.{First};
ghost use Rattle.rela_nfa.specs.Automaton.{states};
ghost use Rattle.rela_nfa.specs.Runs.{Accepts};
ghost use Rattle.rela_witness.specs.Finishing.{AreDistances};
ghost use Rattle.rela_witness.specs.Numbered.{number_of};

use crate::distances::distances;
use crate::letters::least_letter;
use crate::numbers::enter;
use crate::onward::{close_onward, layer_after};
use rela_labels::LabelSet;
use rela_names::Word;
use rela_nfa::Nfa;
use std::alloc::{AllocError, Global};

/// The first word in shortlex order that the automaton accepts: of its shortest words the least,
/// letter by letter. `None` where it accepts no word. Want of memory is the only error. Time and
/// space: linear in the states and the edges, each of which is looked at a constant number of
/// times.
pub fn least_word<L: LabelSet>(alloc: Global, a: &Nfa<L>) -> Result<Option<Word>, AllocError>
    ensures found { IfOk result (λ found. IfSome found (First (Accepts a.now))) }
    ensures none { IfOk result (λ found. IfNone found ((word : List ℕ) → ¬ Accepts a.now word)) }
{
    let distances = distances(alloc, a)?;
    match distances[a.start()] {
        Some(len) => Ok(Some(Word::from_symbols(spell(alloc, a, &distances, len)?))),
        None => Ok(None),
    }
}

/// The first word that the automaton accepts, by the distances of its states, where that of its
/// start is `len`. The layer has the states that the letters so far lead to and from which the rest
/// can be short enough, and the next letter is the least that leads on from them to a lesser
/// distance.
fn spell<L: LabelSet>(
    alloc: Global,
    a: &Nfa<L>,
    distances: &[Option<usize>],
    len: usize,
) -> Result<Vec<u32>, AllocError>
    requires count { length distances.now ≡ states a.now }
    requires distances { AreDistances a.now distances.now }
    requires len { number_of distances.now a.now.start ≡ Some len }
    ensures { IfOk result (λ word. First (Accepts a.now) word.items) }
{
    let mut numbers = vec![in alloc; None; a.states()]?;
    let mut layer = Vec::new(alloc);
    enter(&mut numbers, &mut layer, a.start(), len)?;
    let mut word = Vec::with_capacity(alloc, len)?;
    let mut left = len;
    while left > 0 {
        close_onward(a, distances, &mut numbers, &mut layer, left)?;
        left -= 1;
        let letter = match least_letter(a, distances, &layer, left) {
            Some(letter) => letter,
            None => unreachable!(),
        };
        layer = layer_after(alloc, a, distances, &mut numbers, &layer, letter, left)?;
        word.push(letter)?;
    }
    Ok(word)
}
