//! Sets of three letters, automata over them, and what is asked of these.

ghost use Rattle.std.specs.Prelude.{◌≡◌, ◌<◌, IfOk, length};
ghost use Rattle.std.specs.List.{All};

use rela_labels::{BlockSet, LabelSet};
use rela_names::Word;
use rela_nfa::{BuildError, Nfa};
use std::alloc::{AllocError, Global};
use std::process::Abort;

/// Sets of letters, in one word of 64 bits.
pub(crate) type Letters = BlockSet<1>;

/// Automata whose labels are [`Letters`].
pub(crate) type Table = Nfa<Letters>;

/// The set of these of three letters. Numbers that are no letters are left out.
pub(crate) fn set_of(alloc: Global, letters: &[u32]) -> Result<Letters, AllocError>
    ensures { IfOk result (λ set. length set ≡ 3) }
{
    let mut set = Letters::none(alloc, 3)?;
    for letter in letters {
        if *letter < 3 {
            set.add(alloc, *letter)?;
        }
    }
    Ok(set)
}

/// The words of one of these of three letters.
pub(crate) fn class(alloc: Global, letters: &[u32]) -> Result<Table, AllocError>
    ensures { IfOk result (λ nfa. nfa.letters ≡ 3) }
{
    let set = set_of(alloc, letters)?;
    Nfa::class(alloc, 3, &set)
}

/// This word of three letters alone.
pub(crate) fn word(alloc: Global, letters: &[u32]) -> Result<Table, AllocError>
    requires { All (λ k. k < 3) letters.now }
    ensures { IfOk result (λ nfa. nfa.letters ≡ 3) }
{
    Nfa::word(alloc, 3, letters)
}

/// A question about two automata over three letters.
pub(crate) trait Question {
    /// Whether the answer to the question is yes.
    fn is_so(&self, alloc: Global, first: &Table, second: &Table) -> bool
        requires first { first.now.letters ≡ 3 }
        requires second { second.now.letters ≡ 3 };
}

/// Asks the question of the words of one of the first letters and those of one of the second, and
/// is false where there is no memory for them. What owns a large value lends it at once: the proof
/// of a function that does more with it is long.
pub(crate) fn is_so_of_classes(
    alloc: Global,
    first: &[u32],
    second: &[u32],
    question: &impl Question,
) -> bool {
    match class(alloc, first) {
        Ok(first) => is_so_beside_class(alloc, &first, second, question),
        Err(_) => false,
    }
}

/// Asks the question of the first automaton and the words of one of the second letters, and is
/// false where there is no memory for them.
fn is_so_beside_class(
    alloc: Global,
    first: &Table,
    second: &[u32],
    question: &impl Question,
) -> bool
    requires { first.now.letters ≡ 3 }
{
    match class(alloc, second) {
        Ok(second) => question.is_so(alloc, first, &second),
        Err(_) => false,
    }
}

/// Asks the question of these two words, each alone, and is false where there is no memory for
/// them.
pub(crate) fn is_so_of_words(
    alloc: Global,
    first: &[u32],
    second: &[u32],
    question: &impl Question,
) -> bool
    requires first { All (λ k. k < 3) first.now }
    requires second { All (λ k. k < 3) second.now }
{
    match word(alloc, first) {
        Ok(first) => is_so_beside_word(alloc, &first, second, question),
        Err(_) => false,
    }
}

/// Asks the question of the first automaton and the second word alone, and is false where there is
/// no memory for it.
fn is_so_beside_word(alloc: Global, first: &Table, second: &[u32], question: &impl Question) -> bool
    requires over { first.now.letters ≡ 3 }
    requires letters { All (λ k. k < 3) second.now }
{
    match word(alloc, second) {
        Ok(second) => question.is_so(alloc, first, &second),
        Err(_) => false,
    }
}

/// Says of each question that its answer is yes, of the words of one of the first letters and those
/// of one of the second.
pub(crate) fn hold<Q: Question>(
    rt: &impl Abort,
    alloc: Global,
    first: &[u32],
    second: &[u32],
    questions: &[Q],
) {
    for place in 0..questions.len() {
        assert!(rt;
            is_so_of_classes(alloc, first, second, &questions[place]),
            "question {place}"
        );
    }
}

/// Whether the automaton accepts the word, where it was made, and `None` where it wasn't or there
/// is no memory to tell.
pub(crate) fn has<E: Drop>(alloc: Global, words: Result<Table, E>, word: &[u32]) -> Option<bool> {
    match words {
        Ok(words) => words.accepts(alloc, word).ok(),
        Err(_) => None,
    }
}

/// Whether the word that was found is that of these letters, or whether none was found where none
/// is asked for.
pub(crate) fn is_word<E: Drop>(found: Result<Option<Word>, E>, letters: Option<&[u32]>) -> bool {
    match found {
        Ok(Some(word)) => match letters {
            Some(letters) => word.as_slice() == letters,
            None => false,
        },
        Ok(None) => letters.is_none(),
        Err(_) => false,
    }
}

/// Whether something wasn't made because of its limit.
pub(crate) fn is_past_limit<T: Drop>(made: Result<T, BuildError>) -> bool {
    match made {
        Ok(_) => false,
        Err(error) => error == BuildError::Limit,
    }
}
