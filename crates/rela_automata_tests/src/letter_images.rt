//! Images of single words, over four fine letters and three coarse ones, by a table.
ghost use Rattle.std.specs.Prelude.{◌≡◌, ◌<◌, All, IfOk};

use rela_labels::{BlockSet, LabelSet};
use rela_letter_image::{LetterRelation, by_letters, letter_image};
use rela_letter_nfa::LetterNfa;
use rela_nfa::Nfa;
use rela_trans::{Transducer, are_letters};
use std::alloc::{AllocError, Global};

/// Sets of letters, in one word of 64 bits.
type Letters = BlockSet<1>;

/// The coarse letter of each fine one: 0 and 1 share theirs.
const COARSE: [u32; 4] = [0, 0, 1, 2];

/// What a relation does, over the coarse letters.
enum Form {
    /// It reads the letter 0, and writes it again.
    Keeps,
    /// It reads the letter 0, and writes the letter 1.
    Turns,
    /// It reads the letter 1, and writes the letter 0.
    Returns,
    /// Any number of times it reads the letter 0 and writes the letter 1.
    TurnsEach,
}

/// The words of this letter alone, over the coarse letters. A number that is no letter has none.
fn class(alloc: Global, letter: u32) -> Result<Nfa<Letters>, AllocError>
    ensures { IfOk result (λ nfa. nfa.letters ≡ 3) }
{
    let mut set = Letters::none(alloc, 3)?;
    if letter < 3 {
        set.add(alloc, letter)?;
    }
    Nfa::class(alloc, 3, &set)
}

/// The relation that reads this letter and writes that one.
fn turning(alloc: Global, read: u32, written: u32) -> Result<Transducer<Letters>, AllocError> {
    let first = class(alloc, read)?;
    let second = class(alloc, written)?;
    Transducer::product(alloc, &first, &second)
}

/// The relation of this form.
fn relation(alloc: Global, form: &Form) -> Result<Transducer<Letters>, AllocError> {
    match form {
        Form::Keeps => {
            let kept = class(alloc, 0)?;
            Transducer::identity(alloc, &kept)
        }
        Form::Turns => turning(alloc, 0, 1),
        Form::Returns => turning(alloc, 1, 0),
        Form::TurnsEach => {
            let turned = turning(alloc, 0, 1)?;
            turned.into_star(alloc)
        }
    }
}

/// Whether the automaton spells the word from the state on, in at most so many steps.
fn spells(image: &LetterNfa, state: u32, word: &[u32], steps: u32) -> bool {
    if steps == 0 || state as usize >= image.states() {
        return false;
    }
    if word.is_empty() && image.is_final(state) {
        return true;
    }
    for to in image.silent(state) {
        if spells(image, *to, word, steps - 1) {
            return true;
        }
    }
    if let Some((first, rest)) = word.split_first() {
        for edge in image.edges(state) {
            if edge.letter == *first && spells(image, edge.to, rest, steps - 1) {
                return true;
            }
        }
    }
    false
}

/// The automaton of this word of fine letters, by its letters, where it has at most `most` states and
/// edges.
fn path_of(alloc: Global, path: &[u32], most: usize) -> Result<Option<LetterNfa>, AllocError>
    requires { All (λ k. k < 4) path.now }
{
    let word: Nfa<Letters> = Nfa::word(alloc, 4, path)?;
    by_letters(alloc, &word, most)
}

/// The relation of this form, by its letters.
fn letter_relation(alloc: Global, form: &Form) -> Result<LetterRelation, AllocError> {
    let relation = relation(alloc, form)?;
    LetterRelation::new(alloc, &relation)
}

/// Whether the image was made, and has the word.
fn has(image: Result<Option<LetterNfa>, AllocError>, word: &[u32]) -> Option<bool> {
    match image {
        Ok(Some(image)) => Some(spells(&image, image.start(), word, 20)),
        _ => None,
    }
}

/// Whether the image of the path has the word, where it has at most `most` states and edges.
fn leads_to(
    alloc: Global,
    form: &Form,
    path: &LetterNfa,
    most: usize,
    word: &[u32],
) -> Option<bool> {
    match letter_relation(alloc, form) {
        Ok(relation) => has(letter_image(alloc, path, &relation, &COARSE, most), word),
        Err(_) => None,
    }
}

/// Whether the image of the word of fine letters has the other word, where the word and its image have at
/// most `most` states and edges. `None` where one has more, or there is no memory to tell.
fn has_word(alloc: Global, form: &Form, path: &[u32], most: usize, word: &[u32]) -> Option<bool> {
    if !are_letters(path, 4) {
        return None;
    }
    match path_of(alloc, path, most) {
        Ok(Some(path)) => leads_to(alloc, form, &path, most, word),
        _ => None,
    }
}

/// A form, a path, the bound, a word, and whether the path's image has it: `None` past the bound.
struct Case<'a>(Form, &'a [u32], usize, &'a [u32], Option<bool>);

/// What images have, and what they haven't.
const CASES: &[Case<'static>] = &[
    Case(Form::Keeps, &[1], 100, &[1], Some(true)),
    Case(Form::Keeps, &[1], 100, &[0], Some(false)),
    Case(Form::Keeps, &[2], 100, &[2], Some(false)),
    Case(Form::Turns, &[0], 100, &[2], Some(true)),
    Case(Form::Turns, &[1], 100, &[2], Some(true)),
    Case(Form::Turns, &[1], 100, &[3], Some(false)),
    Case(Form::Turns, &[1], 100, &[], Some(false)),
    Case(Form::Returns, &[2], 100, &[0], Some(true)),
    Case(Form::Returns, &[2], 100, &[1], Some(true)),
    Case(Form::TurnsEach, &[0, 1], 100, &[2, 2], Some(true)),
    Case(Form::TurnsEach, &[0, 1], 100, &[2], Some(false)),
    Case(Form::TurnsEach, &[], 100, &[], Some(true)),
    Case(Form::TurnsEach, &[0, 3], 100, &[2, 3], Some(false)),
    Case(Form::Turns, &[0], 1, &[2], None),
];

/// The images of paths have the words that they should.
#[test]
fn words_of_images(rt: HostRuntime) {
    for case in CASES {
        let found = has_word(rt.alloc(), &case.0, case.1, case.2, case.3);
        assert_eq!(rt; found, case.4);
    }
}
