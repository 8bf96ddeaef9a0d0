//! The letter that is to be written next, and the letters that are read.
ghost use Rattle.std.specs.Prelude.{◌≡◌};
ghost use Rattle.rela_letter_image.specs.Coarse.{coarse_of};
ghost use Rattle.rela_letter_source.specs.Steps.{after_letter, after_read, next_of, reading_of};

use rela_letter_nfa::LetterEdge;

/// The letter of a word that is to be written next.
#[derive(Clone, Copy, Debug)]
pub(crate) struct Next {
    /// The letter, a fine one.
    pub(crate) letter: u32,
    /// Its coarse letter.
    pub(crate) coarse: u32,
    /// How many letters of the word have been written once it is.
    pub(crate) after: usize,
}

/// An edge as it is read where so many letters of a word have been written.
#[derive(Clone, Copy, Debug)]
pub(crate) struct Reading {
    /// The edge, by a fine letter.
    pub(crate) edge: LetterEdge,
    /// The coarse letter of the edge's letter.
    pub(crate) coarse: u32,
    /// How many letters have been written.
    pub(crate) written: usize,
    /// How many letters have been written after the edge's letter, if it is the one that is to be
    /// written next.
    pub(crate) after: Option<usize>,
}

/// The coarse letter of a fine one; that of a letter past the list is `letters`, their number.
fn coarse_letter(coarse: &[u32], letters: u32, letter: u32) -> u32
    ensures { result ≡ coarse_of letters coarse.now letter }
{
    match coarse.get(letter as usize) {
        Some(letter) => *letter,
        None => letters,
    }
}

/// The letter that is to be written next, where so many have been written, and `None` where all
/// have. The transducer that writes has this number of coarse letters.
pub(crate) fn next_letter(
    letters: u32,
    coarse: &[u32],
    word: &[u32],
    written: usize,
) -> Option<Next>
    ensures { result ≡ next_of letters coarse.now word.now written }
{
    match word.get(written) {
        Some(letter) => {
            let letter = *letter;
            Some(Next {
                letter,
                coarse: coarse_letter(coarse, letters, letter),
                after: written + 1,
            })
        }
        None => None,
    }
}

/// How many letters have been written after the letter, if it is the one that is to be written
/// next.
fn letters_after(next: Option<Next>, letter: u32) -> Option<usize>
    ensures { result ≡ after_letter next letter }
{
    match next {
        Some(next) if next.letter == letter => Some(next.after),
        _ => None,
    }
}

/// The edge as it is read where so many letters have been written, and where `next` is to be
/// written next.
pub(crate) fn as_read(
    letters: u32,
    coarse: &[u32],
    next: Option<Next>,
    written: usize,
    edge: LetterEdge,
) -> Reading
    ensures { result ≡ reading_of letters coarse.now next written edge }
{
    Reading {
        edge,
        coarse: coarse_letter(coarse, letters, edge.letter),
        written,
        after: letters_after(next, edge.letter),
    }
}

/// How many letters have been written after the edge's letter is read, and written too if `writes`
/// says so; `None` where it is to be written and isn't the next one.
pub(crate) fn written_after(edge: Reading, writes: bool) -> Option<usize>
    ensures { result ≡ after_read edge writes }
{
    if writes {
        edge.after
    } else {
        Some(edge.written)
    }
}
