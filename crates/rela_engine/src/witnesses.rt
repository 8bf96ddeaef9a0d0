//! What a violated row tells: words of letters as words of symbols, and the sources of words.
ghost use Rattle.std.specs.Prelude.{◌≡◌, ◌<◌, ℕ, List, IfOk, All};
ghost use Rattle.rela_labels.specs.Partition.{block_count};
ghost use Rattle.rela_nfa.specs.Automaton.{IsAutomaton};
ghost use Rattle.rela_engine.specs.LetterImages.{TellsSource};
ghost use Rattle.rela_engine.specs.Seen.{AreLeast, IsSource, IsFirstSource, TellsOf};

use crate::offence::Offence;
use crate::seen::Seen;
use rela_labels::{LabelSet, Partition};
use rela_names::Word;
use rela_nfa::Nfa;
use rela_report::Row;
use rela_trans::Transducer;
use rela_witness::least_source;
use std::alloc::{AllocError, Global};

/// The row of an offence, where its side is seen so: the first word of symbols with the offence's
/// letters, and its first source. The only error is want of memory.
pub(crate) fn violated_row<L: LabelSet>(
    alloc: Global,
    offence: &Offence,
    seen: &Seen<L>,
    blocks: &Partition,
) -> Result<Row, AllocError>
    requires below { All (λ k. k < block_count blocks.now) offence.now.letters }
    requires letters { seen.now.paths.letters ≡ block_count blocks.now }
    requires same_letters { seen.now.relation.letters ≡ block_count blocks.now }
    requires automaton { IsAutomaton seen.now.paths }
    requires some { (source : List ℕ) × IsSource seen.now.paths seen.now.relation
        offence.now.letters source }
    ensures { IfOk result (TellsOf blocks.now seen.now.paths seen.now.relation offence.now.letters
        offence.now.side) }
{
    row_of_source(alloc, offence, &seen.paths, &seen.relation, blocks)
}

/// The row of an offence, where these are the paths of its side and the relation that they are seen
/// through. The only error is want of memory.
pub(crate) fn row_of_source<L: LabelSet>(
    alloc: Global,
    offence: &Offence,
    paths: &Nfa<L>,
    relation: &Transducer<L>,
    blocks: &Partition,
) -> Result<Row, AllocError>
    requires below { All (λ k. k < block_count blocks.now) offence.now.letters }
    requires letters { paths.now.letters ≡ block_count blocks.now }
    requires same_letters { relation.now.letters ≡ block_count blocks.now }
    requires automaton { IsAutomaton paths.now }
    requires some { (source : List ℕ) × IsSource paths.now relation.now offence.now.letters source }
    ensures { IfOk result (TellsOf blocks.now paths.now relation.now offence.now.letters
        offence.now.side) }
{
    let letters = offence.letters.as_slice();
    Ok(Row::Violated {
        word: least_symbols(alloc, blocks, letters)?,
        side: offence.side,
        source: first_source(alloc, paths, relation, letters, blocks)?,
    })
}

/// The row of an offence with this source, whose letters are blocks too: the first words of symbols
/// with these letters. The only error is want of memory.
pub(crate) fn row_of_letters(
    alloc: Global,
    offence: &Offence,
    source: &[u32],
    blocks: &Partition,
) -> Result<Row, AllocError>
    requires below { All (λ k. k < block_count blocks.now) offence.now.letters }
    requires source_below { All (λ k. k < block_count blocks.now) source.now }
    ensures { IfOk result (TellsSource blocks.now offence.now.letters offence.now.side source.now) }
{
    Ok(Row::Violated {
        word: least_symbols(alloc, blocks, offence.letters.as_slice())?,
        side: offence.side,
        source: least_symbols(alloc, blocks, source)?,
    })
}

/// For each letter the least symbol of its block: of the words that are read as these letters, the
/// first. The only error is want of memory.
pub(crate) fn least_symbols(
    alloc: Global,
    blocks: &Partition,
    letters: &[u32],
) -> Result<Word, AllocError>
    requires { All (λ k. k < block_count blocks.now) letters.now }
    ensures { IfOk result (AreLeast blocks.now letters.now) }
{
    let mut symbols = Vec::with_capacity(alloc, letters.len())?;
    for letter in letters {
        symbols.push(blocks.representative(*letter))?;
    }
    Ok(Word::from_symbols(symbols))
}

/// The first path in shortlex order that is related to the word, which is one of the image. The
/// only error is want of memory.
fn first_source<L: LabelSet>(
    alloc: Global,
    paths: &Nfa<L>,
    relation: &Transducer<L>,
    word: &[u32],
    blocks: &Partition,
) -> Result<Word, AllocError>
    requires letters { paths.now.letters ≡ block_count blocks.now }
    requires same_letters { relation.now.letters ≡ block_count blocks.now }
    requires automaton { IsAutomaton paths.now }
    requires some { (source : List ℕ) × IsSource paths.now relation.now word.now source }
    ensures { IfOk result (IsFirstSource blocks.now paths.now relation.now word.now) }
{
    match least_source(alloc, paths, relation, word)? {
        Some(source) => least_symbols(alloc, blocks, source.as_slice()),
        None => unreachable!(),
    }
}
