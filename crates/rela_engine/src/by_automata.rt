//! The row of a check for a flow, by automata over blocks of symbols.
ghost use Rattle.std.specs.Prelude.{◌≡◌, IfOk, length};
ghost use Rattle.rela_labels.specs.Partition.{block_count};
ghost use Rattle.rela_names.specs.Alphabet.{path_symbols};
ghost use Rattle.rela_snapshot.specs.PairsLocated.{IsPairLocated};
ghost use Rattle.rela_engine.specs.Case.{IsCase, IsRight};
ghost use Rattle.rela_engine.specs.Compilation.{AreRelations};
ghost use Rattle.rela_engine.specs.FlowLetters.{AreAt, AreLettersOf};
ghost use Rattle.rela_engine.specs.RowOf.{RowOf};
ghost use Rattle.rela_blocks.specs.Scenes.{paths_of};

use crate::by_letters::row_by_letters;
use crate::by_sets::row_by_sets;
use crate::case::Case;
use crate::compiled::Compiled;
use crate::finer_blocks::finer_blocks;
use crate::flow_letters::FlowLetters;
use crate::relations::Relations;
use rela_labels::{BlockSet, LabelSet, WideSet};
use rela_letter_paths::LetterPaths;
use rela_names::Alphabet;
use rela_report::Row;
use rela_snapshot::FlowPair;
use std::alloc::{AllocError, Global};

/// The function at the narrowest sets of letters that hold so many blocks. Above 1,024 blocks these
/// are wide ones, since most labels of so large an automaton have one letter alone, which takes no
/// memory on the heap there.
macro_rules! by_width {
    ($blocks:expr, $row:ident($($argument:expr),*)) => {
        match $blocks {
            0..=64 => $row::<BlockSet<1>>($($argument),*),
            65..=256 => $row::<BlockSet<4>>($($argument),*),
            257..=1024 => $row::<BlockSet<16>>($($argument),*),
            _ => $row::<WideSet>($($argument),*),
        }
    };
}

/// The row, by automata over blocks of symbols in which the locations of the flow's nodes stand
/// alone. The only error is want of memory.
///
/// Time and space: those of these blocks, and of [`row_over`].
pub(crate) fn row_by_automata(
    alloc: Global,
    compiled: &Compiled<'_>,
    relations: &Relations,
    pair: &FlowPair,
    alphabet: &Alphabet,
    maker: &LetterPaths,
    letters: &mut FlowLetters,
) -> Result<Row, AllocError>
    requires alphabet { length alphabet.now ≡ compiled.now.locations }
    requires located { IsPairLocated alphabet.now compiled.now.check.level pair.now }
    requires relations { AreRelations compiled.now relations.now }
    requires maker { maker.now ≡ path_symbols alphabet.now }
    requires letters { AreLettersOf alphabet.now pair.now letters.old }
    ensures row { IfOk result (RowOf compiled.now.check (length alphabet.now)
        (paths_of compiled.now.check.level alphabet.now pair.now.before pair.now.after)
        compiled.now.states) }
    ensures letters { AreLettersOf alphabet.now pair.now letters.new }
    ensures there { AreAt compiled.now.check.level letters.old → letters.new ≡ letters.old }
{
    let blocks = finer_blocks(
        alloc,
        compiled.blocks(),
        compiled.locations(),
        compiled.level(),
        &pair.before,
        &pair.after,
    )?;
    let case = Case {
        compiled,
        relations,
        pair,
        alphabet,
        blocks: &blocks,
    };
    by_width!(blocks.blocks(), row_over(alloc, &case, maker, letters))
}

/// The row of the case. Automata with one letter on each edge are the fastest, and decide nearly every
/// row; only where they don't, automata do whose edges are labelled by sets. The only error is want of
/// memory.
///
/// Time and space: those of [`row_by_letters`], and where that decides nothing of [`row_by_sets`].
fn row_over<L: LabelSet>(
    alloc: Global,
    case: &Case<'_, '_>,
    maker: &LetterPaths,
    letters: &mut FlowLetters,
) -> Result<Row, AllocError>
    requires case { IsCase case.now }
    requires maker { maker.now ≡ path_symbols case.now.alphabet.now }
    requires letters { AreLettersOf case.now.alphabet.now case.now.pair.now letters.old }
    requires fits { L.fits (block_count case.now.blocks.now) }
    ensures row { IfOk result (IsRight case.now) }
    ensures letters { AreLettersOf case.now.alphabet.now case.now.pair.now letters.new }
    ensures there { AreAt case.now.compiled.now.check.level letters.old →
        letters.new ≡ letters.old }
{
    if let Some(row) = row_by_letters::<L>(alloc, case, maker, letters)? {
        return Ok(row);
    }
    row_by_sets::<L>(alloc, case)
}
