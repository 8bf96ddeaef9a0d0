//! The verdict of a check on a flow.

ghost use Rattle.std.specs.Prelude.{◌≡◌, ◌<◌, ℕ, List, IfOk, length};
ghost use Rattle.rela_engine.specs.FlowLetters.{AreLettersOf};
ghost use Rattle.rela_engine.specs.RowOf.{RowOf};
ghost use Rattle.rela_blocks.specs.Scenes.{paths_of};
ghost use Rattle.rela_names.specs.Alphabet.{path_symbols};
ghost use Rattle.rela_report.specs.Text.{VerdictHasTexts};
ghost use Rattle.rela_snapshot.specs.PairsLocated.{ArePairsLocated, IsPairLocated};
ghost use Rattle.rela_snapshot.specs.declared.pairing.FlowPair.{FlowPair};
ghost use Rattle.rela_rows.specs.Deciding.{IsDecider};
ghost use Rattle.rela_rows.specs.Sharing.{IsVerdictOn};

use rela_engine::{Compiled, FlowLetters, decide_with_letters};
use rela_letter_paths::LetterPaths;
use rela_names::Alphabet;
use rela_report::Row;
use rela_snapshot::FlowPair;
use std::alloc::{AllocError, Global};

/// What decides flows one after the other. It keeps the automata of the paths of the flow that it
/// decided last, for the checks that follow on it.
#[derive(Drop)]
pub(crate) struct Decider {
    /// What makes automata of paths.
    maker: LetterPaths,
    /// The index of the flow that was decided last.
    flow: usize,
    /// The automata of its paths.
    letters: FlowLetters,
}

impl Decider {
    /// One for flows whose locations are those of the alphabet, which has decided none. Time and
    /// space: linear in the symbols. The only error is want of memory.
    pub(crate) fn new(alloc: Global, alphabet: &Alphabet) -> Result<Decider, AllocError>
        ensures { IfOk result (λ decider. (pairs : List FlowPair) →
            IsDecider alphabet.now pairs decider) }
    {
        Ok(Decider {
            maker: LetterPaths::new(alloc, alphabet)?,
            flow: 0,
            letters: FlowLetters::new(),
        })
    }

    /// The verdict of a compiled check on the flow of this index. Each symbol that it shows has a
    /// text.
    ///
    /// # Errors
    ///
    /// Only where memory is wanted.
    pub(crate) fn verdict(
        &mut self,
        alloc: Global,
        compiled: &Compiled<'_>,
        flow: usize,
        pairs: &[FlowPair],
        alphabet: &Alphabet,
    ) -> Result<Row, AllocError>
        requires flow { flow < length pairs.now }
        requires locations { compiled.now.locations ≡ length alphabet.now }
        requires located { ArePairsLocated alphabet.now compiled.now.check.level pairs.now }
        requires decider { IsDecider alphabet.now pairs.now self.old }
        ensures verdict { IfOk result (IsVerdictOn alphabet.now compiled.now pairs.now flow) }
        ensures decider { IsDecider alphabet.now pairs.now self.new }
    {
        self.turn_to(flow);
        let pair = &pairs[flow];
        verdict_on_pair(
            alloc,
            compiled,
            pair,
            alphabet,
            &self.maker,
            &mut self.letters,
        )
    }

    /// Has the flow of this index be the one whose automata are kept. Those of another one are let
    /// go.
    fn turn_to(&mut self, flow: usize)
        ensures flow { self.new.flow ≡ flow }
        ensures decider { (names : List (List ℕ)) (pairs : List FlowPair) →
            IsDecider names pairs self.old → IsDecider names pairs self.new }
    {
        if self.flow != flow {
            self.flow = flow;
            self.letters = FlowLetters::new();
        }
    }
}

/// The verdict of a compiled check on this flow, with what is kept of it. Each symbol that it shows
/// has a text.
///
/// # Errors
///
/// Only where memory is wanted.
fn verdict_on_pair(
    alloc: Global,
    compiled: &Compiled<'_>,
    pair: &FlowPair,
    alphabet: &Alphabet,
    maker: &LetterPaths,
    letters: &mut FlowLetters,
) -> Result<Row, AllocError>
    requires locations { compiled.now.locations ≡ length alphabet.now }
    requires located { IsPairLocated alphabet.now compiled.now.check.level pair.now }
    requires maker { maker.now ≡ path_symbols alphabet.now }
    requires letters { AreLettersOf alphabet.now pair.now letters.old }
    ensures row { IfOk result (RowOf compiled.now.check (length alphabet.now)
        (paths_of compiled.now.check.level alphabet.now pair.now.before pair.now.after)
        compiled.now.states) }
    ensures texts { IfOk result (VerdictHasTexts alphabet.now) }
    ensures letters { AreLettersOf alphabet.now pair.now letters.new }
{
    // The contract of the body tells that the markers of the check are few.
    let _body = compiled.check().body();
    decide_with_letters(alloc, compiled, pair, alphabet, maker, letters)
}
