//! The paths of a flow by letters that are symbols, kept for the checks that follow.
ghost use Rattle.std.specs.Prelude.{◌≡◌, ◌↔◌, IfOk, OnErr, OnOk, IfSome, IfNone, IsTrue, Some, None};
ghost use Rattle.std.specs.Option.{ForSome};
ghost use Rattle.rela_names.specs.Alphabet.{path_symbols};
ghost use Rattle.rela_snapshot.specs.Located.{IsLocated};
ghost use Rattle.rela_snapshot.specs.PairsLocated.{IsPairLocated};
ghost use Rattle.rela_engine.specs.FlowLetters.{AcceptsPaths, AreAt, AreLettersOf, AreSidesOf, kept_after, kept_before};

use rela_graph::Graph;
use rela_letter_nfa::LetterNfa;
use rela_letter_paths::LetterPaths;
use rela_names::{Alphabet, Level};
use rela_snapshot::FlowPair;
use std::alloc::{AllocError, Global};
use std::marker::Model;

/// An automaton of paths may have at most this many states, and as many edges. Those of larger ones
/// are made anew for each check, with edges that are labelled by sets.
const MOST_STATES: usize = 1_048_576;

/// The paths of a flow before and after a change, as automata whose letters are symbols: those of the
/// level that was asked for last. A check that is decided for a flow makes them where they aren't
/// there, and the checks of that level which follow for the same flow take them as they are. Contracts
/// see it as an option of `SideLetters`: none before the first check that needs them.
///
/// Space: linear in the nodes and edges of the flow.
#[derive(Drop)]
pub struct FlowLetters {
    /// The automata; `None` where none were asked for yet.
    made: Option<SideLetters>,
}

impl Model for FlowLetters {
    ghost use Rattle.std.specs.Prelude.{Option};
    ghost use Rattle.rela_engine.specs.FlowLetters as kept;

    ghost Value = { Option kept.SideLetters };

    ghost view = { λ letters. letters.made };
}

/// The automata of a flow's paths at a level. Contracts see it as the `SideLetters` of specs/.
#[derive(Drop)]
struct SideLetters {
    /// How finely locations are told apart.
    level: Level,
    /// The automaton of the paths before the change; `None` where it would be too large.
    before: Option<LetterNfa>,
    /// The automaton of the paths after the change; `None` where it would be too large.
    after: Option<LetterNfa>,
}

impl Model for SideLetters {
    ghost use Rattle.rela_engine.specs.FlowLetters as kept;

    ghost Value = { kept.SideLetters };

    ghost view = { λ sides. record {
      level = sides.level;
      before = sides.before;
      after = sides.after;
    } };
}

impl FlowLetters {
    /// None so far: they are made for the first check that needs them.
    pub fn new() -> FlowLetters
        ensures { result ≡ None }
    {
        FlowLetters { made: None }
    }

    /// Makes the automata of the flow's paths at the level, unless those of that level are there
    /// already. The only error is want of memory, which leaves what is kept as it was.
    ///
    /// Time: constant where they are there; else that of two automata of paths.
    pub(crate) fn make_at(
        &mut self,
        alloc: Global,
        maker: &LetterPaths,
        pair: &FlowPair,
        alphabet: &Alphabet,
        level: Level,
    ) -> Result<(), AllocError>
        requires maker { maker.now ≡ path_symbols alphabet.now }
        requires located { IsPairLocated alphabet.now level pair.now }
        requires letters { AreLettersOf alphabet.now pair.now self.old }
        ensures letters { AreLettersOf alphabet.now pair.now self.new }
        ensures at { OnOk result (AreAt level self.new) }
        ensures there { AreAt level self.old → self.new ≡ self.old }
        ensures unmade { OnErr result (self.new ≡ self.old) }
    {
        if self.is_at(level) {
            return Ok(());
        }
        let sides = sides_at(alloc, maker, pair, alphabet, level)?;
        self.made = Some(sides);
        Ok(())
    }

    /// Whether automata of this level are kept.
    fn is_at(&self, level: Level) -> bool
        ensures { IsTrue result ↔ AreAt level self.now }
    {
        match &self.made {
            Some(sides) => sides.level == level,
            None => false,
        }
    }

    /// The automaton of the paths before the change; `None` where there is none, or it would be too
    /// large.
    pub(crate) fn before(&self) -> Option<&LetterNfa>
        ensures some { IfSome result (λ nfa. kept_before self.now ≡ Some nfa.now) }
        ensures none { IfNone result (kept_before self.now ≡ None) }
    {
        match &self.made {
            Some(sides) => sides.before.as_ref(),
            None => None,
        }
    }

    /// The automaton of the paths after the change; `None` where there is none, or it would be too
    /// large.
    pub(crate) fn after(&self) -> Option<&LetterNfa>
        ensures some { IfSome result (λ nfa. kept_after self.now ≡ Some nfa.now) }
        ensures none { IfNone result (kept_after self.now ≡ None) }
    {
        match &self.made {
            Some(sides) => sides.after.as_ref(),
            None => None,
        }
    }
}

/// The automata of the flow's paths at the level. The only error is want of memory.
fn sides_at(
    alloc: Global,
    maker: &LetterPaths,
    pair: &FlowPair,
    alphabet: &Alphabet,
    level: Level,
) -> Result<SideLetters, AllocError>
    requires maker { maker.now ≡ path_symbols alphabet.now }
    requires located { IsPairLocated alphabet.now level pair.now }
    ensures paths { IfOk result (AreSidesOf alphabet.now pair.now) }
    ensures level { IfOk result (λ sides. sides.level ≡ level) }
{
    Ok(SideLetters {
        level,
        before: paths_of_graph(alloc, maker, &pair.before, alphabet, level)?,
        after: paths_of_graph(alloc, maker, &pair.after, alphabet, level)?,
    })
}

/// The automaton of the graph's paths at the level, and `None` where it would be too large. The only
/// error is want of memory.
fn paths_of_graph(
    alloc: Global,
    maker: &LetterPaths,
    graph: &Graph,
    alphabet: &Alphabet,
    level: Level,
) -> Result<Option<LetterNfa>, AllocError>
    requires maker { maker.now ≡ path_symbols alphabet.now }
    requires located { IsLocated alphabet.now level graph.now }
    ensures { IfOk result (λ found. ForSome found (AcceptsPaths alphabet.now graph.now level)) }
{
    maker.paths(alloc, graph, level, alphabet, MOST_STATES)
}
