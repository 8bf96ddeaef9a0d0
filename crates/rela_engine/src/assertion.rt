//! Whether an assertion holds for a flow.
ghost use Rattle.std.specs.Prelude.{◌≡◌, ◌≢◌, ◌+◌, ◌<◌, IfOk, IfErr, OnErr, All, length};
ghost use Rattle.rela_build.specs.Lettering.{AreLetterBlocks, IsAlone};
ghost use Rattle.rela_build.specs.Made.{IsMade};
ghost use Rattle.rela_build.specs.Named.{Names};
ghost use Rattle.rela_build.specs.PathSets.{scene_of};
ghost use Rattle.rela_compare.specs.Comparison.{IfDiffer, IsOnSide, ReachPairsBefore};
ghost use Rattle.rela_labels.specs.Partition.{block_count};
ghost use Rattle.rela_names.specs.Alphabet.{path_symbols};
ghost use Rattle.rela_names.specs.Shortlex.{First};
ghost use Rattle.rela_rir.specs.Assertions.{MayBeLeftOpen};
ghost use Rattle.rela_rir.specs.Limit.{ForcedInside, ReachedInside};
ghost use Rattle.rela_snapshot.specs.PairsLocated.{IsPairLocated};
ghost use Rattle.rela_engine.specs.Compared.{HoldsOfWords, TellsAgainstWords, TellsVerdict};
ghost use Rattle.rela_engine.specs.Leaves.{LeafOf, MustBeLeftOpen, TermsName, plain_scene};
ghost use Rattle.rela_rir.specs.NamedSymbols.{symbols_of_terms};
ghost use Rattle.rela_blocks.specs.Readable.{AreGraphsReadable};
ghost use Rattle.rela_blocks.specs.Scenes.{paths_of};

use crate::laws::Flows;
use crate::leaf::Leaf;
use crate::plain_blocks::plain_blocks;
use crate::terms::{first_term, second_term};
use crate::witnesses::least_symbols;
use rela_blocks::FlowPaths;
use rela_build::{Builder, Letters, Stop};
use rela_compare::{Verdict, equal, included};
use rela_complement::LimitedComplements;
use rela_labels::{Partition, WideSet};
use rela_names::{Alphabet, Level};
use rela_nfa::{BuildError, Nfa};
use rela_rir::{Assertion, PathTerm, SymbolSet, complements_inside, reached_states_are_places};
use rela_snapshot::FlowPair;
use std::alloc::{AllocError, Global};

/// Whether the assertion holds for a flow, where a construction may have at most as many states as the
/// limit of the complements: the terms' words of path symbols are compared, where `Pre` and `Post` are
/// the flow's paths before and after the change. If it fails, the first word in shortlex order that
/// tells against it, and the side that has the word. It is undecided only where that is licensed, and
/// always where a complement in a term has a part that tells more words than the limit.
///
/// The alphabet is that of the level. The classes list path symbols, and the terms name none but
/// path symbols by themselves; a class that the table lacks is empty. The nodes of both graphs stand
/// at the alphabet's locations. The calls go as deep into the stack as the terms. The only error is
/// want of memory.
///
/// Time and space: those of the symbols and the members of the classes, of the constructions in the
/// terms, and of the comparison of their automata, each of at most as many states as the limit. A
/// complement that these complements have made already, for whatever flow, costs a copy.
pub fn decide_assertion(
    alloc: Global,
    assertion: &Assertion,
    classes: &[SymbolSet],
    level: Level,
    pair: &FlowPair,
    alphabet: &Alphabet,
    complements: &LimitedComplements,
) -> Result<Leaf, AllocError>
    requires classes { All (λ set. All (λ s. s < path_symbols alphabet.now) set.members)
        classes.now }
    requires named { All (λ s. s < path_symbols alphabet.now)
        (symbols_of_terms assertion.now) }
    requires located { IsPairLocated alphabet.now level pair.now }
    ensures leaf { IfOk result (LeafOf (plain_scene classes.now (length alphabet.now)
        (paths_of level alphabet.now pair.now.before pair.now.after)) assertion.now
        complements.now) }
    ensures forced { IfOk result (λ leaf. MustBeLeftOpen (plain_scene classes.now
        (length alphabet.now) (paths_of level alphabet.now pair.now.before pair.now.after))
        assertion.now complements.now → leaf ≡ Leaf.Undecided) }
{
    let blocks = plain_blocks(alloc, assertion, classes, level, pair, alphabet)?;
    let letters = Letters::new(alloc, classes, alphabet.len(), 0, &blocks)?;
    let paths = FlowPaths {
        before: &pair.before,
        after: &pair.after,
        level,
        alphabet,
    };
    match leaf_over(alloc, assertion, &letters, &paths, complements) {
        Ok(leaf) => Ok(leaf),
        Err(stop) => left_open(stop),
    }
}

/// The leaf of an assertion whose terms or comparison passed the limit; the error is want of memory.
fn left_open(stop: Stop) -> Result<Leaf, AllocError>
    ensures open { IfOk result (λ leaf. (leaf ≡ Leaf.Undecided) × (stop ≢ Stop.Memory)) }
    ensures memory { OnErr result (stop ≡ Stop.Memory) }
{
    match stop {
        Stop::Limit => Ok(Leaf::Undecided),
        Stop::Refused(_) => Ok(Leaf::Undecided),
        Stop::Memory => Err(AllocError),
    }
}

/// What is told of the assertion, by automata over these letters.
///
/// # Errors
///
/// - `Limit` and `Refused` only where the assertion may be left open under the limit, and one of them
///   always where a complement in its terms has a part that tells more words.
/// - `Memory` where there isn't memory.
fn leaf_over(
    alloc: Global,
    assertion: &Assertion,
    letters: &Letters<'_>,
    paths: &FlowPaths<'_>,
    complements: &LimitedComplements,
) -> Result<Leaf, Stop>
    requires letters { AreLetterBlocks letters.now }
    requires no_markers { letters.now.markers ≡ 0 }
    requires alone { TermsName (IsAlone letters.now.blocks) assertion.now }
    requires readable { AreGraphsReadable paths.now.level paths.now.alphabet.now
        paths.now.before.now paths.now.after.now letters.now.blocks }
    ensures leaf { IfOk result (LeafOf (scene_of letters.now (paths_of paths.now.level
        paths.now.alphabet.now paths.now.before.now paths.now.after.now)) assertion.now
        complements.now) }
    ensures within { IfOk result (λ _. ¬ MustBeLeftOpen (scene_of letters.now
        (paths_of paths.now.level paths.now.alphabet.now paths.now.before.now
        paths.now.after.now)) assertion.now complements.now) }
    ensures open { IfErr result (λ e. e ≢ Stop.Memory →
        MayBeLeftOpen (scene_of letters.now (paths_of paths.now.level
        paths.now.alphabet.now paths.now.before.now paths.now.after.now)) assertion.now
        complements.now) }
{
    reached_states_are_places::<Flows>();
    let first = words_of(alloc, first_term(assertion), letters, paths, complements)?;
    let second = words_of(alloc, second_term(assertion), letters, paths, complements)?;
    let verdict = compare(alloc, assertion, &first, &second, complements.limit())?;
    Ok(leaf_of(alloc, verdict, letters.partition())?)
}

/// The automaton of the term, with these complements under their limit.
///
/// # Errors
///
/// - `Limit` and `Refused` only where some counted term in the term has more reached places than the
///   limit, and one of them always where a complement in it has a part that tells more words.
/// - `Memory` where there isn't memory.
fn words_of(
    alloc: Global,
    term: &PathTerm,
    letters: &Letters<'_>,
    paths: &FlowPaths<'_>,
    complements: &LimitedComplements,
) -> Result<Nfa<WideSet>, Stop>
    requires alone { Names (IsAlone letters.now.blocks) term.now }
    requires readable { AreGraphsReadable paths.now.level paths.now.alphabet.now
        paths.now.before.now paths.now.after.now letters.now.blocks }
    ensures made { IfOk result (IsMade ⊥ letters.now (paths_of paths.now.level
        paths.now.alphabet.now paths.now.before.now paths.now.after.now) term.now) }
    ensures within { IfOk result (λ _. ¬ ForcedInside (scene_of letters.now (paths_of
        paths.now.level paths.now.alphabet.now paths.now.before.now paths.now.after.now))
        (complements.now + 1) term.now) }
    ensures past { IfErr result (λ e. e ≢ Stop.Memory →
        ReachedInside (scene_of letters.now (paths_of paths.now.level paths.now.alphabet.now
        paths.now.before.now paths.now.after.now)) (complements.now + 1) term.now) }
{
    letters.are_covered();
    complements_inside::<Flows>();
    reached_states_are_places::<Flows>();
    let builder = Builder {
        letters,
        paths,
        complements,
        limit: complements.limit(),
    };
    let mut notes = Vec::new(alloc);
    builder.automaton(alloc, term, &mut notes)
}

/// Whether the assertion holds of the words that the two automata accept.
///
/// # Errors
///
/// - `Limit` only where words that do not come after the first that tells against it reach more than
///   `states` pairs of sets of states.
/// - `Memory` where there isn't memory for them.
fn compare(
    alloc: Global,
    assertion: &Assertion,
    first: &Nfa<WideSet>,
    second: &Nfa<WideSet>,
    states: usize,
) -> Result<Verdict, BuildError>
    requires { first.now.letters ≡ second.now.letters }
    ensures same { IfOk result (λ verdict. verdict ≡ Verdict.Same →
        HoldsOfWords assertion.now first.now second.now) }
    ensures first { IfOk result (λ verdict. IfDiffer verdict (λ word side.
        First (TellsAgainstWords assertion.now first.now second.now) word)) }
    ensures side { IfOk result (λ verdict. IfDiffer verdict (λ word side.
        IsOnSide first.now second.now word side)) }
    ensures limit { IfErr result (λ e. e ≡ BuildError.Limit → ReachPairsBefore first.now second.now
        (TellsAgainstWords assertion.now first.now second.now) (states + 1)) }
{
    match assertion {
        Assertion::Equal(_, _) => equal(alloc, first, second, states),
        Assertion::Included(_, _) => included(alloc, first, second, states),
    }
}

/// The leaf of a verdict: the word is that of the least symbols of its blocks. The only error is want
/// of memory.
fn leaf_of(alloc: Global, verdict: Verdict, blocks: &Partition) -> Result<Leaf, AllocError>
    requires { IfDiffer verdict (λ word side. All (λ k. k < block_count blocks.now) word) }
    ensures { IfOk result (TellsVerdict blocks.now verdict) }
{
    match verdict {
        Verdict::Same => Ok(Leaf::Holds),
        Verdict::Differ { word, side } => {
            let word = least_symbols(alloc, blocks, word.as_slice())?;
            Ok(Leaf::Fails { word, side })
        }
    }
}
