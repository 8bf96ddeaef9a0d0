//! The paths of a snapshot and what a relation makes of them, as automata.
ghost use Rattle.std.specs.Prelude.{◌≡◌, ℕ, ◌+◌, ◌<◌, ◌≤◌, List, IfOk, IfErr, All, length, map};
ghost use Rattle.rela_build.specs.Made.{Leads};
ghost use Rattle.rela_build.specs.Reading.{read_by};
ghost use Rattle.rela_graph.specs.Alone.{StandsAlone};
ghost use Rattle.rela_graph.specs.Paths.{Paths};
ghost use Rattle.rela_graph.specs.Topology.{symbol_at};
ghost use Rattle.rela_labels.specs.Partition.{block_count};
ghost use Rattle.rela_names.specs.Alphabet.{path_symbols};
ghost use Rattle.rela_nfa.specs.Automaton.{IsAutomaton};
ghost use Rattle.rela_nfa.specs.Relabelling.{Refines};
ghost use Rattle.rela_nfa.specs.Runs.{Accepts};
ghost use Rattle.rela_rir.specs.Built.{PathStates};
ghost use Rattle.rela_trans.specs.Machine.{IsMachine};
ghost use Rattle.rela_trans.specs.Runs.{Relates};
ghost use Rattle.rela_engine.specs.Reading.{Recognises, Realises, RealisesFrom};
ghost use Rattle.rela_blocks.specs.Scenes.{arrivals_of};
ghost use Rattle.rela_engine.specs.Seen.{AreFiner, AreLeastSymbols, AreSeen, ImagePasses, KeepPlaces, LeadAlike, NodesStandAlone, machine_of};

use crate::compiled::Compiled;
use crate::relations::Twofold;
use rela_graph::{Graph, MAX_NODES};
use rela_labels::{LabelSet, Partition, WideSet};
use rela_names::{Alphabet, Level};
use rela_nfa::{BuildError, Nfa};
use rela_trans::{Transducer, image};
use std::alloc::{AllocError, Global};

/// How the automata of one side are made.
#[derive(Clone, Copy)]
pub(crate) enum Form {
    /// For speed: of few states, which need not stand for anything.
    Small,
    /// As they are built: each state stands for a place of a term, so that their number licenses an
    /// answer that is left open.
    Plain,
}

/// The paths of one side, and what the relation of that side makes of them. The letters of all
/// three are the same blocks of symbols.
#[derive(Drop)]
pub(crate) struct Seen<L: LabelSet> {
    /// The automaton of the paths.
    pub(crate) paths: Nfa<L>,
    /// The transducer of the relation, as far as it is one of those paths.
    pub(crate) relation: Transducer<L>,
    /// The automaton of the image of the paths under the relation.
    pub(crate) image: Nfa<L>,
}

/// The paths of the graph at the level of the check, seen through a relation whose letters are the
/// check's blocks. The letters of the result are `blocks`, which refine those.
///
/// # Errors
///
/// - `Limit` where the image has more states than the check's limit.
/// - `Memory` where there isn't memory.
pub(crate) fn see<L: LabelSet>(
    alloc: Global,
    compiled: &Compiled<'_>,
    relation: &Twofold,
    graph: &Graph,
    alphabet: &Alphabet,
    blocks: &Partition,
    form: Form,
) -> Result<Seen<L>, BuildError>
    requires alphabet { length alphabet.now ≡ compiled.now.locations }
    requires placed { All (λ node. symbol_at compiled.now.check.level node < length alphabet.now)
        graph.now.nodes }
    requires blocks { AreFiner compiled.now.blocks (length alphabet.now) compiled.now.check.level
        graph.now graph.now blocks.now }
    requires plain { relation.now.plain.letters ≡ block_count compiled.now.blocks }
    requires small { relation.now.small.letters ≡ block_count compiled.now.blocks }
    requires fits { L.fits (block_count blocks.now) }
    ensures seen { IfOk result (λ seen.
        AreSeen blocks.now (Paths graph.now compiled.now.check.level alphabet.now)
        (Relates (read_by compiled.now.blocks) (machine_of form relation.now))
        seen.paths seen.relation seen.image) }
    ensures places { IfOk result (λ seen. form ≡ Form.Plain →
        KeepPlaces compiled.now.blocks blocks.now compiled.now.check.level alphabet.now
        graph.now relation.now.plain seen.paths seen.relation) }
    ensures limit { IfErr result (λ e. e ≡ BuildError.Limit → form ≡ Form.Plain →
        ImagePasses compiled.now.blocks blocks.now compiled.now.check.level alphabet.now
        graph.now relation.now.plain compiled.now.states) }
{
    let level = compiled.level();
    let coarse = compiled.blocks();
    let states = compiled.states();
    let paths = paths_over(alloc, graph, level, alphabet, blocks, form)?;
    let relation = relation_over(alloc, relation, &paths, coarse, blocks, form)?;
    let image = image(alloc, &paths, &relation, states)?;
    prove!(image.start() < image.states());
    Ok(Seen {
        paths,
        relation,
        image,
    })
}

/// The automaton of the graph's paths at the level, in this form. The only error is want of memory.
fn paths_over<L: LabelSet>(
    alloc: Global,
    graph: &Graph,
    level: Level,
    alphabet: &Alphabet,
    blocks: &Partition,
    form: Form,
) -> Result<Nfa<L>, AllocError>
    requires placed { All (λ node. symbol_at level node < length alphabet.now) graph.now.nodes }
    requires symbols { path_symbols alphabet.now ≤ length blocks.now }
    requires alone { NodesStandAlone blocks.now level graph.now.nodes }
    requires drops { StandsAlone blocks.now (length alphabet.now) }
    requires loops { StandsAlone blocks.now (length alphabet.now + 1) }
    requires fits { L.fits (block_count blocks.now) }
    ensures paths { IfOk result (Recognises blocks.now (Paths graph.now level alphabet.now)) }
    ensures automaton { IfOk result IsAutomaton }
    ensures least { IfOk result (λ _. (w : List ℕ) →
        Paths graph.now level alphabet.now w → AreLeastSymbols blocks.now w) }
    ensures places { IfOk result (λ nfa. form ≡ Form.Plain →
        PathStates (length graph.now.nodes) (arrivals_of level alphabet.now graph.now)
        (Leads blocks.now nfa)) }
{
    match form {
        Form::Small => short_paths(alloc, graph, level, alphabet, blocks),
        Form::Plain => plain_paths(alloc, graph, level, alphabet, blocks),
    }
}

/// The automaton of the graph's paths at the level, with a state for each place of them. The only
/// error is want of memory.
fn plain_paths<L: LabelSet>(
    alloc: Global,
    graph: &Graph,
    level: Level,
    alphabet: &Alphabet,
    blocks: &Partition,
) -> Result<Nfa<L>, AllocError>
    requires placed { All (λ node. symbol_at level node < length alphabet.now) graph.now.nodes }
    requires symbols { path_symbols alphabet.now ≤ length blocks.now }
    requires alone { NodesStandAlone blocks.now level graph.now.nodes }
    requires drops { StandsAlone blocks.now (length alphabet.now) }
    requires loops { StandsAlone blocks.now (length alphabet.now + 1) }
    requires fits { L.fits (block_count blocks.now) }
    ensures paths { IfOk result (Recognises blocks.now (Paths graph.now level alphabet.now)) }
    ensures automaton { IfOk result IsAutomaton }
    ensures least { IfOk result (λ _. (w : List ℕ) →
        Paths graph.now level alphabet.now w → AreLeastSymbols blocks.now w) }
    ensures places { IfOk result (λ nfa.
        PathStates (length graph.now.nodes) (arrivals_of level alphabet.now graph.now)
        (Leads blocks.now nfa)) }
{
    prove!(graph.nodes().len() <= MAX_NODES);
    let nfa = graph.to_nfa(alloc, level, alphabet, blocks)?;
    prove!(nfa.start() < nfa.states());
    Ok(nfa)
}

/// The automaton of the graph's paths at the level, without silent detours: each of its states is
/// met once for each state of the relation. The only error is want of memory.
pub(crate) fn short_paths<L: LabelSet>(
    alloc: Global,
    graph: &Graph,
    level: Level,
    alphabet: &Alphabet,
    blocks: &Partition,
) -> Result<Nfa<L>, AllocError>
    requires placed { All (λ node. symbol_at level node < length alphabet.now) graph.now.nodes }
    requires symbols { path_symbols alphabet.now ≤ length blocks.now }
    requires alone { NodesStandAlone blocks.now level graph.now.nodes }
    requires drops { StandsAlone blocks.now (length alphabet.now) }
    requires loops { StandsAlone blocks.now (length alphabet.now + 1) }
    requires fits { L.fits (block_count blocks.now) }
    ensures paths { IfOk result (Recognises blocks.now (Paths graph.now level alphabet.now)) }
    ensures automaton { IfOk result IsAutomaton }
    ensures least { IfOk result (λ _. (w : List ℕ) →
        Paths graph.now level alphabet.now w → AreLeastSymbols blocks.now w) }
{
    let whole = plain_paths(alloc, graph, level, alphabet, blocks)?;
    let nfa = whole.shortened(alloc)?;
    prove!(nfa.start() < nfa.states());
    Ok(nfa)
}

/// The relation over the finer blocks, in this form. The only error is want of memory.
fn relation_over<L: LabelSet>(
    alloc: Global,
    relation: &Twofold,
    paths: &Nfa<L>,
    coarse: &Partition,
    blocks: &Partition,
    form: Form,
) -> Result<Transducer<L>, AllocError>
    requires refines { Refines blocks.now coarse.now }
    requires plain { relation.now.plain.letters ≡ block_count coarse.now }
    requires small { relation.now.small.letters ≡ block_count coarse.now }
    requires paths { paths.now.letters ≡ block_count blocks.now }
    requires fits { L.fits (block_count blocks.now) }
    ensures relation { IfOk result (RealisesFrom blocks.now
        (λ u. Accepts paths.now (map (read_by blocks.now) u))
        (Relates (read_by coarse.now) (machine_of form relation.now))) }
    ensures machine { IfOk result IsMachine }
    ensures reached { IfOk result (λ t. form ≡ Form.Plain →
        LeadAlike coarse.now relation.now.plain blocks.now t) }
{
    match form {
        Form::Small => small_relation(alloc, relation.small(), paths, coarse, blocks),
        Form::Plain => whole_relation(alloc, relation.plain(), coarse, blocks),
    }
}

/// A relation is relabelled whole where it has at most this many states for each state of the
/// paths: that costs a step for each of its states, and to find those that are reached costs a step
/// for each pair.
const FEW_FOR_EACH: usize = 32;

/// The relation over the finer blocks, as far as it is one of the paths. The only error is want of
/// memory.
pub(crate) fn small_relation<L: LabelSet>(
    alloc: Global,
    relation: &Transducer<WideSet>,
    paths: &Nfa<L>,
    coarse: &Partition,
    blocks: &Partition,
) -> Result<Transducer<L>, AllocError>
    requires refines { Refines blocks.now coarse.now }
    requires letters { relation.now.letters ≡ block_count coarse.now }
    requires paths { paths.now.letters ≡ block_count blocks.now }
    requires fits { L.fits (block_count blocks.now) }
    ensures relation { IfOk result (RealisesFrom blocks.now
        (λ u. Accepts paths.now (map (read_by blocks.now) u))
        (Relates (read_by coarse.now) relation.now)) }
    ensures machine { IfOk result IsMachine }
{
    if relation.states() / FEW_FOR_EACH <= paths.states() {
        whole_relation(alloc, relation, coarse, blocks)
    } else {
        read_relation(alloc, relation, paths, coarse, blocks)
    }
}

/// The relation over the finer blocks, with all of its states. The only error is want of memory.
fn whole_relation<L: LabelSet>(
    alloc: Global,
    relation: &Transducer<WideSet>,
    coarse: &Partition,
    blocks: &Partition,
) -> Result<Transducer<L>, AllocError>
    requires refines { Refines blocks.now coarse.now }
    requires letters { relation.now.letters ≡ block_count coarse.now }
    requires fits { L.fits (block_count blocks.now) }
    ensures relation { IfOk result (Realises blocks.now
        (Relates (read_by coarse.now) relation.now)) }
    ensures machine { IfOk result IsMachine }
    ensures reached { IfOk result (LeadAlike coarse.now relation.now blocks.now) }
{
    let finer = relation.relabel(alloc, coarse, blocks)?;
    prove!(relation.start() < relation.states());
    prove!(finer.start() < finer.states());
    Ok(finer)
}

/// The relation over the finer blocks, with the states to which some path leads. The only error is
/// want of memory.
fn read_relation<L: LabelSet>(
    alloc: Global,
    relation: &Transducer<WideSet>,
    paths: &Nfa<L>,
    coarse: &Partition,
    blocks: &Partition,
) -> Result<Transducer<L>, AllocError>
    requires refines { Refines blocks.now coarse.now }
    requires letters { relation.now.letters ≡ block_count coarse.now }
    requires paths { paths.now.letters ≡ block_count blocks.now }
    ensures relation { IfOk result (RealisesFrom blocks.now
        (λ u. Accepts paths.now (map (read_by blocks.now) u))
        (Relates (read_by coarse.now) relation.now)) }
    ensures machine { IfOk result IsMachine }
{
    let finer = relation.relabel_reached(alloc, paths, coarse, blocks)?;
    prove!(relation.start() < relation.states());
    prove!(finer.start() < finer.states());
    Ok(finer)
}
