//! The paths of a flow, for terms that name them.
ghost use Rattle.std.specs.Prelude.{IfOk};
ghost use Rattle.rela_build.specs.Made.{IsBuilt};
ghost use Rattle.rela_graph.specs.Paths.{Paths};
ghost use Rattle.rela_rir.specs.Places.{NoParts, PartsApart, PathSetPlaces};
ghost use Rattle.rela_blocks.specs.GraphPaths.{graph_paths};
ghost use Rattle.rela_blocks.specs.Readable.{AreGraphsReadable, IsGraphReadable};
ghost use Rattle.rela_blocks.specs.Scenes.{arrivals_of, paths_of};

use rela_build::PathSets;
use rela_graph::{Graph, MAX_NODES};
use rela_labels::{Partition, WideSet};
use rela_names::{Alphabet, Level};
use rela_nfa::Nfa;
use rela_rir::{Machinery, path_states_are_placed};
use std::alloc::{AllocError, Global};

/// The paths of a flow before and after a change: those of two graphs at a level.
#[derive(Drop)]
pub struct FlowPaths<'a> {
    /// The graph before the change.
    pub before: &'a Graph,
    /// The graph after the change.
    pub after: &'a Graph,
    /// How finely locations are told apart.
    pub level: Level,
    /// The alphabet of that level.
    pub alphabet: &'a Alphabet,
}

impl<'a> PathSets for FlowPaths<'a> {
    ghost paths = { λ flow. paths_of flow.level flow.alphabet.now flow.before.now flow.after.now };

    ghost readable = { λ flow blocks. AreGraphsReadable flow.level flow.alphabet.now
        flow.before.now flow.after.now blocks };

    fn before(&self, alloc: Global, blocks: &Partition) -> Result<Nfa<WideSet>, AllocError> {
        paths_of_graph(alloc, self.before, self.level, self.alphabet, blocks)
    }

    fn after(&self, alloc: Global, blocks: &Partition) -> Result<Nfa<WideSet>, AllocError> {
        paths_of_graph(alloc, self.after, self.level, self.alphabet, blocks)
    }
}

/// The paths of graphs, which only contracts name.
struct GraphPaths;

impl Machinery for GraphPaths {
    ghost machines = { graph_paths };
}

/// The automaton of the graph's paths at the level, with a state for each place of them. The only
/// error is want of memory.
fn paths_of_graph(
    alloc: Global,
    graph: &Graph,
    level: Level,
    alphabet: &Alphabet,
    blocks: &Partition,
) -> Result<Nfa<WideSet>, AllocError>
    requires { IsGraphReadable level alphabet.now graph.now blocks.now }
    ensures { IfOk result (IsBuilt (Unit {0}) blocks.now (Paths graph.now level alphabet.now)
        (PathSetPlaces (arrivals_of level alphabet.now graph.now)) (PartsApart NoParts NoParts)) }
{
    path_states_are_placed::<GraphPaths>();
    prove!(graph.nodes().len() <= MAX_NODES);
    let nfa = graph.to_nfa(alloc, level, alphabet, blocks)?;
    prove!(nfa.start() < nfa.states());
    Ok(nfa)
}
