//! The blocks of a check's symbols, split so that the symbols of some paths stand alone.
ghost use Rattle.std.specs.Prelude.{◌+◌, ◌<◌, IfOk, All, length};
ghost use Rattle.rela_graph.specs.Alone.{StandsAlone};
ghost use Rattle.rela_graph.specs.Topology.{symbol_at};
ghost use Rattle.rela_engine.specs.Seen.{AreFiner};

use rela_graph::{Graph, push_locations};
use rela_labels::Partition;
use rela_names::Level;
use std::alloc::{AllocError, Global};

/// The blocks refined further, so that the location of each node of both graphs has a block of its
/// own. It takes the time of the blocks and the nodes, and not that of the symbols. The only error
/// is want of memory.
pub(crate) fn finer_blocks(
    alloc: Global,
    blocks: &Partition,
    locations: u32,
    level: Level,
    before: &Graph,
    after: &Graph,
) -> Result<Partition, AllocError>
    requires symbols { locations + 1 < length blocks.now }
    requires before { All (λ node. symbol_at level node < locations) before.now.nodes }
    requires after { All (λ node. symbol_at level node < locations) after.now.nodes }
    requires drops { StandsAlone blocks.now locations }
    requires loops { StandsAlone blocks.now (locations + 1) }
    ensures { IfOk result (AreFiner blocks.now locations level before.now after.now) }
{
    let mut symbols = Vec::new(alloc);
    push_locations(&mut symbols, before.nodes(), level)?;
    push_locations(&mut symbols, after.nodes(), level)?;
    blocks.with_alone(alloc, symbols.as_slice())
}
