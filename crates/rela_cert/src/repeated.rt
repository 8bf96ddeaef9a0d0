//! Lists of blocks whose second half is the first again.

ghost use Rattle.std.specs.Prelude.{◌↔◌, IsTrue, map};
ghost use Rattle.rela_cert.specs.CheckRelations.{AreRepeated};

use rela_certfile::Step;

/// Whether the blocks are some blocks, and then the same again, step for step. Time: linear in the
/// blocks.
pub(crate) fn are_repeated(blocks: &[&[Step]]) -> bool
    ensures { IsTrue result ↔ AreRepeated (map (λ block. block.now) blocks.now) }
{
    let half = blocks.len() / 2;
    if half + half != blocks.len() {
        return false;
    }
    for k in 0..half {
        if blocks[k] != blocks[half + k] {
            return false;
        }
    }
    true
}
