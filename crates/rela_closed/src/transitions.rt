//! The edges from the sets of a table to one another.
ghost use Rattle.std.specs.Prelude.{◌≡◌, ◌<◌, [], IfNone, IfOk, IfSome, length, map, slice_index_or};
ghost use Rattle.std.specs.List.{All};
ghost use Rattle.rela_nfa.specs.Stored.{move_of, moves_in};
ghost use Rattle.rela_closed.specs.Listing.{AreAllEdges, AreEdges, IsLeft};
ghost use Rattle.rela_closed.specs.Sets.{AreMet};

use crate::bundle::Bundle;
use crate::followers::follower;
use crate::reader::Reader;
use crate::table::Table;
use rela_labels::LabelSet;
use rela_nfa::Edge;
use std::alloc::{AllocError, Global};

/// The edges by the letters of `over` out of all sets of the table, in the order of their numbers,
/// and `None` where a letter leads to sets that aren't in the table. Time: a step of the reader and
/// a set operation for each of the sets and each block of letters.
pub(crate) fn transitions<'a, L: LabelSet>(
    alloc: Global,
    reader: &mut Reader<'a, L>,
    over: &L,
    table: &mut Table,
) -> Result<Option<Vec<Vec<Edge<L>>>>, AllocError>
    requires { All (AreMet reader.old) table.old }
    ensures edges { IfOk result (λ found. IfSome found (λ edges. AreAllEdges (L.letters over.now)
        reader.old table.old (length table.old) (moves_in L.letters edges.items))) }
    ensures each { IfOk result (λ found. IfSome found (λ edges.
        length (moves_in L.letters edges.items) ≡ length table.old)) }
    ensures kept { IfOk result (λ found. IfSome found (λ _. table.new ≡ table.old)) }
    ensures left { IfOk result (λ found. IfNone found (IsLeft (L.letters over.now) reader.old
        table.old)) }
    ensures same { reader.new ≡ reader.old }
{
    let mut edges = Vec::with_capacity(alloc, table.len())?;
    for number in 0..table.len() {
        let Some(out) = edges_from(alloc, reader, over, table, number)? else {
            return Ok(None);
        };
        edges.push(out)?;
    }
    Ok(Some(edges))
}

/// The edges by the letters of `over` out of the sets of this number, and `None` where a letter
/// leads to sets that aren't in the table, which are then put behind the others.
fn edges_from<'a, L: LabelSet>(
    alloc: Global,
    reader: &mut Reader<'a, L>,
    over: &L,
    table: &mut Table,
    number: usize,
) -> Result<Option<Vec<Edge<L>>>, AllocError>
    requires number { number < length table.old }
    requires met { AreMet reader.old (slice_index_or table.old number []) }
    ensures edges { IfOk result (λ found. IfSome found (λ edges. AreEdges (L.letters over.now)
        reader.old table.old (slice_index_or table.old number []) (length (L.letters over.now))
        (map (move_of L.letters) edges.items))) }
    ensures kept { IfOk result (λ found. IfSome found (λ _. table.new ≡ table.old)) }
    ensures left { IfOk result (λ found. IfNone found (IsLeft (L.letters over.now) reader.old
        table.old)) }
    ensures same { reader.new ≡ reader.old }
{
    let mut blocks = reader.blocks(alloc, over, table.get(number))?;
    let mut bundle = Bundle::new(alloc);
    for letter in 0..over.size() {
        if !blocks.has_left(letter) {
            continue;
        }
        let Some(to) = follower(alloc, reader, table, number, letter)? else {
            return Ok(None);
        };
        let label = blocks.take(alloc, letter)?;
        bundle.put(alloc, label, to)?;
    }
    Ok(Some(bundle.into_edges()))
}
