//! A certificate that was read.

ghost use Rattle.std.specs.Prelude.{◌≡◌, ◌==◌, ◌+◌, ◌<◌, IfOk, IsSome, Some, length, map, option_map, slice_get, take};
ghost use Rattle.rela_certfile.specs.Blocks.{block_at, blocks_of, head_line};
ghost use Rattle.rela_certfile.specs.Held.{Holds, all_blocks, rows_held};
ghost use Rattle.rela_certfile.specs.Parts.{end_of};

use crate::rows::Step;
use std::alloc::{AllocError, Global};
use std::marker::Model;

/// The rows that a certificate lists. A step takes 8 bytes, a block 8 bytes beside its steps, and
/// a row 16 bytes beside its blocks. Contracts see it as the list of its rows.
#[derive(Drop)]
pub struct Certificate {
    /// The place in the plan of each row.
    places: Vec<usize>,
    /// For each row, how many blocks stand before its own.
    firsts: Vec<usize>,
    /// For each block, how many steps stand before its own.
    starts: Vec<usize>,
    /// The steps of all blocks.
    steps: Vec<Step>,
}

impl Model for Certificate {
    ghost use Rattle.std.specs.Prelude.{List};
    ghost use Rattle.rela_certfile.specs.declared.rows.ListedRow.{ListedRow};
    ghost use Rattle.rela_certfile.specs.Held.{Holds, rows_held};

    ghost Value = { List ListedRow };

    ghost view = { λ c. rows_held c.places.items c.firsts.items c.starts.items c.steps.items };

    ghost invariant = { λ c.
        Holds (rows_held c.places.items c.firsts.items c.starts.items c.steps.items)
        c.places.items c.firsts.items c.starts.items c.steps.items };
}

impl Certificate {
    /// The certificate whose rows are held by these: the place of each row, how many blocks stand
    /// before those of each row, how many steps stand before those of each block, and all steps.
    pub(crate) fn new(
        places: Vec<usize>,
        firsts: Vec<usize>,
        starts: Vec<usize>,
        steps: Vec<Step>,
    ) -> Certificate
        requires { Holds (rows_held places.items firsts.items starts.items steps.items)
            places.items firsts.items starts.items steps.items }
        ensures { result ≡ rows_held places.items firsts.items starts.items steps.items }
    {
        Certificate {
            places,
            firsts,
            starts,
            steps,
        }
    }

    /// How many rows are listed.
    pub fn len(&self) -> usize
        ensures { result ≡ length self.now }
    {
        self.places.len()
    }

    /// Whether no row is listed.
    pub fn is_empty(&self) -> bool
        ensures { result ≡ (length self.now == 0) }
    {
        self.len() == 0
    }

    /// The place in the plan of the listed row of this number, counted from 0.
    pub fn place(&self, row: usize) -> usize
        requires { row < length self.now }
        ensures { option_map (λ listed. listed.place) (slice_get self.now row) ≡ Some result }
    {
        self.places[row]
    }

    /// How many blocks a listed row has: one for each complement, and that of the images.
    pub fn block_count(&self, row: usize) -> usize
        requires { row < length self.now }
        ensures { option_map (λ listed. length (blocks_of listed)) (slice_get self.now row)
            ≡ Some result }
    {
        let from = self.firsts[row];
        end_of(&self.firsts, row, self.starts.len()) - from
    }

    /// The steps of a block of a listed row. The blocks of a row are numbered from 0: those of the
    /// complements come first, and that of the images is the last.
    pub fn block(&self, row: usize, block: usize) -> &[Step]
        requires { IsSome (block_at self.now row block) }
        ensures { block_at self.now row block ≡ Some result.now }
    {
        let number = self.number(row, block);
        let from = self.starts[number];
        let to = end_of(&self.starts, number, self.steps.len());
        &self.steps[from..to]
    }

    /// The number, among the blocks of all rows, of a block of a listed row.
    fn number(&self, row: usize, block: usize) -> usize
        requires { IsSome (block_at self.now row block) }
        ensures { result ≡ length (all_blocks (take row self.now)) + block }
    {
        self.firsts[row] + block
    }

    /// The steps of the images block of a listed row.
    pub fn images(&self, row: usize) -> &[Step]
        requires { row < length self.now }
        ensures { option_map (λ listed. listed.images) (slice_get self.now row)
            ≡ Some result.now }
    {
        self.block(row, self.block_count(row) - 1)
    }

    /// The steps of each complement block of a listed row. Time and space: linear in the number of
    /// these blocks.
    ///
    /// # Errors
    ///
    /// Only where memory is wanted.
    pub fn complements(&self, alloc: Global, row: usize) -> Result<Vec<&[Step]>, AllocError>
        requires { row < length self.now }
        ensures { IfOk result (λ blocks.
            option_map (λ listed. listed.complements) (slice_get self.now row)
            ≡ Some (map (λ steps. steps.now) blocks.items)) }
    {
        let count = self.block_count(row) - 1;
        let mut blocks = Vec::with_capacity(alloc, count)?;
        for block in 0..count {
            blocks.push(self.block(row, block))?;
        }
        Ok(blocks)
    }

    /// The line, counted from 1, of the head of a block of a listed row, numbered as in
    /// [`block`](Certificate::block).
    pub fn head_line(&self, row: usize, block: usize) -> u32
        requires { IsSome (block_at self.now row block) }
        ensures { result ≡ head_line self.now row block }
    {
        let number = self.number(row, block);
        let steps = self.starts[number];
        (row + number + steps + 3) as u32
    }
}

/// Where the list of this number ends that begins at one of `starts`: where the next one begins, or
/// else at the end of all.
fn end_of(starts: &[usize], number: usize, all: usize) -> usize
    requires { number < length starts.now }
    ensures { result ≡ end_of starts.now number all }
{
    match starts.get(number + 1) {
        Some(next) => *next,
        None => all,
    }
}
