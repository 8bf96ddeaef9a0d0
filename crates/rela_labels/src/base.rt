//! A partition that several others share, with what it takes to find the symbols of a block.
ghost use Rattle.std.specs.Prelude.{◌≡◌, ℕ, ◌^◌, ◌<◌, None, All, IfOk, length, slice_index};
ghost use Rattle.std.specs.List.{slice_index_or};
ghost use Rattle.rela_labels.specs.Apart.{IsAscending, IsLinked, IsLeastLeft, IsLead, IsLayered};
ghost use Rattle.rela_labels.specs.Partition.{IsNumbered};

use crate::ascending::{ascending_union, place_in, places_in};
use rela_names::Symbol;
use std::alloc::{AllocError, Global};

/// A partition of symbols that does not change, for others to share. It has a block and a link for
/// each symbol, and a symbol for each block.
#[derive(Debug, Drop)]
pub(crate) struct Base {
    /// The number of each symbol's block.
    pub(crate) blocks: Vec<u32>,
    /// The least symbol of each block.
    pub(crate) first: Vec<Symbol>,
    /// For each symbol the next greater one of its block, and `None` for the greatest.
    pub(crate) next: Vec<Option<Symbol>>,
}

impl Base {
    /// The partition with these blocks and their least symbols, each symbol linked to the next one
    /// of its block. Time and space: linear in the symbols.
    pub(crate) fn new(
        alloc: Global,
        blocks: Vec<u32>,
        first: Vec<Symbol>,
    ) -> Result<Base, AllocError>
        requires { IsNumbered blocks.items first.items }
        ensures blocks { IfOk result (λ base. base.blocks.items ≡ blocks.items) }
        ensures first { IfOk result (λ base. base.first.items ≡ first.items) }
        ensures linked { IfOk result (λ base. IsLinked base.blocks.items base.next.items) }
    {
        let next = next_of_block(alloc, &blocks, first.len())?;
        Ok(Base {
            blocks,
            first,
            next,
        })
    }

    /// The least symbol of the block that is not apart, and `None` where all of them are. Time: a
    /// binary search among `apart` for it and for each lesser symbol of the block.
    fn least_left(&self, apart: &[Symbol], block: usize) -> Option<Symbol>
        requires shared { IsNumbered self.now.blocks.items self.now.first.items }
        requires linked { IsLinked self.now.blocks.items self.now.next.items }
        requires ascending { IsAscending apart.now }
        requires block { block < length self.now.first.items }
        ensures { IsLeastLeft self.now.blocks.items apart.now block result }
    {
        let mut reached = Some(self.first[block]);
        while let Some(s) = reached {
            if place_in(apart, s).is_none() {
                return Some(s);
            }
            reached = self.next[s as usize];
        }
        None
    }

    /// For each block its least symbol that is not apart, or its least one where all are. Time:
    /// linear in the blocks and the symbols that are apart, times a binary search among these.
    pub(crate) fn leads(&self, alloc: Global, apart: &[Symbol]) -> Result<Vec<Symbol>, AllocError>
        requires shared { IsNumbered self.now.blocks.items self.now.first.items }
        requires linked { IsLinked self.now.blocks.items self.now.next.items }
        requires ascending { IsAscending apart.now }
        ensures len { IfOk result (λ leads. length leads.items ≡ length self.now.first.items) }
        ensures each { IfOk result (λ leads. (b : ℕ) → b < length self.now.first.items
            → IsLead self.now.blocks.items apart.now b (slice_index leads.items b)) }
    {
        let mut leads = Vec::with_capacity(alloc, self.first.len())?;
        for block in 0..self.first.len() {
            leads.push(self.lead(apart, block))?;
        }
        Ok(leads)
    }

    /// The least symbol of the block that is not apart, or its least one where all are.
    fn lead(&self, apart: &[Symbol], block: usize) -> Symbol
        requires shared { IsNumbered self.now.blocks.items self.now.first.items }
        requires linked { IsLinked self.now.blocks.items self.now.next.items }
        requires ascending { IsAscending apart.now }
        requires block { block < length self.now.first.items }
        ensures { IsLead self.now.blocks.items apart.now block result }
    {
        match self.least_left(apart, block) {
            Some(s) => s,
            None => self.first[block],
        }
    }
}

/// Numbers for the blocks of the base once each symbol of `apart` is a block of its own, in the
/// order of their least symbols: the number of the block of each symbol of `apart`, that of the
/// other symbols of each block of the base, and the least symbol of each block. Where all symbols
/// of a block are apart, it has the number of its least one's block. Time: n log n in the blocks of
/// the base and the symbols of `apart`.
pub(crate) fn number_apart(
    alloc: Global,
    base: &Base,
    apart: &[Symbol],
) -> Result<(Vec<u32>, Vec<u32>, Vec<Symbol>), AllocError>
    requires shared { IsNumbered base.now.blocks.items base.now.first.items }
    requires linked { IsLinked base.now.blocks.items base.now.next.items }
    requires ascending { IsAscending apart.now }
    requires within { All (λ s. s < length base.now.blocks.items) apart.now }
    ensures { IfOk result (λ r. IsLayered base.now.blocks.items base.now.first.items
        base.now.next.items apart.now
        r.0.items r.1.items r.2.items) }
{
    let leads = base.leads(alloc, apart)?;
    let least = ascending_union(alloc, apart, &leads)?;
    let beside = places_in(alloc, &least, apart)?;
    let numbers = places_in(alloc, &least, &leads)?;
    Ok((beside, numbers, least))
}

/// For each symbol the next greater one of its block, and `None` for the greatest, in one pass from
/// the greatest symbol down. There are `count` blocks.
fn next_of_block(
    alloc: Global,
    blocks: &[u32],
    count: usize,
) -> Result<Vec<Option<Symbol>>, AllocError>
    requires below { All (λ block. block < count) blocks.now }
    requires few { length blocks.now < 2 ^ 32 }
    ensures { IfOk result (λ next. IsLinked blocks.now next.items) }
{
    let mut after: Vec<Option<Symbol>> = vec![in alloc; None; count]?;
    let mut next: Vec<Option<Symbol>> = vec![in alloc; None; blocks.len()]?;
    for s in (0..blocks.len()).rev() {
        let block = blocks[s] as usize;
        next[s] = after[block];
        after[block] = Some(s as u32);
    }
    Ok(next)
}
