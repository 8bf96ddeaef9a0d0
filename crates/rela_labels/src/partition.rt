//! Partitions of symbols into blocks, which share what they have in common.
ghost use Rattle.std.specs.Prelude.{◌≡◌, ℕ, ◌^◌, ◌<◌, ◌≤◌, ◌↔◌, IfOk, All, Contains, length};
ghost use Rattle.rela_labels.specs.Partition.{block_of, block_count, Together, IsPartition, IsLeastOf, IsNumbered};

use crate::ascending::{ascending_union, place_in};
use crate::base::{Base, number_apart};
use crate::numbering::{number_keys, numbers_below};
use rela_names::Symbol;
use std::alloc::{AllocError, Global};
use std::marker::Model;
use std::rc::Rc;

/// The symbols below some number, put into blocks. The blocks are numbered from 0 in the order of
/// their least symbols. Contracts see it as the list of each symbol's block.
///
/// A partition may share most of its blocks with others: it has a base, which it may share, and
/// symbols that are apart, each a block of its own.
#[derive(Debug, Drop)]
pub struct Partition {
    /// The shared partition, whose blocks these are but for the symbols that are apart.
    base: Rc<Base>,
    /// The symbols that are apart, in ascending order.
    apart: Vec<Symbol>,
    /// The number of the block of each symbol that is apart, in their order.
    beside: Vec<u32>,
    /// For each block of the base the number of the block of its symbols that are not apart.
    numbers: Vec<u32>,
    /// The least symbol of each block.
    least: Vec<Symbol>,
}

impl Model for Partition {
    ghost use Rattle.std.specs.Prelude.{List, ℕ};
    ghost use Rattle.rela_labels.specs.Apart.{blocks_now, IsLayered};

    ghost Value = { List ℕ };

    ghost view = { λ partition. blocks_now partition.apart.items partition.beside.items
        partition.numbers.items
        partition.base.value.blocks.items };

    ghost invariant = { λ partition. IsLayered partition.base.value.blocks.items
        partition.base.value.first.items partition.base.value.next.items
        partition.apart.items partition.beside.items partition.numbers.items
        partition.least.items };
}

impl Partition {
    /// The partition of this many symbols into one block. Time and space: linear in the symbols.
    pub fn new(alloc: Global, symbols: u32) -> Result<Partition, AllocError>
        requires { 1 ≤ symbols }
        ensures symbols { IfOk result (λ partition. length partition ≡ symbols) }
        ensures partition { IfOk result IsPartition }
        ensures count { IfOk result (λ partition. block_count partition ≡ 1) }
        ensures one_block { IfOk result (λ partition. (s : ℕ) → s < symbols →
            block_of partition s ≡ 0) }
    {
        let blocks = vec![in alloc; 0; symbols as usize]?;
        let least = vec![in alloc; 0; 1]?;
        Partition::fresh(alloc, blocks, least)
    }

    /// The partition of this many symbols in which each is a block of its own. Time and space:
    /// linear in the symbols.
    pub fn finest(alloc: Global, symbols: u32) -> Result<Partition, AllocError>
        requires { 1 ≤ symbols }
        ensures symbols { IfOk result (λ partition. length partition ≡ symbols) }
        ensures partition { IfOk result IsPartition }
        ensures count { IfOk result (λ partition. block_count partition ≡ symbols) }
        ensures own_block { IfOk result (λ partition. (s : ℕ) → s < symbols →
            block_of partition s ≡ s) }
    {
        let blocks = numbers_below(alloc, symbols)?;
        let least = numbers_below(alloc, symbols)?;
        Partition::fresh(alloc, blocks, least)
    }

    /// The partition of as many symbols as there are keys: two share a block where they have the
    /// same key. Each key is below `bound`. Time and space: linear in the symbols and the bound.
    pub(crate) fn of_keys(
        alloc: Global,
        keys: &[usize],
        bound: usize,
    ) -> Result<Partition, AllocError>
        requires some { 0 < length keys.now }
        requires few { length keys.now < 2 ^ 32 }
        requires below { All (λ key. key < bound) keys.now }
        ensures symbols { IfOk result (λ partition. length partition ≡ length keys.now) }
        ensures partition { IfOk result IsPartition }
        ensures together { IfOk result (λ partition. (s t : ℕ) → s < length keys.now →
            t < length keys.now
            → Together partition s t ↔ Together keys.now s t) }
    {
        let (blocks, least) = number_keys(alloc, keys, bound)?;
        Partition::fresh(alloc, blocks, least)
    }

    /// The partition with these blocks and their least symbols, on a base of its own.
    fn fresh(alloc: Global, blocks: Vec<u32>, least: Vec<Symbol>) -> Result<Partition, AllocError>
        requires { IsNumbered blocks.items least.items }
        ensures { IfOk result (λ partition. partition ≡ blocks.items) }
    {
        let numbers = numbers_below(alloc, least.len() as u32)?;
        let first = Vec::from_slice(alloc, &least)?;
        let shared = Base::new(alloc, blocks, first)?;
        let base = Rc::new(alloc, shared)?;
        Ok(Partition {
            base,
            apart: Vec::new(alloc),
            beside: Vec::new(alloc),
            numbers,
            least,
        })
    }

    /// The same blocks, but that each of these symbols is a block of its own. The two partitions
    /// share their base. Time: n log n in the blocks of the base, these symbols and those that are
    /// apart already, whatever the number of all symbols; space: linear in them.
    pub fn with_alone(&self, alloc: Global, symbols: &[Symbol]) -> Result<Partition, AllocError>
        requires { All (λ s. s < length self.now) symbols.now }
        ensures symbols { IfOk result (λ partition. length partition ≡ length self.now) }
        ensures partition { IfOk result IsPartition }
        ensures together { IfOk result (λ partition. (s t : ℕ) → s < length self.now →
            t < length self.now
            → Together partition s t ↔ (Together self.now s t × ((u : ℕ) → Contains symbols.now u →
            (s ≡ u) ↔ (t ≡ u)))) }
    {
        let apart = ascending_union(alloc, &self.apart, symbols)?;
        let (beside, numbers, least) = number_apart(alloc, &self.base, &apart)?;
        let base = self.base.clone()?;
        Ok(Partition {
            base,
            apart,
            beside,
            numbers,
            least,
        })
    }

    /// The number of each symbol's block, as a [`Splitter`](crate::Splitter) begins with it.
    pub(crate) fn keys(&self, alloc: Global) -> Result<Vec<usize>, AllocError>
        ensures blocks { IfOk result (λ keys. keys.items ≡ self.now) }
        ensures few { length self.now < 2 ^ 32 }
    {
        let blocks = self.block_numbers(alloc)?;
        blocks.iter().map(|block| *block as usize).collect(alloc)
    }

    /// The number of each symbol's block. Time: a binary search for each symbol among those that
    /// are apart.
    fn block_numbers(&self, alloc: Global) -> Result<Vec<u32>, AllocError>
        ensures blocks { IfOk result (λ blocks. blocks.items ≡ self.now) }
        ensures few { length self.now < 2 ^ 32 }
    {
        let symbols = self.symbols();
        let mut blocks = Vec::with_capacity(alloc, symbols as usize)?;
        for s in 0..symbols {
            blocks.push(self.block_of(s))?;
        }
        Ok(blocks)
    }

    /// How many symbols there are.
    fn symbols(&self) -> u32
        ensures { result ≡ length self.now }
    {
        self.base.blocks.len() as u32
    }

    /// Two partitions of as many symbols are the same where the same symbols share blocks in both.
    /// The call does nothing, and its contract is this law.
    pub fn determined_by_blocks(&self, other: &Partition)
        ensures { length self.now ≡ length other.now
            → ((s t : ℕ) → s < length self.now → t < length self.now → Together self.now s t ↔
            Together other.now s t)
            → self.now ≡ other.now }
    {
        let _ = &self.least;
        let _ = &other.least;
    }

    /// The number of blocks: just the numbers below it are blocks.
    pub fn blocks(&self) -> u32
        ensures count { result ≡ block_count self.now }
        ensures partition { IsPartition self.now }
    {
        self.least.len() as u32
    }

    /// The number of the symbol's block. Time: a binary search among the symbols that are apart.
    pub fn block_of(&self, s: Symbol) -> u32
        requires { s < length self.now }
        ensures block { result ≡ block_of self.now s }
        ensures below { result < block_count self.now }
    {
        match place_in(&self.apart, s) {
            Some(place) => self.beside[place],
            None => self.numbers[self.base.blocks[s as usize] as usize],
        }
    }

    /// The least symbol of the block.
    pub fn representative(&self, block: u32) -> Symbol
        requires { block < block_count self.now }
        ensures { IsLeastOf self.now block result }
    {
        self.least[block as usize]
    }
}
