//! A partition that is being refined, with keys in place of the numbers of its blocks.
ghost use Rattle.std.specs.Prelude.{◌≡◌, ℕ, ◌<◌, ◌≤◌, ◌↔◌, IfOk, IfErr, All, Contains, length, slice_index};
ghost use Rattle.rela_labels.specs.Partition.{Together, IsPartition};
ghost use Rattle.rela_labels.specs.Splitting.{IsKeyed, IsFresh, IsMoved};

use crate::partition::Partition;
use rela_names::Symbol;
use std::alloc::{AllocError, Global};
use std::marker::Model;

/// A partition that is being refined: a split costs its members alone, and the blocks are numbered
/// once at the end. Contracts see it as the list of each symbol's key, and symbols with the same key
/// share a block. Keys are in no order.
#[derive(Debug, Drop)]
pub struct Splitter {
    /// The key of each symbol.
    keys: Vec<usize>,
    /// For each key that was given out, the key that members with it last moved to, or 0 where none
    /// did.
    moved: Vec<usize>,
}

impl Model for Splitter {
    ghost use Rattle.std.specs.Prelude.{List, ℕ};
    ghost use Rattle.rela_labels.specs.Splitting.{IsKeyed};

    ghost Value = { List ℕ };

    ghost view = { λ splitter. splitter.keys.items };

    ghost invariant = { λ splitter. IsKeyed splitter.keys.items splitter.moved.items };
}

impl Splitter {
    /// The partition's blocks, to be split. The keys are the blocks' numbers. Time and space:
    /// linear in the symbols, with a binary search for each among those that are apart.
    pub fn of(alloc: Global, partition: &Partition) -> Result<Splitter, AllocError>
        ensures { IfOk result (λ splitter. splitter ≡ partition.now) }
    {
        let keys = partition.keys(alloc)?;
        let moved = vec![in alloc; 0; partition.blocks() as usize]?;
        Ok(Splitter { keys, moved })
    }

    /// Splits each block into the members and the others. The members may come in any order, and
    /// one that comes twice counts once. An error leaves the blocks as they were. Time: linear in
    /// the members; only after as many blocks were split as there are symbols does one of the
    /// splits pass over all symbols too.
    pub fn split(&mut self, alloc: Global, members: &[Symbol]) -> Result<(), AllocError>
        requires { All (λ s. s < length self.old) members.now }
        ensures symbols { length self.new ≡ length self.old }
        ensures split { IfOk result (λ _. (s t : ℕ) → s < length self.old → t < length self.old
            → Together self.new s t ↔ (Together self.old s t × (Contains members.now s ↔
            Contains members.now t))) }
        ensures unchanged { IfErr result (λ _. (s t : ℕ) → s < length self.old → t < length self.old
            → Together self.new s t ↔ Together self.old s t) }
    {
        self.renumber(alloc)?;
        self.separate(members)
    }

    /// The blocks, numbered in the order of their least symbols. Time and space: linear in the
    /// symbols and in the keys that were given out.
    pub fn into_partition(self, alloc: Global) -> Result<Partition, AllocError>
        ensures symbols { IfOk result (λ partition. length partition ≡ length self) }
        ensures partition { IfOk result IsPartition }
        ensures together { IfOk result (λ partition. (s t : ℕ) → s < length self → t < length self
            → Together partition s t ↔ Together self s t) }
    {
        self.numbered(alloc)
    }

    /// The blocks as a partition.
    fn numbered(&self, alloc: Global) -> Result<Partition, AllocError>
        ensures symbols { IfOk result (λ partition. length partition ≡ length self.now) }
        ensures partition { IfOk result IsPartition }
        ensures together { IfOk result (λ partition. (s t : ℕ) → s < length self.now →
            t < length self.now
            → Together partition s t ↔ Together self.now s t) }
    {
        Partition::of_keys(alloc, &self.keys, self.moved.len())
    }

    /// Makes the numbers of the blocks the keys again, once more keys than twice the symbols were
    /// given out. At least half of them were given for members since the last time, so these passes
    /// cost no more than the members did, and memory stays in proportion to the symbols.
    fn renumber(&mut self, alloc: Global) -> Result<(), AllocError>
        ensures symbols { length self.new ≡ length self.old }
        ensures same { (s t : ℕ) → s < length self.old → t < length self.old
            → Together self.new s t ↔ Together self.old s t }
    {
        if self.moved.len() / 2 <= self.keys.len() {
            return Ok(());
        }
        let partition = self.numbered(alloc)?;
        *self = Splitter::of(alloc, &partition)?;
        Ok(())
    }

    /// Gives the members of each block a key of their own. An error leaves the keys of all symbols
    /// as they were.
    fn separate(&mut self, members: &[Symbol]) -> Result<(), AllocError>
        requires { All (λ s. s < length self.old) members.now }
        ensures symbols { length self.new ≡ length self.old }
        ensures split { IfOk result (λ _. (s t : ℕ) → s < length self.old → t < length self.old
            → Together self.new s t ↔ (Together self.old s t × (Contains members.now s ↔
            Contains members.now t))) }
        ensures unchanged { IfErr result (λ _. self.new ≡ self.old) }
    {
        let first = self.moved.len();
        give_keys(&self.keys, &mut self.moved, members)?;
        move_members(&mut self.keys, &self.moved, members, first);
        Ok(())
    }
}

/// Finds a fresh key for each key of a member. No symbol's key changes yet, since this may fail for
/// want of memory.
fn give_keys(keys: &[usize], moved: &mut Vec<usize>, members: &[Symbol]) -> Result<(), AllocError>
    requires keyed { IsKeyed keys.now moved.old.items }
    requires within { All (λ s. s < length keys.now) members.now }
    ensures fresh { IsFresh (length moved.old.items) moved.new.items }
    ensures given { IfOk result (λ _. (s : ℕ) → Contains members.now s
        → length moved.old.items ≤ slice_index moved.new.items (slice_index keys.now s)) }
{
    let first = moved.len();
    for s in members {
        give_key(moved, keys[*s as usize], first)?;
    }
    Ok(())
}

/// Finds a fresh key for this one, unless it has one: the fresh keys are those from `first` on.
fn give_key(moved: &mut Vec<usize>, key: usize, first: usize) -> Result<(), AllocError>
    requires old { key < first }
    requires fresh { IsFresh first moved.old.items }
    ensures fresh { IsFresh first moved.new.items }
    ensures given { IfOk result (λ _. first ≤ slice_index moved.new.items key) }
    ensures kept { (k : ℕ) → k < first → first ≤ slice_index moved.old.items k
        → slice_index moved.new.items k ≡ slice_index moved.old.items k }
{
    if moved[key] >= first {
        return Ok(());
    }
    let given = moved.len();
    moved.push(0)?;
    moved[key] = given;
    Ok(())
}

/// Moves each member to its key's fresh key. A member with a fresh key has been moved already.
fn move_members(keys: &mut [usize], moved: &[usize], members: &[Symbol], first: usize)
    requires within { All (λ s. s < length keys.old) members.now }
    requires keys_below { All (λ key. key < first) keys.old }
    requires longer { first ≤ length moved.now }
    requires given { (s : ℕ) → Contains members.now s →
        first ≤ slice_index moved.now (slice_index keys.old s) }
    ensures { (s : ℕ) → s < length keys.old → IsMoved members.now moved.now keys.old keys.new s }
{
    for s in members {
        let s = *s as usize;
        if keys[s] < first {
            keys[s] = moved[keys[s]];
        }
    }
}
