//! Sets of states, and their numbers.
ghost use Rattle.std.specs.Prelude.{◌≡◌, ◌+◌, ◌^◌, ◌<◌, ◌↔◌, [], ◌∷◌, ◌++◌, IfOk, OnOk, OnErr, IsTrue, Contains, fold, length, slice_index, slice_index_or, slice_set};
ghost use Rattle.rela_letter_nfa.specs.Buckets.{AreBucketed, AreWithin, befores, bucket_of, mixed, sets_at};
ghost use Rattle.rela_letter_nfa.specs.Sets.{AreDistinct, Enters};

use std::alloc::{AllocError, Global};
use std::marker::Model;

/// An odd number of which the bits look random: 2^64 by the golden ratio.
const MIXER: u64 = 0x9E37_79B9_7F4A_7C15;

/// The numbers of a half of a word.
const HALF: u64 = 1 << 32;

/// The fewest sets for which there is room at first.
const LEAST_ROOM: usize = 8;

/// The most sets for which there is room at first.
pub(crate) const MOST_ROOM: usize = 4096;

/// Where a set stands, and the one before it in its bucket.
#[derive(Clone, Copy, Debug)]
pub(crate) struct Placed {
    /// The place of its first item.
    pub(crate) from: usize,
    /// The place behind its last item.
    pub(crate) to: usize,
    /// One more than the number of the set before it in its bucket, and 0 where there is none.
    pub(crate) before: usize,
}

/// Sets of states, each a list in ascending order, numbered as they are found, and looked up by
/// their hashes. Contracts see them as the list of these lists.
#[derive(Drop)]
pub(crate) struct StateSets {
    /// The items of all sets.
    items: Vec<u32>,
    /// Where each set stands, in the order of their numbers.
    placed: Vec<Placed>,
    /// For each bucket one more than the number of its last set, and 0 where it has none. The
    /// buckets are a power of two.
    lasts: Vec<usize>,
}

impl Model for StateSets {
    ghost use Rattle.std.specs.Prelude.{List, ℕ};
    ghost use Rattle.rela_letter_nfa.specs.Buckets.{AreBucketed, AreWithin, befores, sets_at};
    ghost use Rattle.rela_letter_nfa.specs.Sets.{AreDistinct};
    ghost use Rattle.std.specs.Prelude.{length as length_of};

    ghost Value = { List (List ℕ) };

    ghost view = { λ all. sets_at all.items.items all.placed.items };

    ghost invariant = { λ all. AreWithin (length_of all.items.items) all.placed.items
        × AreBucketed (sets_at all.items.items all.placed.items) (befores all.placed.items)
        all.lasts.items × AreDistinct (sets_at all.items.items all.placed.items) };
}

impl StateSets {
    /// No sets, with room for so many, but at least for `LEAST_ROOM` and at most for `MOST_ROOM`.
    /// Time: linear in the room.
    pub(crate) fn with_capacity(alloc: Global, sets: usize) -> Result<StateSets, AllocError>
        ensures { IfOk result (λ sets. sets ≡ []) }
    {
        let room = sets.clamp(LEAST_ROOM, MOST_ROOM);
        let items = Vec::with_capacity(alloc, 2 * room)?;
        let placed = Vec::with_capacity(alloc, room)?;
        let lasts = vec![in alloc; 0; room.next_power_of_two()]?;
        Ok(StateSets {
            items,
            placed,
            lasts,
        })
    }

    /// How many there are.
    pub(crate) fn len(&self) -> usize
        ensures len { result ≡ length self.now }
        ensures small { result < 2 ^ 63 }
        ensures distinct { AreDistinct self.now }
    {
        self.placed.len()
    }

    /// The set of this number.
    pub(crate) fn get(&self, number: usize) -> &[u32]
        requires { number < length self.now }
        ensures { result.now ≡ slice_index_or self.now number [] }
    {
        set_at(&self.items, &self.placed, number)
    }

    /// Puts a copy of the set behind the others, and tells that, where it isn't among them. Time:
    /// linear in the set, in expectation. A set that is among them takes no memory.
    pub(crate) fn insert(&mut self, alloc: Global, set: &[u32]) -> Result<bool, AllocError>
        ensures { IfOk result (λ is_new. Enters set.now self.old self.new is_new) }
    {
        let bucket = bucket_of(set, self.lasts.len());
        if has(&self.items, &self.placed, &self.lasts, set, bucket) {
            return Ok(false);
        }
        let from = self.items.len();
        self.items.extend_from_slice(set)?;
        let to = self.items.len();
        enter(&mut self.placed, &mut self.lasts, from, to, bucket)?;
        self.make_room(alloc)?;
        Ok(true)
    }

    /// Doubles the buckets where there are more sets than buckets. Time: linear in the sets, where
    /// they are doubled.
    fn make_room(&mut self, alloc: Global) -> Result<(), AllocError>
        ensures { self.new ≡ self.old }
    {
        let count = self.lasts.len();
        if self.placed.len() <= count {
            return Ok(());
        }
        let mut placed = Vec::with_capacity(alloc, count.saturating_mul(2))?;
        let mut lasts = vec![in alloc; 0; count.saturating_mul(2)]?;
        enter_all(&self.items, &self.placed, &mut placed, &mut lasts)?;
        self.placed = placed;
        self.lasts = lasts;
        Ok(())
    }
}

/// The hash with another number mixed in.
fn mixed(hash: u64, q: u32) -> u64
    ensures { result ≡ mixed hash q }
{
    (hash ^ q as u64).wrapping_mul(MIXER)
}

/// The hash of the set.
fn hash_of(set: &[u32]) -> u64
    ensures { result ≡ fold mixed 0 set.now }
{
    let mut hash = 0;
    for q in set {
        hash = mixed(hash, *q);
    }
    hash
}

/// The bucket of the set, by its hash, of so many, a power of two.
fn bucket_of(set: &[u32], count: usize) -> usize
    requires { 0 < count }
    ensures bucket { result ≡ bucket_of count set.now }
    ensures below { result < count }
{
    (hash_of(set) / HALF) as usize & (count - 1)
}

/// The set of this number.
fn set_at<'a>(items: &'a [u32], placed: &[Placed], number: usize) -> &'a [u32]
    requires number { number < length placed.now }
    requires within { AreWithin (length items.now) placed.now }
    ensures { result.now ≡ slice_index_or (sets_at items.now placed.now) number [] }
{
    let Placed { from, to, .. } = placed[number];
    &items[from..to]
}

/// Whether the set, which is of this bucket, is among them.
fn has(items: &[u32], placed: &[Placed], lasts: &[usize], set: &[u32], bucket: usize) -> bool
    requires within { AreWithin (length items.now) placed.now }
    requires bucketed { AreBucketed (sets_at items.now placed.now) (befores placed.now) lasts.now }
    requires bucket { bucket ≡ bucket_of (length lasts.now) set.now }
    requires below { bucket < length lasts.now }
    ensures { IsTrue result ↔ Contains (sets_at items.now placed.now) set.now }
{
    let mut at = lasts[bucket];
    while at > 0 {
        if set_at(items, placed, at - 1) == set {
            return true;
        }
        at = placed[at - 1].before;
    }
    false
}

/// Puts a set behind the others that stands there, of this bucket.
fn enter(
    placed: &mut Vec<Placed>,
    lasts: &mut Vec<usize>,
    from: usize,
    to: usize,
    bucket: usize,
) -> Result<(), AllocError>
    requires { bucket < length lasts.old.items }
    ensures placed { OnOk result (placed.new.items ≡ placed.old.items ++ record {
      from = from;
      to = to;
      before = slice_index lasts.old.items bucket;
    } ∷ []) }
    ensures lasts { OnOk result (lasts.new.items
        ≡ slice_set lasts.old.items bucket (length placed.old.items + 1)) }
    ensures same_placed { OnErr result (placed.new.items ≡ placed.old.items) }
    ensures same_lasts { OnErr result (lasts.new.items ≡ lasts.old.items) }
{
    placed.push(Placed {
        from,
        to,
        before: lasts[bucket],
    })?;
    lasts[bucket] = placed.len();
    Ok(())
}

/// Puts all sets into other buckets, which are empty.
fn enter_all(
    items: &[u32],
    old: &[Placed],
    placed: &mut Vec<Placed>,
    lasts: &mut Vec<usize>,
) -> Result<(), AllocError>
    requires within { AreWithin (length items.now) old.now }
    requires none { placed.old.items ≡ [] }
    requires bucketed { AreBucketed [] [] lasts.old.items }
    ensures within { OnOk result (AreWithin (length items.now) placed.new.items) }
    ensures same { OnOk result (sets_at items.now placed.new.items ≡ sets_at items.now old.now) }
    ensures bucketed { OnOk result (AreBucketed (sets_at items.now placed.new.items)
        (befores placed.new.items) lasts.new.items) }
{
    for number in 0..old.len() {
        let bucket = bucket_of(set_at(items, old, number), lasts.len());
        let Placed { from, to, .. } = old[number];
        enter(placed, lasts, from, to, bucket)?;
    }
    Ok(())
}
