//! The pairs of states that were found, and their numbers.
ghost use Rattle.std.specs.Prelude.{◌≡◌, ◌<◌, ◌≤◌, ◌⊎◌, ◌^◌, [], Some, IfOk, IfErr, OnOk, length, slice_get};
ghost use Rattle.rela_letter_image.specs.Growth.{IsFoundIn};

use rela_letter_nfa::MAX_STATES;
use rela_pairs::{BuildError, Pair, Shape};
use std::alloc::{AllocError, Global};
use std::marker::Model;

/// What stands at a place where there is no number: that of no pair.
const FREE: u32 = u32::MAX;

/// Where all pairs of states are at most this many, each has a place of its own.
const FEW_PLACES: usize = 1 << 14;

/// Each pair of states has a place of its own too where they are at most this many for each pair for
/// which there is room at first: then filling the places costs little beside the pairs.
const PLACES_FOR_EACH: usize = 16;

/// The fewest pairs for which there is room at first.
const LEAST_ROOM: usize = 32;

/// The most pairs for which there is room at first.
pub(crate) const MOST_ROOM: usize = 4096;

/// Some free places, to be copied.
const FREE_PLACES: [u32; 256] = [FREE; 256];

/// Where among the places the number of a pair is looked for.
#[derive(Clone, Copy)]
enum Addressing {
    /// At a place that no other pair has, since there are as many places as pairs of states: that of
    /// `left * rights + right`.
    Direct {
        /// How many states the right machine has.
        rights: usize,
    },
    /// At the place of its hash, or at the next one that was free.
    Hashed,
}

/// The pairs of states that were found, numbered from 0 in the order in which they came. They are
/// looked up at places of their own where the machines have few pairs of states, and else by their
/// hash. Contracts see them as a list.
#[derive(Drop)]
pub(crate) struct Found {
    /// The pairs, in the order of their numbers.
    pairs: Vec<Pair>,
    /// At each place the number of a pair, or `FREE`. There is a place for each pair of states under
    /// direct addressing. Else the places are a power of two, at least twice as many as the pairs
    /// that were found.
    places: Vec<u32>,
    /// Where among the places a number is looked for.
    addressing: Addressing,
}

impl Model for Found {
    ghost use Rattle.std.specs.Prelude.{◌<◌, ◌≤◌, ◌^◌, List, length};
    ghost use Rattle.rela_pairs.specs.declared.pair.Pair.{Pair};

    ghost Value = { List Pair };

    ghost view = { λ found. found.pairs.items };

    ghost invariant = { λ found. (length found.pairs.items ≤ 2 ^ 31)
        × (0 < length found.places.items) };
}

impl Found {
    /// No pair of machines of this shape, with room for so many pairs, but at least for `LEAST_ROOM`
    /// and at most for `MOST_ROOM`. Time: linear in the room, or in the places where each pair of
    /// states has its own.
    pub(crate) fn with_capacity(
        alloc: Global,
        shape: Shape,
        pairs: usize,
    ) -> Result<Found, AllocError>
        ensures { IfOk result (λ found. found ≡ []) }
    {
        let room = pairs.clamp(LEAST_ROOM, MOST_ROOM);
        let pairs = Vec::with_capacity(alloc, room)?;
        let (addressing, count) = addressing_of(shape, room);
        let places = free_places(alloc, count)?;
        Ok(Found {
            pairs,
            places,
            addressing,
        })
    }

    /// The pairs, in the order of their numbers.
    pub(crate) fn pairs(&self) -> &[Pair]
        ensures pairs { result.now ≡ self.now }
        ensures few { length self.now ≤ 2 ^ 31 }
    {
        self.pairs.as_slice()
    }

    /// The number of the pair, which is put in unless it is found. Time: constant, under hashing in
    /// expectation.
    ///
    /// # Errors
    ///
    /// - `Limit` where there would be more than `most` pairs, or than an automaton can have states.
    /// - `Memory` where there isn't memory for it.
    #[inline(always)]
    pub(crate) fn number(&mut self, pair: Pair, most: usize) -> Result<u32, BuildError>
        ensures numbered { IfOk result (λ number. slice_get self.new number ≡ Some pair) }
        ensures found { IsFoundIn self.old self.new pair }
        ensures grown { OnOk result ((self.new ≡ self.old)
            ⊎ ((length self.old < most) × (length self.old < 2 ^ 31))) }
        ensures limit { IfErr result (λ e. e ≡ BuildError.Limit →
            (self.new ≡ self.old) × ((most ≤ length self.old) ⊎ (2 ^ 31 ≤ length self.old))) }
        ensures memory { IfErr result (λ e. e ≡ BuildError.Memory →
            (length self.old < most) × (length self.old < 2 ^ 31)) }
    {
        match look_up(&self.pairs, &self.places, self.addressing, pair) {
            Ok(number) => Ok(number),
            Err(place) => {
                let number = self.pairs.len();
                if number >= most || number >= MAX_STATES {
                    return Err(BuildError::Limit);
                }
                self.pairs.push(pair)?;
                self.places[place] = number as u32;
                self.make_room()?;
                Ok(number as u32)
            }
        }
    }

    /// Doubles the places where pairs are hashed and more than half of the places are taken. Time:
    /// linear in the pairs, where they are doubled.
    #[inline(always)]
    fn make_room(&mut self) -> Result<(), AllocError>
        ensures { self.new ≡ self.old }
    {
        let count = self.places.len();
        if matches!(self.addressing, Addressing::Hashed) && count / 2 < self.pairs.len() {
            double(&self.pairs, &mut self.places)?;
        }
        Ok(())
    }
}

/// Twice as many places, with the number of each pair at one of its own. Time: linear in both.
#[cold]
#[inline(never)]
fn double(pairs: &[Pair], places: &mut Vec<u32>) -> Result<(), AllocError>
    requires few { length pairs.now ≤ 2 ^ 31 }
    requires some { 0 < length places.old.items }
    ensures { 0 < length places.new.items }
{
    let count = places.len();
    places.resize(count.saturating_mul(2), FREE)?;
    place_all(pairs, places);
    Ok(())
}

/// How pairs are looked up, where there is room for so many of them, and how many places there are:
/// one for each pair of states, if these are at most `FEW_PLACES`, or at most `PLACES_FOR_EACH` for
/// each pair for which there is room, and else at least two for each of these.
fn addressing_of(shape: Shape, room: usize) -> (Addressing, usize)
    requires { room ≤ 2 ^ 12 }
    ensures { 0 < result.1 }
{
    match shape.lefts.checked_mul(shape.rights) {
        Some(all) if all <= FEW_PLACES.max(PLACES_FOR_EACH * room) => {
            let rights = shape.rights;
            (Addressing::Direct { rights }, all.max(1))
        }
        _ => (Addressing::Hashed, (2 * room).next_power_of_two()),
    }
}

/// So many free places. Time: linear in their number, but many are copied at a time.
fn free_places(alloc: Global, count: usize) -> Result<Vec<u32>, AllocError>
    ensures { IfOk result (λ places. length places.items ≡ count) }
{
    let mut places = Vec::with_capacity(alloc, count)?;
    for _ in 0..count / 256 {
        places.extend_from_slice(&FREE_PLACES)?;
    }
    places.extend_from_slice(&FREE_PLACES[..count % 256])?;
    Ok(places)
}

/// A hash of the pair.
fn hash_of(pair: Pair) -> usize {
    let mixed = (pair.left as u64)
        .wrapping_mul(0x9e37_79b9_7f4a_7c15)
        .wrapping_add(pair.right as u64)
        .wrapping_mul(0xff51_afd7_ed55_8ccd);
    (mixed >> 32) as usize
}

/// The first place at which the number of the pair may stand, of this many.
fn first_place(addressing: Addressing, pair: Pair, count: usize) -> usize
    requires { 0 < count }
    ensures { result < count }
{
    match addressing {
        Addressing::Direct { rights } => direct_place(rights, pair, count),
        Addressing::Hashed => hash_of(pair) & (count - 1),
    }
}

/// The place that no other pair has, where the right machine has this many states. It is among the
/// places for pairs of the shape for which these were made, and for others it is the first place.
fn direct_place(rights: usize, pair: Pair, count: usize) -> usize
    requires { 0 < count }
    ensures { result < count }
{
    let place = pair.left.wrapping_mul(rights).wrapping_add(pair.right);
    if place < count { place } else { 0 }
}

/// The place behind it, and behind the last one the first, where pairs are hashed and the places are
/// a power of two.
fn next_place(place: usize, count: usize) -> usize
    requires { place < count }
    ensures { result < count }
{
    (place + 1) & (count - 1)
}

/// The number of the pair, or as an error the place where it can be put. A number counts only where
/// the pair stands that it tells.
fn look_up(pairs: &[Pair], places: &[u32], addressing: Addressing, pair: Pair) -> Result<u32, usize>
    requires { 0 < length places.now }
    ensures held { IfOk result (λ number. slice_get pairs.now number ≡ Some pair) }
    ensures free { IfErr result (λ place. place < length places.now) }
{
    let mut place = first_place(addressing, pair, places.len());
    for _ in 0..places.len() {
        let number = places[place];
        match pairs.get(number as usize) {
            Some(known) if *known == pair => return Ok(number),
            Some(_) => place = next_place(place, places.len()),
            None => return Err(place),
        }
    }
    Err(place)
}

/// Puts the number of each pair at the place of its hash, or at the next one that is free, and
/// `FREE` at all others.
fn place_all(pairs: &[Pair], places: &mut [u32])
    requires few { length pairs.now ≤ 2 ^ 31 }
    requires some { 0 < length places.old }
{
    places.fill(FREE);
    for number in 0..pairs.len() {
        if let Err(place) = look_up(pairs, places, Addressing::Hashed, pairs[number]) {
            places[place] = number as u32;
        }
    }
}
