//! Sets of letters, and partitions of symbols.

ghost use Rattle.std.specs.Prelude.{◌≡◌, ◌<◌, ◌≤◌, All, IfOk, length};

use rela_labels::{BlockSet, LabelSet, Partition, Splitter, WideSet};
use std::alloc::{AllocError, Global};
use std::process::Abort;

/// The set of these letters, of this size. Numbers that are no letters are left out.
fn set_of<L: LabelSet>(alloc: Global, size: u32, letters: &[u32]) -> Result<L, AllocError>
    requires { L.fits size }
    ensures { IfOk result (λ set. length (L.letters set) ≡ size) }
{
    let mut set = L::none(alloc, size)?;
    for letter in letters {
        if *letter < set.size() {
            set.add(alloc, *letter)?;
        }
    }
    Ok(set)
}

/// A copy of the set of these letters, of this size.
fn copy_of<L: LabelSet>(alloc: Global, size: u32, letters: &[u32]) -> Result<L, AllocError>
    requires { L.fits size }
    ensures { IfOk result (λ set. length (L.letters set) ≡ size) }
{
    let set: L = set_of(alloc, size, letters)?;
    set.copy(alloc)
}

/// Whether the set has these letters, which come in ascending order, and no other.
fn has_letters<L: LabelSet>(set: &L, letters: &[u32]) -> bool {
    let size = set.size();
    for letter in 0..size {
        if set.contains(letter) != letters.contains(&letter) {
            return false;
        }
    }
    set.least() == letters.first().copied()
        && set.is_empty() == letters.is_empty()
        && !set.contains(size)
}

/// Whether the set is the same as a copy of the set of these letters.
fn is_copy<L: LabelSet>(alloc: Global, size: u32, set: &L, letters: &[u32]) -> bool
    requires fits { L.fits size }
    requires sized { length (L.letters set.now) ≡ size }
{
    let copy: Result<L, AllocError> = copy_of(alloc, size, letters);
    match copy {
        Ok(copy) => set.same(&copy) && copy.same(set),
        Err(_) => false,
    }
}

/// Whether a set of this size was made, and has these letters and no other.
fn is_of<L: LabelSet>(
    alloc: Global,
    size: u32,
    made: Result<L, AllocError>,
    letters: &[u32],
) -> bool
    requires fits { L.fits size }
    requires sized { IfOk made (λ set. length (L.letters set) ≡ size) }
{
    match made {
        Ok(set) => has_letters(&set, letters) && is_copy(alloc, size, &set, letters),
        Err(_) => false,
    }
}

/// The letters of two sets, and those of their meet, of their join and of the first without the second.
type Case<'a> = (&'a [u32], &'a [u32], [&'a [u32]; 3]);

/// Whether the operations on the two sets have these results.
fn give<L: LabelSet>(alloc: Global, size: u32, first: &L, second: &L, results: &[&[u32]; 3]) -> bool
    requires fits { L.fits size }
    requires first { length (L.letters first.now) ≡ size }
    requires second { length (L.letters second.now) ≡ size }
{
    is_of(alloc, size, first.meet(alloc, second), results[0])
        && is_of(alloc, size, first.join(alloc, second), results[1])
        && is_of(alloc, size, first.minus(alloc, second), results[2])
}

/// Whether the operations on the first set and that of the second letters have these results.
fn give_beside<L: LabelSet>(
    alloc: Global,
    size: u32,
    first: &L,
    second: &[u32],
    results: &[&[u32]; 3],
) -> bool
    requires fits { L.fits size }
    requires sized { length (L.letters first.now) ≡ size }
{
    let second: Result<L, AllocError> = set_of(alloc, size, second);
    match second {
        Ok(second) => give(alloc, size, first, &second, results),
        Err(_) => false,
    }
}

/// Whether the operations on the two sets of the case have its results.
fn holds<L: LabelSet>(alloc: Global, size: u32, case: &Case<'_>) -> bool
    requires { L.fits size }
{
    let (first, second, results) = case;
    let first: Result<L, AllocError> = set_of(alloc, size, first);
    match first {
        Ok(first) => give_beside(alloc, size, &first, second, results),
        Err(_) => false,
    }
}

/// Says of each case that it holds for sets of this size.
fn hold<L: LabelSet>(rt: &impl Abort, alloc: Global, size: u32, cases: &[Case<'_>])
    requires { L.fits size }
{
    for place in 0..cases.len() {
        assert!(rt;
            holds::<L>(alloc, size, &cases[place]),
            "size {size}, case {place}"
        );
    }
}

/// Whether a copy of the set to which these were added has the letters, which come in ascending order.
fn is_copied<L: LabelSet>(alloc: Global, size: u32, added: &[u32], letters: &[u32]) -> bool
    requires { L.fits size }
{
    let copy: Result<L, AllocError> = copy_of(alloc, size, added);
    is_of(alloc, size, copy, letters)
}

/// Cases with the first and the last letter of a word.
const WITH_ENDS: &[Case<'static>] = &[
    (&[0, 63], &[63], [&[63], &[0, 63], &[0]]),
    (&[0, 63], &[1], [&[], &[0, 1, 63], &[0, 63]]),
    (&[0, 63], &[0], [&[0], &[0, 63], &[63]]),
    (&[0], &[0], [&[0], &[0], &[]]),
];

/// Sets in one word hold its first and its last letter.
#[test]
fn sets_of_blocks(rt: HostRuntime) {
    hold::<BlockSet<1>>(&rt, rt.alloc(), 64, WITH_ENDS);
    assert!(rt; is_copied::<BlockSet<1>>(rt.alloc(), 64, &[0, 63], &[0, 63]));
}

/// Sets in several words hold letters past the first.
#[test]
fn sets_of_more_words(rt: HostRuntime) {
    let alloc = rt.alloc();
    assert!(rt; is_copied::<BlockSet<4>>(alloc, 256, &[255], &[255]));
    assert!(rt; is_copied::<BlockSet<16>>(alloc, 1_000, &[999, 64], &[64, 999]));
    assert!(rt; is_copied::<BlockSet<64>>(alloc, 4_096, &[4_095], &[4_095]));
}

/// Cases with the last of 5,000 letters.
const WITH_LAST: &[Case<'static>] = &[
    (&[4_999], &[], [&[], &[4_999], &[4_999]]),
    (&[4_999], &[4_999], [&[4_999], &[4_999], &[]]),
];

/// Wide sets hold the last of thousands of letters.
#[test]
fn wide_sets(rt: HostRuntime) {
    hold::<WideSet>(&rt, rt.alloc(), 5_000, WITH_LAST);
    assert!(rt; is_copied::<WideSet>(rt.alloc(), 5_000, &[4_999], &[4_999]));
}

/// Cases with the set of no letter. Where there are few letters a set is one word, and where there
/// are more it is several.
const WITH_NONE: &[Case<'static>] = &[
    (&[], &[], [&[], &[], &[]]),
    (&[], &[4], [&[], &[4], &[]]),
    (&[4], &[], [&[], &[4], &[4]]),
    (&[], &[3, 4], [&[], &[3, 4], &[]]),
];

/// Wide sets without a letter, of one word and of several.
#[test]
fn wide_sets_of_none(rt: HostRuntime) {
    hold::<WideSet>(&rt, rt.alloc(), 9, WITH_NONE);
    hold::<WideSet>(&rt, rt.alloc(), 90, WITH_NONE);
}

/// Cases with sets of one letter.
const WITH_ONE: &[Case<'static>] = &[
    (&[4], &[4], [&[4], &[4], &[]]),
    (&[4], &[2], [&[], &[2, 4], &[4]]),
    (&[4], &[3, 4], [&[4], &[3, 4], &[]]),
    (&[3, 4], &[3], [&[3], &[3, 4], &[4]]),
];

/// Wide sets of one letter, of one word and of several.
#[test]
fn wide_sets_of_one(rt: HostRuntime) {
    hold::<WideSet>(&rt, rt.alloc(), 9, WITH_ONE);
    hold::<WideSet>(&rt, rt.alloc(), 90, WITH_ONE);
}

/// Whether the set of letters 3 and 4 is another than that of 4.
fn is_another(alloc: Global) -> bool {
    let both: Result<WideSet, AllocError> = set_of(alloc, 90, &[3, 4]);
    match both {
        Ok(both) => !is_copy(alloc, 90, &both, &[4]) && is_copy(alloc, 90, &both, &[3, 4]),
        Err(_) => false,
    }
}

/// A case with a set that has one letter once the other is taken away.
const WITH_TWO: &[Case<'static>] = &[(&[3, 4], &[3], [&[3], &[3, 4], &[4]])];

/// A wide set that has one letter left is the same as one that never had more.
#[test]
fn wide_sets_of_one_letter_are_the_same(rt: HostRuntime) {
    hold::<WideSet>(&rt, rt.alloc(), 90, WITH_TWO);
    assert!(rt; is_another(rt.alloc()));
}

/// Cases with the first and the last letters of 64.
const OF_64: &[Case<'static>] = &[
    (&[0, 63], &[1, 63], [&[63], &[0, 1, 63], &[0]]),
    (&[63, 62], &[63, 62], [&[62, 63], &[62, 63], &[]]),
];

/// Cases with the letters of 3.
const OF_3: &[Case<'static>] = &[
    (&[0, 2], &[1, 2], [&[2], &[0, 1, 2], &[0]]),
    (&[2, 1], &[2, 1], [&[1, 2], &[1, 2], &[]]),
];

/// Wide sets in one word, full or not.
#[test]
fn wide_sets_of_a_word(rt: HostRuntime) {
    hold::<WideSet>(&rt, rt.alloc(), 64, OF_64);
    assert!(rt; is_copied::<WideSet>(rt.alloc(), 64, &[63, 62], &[62, 63]));
    hold::<WideSet>(&rt, rt.alloc(), 3, OF_3);
    assert!(rt; is_copied::<WideSet>(rt.alloc(), 3, &[2, 1], &[1, 2]));
}

/// Cases with the first and the last letters of 65.
const OF_65: &[Case<'static>] = &[
    (&[0, 64], &[1, 64], [&[64], &[0, 1, 64], &[0]]),
    (&[64, 63], &[64, 63], [&[63, 64], &[63, 64], &[]]),
];

/// Wide sets of one letter more than a word has.
#[test]
fn wide_sets_of_more_than_a_word(rt: HostRuntime) {
    hold::<WideSet>(&rt, rt.alloc(), 65, OF_65);
    assert!(rt; is_copied::<WideSet>(rt.alloc(), 65, &[64, 63], &[63, 64]));
}

/// Whether the symbols have these blocks, in their order.
fn has_blocks(partition: &Partition, blocks: &[u32]) -> bool
    requires each { length partition.now ≡ length blocks.now }
    requires few { length blocks.now ≤ 10 }
{
    for symbol in 0..blocks.len() {
        if partition.block_of(symbol as u32) != blocks[symbol] {
            return false;
        }
    }
    true
}

/// What splits one block of this many symbols.
fn splitter(alloc: Global, symbols: u32) -> Result<Splitter, AllocError>
    requires { 1 ≤ symbols }
    ensures { IfOk result (λ splitter. length splitter ≡ symbols) }
{
    let partition = Partition::new(alloc, symbols)?;
    Splitter::of(alloc, &partition)
}

/// One block of six symbols, from which 1 and 2 are set apart.
fn pair_apart(alloc: Global) -> Result<Partition, AllocError>
    ensures { IfOk result (λ partition. length partition ≡ 6) }
{
    let mut splitter = splitter(alloc, 6)?;
    splitter.split(alloc, &[1, 2])?;
    splitter.into_partition(alloc)
}

/// The blocks of six symbols, from which 2 is set apart.
fn second_apart(alloc: Global, partition: &Partition) -> Result<Partition, AllocError>
    requires { length partition.now ≡ 6 }
    ensures { IfOk result (λ partition. length partition ≡ 6) }
{
    let mut splitter = Splitter::of(alloc, partition)?;
    splitter.split(alloc, &[2])?;
    splitter.into_partition(alloc)
}

/// Whether symbol 2 is alone, and so is 1, once 2 is set apart from these.
fn is_parted(alloc: Global, partition: &Partition) -> bool
    requires { length partition.now ≡ 6 }
{
    match second_apart(alloc, partition) {
        Ok(parted) => {
            parted.blocks() == 3
                && has_blocks(&parted, &[0, 1, 2, 0, 0, 0])
                && parted.representative(0) == 0
                && parted.representative(2) == 2
        }
        Err(_) => false,
    }
}

/// Whether symbol 2 is alone once it is set apart from 1, in the partition with the pair.
fn pair_is_parted(alloc: Global) -> bool {
    match pair_apart(alloc) {
        Ok(partition) => is_parted(alloc, &partition),
        Err(_) => false,
    }
}

/// The number of blocks where no symbol is apart.
fn blocks_of_all(alloc: Global) -> Option<u32> {
    match Partition::new(alloc, 6) {
        Ok(partition) => Some(partition.blocks()),
        Err(_) => None,
    }
}

/// Whether each of three symbols stands alone in the finest partition.
fn is_finest(alloc: Global) -> bool {
    match Partition::finest(alloc, 3) {
        Ok(finest) => finest.blocks() == 3 && finest.representative(2) == 2,
        Err(_) => false,
    }
}

/// A split of a partition that has more blocks than one keeps the blocks in the order of their least
/// symbols.
#[test]
fn splits_a_pair(rt: HostRuntime) {
    assert_eq!(rt; blocks_of_all(rt.alloc()), Some(1));
    assert!(rt; pair_is_parted(rt.alloc()));
    assert!(rt; is_finest(rt.alloc()));
}

/// Whether the symbols have these blocks once more of them are set apart.
fn is_apart(alloc: Global, partition: &Partition, apart: &[u32], blocks: &[u32]) -> bool
    requires symbols { length partition.now ≡ 6 }
    requires apart { All (λ s. s < 6) apart.now }
    requires blocks { length blocks.now ≡ 6 }
{
    match partition.with_alone(alloc, apart) {
        Ok(partition) => has_blocks(&partition, blocks),
        Err(_) => false,
    }
}

/// Whether the symbols have these blocks once those of one list after the other are set apart.
fn is_apart_twice(
    alloc: Global,
    partition: &Partition,
    first: &[u32],
    second: &[u32],
    blocks: &[u32],
) -> bool
    requires symbols { length partition.now ≡ 6 }
    requires first { All (λ s. s < 6) first.now }
    requires second { All (λ s. s < 6) second.now }
    requires blocks { length blocks.now ≡ 6 }
{
    match partition.with_alone(alloc, first) {
        Ok(once) => is_apart(alloc, &once, second, blocks),
        Err(_) => false,
    }
}

/// Whether the symbols of the partition with the pair have these blocks once those of one list
/// after the other are set apart.
fn has_apart(alloc: Global, first: &[u32], second: &[u32], blocks: &[u32]) -> bool
    requires first { All (λ s. s < 6) first.now }
    requires second { All (λ s. s < 6) second.now }
    requires blocks { length blocks.now ≡ 6 }
{
    match pair_apart(alloc) {
        Ok(partition) => is_apart_twice(alloc, &partition, first, second, blocks),
        Err(_) => false,
    }
}

/// A symbol in the middle of its block is set apart.
#[test]
fn middle_apart(rt: HostRuntime) {
    assert!(rt; has_apart(rt.alloc(), &[3], &[], &[0, 1, 1, 2, 0, 0]));
}

/// The least symbol of its block is set apart, and the others have another number.
#[test]
fn least_apart(rt: HostRuntime) {
    assert!(rt; has_apart(rt.alloc(), &[0], &[], &[0, 1, 1, 2, 2, 2]));
}

/// Each symbol of a block is set apart, whatever the order and the repetitions.
#[test]
fn whole_block_apart(rt: HostRuntime) {
    assert!(rt; has_apart(rt.alloc(), &[2, 1, 2], &[], &[0, 1, 2, 0, 0, 0]));
}

/// Symbols are set apart from a partition that has some apart already.
#[test]
fn twice_apart(rt: HostRuntime) {
    assert!(rt; has_apart(rt.alloc(), &[0], &[3, 1], &[0, 1, 2, 3, 4, 4]));
}

/// Six symbols, of which 1 and 2 are split from the others, and then 2.
fn split(alloc: Global) -> Result<Partition, AllocError>
    ensures { IfOk result (λ partition. length partition ≡ 6) }
{
    let mut splitter = splitter(alloc, 6)?;
    splitter.split(alloc, &[2, 1, 2])?;
    splitter.split(alloc, &[2])?;
    splitter.into_partition(alloc)
}

/// Whether they have three blocks, in the order of their least symbols.
fn is_split(alloc: Global) -> bool {
    match split(alloc) {
        Ok(partition) => { partition.blocks() == 3 && has_blocks(&partition, &[0, 1, 2, 0, 0, 0]) }
        Err(_) => false,
    }
}

/// Splits, one after the other, set the members of each block apart from the others.
#[test]
fn splits(rt: HostRuntime) {
    assert!(rt; is_split(rt.alloc()));
}

/// Three symbols, of which 0 and 2 are split from 1 again and again.
fn split_often(alloc: Global) -> Result<Partition, AllocError>
    ensures { IfOk result (λ partition. length partition ≡ 3) }
{
    let mut splitter = splitter(alloc, 3)?;
    for _ in 0..20 {
        splitter.split(alloc, &[2, 0, 2])?;
    }
    splitter.into_partition(alloc)
}

/// Whether they have two blocks, however often they were split.
fn is_split_once(alloc: Global) -> bool {
    match split_often(alloc) {
        Ok(partition) => partition.blocks() == 2 && has_blocks(&partition, &[0, 1, 0]),
        Err(_) => false,
    }
}

/// Splits that change nothing go on past the pass in which the keys become the numbers of the
/// blocks again.
#[test]
fn splits_often(rt: HostRuntime) {
    assert!(rt; is_split_once(rt.alloc()));
}
