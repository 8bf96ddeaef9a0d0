//! Transducers, their operations, their images, and how they are relabelled, pruned and shortened.

ghost use Rattle.std.specs.Prelude.{◌≡◌, IfOk};

use crate::three_letters::{
    Letters, Question, Table, class, has, hold, is_past_limit, is_so_of_classes,
};
use rela_labels::{LabelSet, Partition};
use rela_nfa::Nfa;
use rela_trans::{MoveKind, Transducer, are_letters, image};
use std::alloc::{AllocError, Global};

/// Transducers whose sets of letters are [`Letters`].
type Machine = Transducer<Letters>;

/// How a transducer is made of one that reads letter 0 and writes letter 1, and of one that reads a
/// letter and writes it again.
enum Form {
    /// The first itself.
    Turned,
    /// The first, with what is read and what is written exchanged.
    Inverse,
    /// Any number of the first.
    Star,
    /// The one or the other.
    Union,
    /// The one and then the other, behind it.
    Concat,
    /// The other reads what the one writes.
    Compose,
}

/// Whether the transducer has the pair of words: whether the image of the first word has the second.
/// `None` where a number that is read is no letter, or there is no memory to tell.
fn are_related(alloc: Global, machine: &Machine, u: &[u32], v: &[u32]) -> Option<bool> {
    if !are_letters(u, machine.letters()) {
        return None;
    }
    match Nfa::word(alloc, machine.letters(), u) {
        Ok(word) => has(alloc, image(alloc, &word, machine, 100), v),
        Err(_) => None,
    }
}

/// Whether the transducer has the pair of words, where it was made, and `None` where it wasn't or
/// there is no memory to tell.
fn has_pair<E: Drop>(
    alloc: Global,
    made: Result<Machine, E>,
    u: &[u32],
    v: &[u32],
) -> Option<bool> {
    match made {
        Ok(machine) => are_related(alloc, &machine, u, v),
        Err(_) => None,
    }
}

/// Whether the transducer that is made so, where the second of the two keeps this letter, has the
/// pair of words, or not: the form, the letter, the word that is read, the one that is written, and
/// whether they are related.
struct Relates<'a>(Form, u32, &'a [u32], &'a [u32], bool);

impl Relates<'_> {
    /// Whether the transducer that is made so of these two has the pair of words, and `None` where
    /// there is no memory to tell.
    fn found(&self, alloc: Global, turned: Machine, kept: Machine) -> Option<bool>
        requires turned { turned.letters ≡ 3 }
        requires kept { kept.letters ≡ 3 }
    {
        let Relates(form, _, u, v, _) = self;
        match form {
            Form::Turned => are_related(alloc, &turned, u, v),
            Form::Inverse => has_pair(alloc, turned.inverse(alloc), u, v),
            Form::Star => has_pair(alloc, turned.into_star(alloc), u, v),
            Form::Union => has_pair(alloc, turned.into_union(alloc, kept), u, v),
            Form::Concat => has_pair(alloc, turned.into_concat(alloc, kept), u, v),
            Form::Compose => has_pair(alloc, turned.compose(alloc, &kept, 100), u, v),
        }
    }

    /// Whether the answer is yes where this is the first of the two.
    fn is_so_of(&self, alloc: Global, turned: Machine) -> bool
        requires { turned.letters ≡ 3 }
    {
        match keeping(alloc, self.1) {
            Ok(kept) => self.found(alloc, turned, kept) == Some(self.4),
            Err(_) => false,
        }
    }
}

/// The transducer that reads this letter and writes it again.
fn keeping(alloc: Global, letter: u32) -> Result<Machine, AllocError>
    ensures { IfOk result (λ machine. machine.letters ≡ 3) }
{
    let letter = class(alloc, &[letter])?;
    Transducer::identity(alloc, &letter)
}

impl Question for Relates<'_> {
    fn is_so(&self, alloc: Global, zero: &Table, one: &Table) -> bool {
        match Transducer::product(alloc, zero, one) {
            Ok(turned) => self.is_so_of(alloc, turned),
            Err(_) => false,
        }
    }
}

/// Questions about the first transducer and its inverse.
const OF_LETTERS: &[Relates<'static>] = &[
    Relates(Form::Turned, 0, &[0], &[1], true),
    Relates(Form::Turned, 0, &[0], &[0], false),
    Relates(Form::Turned, 0, &[0], &[3], false),
    Relates(Form::Inverse, 0, &[1], &[0], true),
    Relates(Form::Inverse, 0, &[0], &[1], false),
];

/// A product relates the words that it should, and its inverse those turned round; a number that is
/// no letter is never written.
#[test]
fn pairs_of_letters(rt: HostRuntime) {
    hold(&rt, rt.alloc(), &[0], &[1], OF_LETTERS);
}

/// Questions about stars, unions and concatenations.
const OF_WORDS: &[Relates<'static>] = &[
    Relates(Form::Star, 0, &[0, 0], &[1, 1], true),
    Relates(Form::Star, 0, &[], &[], true),
    Relates(Form::Star, 0, &[0, 0], &[1], false),
    Relates(Form::Union, 0, &[0], &[0], true),
    Relates(Form::Union, 0, &[0], &[1], true),
    Relates(Form::Concat, 0, &[0, 0], &[1, 0], true),
    Relates(Form::Concat, 0, &[0, 0], &[0, 1], false),
];

/// Stars, unions and concatenations relate just the pairs of words that they should.
#[test]
fn pairs_of_words(rt: HostRuntime) {
    hold(&rt, rt.alloc(), &[0], &[1], OF_WORDS);
}

/// Questions about compositions.
const COMPOSED: &[Relates<'static>] = &[
    Relates(Form::Compose, 1, &[0], &[1], true),
    Relates(Form::Compose, 0, &[0], &[1], false),
];

/// A composition relates words where the second transducer reads what the first writes.
#[test]
fn letters_in_the_middle(rt: HostRuntime) {
    hold(&rt, rt.alloc(), &[0], &[1], COMPOSED);
}

/// Whether the word is written where letter 0 is read and turned into letter 1, or not: the word,
/// and whether it is.
struct Written<'a>(&'a [u32], bool);

impl Question for Written<'_> {
    fn is_so(&self, alloc: Global, zero: &Table, one: &Table) -> bool {
        match Transducer::product(alloc, zero, one) {
            Ok(turned) => has(alloc, image(alloc, zero, &turned, 100), self.0) == Some(self.1),
            Err(_) => false,
        }
    }
}

/// Questions about the image of the word 0.
const OF_ZERO: &[Written<'static>] = &[
    Written(&[1], true),
    Written(&[0], false),
    Written(&[], false),
];

/// An image accepts just the words that are written.
#[test]
fn images(rt: HostRuntime) {
    hold(&rt, rt.alloc(), &[0], &[1], OF_ZERO);
}

/// That one pair of states isn't enough for the image.
struct MorePairs;

impl Question for MorePairs {
    fn is_so(&self, alloc: Global, zero: &Table, one: &Table) -> bool {
        match Transducer::product(alloc, zero, one) {
            Ok(turned) => is_past_limit(image(alloc, zero, &turned, 1)),
            Err(_) => false,
        }
    }
}

/// An image ends at its limit on pairs of states.
#[test]
fn an_image_of_too_many_pairs(rt: HostRuntime) {
    assert!(rt; is_so_of_classes(rt.alloc(), &[0], &[1], &MorePairs));
}

/// The words of one letter of one block alone.
fn any(alloc: Global) -> Result<Table, AllocError>
    ensures { IfOk result (λ nfa. nfa.letters ≡ 1) }
{
    let mut set = Letters::none(alloc, 1)?;
    set.add(alloc, 0)?;
    Nfa::class(alloc, 1, &set)
}

/// The transducer that reads the one letter and writes it again.
fn keeping_any(alloc: Global) -> Result<Machine, AllocError>
    ensures { IfOk result (λ machine. machine.letters ≡ 1) }
{
    let any = any(alloc)?;
    Transducer::identity(alloc, &any)
}

/// The same over three letters, each a block, where it was over their one block.
fn split(alloc: Global, machine: &Machine) -> Result<Machine, AllocError>
    requires { machine.now.letters ≡ 1 }
{
    let coarse = Partition::new(alloc, 3)?;
    let fine = Partition::finest(alloc, 3)?;
    machine.relabel(alloc, &coarse, &fine)
}

/// Whether some move out of the state where it starts reads and writes the letter.
fn keeps(machine: &Machine, letter: u32) -> bool {
    for edge in machine.moves(machine.start()) {
        if let MoveKind::Same(set) = &edge.kind {
            if set.contains(letter) {
                return true;
            }
        }
    }
    false
}

/// Whether it keeps each of three letters, by two states.
fn is_split(machine: &Machine) -> bool {
    machine.letters() == 3 && machine.states() == 2 && keeps(machine, 2) && !keeps(machine, 3)
}

/// Whether what keeps one letter alone is split so.
fn is_split_of(alloc: Global, any: &Machine) -> bool
    requires { any.now.letters ≡ 1 }
{
    match split(alloc, any) {
        Ok(split) => keeps(any, 0) && !keeps(any, 2) && is_split(&split),
        Err(_) => false,
    }
}

/// Whether what keeps the one letter of one block is split so.
fn is_block_split(alloc: Global) -> bool {
    match keeping_any(alloc) {
        Ok(any) => is_split_of(alloc, &any),
        Err(_) => false,
    }
}

/// A transducer over one block of three letters keeps, over three blocks, each of them.
#[test]
fn one_block_split(rt: HostRuntime) {
    assert!(rt; is_block_split(rt.alloc()));
}

/// Whether some move leaves the state.
fn leads_on(machine: &Machine, q: usize) -> bool {
    q < machine.states() && !machine.moves(q).is_empty()
}

/// Whether some move leads from the one state to the other.
fn leads_to(machine: &Machine, q: usize, to: usize) -> bool {
    if q < machine.states() {
        for edge in machine.moves(q) {
            if edge.to == to {
                return true;
            }
        }
    }
    false
}

/// The transducer that reads any letter by the states 0 and 1, and then writes any by the states 2
/// and 3, over one block.
fn turning_any(alloc: Global) -> Result<Machine, AllocError>
    ensures { IfOk result (λ machine. machine.letters ≡ 1) }
{
    let any = any(alloc)?;
    Transducer::product(alloc, &any, &any)
}

/// The machine over three letters, for those words that the sources have.
fn split_for(alloc: Global, machine: &Machine, sources: &Table) -> Result<Machine, AllocError>
    requires machine { machine.now.letters ≡ 1 }
    requires sources { sources.now.letters ≡ 3 }
{
    let coarse = Partition::new(alloc, 3)?;
    let fine = Partition::finest(alloc, 3)?;
    machine.relabel_reached(alloc, sources, &coarse, &fine)
}

/// What turns any letter, for the words of the sources.
fn of_sources(alloc: Global, sources: &Table) -> Result<Machine, AllocError>
    requires { sources.now.letters ≡ 3 }
{
    let machine = turning_any(alloc)?;
    split_for(alloc, &machine, sources)
}

/// Whether all four states are there, and letter 1 is turned into letter 2, even once it is pruned.
fn is_whole(alloc: Global, machine: Machine) -> bool {
    machine.states() == 4
        && leads_on(&machine, 2)
        && are_related(alloc, &machine, &[1], &[2]) == Some(true)
        && has_pair(alloc, machine.pruned(alloc), &[1], &[2]) == Some(true)
}

/// That the states which the words of the sources reach are there.
struct Read;

impl Question for Read {
    fn is_so(&self, alloc: Global, sources: &Table, _other: &Table) -> bool {
        match of_sources(alloc, sources) {
            Ok(machine) => is_whole(alloc, machine),
            Err(_) => false,
        }
    }
}

/// A transducer that is relabelled for some sources keeps the states that these reach.
#[test]
fn states_that_are_read(rt: HostRuntime) {
    assert!(rt; is_so_of_classes(rt.alloc(), &[1], &[0], &Read));
}

/// Whether no move leaves where it starts once it is pruned.
fn is_pruned_away(alloc: Global, machine: Machine) -> bool {
    match machine.pruned(alloc) {
        Ok(pruned) => !leads_on(&pruned, 0),
        Err(_) => false,
    }
}

/// Whether all four states are there, but nothing leads on from state 2, and so from none once it is
/// pruned.
fn leads_nowhere(alloc: Global, machine: Machine) -> bool {
    machine.states() == 4
        && leads_on(&machine, 0)
        && !leads_on(&machine, 2)
        && is_pruned_away(alloc, machine)
}

/// What turns any letter, for the empty word alone.
fn of_no_letter(alloc: Global) -> Result<Machine, AllocError> {
    let sources = Table::empty_word(alloc, 3)?;
    of_sources(alloc, &sources)
}

/// Whether what turns any letter leads nowhere for the empty word alone.
fn no_letter_leads_nowhere(alloc: Global) -> bool {
    match of_no_letter(alloc) {
        Ok(machine) => leads_nowhere(alloc, machine),
        Err(_) => false,
    }
}

/// A transducer that is relabelled for the empty word alone has no moves where only a letter leads.
#[test]
fn states_that_no_source_reaches(rt: HostRuntime) {
    assert!(rt; no_letter_leads_nowhere(rt.alloc()));
}

/// Whether it goes from state 0 to 2 at once, and still turns letter 0 into letter 1.
fn goes_straight(alloc: Global, short: &Machine) -> bool {
    leads_to(short, 0, 2)
        && !leads_to(short, 0, 1)
        && are_related(alloc, short, &[0], &[1]) == Some(true)
}

/// Whether the machine goes straight once it is shortened.
fn is_straight_when_short(alloc: Global, machine: Machine) -> bool {
    match machine.shortened(alloc) {
        Ok(short) => goes_straight(alloc, &short),
        Err(_) => false,
    }
}

/// The detour of a machine that reads from state 0 to 1, goes on silently to 2, and writes from 2 to 3.
struct Detour;

impl Question for Detour {
    fn is_so(&self, alloc: Global, zero: &Table, one: &Table) -> bool {
        match Transducer::product(alloc, zero, one) {
            Ok(turned) => leads_to(&turned, 0, 1) && is_straight_when_short(alloc, turned),
            Err(_) => false,
        }
    }
}

/// A shortened transducer passes no state with a silent move alone, and relates the same words.
#[test]
fn detours_left_out(rt: HostRuntime) {
    assert!(rt; is_so_of_classes(rt.alloc(), &[0], &[1], &Detour));
}
