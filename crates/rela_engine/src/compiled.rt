//! Checks compiled under a limit of states, once for all flows.
ghost use Rattle.std.specs.Prelude.{◌≡◌, ◌≢◌, ◌≤◌, ◌<◌, ◌↔◌, IfOk, IfErr, IfSome, IfNone};
ghost use Rattle.std.specs.Prelude.{ℕ, List, IsTrue, IsFalse, IsSome, Some, None, All, length};
ghost use Rattle.std.specs.Option.{ForSome};
ghost use Rattle.rela_graph.specs.Topology.{Topology};
ghost use Rattle.rela_labels.specs.Partition.{block_count};
ghost use Rattle.rela_names.specs.Alphabet.{path_symbols};
ghost use Rattle.rela_translate.specs.Zones.{Before, After};
ghost use Rattle.rela_blocks.specs.Blocks.{AreBlocks};
ghost use Rattle.rela_engine.specs.Compilation.{AreRelations, IsCompiled, MustPassLimit, PassesLimit};
ghost use Rattle.rela_engine.specs.Differing.{AreDifferences, SamePairsOn};
ghost use Rattle.rela_engine.specs.Reading.{Realises};
ghost use Rattle.rela_engine.specs.RowOf.{MustBeOpen};
ghost use Rattle.rela_blocks.specs.Scenes.{lettering_of, paths_of};
ghost use Rattle.rela_engine.specs.Sides.{SamePairs, TreatsSidesAlike};

use crate::differing::{Differing, compare_relations};
use crate::laws::relations_tell_of_open_rows;
use crate::limits::pass_stop;
use crate::relation::relation_of;
use crate::relations::Relations;
use crate::sides::treats_sides_alike;
use rela_blocks::{check_blocks, check_letters, named_symbols_are_alone};
use rela_build::{Letters, Stop};
use rela_complement::LimitedComplements;
use rela_labels::{Partition, WideSet};
use rela_names::{Alphabet, Level};
use rela_trans::Transducer;
use rela_translate::{Check, translate};
use std::alloc::{AllocError, Global};
use std::marker::Model;

/// A check with its two relations as transducers, made once for all flows under a limit of states. Their
/// letters are blocks of the check's symbols: the path symbols of its level, and its markers. Contracts
/// see it as a `Compilation`.
#[derive(Drop)]
pub struct Compiled<'a> {
    /// The check.
    check: &'a Check,
    /// The number of locations of the check's level.
    locations: u32,
    /// How many states a construction may have.
    states: usize,
    /// The blocks of the check's symbols.
    blocks: Partition,
    /// Its two relations; `None` where a construction in them passed the limit.
    relations: Option<Relations>,
    /// Whether no unit of the check asks for a change.
    alike: bool,
    /// Where its relations differ; `None` where they serve both sides, are too large to be compared,
    /// or weren't made.
    differing: Option<Differing>,
}

impl<'a> Model for Compiled<'a> {
    ghost use Rattle.std.specs.Prelude.{◌↔◌, IsTrue};
    ghost use Rattle.std.specs.Option.{ForSome};
    ghost use Rattle.rela_engine.specs.Compilation.{Compilation, IsCompiled};
    ghost use Rattle.rela_engine.specs.Differing.{AreDifferences};
    ghost use Rattle.rela_engine.specs.Sides.{TreatsSidesAlike};
    ghost use Rattle.rela_translate.specs.Zones.{Before, After};

    ghost Value = { Compilation };

    ghost use Rattle.std.specs.Coded.{codes};
    ghost use Rattle.rela_translate.specs.contracts.checks.Check as check_type;

    ghost coded = { Prim.hlevel (codes, check_type.the_row.coded) };

    ghost view = { λ c. record {
      check = c.check.now;
      locations = c.locations;
      states = c.states;
      blocks = c.blocks;
      relations = c.relations;
    } };

    ghost invariant = { λ c. IsCompiled (record {
      check = c.check.now;
      locations = c.locations;
      states = c.states;
      blocks = c.blocks;
      relations = c.relations;
    }) × (IsTrue c.alike ↔ TreatsSidesAlike c.check.now.body)
        × ForSome c.differing (AreDifferences c.blocks
        (Before c.check.now.classes c.locations c.check.now.body)
        (After c.check.now.classes c.locations c.check.now.body)) };
}

/// The check compiled under the alphabet of its level, of which its class table lists path symbols
/// alone. Each construction in its relations may have at most `states` states. The only error is
/// want of memory.
///
/// Time and space: those of the constructions, each of at most `states` states, and of the symbols
/// and the members of the class table.
pub fn compile<'a>(
    alloc: Global,
    check: &'a Check,
    alphabet: &Alphabet,
    states: usize,
) -> Result<Compiled<'a>, AllocError>
    requires classes { All (λ set. All (λ s. s < path_symbols alphabet.now) set.members)
        check.now.classes }
    requires some { 1 ≤ states }
    ensures check { IfOk result (λ compiled. compiled.check ≡ check.now) }
    ensures locations { IfOk result (λ compiled. compiled.locations ≡ length alphabet.now) }
    ensures states { IfOk result (λ compiled. compiled.states ≡ states) }
    ensures compiled { IfOk result IsCompiled }
{
    let blocks = check_blocks(alloc, check, alphabet)?;
    let relations = relations_over(alloc, check, alphabet, &blocks, states)?;
    let alike = treats_sides_alike(check.body());
    let locations = alphabet.drop_symbol();
    let differing = differing_of(alloc, check, locations, states, &blocks, &relations)?;
    Ok(Compiled {
        check,
        locations,
        states,
        blocks,
        relations,
        alike,
        differing,
    })
}

/// Where the check's relations differ; `None` where there are none, one serves both sides, or they are
/// too large to be compared.
fn differing_of(
    alloc: Global,
    check: &Check,
    locations: u32,
    states: usize,
    blocks: &Partition,
    relations: &Option<Relations>,
) -> Result<Option<Differing>, AllocError>
    requires { IsCompiled (record {
      check = check.now;
      locations = locations;
      states = states;
      blocks = blocks.now;
      relations = relations.now;
    }) }
    ensures { IfOk result (λ found. ForSome found (AreDifferences blocks.now
        (Before check.now.classes locations check.now.body)
        (After check.now.classes locations check.now.body))) }
{
    if treats_sides_alike(check.body()) {
        return Ok(None);
    }
    match relations {
        Some(relations) => sides_differ(alloc, check, locations, states, blocks, relations),
        None => Ok(None),
    }
}

/// Where these relations of the check differ; `None` where they are too large to be compared.
fn sides_differ(
    alloc: Global,
    check: &Check,
    locations: u32,
    states: usize,
    blocks: &Partition,
    relations: &Relations,
) -> Result<Option<Differing>, AllocError>
    requires { AreRelations (record {
      check = check.now;
      locations = locations;
      states = states;
      blocks = blocks.now;
      relations = Some relations.now;
    }) relations.now }
    ensures { IfOk result (λ found. ForSome found (AreDifferences blocks.now
        (Before check.now.classes locations check.now.body)
        (After check.now.classes locations check.now.body))) }
{
    let before = relations.before();
    let after = relations.after();
    compare_relations(alloc, before.small(), after.small(), blocks)
}

/// The check's relations over the blocks of its symbols, and `None` where a construction in them passes
/// the limit.
fn relations_over(
    alloc: Global,
    check: &Check,
    alphabet: &Alphabet,
    blocks: &Partition,
    states: usize,
) -> Result<Option<Relations>, AllocError>
    requires blocks { AreBlocks check.now (length alphabet.now) blocks.now }
    requires listed { All (λ set. All (λ s. s < path_symbols alphabet.now) set.members)
        check.now.classes }
    requires some { 1 ≤ states }
    ensures { IfOk result (λ relations. IsCompiled (record {
      check = check.now;
      locations = length alphabet.now;
      states = states;
      blocks = blocks.now;
      relations = relations;
    })) }
{
    let letters = check_letters(alloc, check, alphabet, blocks)?;
    match built(alloc, check, alphabet, &letters, states) {
        Ok(relations) => Ok(Some(relations)),
        Err(stop) => {
            pass_stop(stop)?;
            Ok(None)
        }
    }
}

/// The check's relations over these letters, of which complements of equal parts are made once. Where
/// it treats both sides alike, one serves both.
///
/// # Errors
///
/// - `Limit` and `Refused` only where the check passes the limit.
/// - `Memory` where there isn't memory.
fn built(
    alloc: Global,
    check: &Check,
    alphabet: &Alphabet,
    letters: &Letters<'_>,
    states: usize,
) -> Result<Relations, Stop>
    requires letters { letters.now ≡ lettering_of check.now (length alphabet.now)
        letters.now.blocks }
    requires blocks { AreBlocks check.now (length alphabet.now) letters.now.blocks }
    requires some { 1 ≤ states }
    ensures made { IfOk result (λ relations. AreRelations (record {
      check = check.now;
      locations = length alphabet.now;
      states = states;
      blocks = letters.now.blocks;
      relations = Some relations;
    }) relations) }
    ensures past { IfErr result (λ e. e ≢ Stop.Memory → PassesLimit (record {
      check = check.now;
      locations = length alphabet.now;
      states = states;
      blocks = letters.now.blocks;
      relations = None;
    })) }
{
    named_symbols_are_alone();
    // By what each check keeps, its terms name drop and its markers alone, and no location.
    let body = check.body();
    let terms = translate(alloc, check, alphabet)?;
    let complements = LimitedComplements::new(alloc, states);
    let before = relation_of(alloc, &terms.before, letters, &complements, states)?;
    if treats_sides_alike(body) {
        return Ok(Relations::new(before, None));
    }
    let after = relation_of(alloc, &terms.after, letters, &complements, states)?;
    Ok(Relations::new(before, Some(after)))
}

impl<'a> Compiled<'a> {
    /// The check.
    pub fn check(&self) -> &Check
        ensures { result.now ≡ self.now.check }
    {
        self.check
    }

    /// How finely its locations are told apart.
    pub fn level(&self) -> Level
        ensures { result ≡ self.now.check.level }
    {
        self.check.level()
    }

    /// Whether only paths that come new offend, and not those that are missing.
    pub(crate) fn at_most(&self) -> bool
        ensures { result ≡ self.now.check.at_most }
    {
        self.check.at_most()
    }

    /// The number of locations of its level.
    pub(crate) fn locations(&self) -> u32
        ensures { result ≡ self.now.locations }
    {
        self.locations
    }

    /// How many states a construction may have, which is at least one.
    pub fn states(&self) -> usize
        ensures states { result ≡ self.now.states }
        ensures some { 1 ≤ result }
    {
        self.states
    }

    /// Whether both relations could be made under the limit. Where they could not, some counted
    /// term in them has more reached places than the limit; and they could not where a complement
    /// in them has a part that tells more words than that. So where they could no flow has to be left
    /// open.
    pub fn complete(&self) -> bool
        ensures made { IsTrue result ↔ IsSome self.now.relations }
        ensures past { IsFalse result → PassesLimit self.now }
        ensures within { IsTrue result → ¬ MustPassLimit self.now }
        ensures unforced { IsTrue result → (names : List (List ℕ)) (before after : Topology) →
            ¬ MustBeOpen self.now.check self.now.locations
            (paths_of self.now.check.level names before after) self.now.states }
    {
        relations_tell_of_open_rows();
        self.relations.is_some()
    }

    /// Whether it treats both sides of a change alike: no unit of it asks for a change, so that its two
    /// relations have the same pairs.
    pub fn treats_sides_alike(&self) -> bool
        ensures units { IsTrue result ↔ TreatsSidesAlike self.now.check.body }
        ensures relations { IsTrue result →
            SamePairs (Before self.now.check.classes self.now.locations self.now.check.body)
            (After self.now.check.classes self.now.locations self.now.check.body) }
    {
        self.alike
    }

    /// Whether its two relations have the same pairs among those whose first word has symbols of
    /// these blocks alone. Where it is false nothing is told: they may be too large to be compared,
    /// or the same pairs come about otherwise. The only error is want of memory.
    pub(crate) fn same_on(&self, alloc: Global, inputs: &[u32]) -> Result<bool, AllocError>
        requires { All (λ k. k < block_count self.now.blocks) inputs.now }
        ensures { IfOk result (λ same. IsTrue same → SamePairsOn self.now.blocks inputs.now
            (Before self.now.check.classes self.now.locations self.now.check.body)
            (After self.now.check.classes self.now.locations self.now.check.body)) }
    {
        match &self.differing {
            Some(differing) => differing.none_on(alloc, inputs),
            None => Ok(false),
        }
    }

    /// The blocks of its symbols. Two symbols share one where they are one symbol, or locations that
    /// the class table does not tell apart.
    pub fn blocks(&self) -> &Partition
        ensures blocks { result.now ≡ self.now.blocks }
        ensures together { AreBlocks self.now.check self.now.locations self.now.blocks }
    {
        &self.blocks
    }

    /// The relation that the paths before the change are seen through, by the transducer that is
    /// made small for many walks.
    pub fn before(&self) -> &Transducer<WideSet>
        requires complete { IsSome self.now.relations }
        ensures before { ForSome self.now.relations (λ relations. result.now
            ≡ relations.before.small) }
        ensures relation { Realises self.now.blocks
            (Before self.now.check.classes self.now.locations self.now.check.body) result.now }
    {
        match &self.relations {
            Some(relations) => {
                let before = relations.before();
                before.small()
            }
            None => unreachable!(),
        }
    }

    /// The relation that the paths after the change are seen through, by the transducer that is
    /// made small for many walks.
    pub fn after(&self) -> &Transducer<WideSet>
        requires complete { IsSome self.now.relations }
        ensures after { ForSome self.now.relations (λ relations. result.now
            ≡ relations.after.small) }
        ensures relation { Realises self.now.blocks
            (After self.now.check.classes self.now.locations self.now.check.body) result.now }
    {
        match &self.relations {
            Some(relations) => {
                let after = relations.after();
                after.small()
            }
            None => unreachable!(),
        }
    }

    /// The transducers of both relations, as they were built and made small; `None` where they
    /// could not be made under the limit.
    pub(crate) fn relations(&self) -> Option<&Relations>
        ensures some { IfSome result (λ relations. self.now.relations ≡ Some relations.now) }
        ensures none { IfNone result (self.now.relations ≡ None) }
        ensures made { IfSome result (λ relations. AreRelations self.now relations.now) }
        ensures past { IfNone result (PassesLimit self.now) }
    {
        self.relations.as_ref()
    }
}
