//! Checks: what has to hold between the paths before and after a change, for some flows.

ghost use Rattle.std.specs.Prelude.{◌≡◌};
ghost use Rattle.std.specs.List.{All};
ghost use Rattle.rela_translate.specs.Checked.{IsCheck, markers_of};
ghost use Rattle.rela_translate.specs.Settings.{IsMarker};

use crate::body::Core;
use rela_flows::Predicate;
use rela_names::{Level, Name};
use rela_rir::SymbolSet;
use std::marker::Model;

/// What has to hold between the paths before and after a change, for some flows. Contracts see it as
/// the record of its parts. Each class of its body names an entry of the class table, and its markers
/// are numbered 1, 2 and so on from left to right; the depth of its predicate and of the terms of its
/// two relations is at most 1,000, and those have together at most 20,000 nodes.
#[derive(Drop)]
pub struct Check {
    /// The name that the check's rows are reported under.
    name: Name,
    /// How finely its locations are told apart.
    level: Level,
    /// Which flows it is for.
    when: Predicate,
    /// Whether only paths that come new offend, and not those that are missing.
    at_most: bool,
    /// The class table: the sets of path symbols that its body names by their places, from 0.
    classes: Vec<SymbolSet>,
    /// What is asked for.
    body: Core,
}

impl Model for Check {
    ghost use Rattle.rela_translate.specs.Checked.{Checked};
    ghost use Rattle.rela_translate.specs.Parts.{parts, IsWhole};
    ghost use Rattle.std.specs.Coded.{codes};
    ghost use Rattle.rela_flows.specs.contracts.predicate.Predicate as predicate_type;
    ghost use Rattle.rela_translate.specs.contracts.body.Core as core_type;

    ghost Value = { Checked };

    ghost coded = { Prim.hlevel (codes, predicate_type.the_row.coded, core_type.the_row.coded) };

    ghost view = { parts };

    ghost invariant = { IsWhole };
}

impl Check {
    /// The check of these parts, which are what a check keeps. The expansion of specifications alone
    /// calls it.
    pub fn new(
        name: Name,
        level: Level,
        when: Predicate,
        at_most: bool,
        classes: Vec<SymbolSet>,
        body: Core,
    ) -> Check
        requires { IsCheck (record {
          name = name;
          level = level;
          when = when;
          at_most = at_most;
          classes = classes.items;
          body = body;
        }) }
        ensures { result ≡ record {
          name = name;
          level = level;
          when = when;
          at_most = at_most;
          classes = classes.items;
          body = body;
        } }
    {
        Check {
            name,
            level,
            when,
            at_most,
            classes,
            body,
        }
    }

    /// The name that the check's rows are reported under.
    pub fn name(&self) -> &Name
        ensures { result.now ≡ self.now.name }
    {
        &self.name
    }

    /// How finely its locations are told apart.
    pub fn level(&self) -> Level
        ensures { result ≡ self.now.level }
    {
        self.level
    }

    /// Which flows it is for.
    pub fn when(&self) -> &Predicate
        ensures { result.now ≡ self.now.when }
    {
        &self.when
    }

    /// Whether only paths that come new offend, and not those that are missing.
    pub fn at_most(&self) -> bool
        ensures { result ≡ self.now.at_most }
    {
        self.at_most
    }

    /// The sets of path symbols that its body names.
    pub fn classes(&self) -> &[SymbolSet]
        ensures { result.now ≡ self.now.classes }
    {
        self.classes.as_slice()
    }

    /// What is asked for.
    #[tactic(auto, using(crate::proofs::Markers::check_is_marked))]
    pub fn body(&self) -> &Core
        ensures body { result.now ≡ self.now.body }
        ensures check { IsCheck self.now }
        ensures markers { All IsMarker (markers_of self.now.body) }
    {
        &self.body
    }
}
