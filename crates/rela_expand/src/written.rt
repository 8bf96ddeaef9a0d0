//! Classes as they are written, wherever in the text that is.

ghost use Rattle.std.specs.Prelude.{◌≡◌, ℕ, IfOk, map};
ghost use Rattle.std.specs.List.{list_any};
ghost use Rattle.rela_locations.specs.Network.{Network};
ghost use Rattle.rela_locations.specs.Tables.{has_number};
ghost use Rattle.rela_expand.specs.Known.{class_of, picked};
ghost use Rattle.rela_expand.specs.Numbered.{listing, named_by};

use crate::members::by_level;
use indexmap::IndexSet;
use rela_locations::By;
use rela_names::{Level, Name};
use rela_spec::Member;
use std::alloc::{AllocError, Global};

/// What a member picks, wherever it stands in the text.
#[derive(Clone, Copy, PartialEq, Eq, Hash)]
pub(crate) enum Pick<'a> {
    /// The locations within what the name picks.
    Within(By, &'a Name),
    /// The symbol `drop`.
    Drop,
    /// The symbol `loop`.
    Loop,
}

/// A class as it is written.
#[derive(PartialEq, Eq, Hash, Drop)]
pub(crate) struct Written<'a> {
    /// Whether the class is all path symbols but those that are picked.
    pub(crate) negated: bool,
    /// What the members pick, each once and in the order of the text.
    pub(crate) picks: Vec<Pick<'a>>,
}

impl<'a> Written<'a> {
    /// The class of these members, in time linear in their text. The only error is want of memory.
    pub(crate) fn new(
        alloc: Global,
        level: Level,
        negated: bool,
        members: &'a [Member],
    ) -> Result<Written<'a>, AllocError>
        ensures { (network : Network) → IfOk result (λ written.
            class_of (record { network = network; level = level }) written
            ≡ listing (record { network = network; level = level }) negated members.now) }
    {
        let picks = distinct(alloc, level, members)?;
        let picks = Vec::from_slice(alloc, picks.as_slice())?;
        Ok(Written { negated, picks })
    }
}

/// What the members pick, each once and in their order.
fn distinct<'a>(
    alloc: Global,
    level: Level,
    members: &'a [Member],
) -> Result<IndexSet<Pick<'a>>, AllocError>
    ensures { (network : Network) (n : ℕ) → IfOk result (λ picks.
        list_any (λ list. has_number list n)
        (map (picked (record { network = network; level = level })) picks.keys)
        ≡ list_any (λ list. has_number list n)
        (map (named_by (record { network = network; level = level })) members.now)) }
{
    let mut picks = IndexSet::new(alloc);
    for member in members {
        picks.insert(picked_by(level, member))?;
    }
    Ok(picks)
}

/// What the member picks.
#[tactic(auto, unfolding(crate::specs::Places::symbols_of))]
fn picked_by<'a>(level: Level, member: &'a Member) -> Pick<'a>
    ensures { (network : Network) → picked (record { network = network; level = level }) result
        ≡ named_by (record { network = network; level = level }) member.now }
{
    match member {
        Member::Here { name, .. } => Pick::Within(by_level(level), name),
        Member::Within { by, name, .. } => Pick::Within(*by, name),
        Member::Drop => Pick::Drop,
        Member::Loop => Pick::Loop,
    }
}
