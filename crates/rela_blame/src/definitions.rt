//! The definitions of a specification, with the alternatives that they stand for.

ghost use Rattle.std.specs.Prelude.{◌≡◌, ℕ, ◌-◌, ◌^◌, ◌<◌, ◌++◌, List, IfNone, IfSome, OnOk, [], length, slice_get};
ghost use Rattle.std.specs.List.{All};
ghost use Rattle.rela_blame.specs.Alternatives.{with_name};
ghost use Rattle.rela_blame.specs.Leads.{IsBelow, alternatives, spread, value_at};
ghost use Rattle.rela_blame.specs.Tables.{AreLeads, IsFound, IsTable, capped, named_by, place_of, values_of};

use crate::leads::Lead;
use indexmap::IndexMap;
use std::alloc::{AllocError, Global};

/// A definition of a specification.
#[derive(Drop)]
pub(crate) struct Definition {
    /// Its alternatives, which name earlier definitions alone.
    pub(crate) leads: Vec<Lead>,
    /// How many alternatives these are, as far as a `usize` tells.
    pub(crate) count: usize,
}

/// The definitions so far, each with a number from 0 on.
#[derive(Drop)]
pub(crate) struct Definitions<'a> {
    /// The number of the last definition of each name.
    pub(crate) places: IndexMap<&'a [u8], usize>,
    /// Each definition, by its number.
    pub(crate) list: Vec<Definition>,
}

/// What is known of the alternative at a place.
#[derive(Clone, Copy)]
enum Sought {
    /// The offset of the `{` of its leftmost unit.
    Unit(u32),
    /// It is one of an earlier definition: the number of that, and how many of its alternatives
    /// stand before it.
    Within(usize, usize),
    /// There is no alternative at this place.
    Nowhere,
}

impl<'a> Definitions<'a> {
    /// No definitions.
    pub(crate) fn new(alloc: Global) -> Definitions<'a>
        ensures table { IsTable result }
        ensures names { (name : List ℕ) → named_by result name ≡ [] }
    {
        Definitions {
            places: IndexMap::new(alloc),
            list: Vec::new(alloc),
        }
    }

    /// The lead for the alternatives of the definition that the name stands for, or `None` where
    /// there are none.
    pub(crate) fn lead(&self, name: &[u8]) -> Option<Lead>
        requires { IsTable self.now }
        ensures some { IfSome result (λ lead. named_by self.now name.now
            ≡ alternatives (values_of self.now.list.items) lead) }
        ensures known { IfSome result (λ lead.
            IsBelow (values_of self.now.list.items) (length self.now.list.items) lead) }
        ensures none { IfNone result (named_by self.now name.now ≡ []) }
    {
        match self.place(name) {
            Some(number) => self.lead_of(number),
            None => None,
        }
    }

    /// The number of the definition that the name stands for.
    fn place(&self, name: &[u8]) -> Option<usize>
        ensures { result ≡ place_of self.now name.now }
    {
        self.places.get(name).copied()
    }

    /// The lead for the alternatives of the definition with this number, or `None` where there are
    /// none.
    fn lead_of(&self, number: usize) -> Option<Lead>
        requires table { IsTable self.now }
        requires inside { number < length self.now.list.items }
        ensures some { IfSome result (λ lead. value_at (values_of self.now.list.items) number
            ≡ alternatives (values_of self.now.list.items) lead) }
        ensures known { IfSome result (λ lead.
            IsBelow (values_of self.now.list.items) (length self.now.list.items) lead) }
        ensures none { IfNone result (value_at (values_of self.now.list.items) number ≡ []) }
    {
        if self.list[number].count == 0 {
            None
        } else {
            Some(Lead::Every(number))
        }
    }

    /// Adds the definition with these alternatives, for which the name stands from here on. The
    /// only error is want of memory.
    pub(crate) fn define(&mut self, name: &'a [u8], leads: Vec<Lead>) -> Result<(), AllocError>
        requires table { IsTable self.old }
        requires leads { AreLeads self.old leads.items }
        ensures table { OnOk result (IsTable self.new) }
        ensures names { OnOk result ((other : List ℕ) → named_by self.new other
            ≡ with_name name.now (spread (values_of self.old.list.items) leads.items)
            (named_by self.old) other) }
    {
        let number = self.list.len();
        let count = self.count(leads.as_slice());
        self.list.push(Definition { leads, count })?;
        self.places.insert(name, number)?;
        Ok(())
    }

    /// How many alternatives these are, as far as a `usize` tells. Time: linear in the leads.
    fn count(&self, leads: &[Lead]) -> usize
        requires table { IsTable self.now }
        requires leads { AreLeads self.now leads.now }
        ensures { result ≡ capped (length (spread (values_of self.now.list.items) leads.now)) }
    {
        let mut count: usize = 0;
        for lead in leads {
            count = count.saturating_add(self.count_of(lead));
        }
        count
    }

    /// How many alternatives the lead stands for, as far as a `usize` tells.
    fn count_of(&self, lead: &Lead) -> usize
        requires table { IsTable self.now }
        requires lead { IsBelow (values_of self.now.list.items)
            (length self.now.list.items) lead.now }
        ensures { result ≡ capped (length (alternatives (values_of self.now.list.items) lead.now)) }
    {
        match lead {
            Lead::Unit(_) | Lead::First(_) => 1,
            Lead::Every(number) => self.list[*number].count,
        }
    }

    /// The offset of the `{` of the leftmost unit of the alternative before which so many stand;
    /// `None` where there is no such alternative. Time: linear in all definitions.
    pub(crate) fn unit_at(&self, leads: &[Lead], before: usize) -> Option<u32>
        requires table { IsTable self.now }
        requires leads { AreLeads self.now leads.now }
        requires within { before < 2 ^ 64 - 1 }
        ensures { result ≡ slice_get (spread (values_of self.now.list.items) leads.now) before }
    {
        let mut sought = self.seek(leads, before);
        while let Sought::Within(number, before) = sought {
            sought = self.seek(self.list[number].leads.as_slice(), before);
        }
        match sought {
            Sought::Unit(at) => Some(at),
            Sought::Within(_, _) | Sought::Nowhere => None,
        }
    }

    /// What the leads themselves tell of the alternative before which so many stand. Time: linear
    /// in the leads.
    fn seek(&self, leads: &[Lead], before: usize) -> Sought
        requires table { IsTable self.now }
        requires leads { AreLeads self.now leads.now }
        requires within { before < 2 ^ 64 - 1 }
        ensures { (bound : ℕ) → All (IsBelow (values_of self.now.list.items) bound) leads.now →
            IsFound (values_of self.now.list.items) bound
            (slice_get (spread (values_of self.now.list.items) leads.now) before) result }
    {
        let mut left = before;
        for lead in leads {
            let count = self.count_of(lead);
            if left < count {
                return inside(lead, left);
            }
            left -= count;
        }
        Sought::Nowhere
    }
}

/// The alternative of the lead before which so many of it stand.
fn inside(lead: &Lead, before: usize) -> Sought
    ensures { (values : List (List ℕ)) (bound : ℕ) → IsBelow values bound lead.now →
        before < length (alternatives values lead.now) → before < 2 ^ 64 - 1 →
        (others : List ℕ) →
        IsFound values bound (slice_get (alternatives values lead.now ++ others) before) result }
{
    match lead {
        Lead::Unit(at) => Sought::Unit(*at),
        Lead::Every(number) | Lead::First(number) => Sought::Within(*number, before),
    }
}
