//! What the rows of a plan ask of a certificate that lists them.

ghost use Rattle.std.specs.Prelude.{Some, [], ◌∷◌, ◌++◌, codes, MatchOption, OnOk, option_copied, ◌≡◌, ◌≢◌, ℕ, ◌+◌, ◌<◌, ◌≤◌, All, IsSome, IsTrue, ◌↔◌, length, map};
ghost use Rattle.std.specs.List.{AllPairs, slice_get, slice_index_or};
ghost use Rattle.rela_names.specs.Name.{IsName};
ghost use Rattle.rela_flows.specs.declared.planning.PlannedRow.TheVariants.{Selected};
ghost use Rattle.rela_certfile.specs.Layout.{HasBounds, IsLayout, IsNamed, IsRowLine, check_names, row_line, shape_at};

use crate::lines::after_prefix;
use rela_flows::PlannedRow;
use rela_names::Name;
use std::alloc::AllocError;
use std::marker::Model;

/// What a check asks of its rows in a certificate. Contracts see it as a `Shape`.
#[derive(Drop)]
pub struct CheckShape<'a> {
    /// The name of the check.
    name: &'a Name,
    /// How many complements its two relations have together.
    complements: u32,
    /// The number that the symbols of a complement block are below.
    path_symbols: u32,
    /// The number that the symbols of an images block are below.
    symbols: u32,
}

impl<'a> Model for CheckShape<'a> {
    ghost use Rattle.std.specs.Prelude.{◌<◌, ◌^◌};
    ghost use Rattle.rela_names.specs.Name.{IsName};
    ghost use Rattle.rela_certfile.specs.Layout.{Shape};

    ghost Value = { Shape };

    ghost view = { λ check. record {
      name = check.name.now;
      complements = check.complements;
      path_symbols = check.path_symbols;
      symbols = check.symbols;
    } };

    ghost invariant = { λ check. IsName check.name.now × (check.path_symbols < 2 ^ 32)
        × (check.symbols < 2 ^ 32) };
}

impl<'a> CheckShape<'a> {
    /// What a check of this name asks: so many complement blocks, whose symbols are below
    /// `path_symbols`, and an images block, whose symbols are below `symbols`.
    pub fn new(name: &'a Name, complements: u32, path_symbols: u32, symbols: u32) -> CheckShape<'a>
        ensures name { result.name ≡ name.now }
        ensures complements { result.complements ≡ complements }
        ensures path_symbols { result.path_symbols ≡ path_symbols }
        ensures symbols { result.symbols ≡ symbols }
    {
        name.as_bytes();
        CheckShape {
            name,
            complements,
            path_symbols,
            symbols,
        }
    }

    /// How many complements the check's relations have.
    pub fn complements(&self) -> u32
        ensures { result ≡ self.now.complements }
    {
        self.complements
    }

    /// The number that the symbols of a complement block are below.
    pub fn path_symbols(&self) -> u32
        ensures { result ≡ self.now.path_symbols }
    {
        self.path_symbols
    }

    /// The number that the symbols of an images block are below.
    pub fn symbols(&self) -> u32
        ensures { result ≡ self.now.symbols }
    {
        self.symbols
    }

    /// The check has a name, and its bounds have 32 bits. The call does nothing, and its contract
    /// is this law.
    fn is_shape(&self)
        ensures name { IsName self.now.name }
        ensures bounds { HasBounds self.now }
    {
        let _ = &self.name;
    }
}

/// The rows of a plan, the names of its flows and what its checks ask. It tells which rows a
/// certificate may list, and how their lines read. Contracts see it as a `Layout`.
#[derive(Drop)]
pub struct PlanLayout<'a> {
    /// The planned rows, in order.
    planned: &'a [PlannedRow],
    /// The names of the flows, in the order by which the planned rows number them.
    flows: &'a [&'a Name],
    /// What the checks ask, in the order by which the planned rows number them.
    checks: &'a [CheckShape<'a>],
}

impl<'a> Model for PlanLayout<'a> {
    ghost use Rattle.std.specs.Prelude.{map};
    ghost use Rattle.rela_certfile.specs.Layout.{IsLayout, Layout};

    ghost Value = { Layout };

    ghost view = { λ layout. record {
      planned = layout.planned.now;
      flows = map (λ name. name.now) layout.flows.now;
      checks = layout.checks.now;
    } };

    ghost invariant = { λ layout. IsLayout (record {
      planned = layout.planned.now;
      flows = map (λ name. name.now) layout.flows.now;
      checks = layout.checks.now;
    }) };
}

impl<'a> PlanLayout<'a> {
    /// The layout of these planned rows, which differ, of the flows of these names, which differ,
    /// and of these checks, whose names differ. It takes no memory. Time: linear in the flows and
    /// the checks.
    pub fn new(
        planned: &'a [PlannedRow],
        flows: &'a [&'a Name],
        checks: &'a [CheckShape<'a>],
    ) -> PlanLayout<'a>
        requires rows_differ { AllPairs (λ a b. a ≢ b) planned.now }
        requires named { All (IsNamed (length flows.now) (length checks.now)) planned.now }
        requires flows_differ { AllPairs (λ a b. a ≢ b) (map (λ name. name.now) flows.now) }
        requires checks_differ { AllPairs (λ a b. a ≢ b) (check_names checks.now) }
        ensures planned { result.planned ≡ planned.now }
        ensures flows { result.flows ≡ map (λ name. name.now) flows.now }
        ensures checks { result.checks ≡ checks.now }
    {
        are_named(flows);
        are_shapes(checks);
        PlanLayout {
            planned,
            flows,
            checks,
        }
    }

    /// The planned rows, in order.
    pub fn planned(&self) -> &'a [PlannedRow]
        ensures { result.now ≡ self.now.planned }
    {
        self.planned
    }

    /// The rows, the flows and the checks are as [`new`](PlanLayout::new) wants them. The call does
    /// nothing, and its contract is this law.
    pub fn is_layout(&self)
        ensures { IsLayout self.now }
    {
        let _ = &self.planned;
    }

    /// What the check of this number asks, if there is one.
    fn check_at(&self, check: usize) -> Option<&CheckShape<'a>>
        ensures { option_copied result ≡ slice_get self.now.checks check }
    {
        self.checks.get(check)
    }

    /// The place behind that of a row that has a check.
    pub(crate) fn place_after(&self, place: usize) -> usize
        requires { IsSome (shape_at self.now place) }
        ensures { result ≡ place + 1 }
    {
        prove!(place < self.planned().len());
        place + 1
    }

    /// The flow and the check of the row at this place, or `None` where no planned row stands there
    /// or it has no check.
    fn checked(&self, place: usize) -> Option<(usize, usize)>
        ensures row { (flow check : ℕ) → (result ≡ Some (flow, check))
            ↔ (slice_get self.now.planned place ≡ Some (Selected flow check)) }
        ensures layout { IsLayout self.now }
    {
        match self.planned.get(place) {
            Some(PlannedRow::Selected { flow, check }) => Some((*flow, *check)),
            Some(PlannedRow::Unselected { .. }) => None,
            None => None,
        }
    }

    /// The name of the flow of this number.
    fn flow_name(&self, flow: usize) -> &[u8]
        requires { flow < length self.now.flows }
        ensures { result.now ≡ slice_index_or self.now.flows flow [] }
    {
        let flows = self.flows;
        flows[flow].as_bytes()
    }

    /// The name of the check of this number.
    fn check_name(&self, check: usize) -> &[u8]
        requires { check < length self.now.checks }
        ensures { result.now ≡ slice_index_or (check_names self.now.checks) check [] }
    {
        let checks = self.checks;
        let check = &checks[check];
        check.name.as_bytes()
    }

    /// What the check of the row at this place asks, or `None` where no planned row stands there or
    /// it has no check.
    pub(crate) fn shape(&self, place: usize) -> Option<&CheckShape<'a>>
        ensures { option_copied result ≡ shape_at self.now place }
    {
        match self.checked(place) {
            Some((_, check)) => self.check_at(check),
            None => None,
        }
    }

    /// The first place from this one on of a row that has a check and that the line names. Time:
    /// linear in the rows that are passed.
    pub(crate) fn find(&self, from: usize, line: &[u8]) -> Option<usize>
        ensures { MatchOption result
            ((place : ℕ) → from ≤ place → ¬ IsRowLine self.now place line.now)
            (λ place. (from ≤ place) × IsRowLine self.now place line.now) }
    {
        let names = after_prefix(line, b"row ")?;
        let count = self.planned().len();
        for place in from..count {
            if self.has_names(place, names) {
                return Some(place);
            }
        }
        None
    }

    /// Whether the row at this place has a check, and these are the names of its flow and of its
    /// check with a blank between them.
    fn has_names(&self, place: usize, names: &[u8]) -> bool
        ensures { IsTrue result ↔ IsRowLine self.now place (codes "row " ++ names.now) }
    {
        match self.checked(place) {
            Some((flow, check)) => {
                are_joined(names, self.flow_name(flow), self.check_name(check))
            }
            None => false,
        }
    }

    /// Appends the line that names the row at this place, which has a check, with its line feed.
    pub(crate) fn push_row_line(&self, text: &mut Vec<u8>, place: usize) -> Result<(), AllocError>
        requires { IsSome (shape_at self.now place) }
        ensures { OnOk result (text.new.items ≡ text.old.items
            ++ (row_line self.now place ++ 10 ∷ [])) }
    {
        if let Some((flow, check)) = self.checked(place) {
            text.extend_from_slice(b"row ")?;
            text.extend_from_slice(self.flow_name(flow))?;
            text.push(b' ')?;
            text.extend_from_slice(self.check_name(check))?;
            text.push(b'\n')?;
        }
        Ok(())
    }
}

/// Each of these is a name. The call does nothing but look at each, and its contract is this law.
fn are_named(flows: &[&Name])
    ensures { All IsName (map (λ name. name.now) flows.now) }
{
    for name in flows {
        name.as_bytes();
    }
}

/// Each of these checks has a name and bounds of 32 bits. The call does nothing but look at each,
/// and its contract is this law.
fn are_shapes(checks: &[CheckShape])
    ensures named { All IsName (check_names checks.now) }
    ensures bounds { All HasBounds checks.now }
{
    for check in checks {
        check.is_shape();
    }
}

/// Whether the text is the two parts with a blank between them.
fn are_joined(text: &[u8], first: &[u8], second: &[u8]) -> bool
    ensures { IsTrue result ↔ (text.now ≡ first.now ++ 32 ∷ second.now) }
{
    let Some(rest) = after_prefix(text, first) else {
        return false;
    };
    let Some(last) = after_prefix(rest, b" ") else {
        return false;
    };
    last == second
}
