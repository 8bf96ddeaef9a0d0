//! Where the words of path expressions and of zones lead in one word.
ghost use Rattle.std.specs.Prelude.{◌≡◌, ℕ, ◌+◌, ◌<◌, ◌↔◌, Contains, IfOk, IsTrue, List, MatchBool, length};
ghost use Rattle.rela_rir.specs.Meaning.{IsPathWord};
ghost use Rattle.rela_translate.specs.Lang.{Lang};
ghost use Rattle.rela_translate.specs.Zones.{Either, Paths, Zone, path_symbols, unit_meaning};
ghost use Rattle.rela_branches.specs.Places.{AllBelow, AreBelow, AreKept, AreNext, Each, EachOfTwo, Has};
ghost use Rattle.rela_branches.specs.Walks.{IsBefore, IsLed, IsLetter, IsStep, singles};

use crate::each::{copied_each, joined_each, kept_each, next_each, reached_each, singles};
use crate::letters::Letter;
use rela_names::{List, Symbol};
use rela_rir::SymbolSet;
use rela_translate::{Change, Core, Expr};
use std::alloc::{AllocError, Global};

/// A word, and what expressions are read in. The only error of its calls is want of memory.
#[derive(Clone, Copy)]
pub(crate) struct Walk<'a> {
    /// The class table that expressions name entries of.
    pub(crate) classes: &'a [SymbolSet],
    /// How many locations there are, which is the number of `drop`.
    pub(crate) locations: u32,
    /// The word.
    pub(crate) word: &'a [Symbol],
}

impl<'a> Walk<'a> {
    /// How many places the word has: one before each symbol, and one behind them all.
    fn bound(&self) -> usize
        ensures { result ≡ length self.now.word.now + 1 }
    {
        self.word.len() + 1
    }

    /// Whether the symbol is one of the letter. Time: logarithmic in the class.
    fn is_letter(&self, letter: Letter, symbol: Symbol) -> bool
        ensures { IsTrue result ↔ IsLetter self.now.classes.now
            (path_symbols self.now.locations) letter symbol }
    {
        match letter {
            Letter::Class(entry) => match self.classes.get(entry as usize) {
                Some(set) => self.is_path(symbol) && has_member(set, symbol),
                None => false,
            },
            Letter::One(other) => symbol == other,
            Letter::Path => self.is_path(symbol),
        }
    }

    /// Whether it is a path symbol.
    fn is_path(&self, symbol: Symbol) -> bool
        ensures { IsTrue result ↔ (symbol < path_symbols self.now.locations) }
    {
        symbol < self.locations || symbol - self.locations < 2
    }

    /// Whether a symbol of the letter is behind the place.
    fn is_before(&self, letter: Letter, place: usize) -> bool
        ensures before { IsTrue result ↔ IsBefore self.now.classes.now
            (path_symbols self.now.locations) self.now.word.now letter place }
        ensures inside { IsTrue result → place < length self.now.word.now }
    {
        match self.word.get(place) {
            Some(symbol) => self.is_letter(letter, *symbol),
            None => false,
        }
    }

    /// The places behind the symbols of the letter that are behind these places.
    fn step(&self, alloc: Global, letter: Letter, from: &[usize]) -> Result<List<usize>, AllocError>
        requires { AreBelow (length self.now.word.now + 1) from.now }
        ensures { IfOk result (IsStep self.now.classes.now (path_symbols self.now.locations)
            self.now.word.now letter from.now) }
    {
        let mut to = Vec::new(alloc);
        for place in from {
            if self.is_before(letter, *place) {
                to.push(*place + 1)?;
            }
        }
        Ok(List::from_vec(to))
    }

    /// The same for each of the sets.
    fn step_each(
        &self,
        alloc: Global,
        letter: Letter,
        from: &[List<usize>],
    ) -> Result<Vec<List<usize>>, AllocError>
        requires { AllBelow (length self.now.word.now + 1) from.now }
        ensures { IfOk result (λ to. Each (IsStep self.now.classes.now
            (path_symbols self.now.locations) self.now.word.now letter) from.now to.items) }
    {
        let mut to = Vec::with_capacity(alloc, from.len())?;
        for set in from {
            to.push(self.step(alloc, letter, set.as_slice())?)?;
        }
        Ok(to)
    }

    /// The places that words of path symbols lead to, from each place.
    fn path_rows(&self, alloc: Global) -> Result<Vec<List<usize>>, AllocError>
        ensures { IfOk result (λ rows. Each (IsLed self.now.word.now
            (IsPathWord (path_symbols self.now.locations)))
            (singles (length self.now.word.now + 1)) rows.items) }
    {
        let each = singles(alloc, self.bound())?;
        let rows = self.step_each(alloc, Letter::Path, each.as_slice())?;
        reached_each(alloc, rows.as_slice(), each.as_slice())
    }

    /// The places that words of the expression lead to, from each of the sets.
    ///
    /// Time: where the expression has no repetition, meet or complement, linear in its nodes times
    /// the places of the word, for each set. Those three first ask where their parts lead from each
    /// place alone. So each node is gone through once, and takes time and space at most cubic in
    /// the word's length. It goes as deep into the stack as the expression.
    pub(crate) fn ends(
        &self,
        alloc: Global,
        path: &Expr,
        from: &[List<usize>],
    ) -> Result<Vec<List<usize>>, AllocError>
        requires { AllBelow (length self.now.word.now + 1) from.now }
        ensures { IfOk result (λ to. Each (IsLed self.now.word.now (Lang self.now.classes.now
            (path_symbols self.now.locations) path.now)) from.now to.items) }
    {
        match path {
            Expr::Empty => copied_each(alloc, from),
            Expr::Class(entry) => self.step_each(alloc, Letter::Class(*entry), from),
            Expr::Seq(a, b) => {
                let middle = self.ends(alloc, a.get(), from)?;
                self.ends(alloc, b.get(), middle.as_slice())
            }
            Expr::Alt(a, b) => {
                let first = self.ends(alloc, a.get(), from)?;
                let second = self.ends(alloc, b.get(), from)?;
                joined_each(alloc, self.bound(), first.as_slice(), second.as_slice())
            }
            Expr::Meet(a, b) => {
                let each = singles(alloc, self.bound())?;
                let first = self.ends(alloc, a.get(), each.as_slice())?;
                let second = self.ends(alloc, b.get(), each.as_slice())?;
                next_of_kept(alloc, true, first.as_slice(), second.as_slice(), from)
            }
            Expr::Not(part) => {
                let each = singles(alloc, self.bound())?;
                let rows = self.ends(alloc, part.get(), each.as_slice())?;
                let paths = self.path_rows(alloc)?;
                next_of_kept(alloc, false, paths.as_slice(), rows.as_slice(), from)
            }
            Expr::Star(part) => {
                let each = singles(alloc, self.bound())?;
                let rows = self.ends(alloc, part.get(), each.as_slice())?;
                reached_each(alloc, rows.as_slice(), from)
            }
        }
    }

    /// The places that words of the body's zone lead to, from each of the sets. Time and stack are
    /// those of [`Walk::ends`].
    pub(crate) fn zone_ends(
        &self,
        alloc: Global,
        body: &Core,
        from: &[List<usize>],
    ) -> Result<Vec<List<usize>>, AllocError>
        requires { AllBelow (length self.now.word.now + 1) from.now }
        ensures { IfOk result (λ to. Each (IsLed self.now.word.now (Zone self.now.classes.now
            self.now.locations body.now)) from.now to.items) }
    {
        match body {
            Core::Unit { zone, modifier } => self.unit_ends(alloc, zone, modifier, from),
            Core::Then(a, b) => {
                let middle = self.zone_ends(alloc, a.get(), from)?;
                self.zone_ends(alloc, b.get(), middle.as_slice())
            }
            Core::Else(a, b) => {
                let first = self.zone_ends(alloc, a.get(), from)?;
                let second = self.zone_ends(alloc, b.get(), from)?;
                joined_each(alloc, self.bound(), first.as_slice(), second.as_slice())
            }
        }
    }

    /// The same for the zone of a unit, to which the paths that its modifier brings in belong too.
    fn unit_ends(
        &self,
        alloc: Global,
        zone: &Expr,
        modifier: &Change,
        from: &[List<usize>],
    ) -> Result<Vec<List<usize>>, AllocError>
        requires { AllBelow (length self.now.word.now + 1) from.now }
        ensures { IfOk result (λ to. Each (IsLed self.now.word.now (unit_meaning
            self.now.classes.now self.now.locations (Paths self.now.classes.now
            self.now.locations zone.now) modifier.now).zone) from.now to.items) }
    {
        match modifier {
            Change::Preserve | Change::Remove(_) | Change::Ignore(_) => {
                self.ends(alloc, zone, from)
            }
            Change::Add(path) | Change::Replace(_, path) => self.either_ends(
                alloc, zone, path, from,
            ),
            Change::AnyOf { path, .. } => self.either_ends(alloc, zone, path, from),
            Change::Drop => {
                let spoken = self.ends(alloc, zone, from)?;
                let dropped = self.step_each(alloc, Letter::One(self.locations), from)?;
                joined_each(alloc, self.bound(), spoken.as_slice(), dropped.as_slice())
            }
        }
    }

    /// The same for the words of either expression.
    fn either_ends(
        &self,
        alloc: Global,
        first: &Expr,
        second: &Expr,
        from: &[List<usize>],
    ) -> Result<Vec<List<usize>>, AllocError>
        requires { AllBelow (length self.now.word.now + 1) from.now }
        ensures { IfOk result (λ to. Each (IsLed self.now.word.now (Either
            (Paths self.now.classes.now self.now.locations first.now)
            (Paths self.now.classes.now self.now.locations second.now))) from.now to.items) }
    {
        let first = self.ends(alloc, first, from)?;
        let second = self.ends(alloc, second, from)?;
        joined_each(alloc, self.bound(), first.as_slice(), second.as_slice())
    }

    /// Whether the word is in the zone of the body.
    pub(crate) fn is_in_zone(&self, alloc: Global, body: &Core) -> Result<bool, AllocError>
        ensures { IfOk result (λ is. IsTrue is ↔ Zone self.now.classes.now self.now.locations
            body.now self.now.word.now) }
    {
        let start = singles(alloc, 1)?;
        let ends = self.zone_ends(alloc, body, start.as_slice())?;
        Ok(has_place(ends[0].as_slice(), self.word.len()))
    }
}

/// Whether the symbol is one that the set lists, or, where the set is negated, none of those. Time:
/// logarithmic in the members.
fn has_member(set: &SymbolSet, symbol: Symbol) -> bool
    ensures { IsTrue result ↔ MatchBool set.now.negated (¬ Contains set.now.members symbol)
        (Contains set.now.members symbol) }
{
    set.members.as_slice().binary_search(&symbol).is_ok() != set.negated
}

/// Whether the place is in the set.
fn has_place(places: &[usize], place: usize) -> bool
    ensures { IsTrue result ↔ Has places.now place }
{
    places.contains(&place)
}

/// The places that the rows of places of a set have, where of the rows of the first list only those
/// places count that the second list's row has, if `common` is true, or else those that it hasn't.
fn next_of_kept(
    alloc: Global,
    common: bool,
    first: &[List<usize>],
    second: &[List<usize>],
    from: &[List<usize>],
) -> Result<Vec<List<usize>>, AllocError>
    requires length { length second.now ≡ length first.now }
    requires first { AllBelow (length first.now) first.now }
    requires second { AllBelow (length first.now) second.now }
    requires from { AllBelow (length first.now) from.now }
    ensures { IfOk result (λ to. (rows : List (List ℕ)) × EachOfTwo (AreKept (length first.now)
        common) first.now second.now rows × Each (AreNext rows) from.now to.items) }
{
    let rows = kept_each(alloc, first.len(), common, first, second)?;
    next_each(alloc, rows.as_slice(), from)
}
