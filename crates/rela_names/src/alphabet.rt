//! The alphabet of one level: which symbol is which location, `drop`, `loop` or marker, and the
//! texts of words.

ghost use Rattle.std.specs.Prelude.{◌≡◌, ◌≢◌, ℕ, ◌+◌, ◌-◌, ◌<◌, ◌≤◌, ◌↔◌, IfOk, IfNone, IfSome, length, slice_get, ◌++◌};
ghost use Rattle.std.specs.Fmt.{decimal};
ghost use Rattle.std.specs.List.{All};
ghost use Rattle.std.specs.Option.{option_copied};
ghost use Rattle.rela_names.specs.Alphabet.{IsAlphabet, path_symbols};
ghost use Rattle.rela_names.specs.Symbol.{Location, Drop, Loop, Marker, SymbolOrder, meaning_of, word_text, symbol_text};

use crate::name::Name;
use crate::word::Symbol;
use std::alloc::{AllocError, Global};
use std::marker::Model;

/// The greatest number of locations of one level.
pub const MAX_LOCATIONS: usize = 100_000;

/// The greatest number of markers.
pub const MAX_MARKERS: u32 = 20_000;

/// The symbols of one level. They are numbered from 0: the locations in the order of their names by
/// bytes, then `drop`, then `loop`, then the markers `#1`, `#2` and so on. All but the markers are
/// the path symbols. Contracts see it as the list of the location names.
#[derive(Debug, Drop)]
pub struct Alphabet {
    /// The names of the locations, strictly ascending by their bytes. The symbol of a location is
    /// the index of its name.
    names: Vec<Name>,
}

impl Model for Alphabet {
    ghost use Rattle.std.specs.Prelude.{List, ℕ};
    ghost use Rattle.rela_names.specs.Alphabet.{IsAlphabet};

    ghost Value = { List (List ℕ) };

    ghost view = { λ alphabet. alphabet.names.items };

    ghost invariant = { λ alphabet. IsAlphabet alphabet.names.items };
}

impl Alphabet {
    /// The alphabet of these locations, of which there are at most [`MAX_LOCATIONS`], strictly
    /// ascending by bytes.
    pub fn new(names: Vec<Name>) -> Alphabet
        requires { IsAlphabet names.items }
        ensures { result ≡ names.items }
    {
        Alphabet { names }
    }

    /// Smaller numbers stand for earlier symbols: the locations come in the order of their names by
    /// bytes, then `drop`, `loop` and the markers in the order of their numbers. The call does
    /// nothing, and its contract is this law.
    pub fn symbols_are_in_order(&self)
        ensures { (s t : ℕ) → s < t → SymbolOrder (meaning_of self.now s) (meaning_of self.now t) }
    {
        let _ = &self.names;
    }

    /// How many path symbols there are: the locations, `drop` and `loop`.
    pub fn len(&self) -> u32
        ensures len { result ≡ length self.now + 2 }
        ensures alphabet { IsAlphabet self.now }
    {
        self.names.len() as u32 + 2
    }

    /// The symbol `drop`, which ends a path where traffic is dropped.
    pub fn drop_symbol(&self) -> Symbol
        ensures number { result ≡ length self.now }
        ensures meaning { meaning_of self.now result ≡ Drop }
    {
        self.len() - 2
    }

    /// The symbol `loop`, which ends a path that never leaves a cycle.
    pub fn loop_symbol(&self) -> Symbol
        ensures number { result ≡ length self.now + 1 }
        ensures meaning { meaning_of self.now result ≡ Loop }
    {
        self.len() - 1
    }

    /// The symbol of the marker `#k`. Markers are numbered from 1.
    pub fn marker(&self, k: u32) -> Symbol
        requires positive { 1 ≤ k }
        requires few { k ≤ MAX_MARKERS }
        ensures number { result ≡ length self.now + 1 + k }
        ensures meaning { meaning_of self.now result ≡ Marker k }
    {
        self.len() + k - 1
    }

    /// The name of a location, and `None` for any other symbol.
    pub fn name_of(&self, symbol: Symbol) -> Option<&Name>
        ensures name { option_copied result ≡ slice_get self.now symbol }
        ensures meaning { IfSome result (λ name. meaning_of self.now symbol ≡ Location name.now) }
    {
        self.names.get(symbol as usize)
    }

    /// The location of this name, and `None` where no location has it. Time: a binary search,
    /// logarithmic in the number of locations.
    pub fn find(&self, name: &[u8]) -> Option<Symbol>
        ensures found { (s : ℕ) → (result ≡ Some s) ↔ (slice_get self.now s ≡ Some name.now) }
        ensures absent { IfNone result (All (λ other. other ≢ name.now) self.now) }
    {
        match self
            .names
            .binary_search_by(|other| other.as_bytes().cmp(name))
        {
            Ok(at) => Some(at as u32),
            Err(_) => None,
        }
    }

    /// The texts of the symbols with one blank between two, and `()` for the empty word. A
    /// location's text is its name, and the others' are `drop`, `loop` and `#k`. Time and space:
    /// linear in the text.
    ///
    /// # Errors
    ///
    /// Only where memory is wanted.
    pub fn text_of(&self, alloc: Global, word: &[Symbol]) -> Result<Vec<u8>, AllocError>
        requires { All (λ s. s < path_symbols self.now + MAX_MARKERS) word.now }
        ensures { IfOk result (λ text. text.items ≡ word_text self.now word.now) }
    {
        let mut text = Vec::new(alloc);
        let Some((first, others)) = word.split_first() else {
            text.extend_from_slice(b"()")?;
            return Ok(text);
        };
        self.push_symbol(&mut text, *first)?;
        for symbol in others {
            text.push(b' ')?;
            self.push_symbol(&mut text, *symbol)?;
        }
        Ok(text)
    }

    /// Appends the text of one symbol.
    fn push_symbol(&self, text: &mut Vec<u8>, symbol: Symbol) -> Result<(), AllocError>
        requires { symbol < path_symbols self.now + MAX_MARKERS }
        ensures { IfOk result (λ _. text.new.items ≡ text.old.items
            ++ symbol_text self.now symbol) }
    {
        if let Some(name) = self.name_of(symbol) {
            text.extend_from_slice(name.as_bytes())
        } else if symbol == self.drop_symbol() {
            text.extend_from_slice(b"drop")
        } else if symbol == self.loop_symbol() {
            text.extend_from_slice(b"loop")
        } else {
            text.push(b'#')?;
            push_decimal(text, symbol - self.loop_symbol())
        }
    }
}

/// Appends the number in decimal digits, the first of which is 0 only for the number 0.
fn push_decimal(text: &mut Vec<u8>, n: u32) -> Result<(), AllocError>
    ensures { IfOk result (λ _. text.new.items ≡ text.old.items ++ decimal n) }
{
    if n >= 10 {
        push_decimal(text, n / 10)?;
    }
    text.push(b'0' + (n % 10) as u8)?;
    Ok(())
}
