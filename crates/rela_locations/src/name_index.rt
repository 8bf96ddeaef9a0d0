//! The symbols of locations, found by a hash of their names.

ghost use Rattle.std.specs.Prelude.{◌≡◌, ◌≢◌, ◌↔◌, ◌≤◌, ℕ, Some, slice_get, IfOk, IfNone, IfSome, IsTrue};
ghost use Rattle.std.specs.List.{All};

use rela_names::{Alphabet, Symbol};
use std::alloc::{AllocError, Global};
use std::marker::Model;

/// A place that points to no location.
const FREE: Symbol = 0xffff_ffff;

/// How many places of the table a name may stand at, from the one on that its hash picks.
const REACH: u32 = 16;

/// What a hash is multiplied by with each word, whose bits this spreads.
const FACTOR: u64 = 0x9e37_79b9_7f4a_7c15;

/// The locations of a level, found by a hash of their names. Contracts see it as the list of the
/// names, as they see the alphabet.
#[derive(Drop)]
pub(crate) struct NameIndex {
    /// The alphabet of the level, which has the only copy of the names.
    alphabet: Alphabet,
    /// A power of two of places, at least two for each name. Each is `FREE`, or has the symbol of a
    /// location whose hash picks it or one of the `REACH` - 1 places before it. Nothing rests on
    /// the table but how fast a name is found: a symbol counts only where the name stands that was
    /// looked for, and a name that the table doesn't tell is looked up in the alphabet.
    places: Vec<Symbol>,
}

impl Model for NameIndex {
    ghost use Rattle.std.specs.Prelude.{List, ℕ};
    ghost use Rattle.rela_names.specs.Alphabet.{IsAlphabet};

    ghost Value = { List (List ℕ) };

    ghost view = { λ index. index.alphabet };

    ghost invariant = { λ index. IsAlphabet index.alphabet };
}

impl NameIndex {
    /// The index of an alphabet's locations. Time: linear in the bytes of the names; space: at most
    /// 16 bytes for each name.
    ///
    /// # Errors
    ///
    /// Only where memory is wanted.
    pub(crate) fn new(alloc: Global, alphabet: Alphabet) -> Result<NameIndex, AllocError>
        ensures { IfOk result (λ index. index ≡ alphabet) }
    {
        let count = alphabet.len() - 2;
        let places = places_of(alloc, &alphabet, count)?;
        Ok(NameIndex { alphabet, places })
    }

    /// The alphabet of the level.
    pub(crate) fn alphabet(&self) -> &Alphabet
        ensures { result.now ≡ self.now }
    {
        &self.alphabet
    }

    /// The location of this name, and `None` where no location has it. Time: expected constant, and
    /// at most a binary search.
    pub(crate) fn find(&self, name: &[u8]) -> Option<Symbol>
        ensures found { (s : ℕ) → (result ≡ Some s) ↔ (slice_get self.now s ≡ Some name.now) }
        ensures absent { IfNone result (All (λ other. other ≢ name.now) self.now) }
    {
        match told(&self.alphabet, self.places.as_slice(), name) {
            Some(symbol) => Some(symbol),
            None => self.alphabet.find(name),
        }
    }

    /// The location of this name, and `None` where no location has it, as by
    /// [`find`](NameIndex::find). Time: one comparison, where the location is the one that is
    /// guessed.
    pub(crate) fn find_near(&self, name: &[u8], guess: Symbol) -> Option<Symbol>
        ensures found { (s : ℕ) → (result ≡ Some s) ↔ (slice_get self.now s ≡ Some name.now) }
        ensures absent { IfNone result (All (λ other. other ≢ name.now) self.now) }
    {
        if is_name_of(&self.alphabet, guess, name) {
            return Some(guess);
        }
        self.find(name)
    }
}

/// A table of places for the first `count` locations of an alphabet, with each location's symbol
/// where there is room for it. Time: linear in the bytes of the names.
fn places_of(alloc: Global, alphabet: &Alphabet, count: Symbol) -> Result<Vec<Symbol>, AllocError>
    requires { count ≤ 100000 }
{
    let size = (2 * count as usize).next_power_of_two();
    let mut places = vec![in alloc; FREE; size]?;
    for symbol in 0..count {
        if let Some(name) = alphabet.name_of(symbol) {
            put(&mut places, name.as_bytes(), symbol);
        }
    }
    Ok(places)
}

/// Puts the symbol at the first free place that its name may stand at, if there is one.
fn put(places: &mut [Symbol], name: &[u8], symbol: Symbol) {
    let mask = places.len().wrapping_sub(1);
    let mut at = hash_of(name);
    for _ in 0..REACH {
        if let Some(place) = places.get_mut(at & mask) {
            if *place == FREE {
                *place = symbol;
                return;
            }
        }
        at = at.wrapping_add(1);
    }
}

/// The location of this name, where the table tells it.
fn told(alphabet: &Alphabet, places: &[Symbol], name: &[u8]) -> Option<Symbol>
    ensures { IfSome result (λ symbol. slice_get alphabet.now symbol ≡ Some name.now) }
{
    let mask = places.len().wrapping_sub(1);
    let mut at = hash_of(name);
    for _ in 0..REACH {
        let Some(symbol) = places.get(at & mask) else {
            return None;
        };
        if *symbol == FREE {
            return None;
        }
        if is_name_of(alphabet, *symbol, name) {
            return Some(*symbol);
        }
        at = at.wrapping_add(1);
    }
    None
}

/// Whether the symbol is that of the location of this name.
fn is_name_of(alphabet: &Alphabet, symbol: Symbol, name: &[u8]) -> bool
    ensures { IsTrue result → slice_get alphabet.now symbol ≡ Some name.now }
{
    match alphabet.name_of(symbol) {
        Some(other) => other.as_bytes() == name,
        None => false,
    }
}

/// A hash of a name's bytes, which are taken eight at a time, and at last the last eight.
fn hash_of(name: &[u8]) -> usize {
    let hash = match name.last_chunk::<8>() {
        Some(last) => mixed(hash_of_words(name), u64::from_le_bytes(*last)),
        None => hash_of_bytes(name),
    };
    mixed(hash, 0) as usize
}

/// A hash of the words of eight bytes that a name begins with.
fn hash_of_words(name: &[u8]) -> u64 {
    let mut hash = name.len() as u64;
    let mut rest = name;
    'words: while let Some((word, more)) = rest.split_first_chunk::<8>() {
        hash = mixed(hash, u64::from_le_bytes(*word));
        rest = more;
    }
    hash
}

/// A hash of a short name, byte by byte.
fn hash_of_bytes(name: &[u8]) -> u64 {
    let mut hash = name.len() as u64;
    for byte in name {
        hash = mixed(hash, u64::from(*byte));
    }
    hash
}

/// The hash with one word more. The lower bits hang on all bits but the highest of the word, and on
/// these after one word more.
fn mixed(hash: u64, word: u64) -> u64 {
    let spread = (hash ^ word).wrapping_mul(FACTOR);
    spread ^ (spread >> 32)
}
