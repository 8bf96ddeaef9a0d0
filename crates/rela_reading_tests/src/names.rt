//! Names, alphabets and words.

ghost use Rattle.std.specs.Prelude.{◌≡◌, [], IfOk, length};

use rela_names::{Alphabet, Boxed, List, Name, NameError, Word};
use std::alloc::{AllocError, Global};
use std::test::Fail;

/// Whether the name has these bytes, and so has its copy.
fn is_copied(alloc: Global, name: &Name, text: &[u8]) -> bool {
    match name.copy(alloc) {
        Ok(copy) => name.as_bytes() == text && copy == *name,
        Err(_) => false,
    }
}

/// Why the bytes are no name.
fn fault(alloc: Global, text: &[u8]) -> Option<NameError> {
    match Name::from_bytes(alloc, text) {
        Ok(name) if is_copied(alloc, &name, text) => None,
        Ok(_) => Some(NameError::Memory),
        Err(error) => Some(error),
    }
}

/// Why they are no name of a location.
fn location_fault(alloc: Global, text: &[u8]) -> Option<NameError> {
    Name::location(alloc, text).err()
}

/// Bytes, and why they are no name, and no name of a location.
const NAMES: &[(&[u8], [Option<NameError>; 2])] = &[
    (b"r1:ge-0/0/1.7_Z", [None, None]),
    (&[b'a'; 64], [None, None]),
    (b"drops", [None, None]),
    (b"drop", [None, Some(NameError::Reserved)]),
    (b"loop", [None, Some(NameError::Reserved)]),
    (b"", [Some(NameError::Bad), Some(NameError::Bad)]),
    (&[b'a'; 65], [Some(NameError::Bad), Some(NameError::Bad)]),
    (b"r 1", [Some(NameError::Bad), Some(NameError::Bad)]),
    (b"r#1", [Some(NameError::Bad), Some(NameError::Bad)]),
];

/// Whether these are the faults of the bytes.
fn has_faults(alloc: Global, text: &[u8], faults: &[Option<NameError>; 2]) -> bool {
    fault(alloc, text) == faults[0] && location_fault(alloc, text) == faults[1]
}

#[test]
fn takes_names(rt: HostRuntime) {
    for (text, faults) in NAMES {
        assert!(rt; has_faults(rt.alloc(), text, faults), "{text:?}");
    }
}

/// Whether the first name is less than the second, and another.
fn is_less(alloc: Global, first: &[u8], second: &[u8]) -> bool {
    match (
        Name::from_bytes(alloc, first),
        Name::from_bytes(alloc, second),
    ) {
        (Ok(first), Ok(second)) => first < second && first != second,
        _ => false,
    }
}

#[test]
fn compares_names_by_bytes(rt: HostRuntime) {
    assert!(rt; is_less(rt.alloc(), b"r10", b"r2"));
    assert!(rt; is_less(rt.alloc(), b"R3", b"r10"));
}

/// The alphabet of r1 and r4.
fn two_routers(alloc: Global) -> Result<Alphabet, NameError>
    ensures { IfOk result (λ names. length names ≡ 2) }
{
    let first = Name::location(alloc, b"r1")?;
    let second = Name::location(alloc, b"r4")?;
    let mut names = Vec::new(alloc);
    names.push(first)?;
    names.push(second)?;
    Ok(Alphabet::new(names))
}

/// Whether its symbols have these numbers, and only the first two have names.
fn is_numbered(alphabet: &Alphabet) -> bool {
    let symbols = [
        alphabet.len(),
        alphabet.drop_symbol(),
        alphabet.loop_symbol(),
        alphabet.marker(1),
    ];
    let found = [alphabet.find(b"r4"), alphabet.find(b"r2")];
    let named = [alphabet.name_of(0).is_some(), alphabet.name_of(2).is_some()];
    symbols == [4, 2, 3, 4] && found == [Some(1), None] && named == [true, false]
}

/// Whether that was written.
fn gives(text: Result<Vec<u8>, AllocError>, bytes: &[u8]) -> bool {
    match text {
        Ok(text) => text.as_slice() == bytes,
        Err(_) => false,
    }
}

/// Whether words are written so.
fn writes(alloc: Global, alphabet: &Alphabet) -> bool
    requires { length alphabet.now ≡ 2 }
{
    gives(alphabet.text_of(alloc, &[]), b"()")
        && gives(alphabet.text_of(alloc, &[0, 4, 1]), b"r1 #1 r4")
        && gives(alphabet.text_of(alloc, &[1, 2]), b"r4 drop")
        && gives(alphabet.text_of(alloc, &[3, 20003]), b"loop #20000")
}

#[test]
fn numbers_symbols_and_writes_words(rt: HostRuntime) -> Result<(), Fail> {
    let alphabet = two_routers(rt.alloc())?;
    assert!(rt; is_numbered(&alphabet));
    assert!(rt; writes(rt.alloc(), &alphabet));
    Ok(())
}

/// Whether a list has its items.
fn holds_a_list(alloc: Global) -> Result<bool, AllocError> {
    let list = List::from_vec([1u32, 2].to_vec(alloc)?);
    Ok(list.as_slice() == [1, 2].as_slice())
}

/// Whether a box has its value.
fn holds_a_box(alloc: Global) -> Result<bool, AllocError> {
    let boxed = Boxed::new(alloc, 7u32)?;
    Ok(*boxed.get() == 7)
}

/// Whether a word has its symbols.
fn holds_a_word(alloc: Global) -> Result<bool, AllocError> {
    let word = Word::from_symbols([0u32, 3].to_vec(alloc)?);
    Ok(word.as_slice() == [0, 3].as_slice())
}

#[test]
fn holds_lists_boxes_and_words(rt: HostRuntime) -> Result<(), Fail> {
    assert!(rt; holds_a_list(rt.alloc())?);
    assert!(rt; holds_a_box(rt.alloc())?);
    assert!(rt; holds_a_word(rt.alloc())?);
    Ok(())
}
