//! JSON values, and the refusal of others.

use rela_json::{
    ListError, LoadError, ReadJsonError, Shape, Value, array, index_list, member, number, read,
    text,
};
use std::alloc::{AllocError, Global};
use std::test::Fail;

/// A question about a value, which is answered with the same whatever it is asked of.
trait Question {
    fn is_so(&self, alloc: Global, value: &Value) -> bool;
}

/// Asks it of what the text writes, and is false where that is no JSON. No other function has a value of
/// its own: the proof of one that has it is long, and of one that borrows it it is short.
fn is_so(alloc: Global, text: &str, question: &impl Question) -> bool {
    match read(alloc, text.as_bytes()) {
        Ok(value) => question.is_so(alloc, &value),
        Err(_) => false,
    }
}

/// Whether it is a string of these bytes.
fn is_text(value: &Value, bytes: &[u8]) -> bool {
    match text(value) {
        Ok(found) => found == bytes,
        Err(_) => false,
    }
}

/// Whether it is an array of a string and a number.
fn is_pair(value: &Value) -> bool {
    match array(value) {
        Ok([first, second]) => is_text(first, b"x\xc3\xa9") && number(second) == Ok(7),
        _ => false,
    }
}

/// Whether its member `a` is the pair, its member `b` is there, and no member `c`.
struct Members;

impl Question for Members {
    fn is_so(&self, _alloc: Global, value: &Value) -> bool {
        let Ok(Some(pair)) = member(value, "a") else {
            return false;
        };
        is_pair(pair)
            && matches!(member(value, "b"), Ok(Some(_)))
            && matches!(member(value, "c"), Ok(None))
    }
}

/// Whether its member `a` is this number.
struct Kept(u64);

impl Question for Kept {
    fn is_so(&self, _alloc: Global, value: &Value) -> bool {
        match member(value, "a") {
            Ok(Some(kept)) => number(kept) == Ok(self.0),
            _ => false,
        }
    }
}

#[test]
fn reads_members(rt: HostRuntime) {
    let text = " {\"a\": [\"x\\u00e9\", 7], \"b\": null}\n";
    assert!(rt; is_so(rt.alloc(), text, &Members));
    // The last member of a name counts.
    let text = "{\"a\":1,\"b\":2,\"a\":3,\"\\u0061\":4}";
    assert!(rt; is_so(rt.alloc(), text, &Kept(4)));
}

/// Why the bytes are refused.
fn refusal(alloc: Global, bytes: &[u8]) -> Option<ReadJsonError> {
    read(alloc, bytes).err()
}

const NO_JSON: &[&[u8]] = &[
    b"",
    b" ",
    b"{",
    b"[1,]",
    b"1 2",
    b"01",
    b"'a'",
    b"nul",
    b"\"\xff\"",
    b"\"\xc3\"",
    b"\xef\xbb\xbf1",
    b"\"\\ud800\"",
    b"\"\n\"",
    b"1e999",
    b"1.8e308",
];

#[test]
fn refuses_what_is_no_json(rt: HostRuntime) {
    for bytes in NO_JSON {
        let found = refusal(rt.alloc(), bytes);
        assert_eq!(rt; found, Some(ReadJsonError::NotJson), "{bytes:?}");
    }
}

/// So many brackets that open, and so many that close.
fn brackets(alloc: Global, opened: usize, closed: usize) -> Result<Vec<u8>, AllocError> {
    let mut text = vec![in alloc; b'['; opened]?;
    for _ in 0..closed {
        text.push(b']')?;
    }
    Ok(text)
}

/// Why these are refused.
fn refusal_of_brackets(
    alloc: Global,
    opened: usize,
    closed: usize,
) -> Result<Option<ReadJsonError>, AllocError> {
    let text = brackets(alloc, opened, closed)?;
    Ok(refusal(alloc, &text))
}

const DEPTHS: &[(usize, usize, Option<ReadJsonError>)] = &[
    (127, 127, None),
    (128, 128, Some(ReadJsonError::NotJson)),
    (1_048_576, 0, Some(ReadJsonError::NotJson)),
];

#[test]
fn reads_down_to_a_depth_of_127(rt: HostRuntime) -> Result<(), Fail> {
    for (opened, closed, refusal) in DEPTHS {
        let found = refusal_of_brackets(rt.alloc(), *opened, *closed)?;
        assert_eq!(rt; found, *refusal, "{opened} {closed}");
    }
    Ok(())
}

/// Whether it is an object, a string, an array and a whole number.
#[derive(Drop)]
struct Kinds([bool; 4]);

impl Question for Kinds {
    fn is_so(&self, _alloc: Global, value: &Value) -> bool {
        let found = [
            member(value, "a").is_ok(),
            text(value).is_ok(),
            array(value).is_ok(),
            number(value).is_ok(),
        ];
        found == self.0
    }
}

const OBJECT: &Kinds = &Kinds([true, false, false, false]);

const STRING: &Kinds = &Kinds([false, true, false, false]);

const ARRAY: &Kinds = &Kinds([false, false, true, false]);

const NUMBER: &Kinds = &Kinds([false, false, false, true]);

const OTHER: &Kinds = &Kinds([false; 4]);

const KINDS: &[(&str, &Kinds)] = &[
    ("null", OTHER),
    ("true", OTHER),
    ("\"a\"", STRING),
    ("\"1\"", STRING),
    ("[1]", ARRAY),
    ("[\"a\"]", ARRAY),
    ("{\"a\":\"a\"}", OBJECT),
    ("{\"a\":[]}", OBJECT),
    ("1", NUMBER),
    ("0", NUMBER),
    ("18446744073709551615", NUMBER),
    ("18446744073709551616", OTHER),
    ("1.0", OTHER),
    ("1e3", OTHER),
    ("-0", OTHER),
    ("-1", OTHER),
];

#[test]
fn tells_kinds_apart(rt: HostRuntime) {
    for (text, kinds) in KINDS {
        assert!(rt; is_so(rt.alloc(), text, *kinds), "{text}");
    }
}

/// Whether it is this number.
struct Number(u64);

impl Question for Number {
    fn is_so(&self, _alloc: Global, value: &Value) -> bool {
        number(value) == Ok(self.0)
    }
}

#[test]
fn reads_numbers(rt: HostRuntime) {
    assert!(rt; is_so(rt.alloc(), "0", &Number(0)));
    assert!(rt;
        is_so(
            rt.alloc(),
            "18446744073709551615",
            &Number(18446744073709551615)
        )
    );
}

/// The places below a bound that it lists, or the first fault.
struct Places(u32, Result<&'static [u32], ListError>);

impl Question for Places {
    fn is_so(&self, alloc: Global, value: &Value) -> bool {
        match (index_list(alloc, value, self.0), &self.1) {
            (Ok(found), Ok(places)) => found.as_slice() == *places,
            (Err(found), Err(fault)) => found == *fault,
            _ => false,
        }
    }
}

const LISTS: &[(&str, Places)] = &[
    ("[0,3,true]", Places(3, Err(ListError::Index))),
    ("[0,true,3]", Places(3, Err(ListError::Shape))),
    ("[-1]", Places(3, Err(ListError::Shape))),
    ("[1.0]", Places(3, Err(ListError::Shape))),
    ("{}", Places(3, Err(ListError::Shape))),
    ("3", Places(3, Err(ListError::Shape))),
    ("[2,0,2]", Places(3, Ok(&[2, 0, 2]))),
    ("[]", Places(0, Ok(&[]))),
];

#[test]
fn the_first_fault_of_a_list_decides(rt: HostRuntime) {
    for (text, places) in LISTS {
        assert!(rt; is_so(rt.alloc(), text, places), "{text}");
    }
}

#[test]
fn errors_pass_on(rt: HostRuntime) {
    assert_eq!(rt; LoadError::from(ReadJsonError::NotJson), LoadError::NotJson);
    assert_eq!(rt; LoadError::from(ReadJsonError::Memory), LoadError::Memory);
    assert_eq!(rt; ListError::from(Shape), ListError::Shape);
}
