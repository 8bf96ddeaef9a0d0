//! Canonical texts, and refusals of the grammar.

use rela_lex::{MAX_TEXT_LEN, SpecError, tokens};
use rela_print::print;
use rela_spec::parse;
use std::alloc::{AllocError, Global};
use std::process::Abort;
use std::test::Fail;

/// The canonical text of the specification that a text spells. Errors are those of [`tokens`] and
/// [`parse`].
fn canonical(rt: &impl Abort, alloc: Global, text: &[u8]) -> Result<Vec<u8>, SpecError> {
    assert!(rt; text.len() <= MAX_TEXT_LEN);
    let tokens = tokens(alloc, text)?;
    let file = parse(alloc, tokens.as_slice(), text.len() as u32)?;
    Ok(print(alloc, &file)?)
}

/// Asserts that the text has this canonical text, which is its own canonical text.
fn becomes(rt: &impl Abort, alloc: Global, text: &[u8], wanted: &[u8]) -> Result<(), SpecError> {
    let found = canonical(rt, alloc, text)?;
    assert_eq!(rt; found.as_slice(), wanted);
    let again = canonical(rt, alloc, wanted)?;
    assert_eq!(rt; again.as_slice(), wanted);
    Ok(())
}

/// Asserts that the text is refused with this fault.
fn refused(rt: &impl Abort, alloc: Global, text: &[u8], fault: SpecError) {
    let found = canonical(rt, alloc, text).err();
    assert_eq!(rt; found, Some(fault), "{text:?}");
}

/// The level is written, and needless brackets and comments are left out.
#[test]
fn canonical_texts(rt: HostRuntime) -> Result<(), Fail> {
    let alloc = rt.alloc();
    becomes(&rt, alloc, b"", b"level interface;\n")?;
    becomes(
        &rt,
        alloc,
        b"spec s = ({ (a) | b c : preserve }); # x",
        b"level interface;\nspec s = { a | b c : preserve };\n",
    )?;
    becomes(
        &rt,
        alloc,
        b"check atmost c : { (.) : ignore(a) };",
        b"level interface;\ncheck atmost c : { . : ignore(a) };\n",
    )?;
    Ok(())
}

/// Path expressions keep the brackets and quotes that they need.
#[test]
fn canonical_paths(rt: HostRuntime) -> Result<(), Fail> {
    let alloc = rt.alloc();
    becomes(
        &rt,
        alloc,
        b"level group;path \"path\"=()((a|b)&c d)|[^drop loop tag(t)]!(!$p*)?;path q=((a*)+){0}|[];",
        b"level group;\npath \"path\" = () ((a | b) & c d) | [^drop loop tag(t)] !(!$p*)?;\npath q = ((a*)+){0} | [];\n",
    )?;
    Ok(())
}

/// Predicates and specifications keep the brackets that they need; prefixes are canonical, and `for
/// all` is left out.
#[test]
fn canonical_checks(rt: HostRuntime) -> Result<(), Fail> {
    let alloc = rt.alloc();
    becomes(
        &rt,
        alloc,
        b"check c for not(all)and(dst in 10.0.0.1/8 or flow\"flow\"):$s then({ . : drop}else{. : replace(a,b)});check d for all : $s;",
        b"level interface;\ncheck c for not all and (dst in 10.0.0.0/8 or flow \"flow\") : $s then ({ . : drop } else { . : replace(a, b) });\ncheck d : $s;\n",
    )?;
    Ok(())
}

/// Texts are refused at their first fault, and bad numbers only where nothing else is at fault.
#[test]
fn refusals(rt: HostRuntime) {
    for (text, fault) in [
        (
            b"check c1 : { .* : preserve ;".as_slice(),
            SpecError::Syntax { at: 27 },
        ),
        (b"check c", SpecError::Syntax { at: 7 }),
        (
            b"check c for dst in 10.0.0.0/33 : $s;",
            SpecError::Syntax { at: 19 },
        ),
        (b"path p = a{1}*;", SpecError::Syntax { at: 13 }),
        (
            b"check c1 : { .{65} : preserve };",
            SpecError::BadNumber { at: 15 },
        ),
        (
            b"path p = a{00};path q = a{65};",
            SpecError::BadNumber { at: 11 },
        ),
        (b"path p = a{65}", SpecError::Syntax { at: 14 }),
    ] {
        refused(&rt, rt.alloc(), text, fault);
    }
}

/// A text that opens this many brackets and closes none.
fn opening(alloc: Global, count: usize) -> Result<Vec<u8>, AllocError> {
    let mut text = Vec::new(alloc);
    text.extend_from_slice(b"path p = ")?;
    for _ in 0..count {
        text.push(b'(')?;
    }
    Ok(text)
}

/// A hundred brackets may be open, and no more.
#[test]
fn brackets(rt: HostRuntime) -> Result<(), Fail> {
    let alloc = rt.alloc();
    let text = opening(alloc, 100)?;
    refused(&rt, alloc, text.as_slice(), SpecError::Syntax { at: 109 });
    let text = opening(alloc, 101)?;
    refused(&rt, alloc, text.as_slice(), SpecError::TooDeep { at: 109 });
    Ok(())
}
