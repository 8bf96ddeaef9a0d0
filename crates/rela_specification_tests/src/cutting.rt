//! The tokens of texts.

use rela_lex::{MAX_TEXT_LEN, SpecError, Token, TokenKind, tokens};
use std::alloc::{AllocError, Global};
use std::process::Abort;
use std::test::Fail;

/// Appends the token to a line: a blank, its offset, a colon and its text, without the quote that
/// closes a quoted name.
fn push_token(line: &mut String, token: &Token) -> Result<(), AllocError> {
    let at = token.at;
    write!(line, " {at}:")?;
    match &token.kind {
        TokenKind::Mark(byte) => line.push(char::from(*byte)),
        TokenKind::Bare(name) => push_bytes(line, name.as_bytes()),
        TokenKind::Quoted(name) => {
            line.push('"')?;
            push_bytes(line, name.as_bytes())
        }
        TokenKind::Reference(name) => {
            line.push('$')?;
            push_bytes(line, name.as_bytes())
        }
    }
}

/// Appends the bytes, each as the character of its number.
fn push_bytes(line: &mut String, bytes: &[u8]) -> Result<(), AllocError> {
    for byte in bytes {
        line.push(char::from(*byte))?;
    }
    Ok(())
}

/// The tokens of the text in one line. The errors are those of [`tokens`].
fn outline(rt: &impl Abort, alloc: Global, text: &[u8]) -> Result<String, SpecError> {
    assert!(rt; text.len() <= MAX_TEXT_LEN);
    let mut line = String::new(alloc);
    for token in &tokens(alloc, text)? {
        push_token(&mut line, token)?;
    }
    Ok(line)
}

/// The offset of the first byte at which no token begins, or `None` where there is none.
fn fault(rt: &impl Abort, alloc: Global, text: &[u8]) -> Option<u32> {
    assert!(rt; text.len() <= MAX_TEXT_LEN);
    match tokens(alloc, text) {
        Err(SpecError::BadToken { at }) => Some(at),
        _ => None,
    }
}

/// Marks, bare words, quoted names and references are told apart, and blanks are no tokens.
#[test]
fn tokens_of_each_kind(rt: HostRuntime) -> Result<(), Fail> {
    let line = outline(&rt, rt.alloc(), b"path p = (\"drop\"*\t| $q)?;\r\n")?;
    assert_eq!(rt;
        line.as_str(),
        " 0:path 5:p 7:= 9:( 10:\"drop 16:* 18:| 20:$q 22:) 23:? 24:;"
    );
    let line = outline(&rt, rt.alloc(), b"{}[]^+!&,\"a\"b$c\"d\"")?;
    assert_eq!(rt;
        line.as_str(),
        " 0:{ 1:} 2:[ 3:] 4:^ 5:+ 6:! 7:& 8:, 9:\"a 12:b 13:$c 15:\"d"
    );
    let line = outline(&rt, rt.alloc(), b"")?;
    assert_eq!(rt; line.as_str(), "");
    Ok(())
}

/// A dot or a colon is a mark where it stands alone, and else a byte of a name.
#[test]
fn dots_and_colons(rt: HostRuntime) -> Result<(), Fail> {
    let line = outline(&rt, rt.alloc(), b". : .. a:b .a a. .*:(:)")?;
    assert_eq!(rt;
        line.as_str(),
        " 0:. 2:: 4:.. 7:a:b 11:.a 14:a. 17:. 18:* 19:: 20:( 21:: 22:)"
    );
    let line = outline(&rt, rt.alloc(), b"$. \":\" .")?;
    assert_eq!(rt; line.as_str(), " 0:$. 3:\": 7:.");
    Ok(())
}

/// A comment may have any bytes, and ends before the next line feed or at the end of the text.
#[test]
fn comments_of_any_bytes(rt: HostRuntime) -> Result<(), Fail> {
    let line = outline(&rt, rt.alloc(), b"a#b\r\xff\"$ @\nc# \x00\x80\xc3")?;
    assert_eq!(rt; line.as_str(), " 0:a 10:c");
    let line = outline(&rt, rt.alloc(), b"#")?;
    assert_eq!(rt; line.as_str(), "");
    Ok(())
}

/// The first byte at which no token begins is the fault.
#[test]
fn the_first_fault(rt: HostRuntime) {
    for (text, at) in [
        (b"a \"b".as_slice(), Some(2)),
        (b"a \"\"", Some(2)),
        (b"\"b c\"", Some(0)),
        (b"ab $", Some(3)),
        (b"ab $ c @", Some(3)),
        (b"a@b", Some(1)),
        (b"# \xc3\n \xc3", Some(5)),
        (b"a\x0b", Some(1)),
        (b"path p = .;", None),
    ] {
        assert_eq!(rt; fault(&rt, rt.alloc(), text), at, "{text:?}");
    }
}

/// The bytes before and behind a name of `len` bytes, with that name between them.
fn around_name(
    alloc: Global,
    before: &[u8],
    len: usize,
    after: &[u8],
) -> Result<Vec<u8>, AllocError> {
    let mut text = Vec::from_slice(alloc, before)?;
    for _ in 0..len {
        text.push(b'n')?;
    }
    text.extend_from_slice(after)?;
    Ok(text)
}

/// A name has at most 64 bytes, however it is written.
#[test]
fn names_of_64_bytes_and_more(rt: HostRuntime) -> Result<(), Fail> {
    let alloc = rt.alloc();
    for (before, after, at) in [
        (b"; ".as_slice(), b"".as_slice(), 2),
        (b" $", b"", 1),
        (b"\"", b"\"", 0),
    ] {
        let longest = around_name(alloc, before, 64, after)?;
        assert_eq!(rt; fault(&rt, alloc, longest.as_slice()), None);
        let longer = around_name(alloc, before, 65, after)?;
        assert_eq!(rt; fault(&rt, alloc, longer.as_slice()), Some(at));
    }
    Ok(())
}
