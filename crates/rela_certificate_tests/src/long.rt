//! Certificates of many lines.

use crate::answers::{AUDIT, Answer, CERTIFY, Change, answer_to, audit, bytes, file};
use crate::network::{END, FLOWS, LOCATIONS, OVER_R2, P2};
use rela_io::MemoryFile;
use rela_top::{MET, REFUSED, VIOLATED};
use std::alloc::{AllocError, Global};
use std::process::Abort;

/// f1 stays over r2.
const KEPT: &Change = &Change {
    before: OVER_R2,
    after: OVER_R2,
    spec: &["level device; check c1 : { .* : preserve };"],
};

/// How many lines of a block repeat its first word.
const COPIES: usize = 20_000;

/// A certificate of f1 that has the word r1 so many times, and then these lines.
fn repeated(alloc: Global, lines: &str) -> Result<Vec<u8>, AllocError> {
    let mut text = String::from_str(alloc, "rela certificate 1\nrow f1 c1\nimages\n")?;
    for _ in 0..COPIES {
        text.push_str("0 0\n")?;
    }
    text.push_str(lines)?;
    Ok(text.into_bytes())
}

/// Asserts that an audit writes this of the certificate that ends with these lines, and ends with this status.
fn says(
    rt: &impl Abort,
    alloc: Global,
    lines: &str,
    text: &str,
    status: u8,
) -> Result<(), AllocError> {
    let audited = audit(alloc, KEPT, repeated(alloc, lines)?)?;
    assert_eq!(rt; audited.text.as_slice(), text.as_bytes());
    assert_eq!(rt; audited.status, status);
    Ok(())
}

#[test]
fn a_word_may_be_repeated(rt: HostRuntime) -> Result<(), AllocError> {
    let alloc = rt.alloc();
    // The word r2 has the number 20,001.
    says(&rt, alloc, "0 1\n1 1\n20002 3\nend\n", "accepted 1\n", MET)?;
    says(&rt, alloc, "end\n", "rejected at 3\n", VIOLATED)?;
    says(
        &rt,
        alloc,
        "0 0\n0 6\nend\n",
        "rejected at 20005\n",
        VIOLATED,
    )
}

/// How many flows there are.
const FLOW_COUNT: usize = 200;

/// A snapshot of the flows f1, f2 and so on over r2.
fn snapshot(alloc: Global) -> Result<Vec<u8>, AllocError> {
    let mut text = String::from_str(alloc, FLOWS)?;
    for number in 1..=FLOW_COUNT {
        let comma = if number == 1 { "" } else { "," };
        let flow = format!(in alloc; "{comma}{{\"name\":\"f{number}\",\"dst\":\"10.0.0.0/24\",")?;
        text.push_str(flow.as_str())?;
        text.push_str(P2)?;
    }
    text.push_str(END)?;
    Ok(text.into_bytes())
}

/// The certificate of all of them.
fn certificate(alloc: Global) -> Result<Vec<u8>, AllocError> {
    let mut text = String::from_str(alloc, "rela certificate 1\n")?;
    for number in 1..=FLOW_COUNT {
        let row = format!(in alloc; "row f{number} c1\nimages\n0 0\n0 1\n1 1\n3 3\n")?;
        text.push_str(row.as_str())?;
    }
    text.push_str("end\n")?;
    Ok(text.into_bytes())
}

/// The files of a change that keeps them.
fn files(alloc: Global) -> Result<Vec<MemoryFile>, AllocError> {
    let mut files = Vec::new(alloc);
    files.push(file(alloc, "before", snapshot(alloc)?)?)?;
    files.push(file(alloc, "after", snapshot(alloc)?)?)?;
    files.push(file(alloc, "locations", bytes(alloc, LOCATIONS)?)?)?;
    files.push(file(alloc, "spec", bytes(alloc, KEPT.spec)?)?)?;
    files.push(file(alloc, "certificate", certificate(alloc)?)?)?;
    Ok(files)
}

/// Asserts that the program answers this.
fn is_answer(rt: &impl Abort, answer: &Answer, text: &[u8]) {
    assert_eq!(rt; answer.status, MET);
    assert!(rt; answer.text.as_slice() == text);
}

#[test]
fn lists_two_hundred_rows(rt: HostRuntime) -> Result<(), AllocError> {
    let alloc = rt.alloc();
    let certified = answer_to(alloc, CERTIFY, files(alloc)?)?;
    is_answer(&rt, &certified, certificate(alloc)?.as_slice());
    let audited = answer_to(alloc, AUDIT, files(alloc)?)?;
    is_answer(&rt, &audited, b"accepted 200\n");
    Ok(())
}

#[test]
fn refuses_a_certificate_that_is_too_long(rt: HostRuntime) -> Result<(), AllocError> {
    let alloc = rt.alloc();
    let audited = audit(alloc, KEPT, vec![in alloc; b'0'; 33_554_433]?)?;
    assert_eq!(rt;
        audited.text.as_slice(),
        "refused certificate 2 TooLong\n".as_bytes()
    );
    assert_eq!(rt; audited.status, REFUSED);
    Ok(())
}
