//! Files that are cut off.

use crate::cases::{CHECK, Case, Run};
use crate::network::{LOCATIONS, OVER_R2};
use rela_top::{MET, REFUSED};
use std::alloc::{AllocError, Global};
use std::process::Abort;

/// Asserts that the snapshot before the change is refused, as no JSON.
fn is_not_json(
    rt: &impl Abort,
    alloc: Global,
    prefix: &str,
    length: usize,
) -> Result<(), AllocError> {
    let run = Run {
        words: CHECK,
        files: &[
            ("before", &[prefix]),
            ("after", OVER_R2),
            ("locations", LOCATIONS),
            ("spec", &[PRESERVE]),
        ],
        status: REFUSED,
        text: &["refused before 11 NotJson\n"],
    };
    run.holds(rt, alloc, length)
}

#[test]
fn refuses_a_snapshot_that_is_cut_off(rt: HostRuntime) -> Result<(), AllocError> {
    let alloc = rt.alloc();
    let whole = OVER_R2.join(alloc, "")?;
    let mut prefix = String::new(alloc);
    for character in whole.chars() {
        is_not_json(&rt, alloc, prefix.as_str(), prefix.len())?;
        prefix.push(character)?;
    }
    Ok(())
}

const PRESERVE: &str = "level device; check c1 : { .* : preserve };";

/// Where the first so many bytes of this specification aren't one, and `None` where they are.
fn fault(length: usize) -> Option<usize> {
    match length {
        // Nothing, and the level alone.
        0 | 13 | 14 => None,
        // A part of a keyword is a name, which can't stand there.
        1..=4 => Some(0),
        7..=11 => Some(6),
        15..=18 => Some(14),
        33..=39 => Some(32),
        // More is wanted.
        _ => Some(length),
    }
}

/// Asserts that the check reports this, or refuses this, of the specification.
fn is_said(
    rt: &impl Abort,
    alloc: Global,
    spec: &str,
    status: u8,
    text: &str,
) -> Result<(), AllocError> {
    let run = Run {
        words: CHECK,
        files: &[
            ("before", OVER_R2),
            ("after", OVER_R2),
            ("locations", LOCATIONS),
            ("spec", &[spec]),
        ],
        status,
        text: &[text],
    };
    run.holds(rt, alloc, spec.len())
}

const UNSELECTED: &str =
    "flow f1 unselected\ntotal 1 compliant 0 violated 0 undecided 0 unselected 1\n";

/// Asserts that the specification that is cut off there is refused, or selects no flow.
fn is_refused_or_selects_none(
    rt: &impl Abort,
    alloc: Global,
    prefix: &str,
) -> Result<(), AllocError> {
    match fault(prefix.len()) {
        None => is_said(rt, alloc, prefix, MET, UNSELECTED),
        Some(offset) => {
            let line = format!(in alloc; "refused spec 32 Syntax at {offset}\n")?;
            is_said(rt, alloc, prefix, REFUSED, line.as_str())
        }
    }
}

#[test]
fn refuses_a_specification_that_is_cut_off(rt: HostRuntime) -> Result<(), AllocError> {
    let alloc = rt.alloc();
    let mut prefix = String::new(alloc);
    for character in PRESERVE.chars() {
        is_refused_or_selects_none(&rt, alloc, prefix.as_str())?;
        prefix.push(character)?;
    }
    Ok(())
}
