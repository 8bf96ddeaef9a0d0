//! Runs over files and sinks that fail, or that give and take few bytes at once.

use crate::cases::{Answer, Medium, Run, answer_to};
use crate::commands::COMMANDS;
use rela_top::{READ_FAULT, WRITE_FAULT};
use std::alloc::{AllocError, Global};
use std::process::Abort;

/// How many calls are made to fail, one in each run, until a run makes fewer.
const MOST_CALLS: u64 = 1_000;

/// How many bytes a file gives at once.
const GIVEN: usize = 8;

/// How many bytes the sink takes at once.
const TAKEN: usize = 3;

/// What the run answers where one call on the files fails.
fn with_failed_read(alloc: Global, run: &Run<'_>, number: u64) -> Result<Answer, AllocError> {
    let medium = Medium {
        reads: &[number],
        writes: &[],
        given: GIVEN,
        taken: TAKEN,
        room: 1_000,
    };
    answer_to(alloc, &medium, run)
}

/// What the run answers where one write fails.
fn with_failed_write(alloc: Global, run: &Run<'_>, number: u64) -> Result<Answer, AllocError> {
    let medium = Medium {
        reads: &[],
        writes: &[number],
        given: GIVEN,
        taken: TAKEN,
        room: 1_000,
    };
    answer_to(alloc, &medium, run)
}

/// How many calls a run makes to read its files: of each it is opened, its pieces are read, and then its end.
fn call_count(run: &Run<'_>) -> u64 {
    let mut calls: u64 = 0;
    for (_, text) in run.files {
        let length = text
            .iter()
            .fold(0_usize, |sum, piece| sum.saturating_add(piece.len()));
        calls = calls
            .saturating_add(length.div_ceil(GIVEN) as u64)
            .saturating_add(2);
    }
    calls
}

/// Asserts that the run writes nothing wherever a call on the files fails.
fn fails_at_each_read(
    rt: &impl Abort,
    alloc: Global,
    run: &Run<'_>,
    place: usize,
) -> Result<(), AllocError> {
    let calls = call_count(run);
    assert!(rt; calls < MOST_CALLS, "case {place}");
    for number in 1..=calls {
        let failed = with_failed_read(alloc, run, number)?;
        assert_eq!(rt; failed.status, READ_FAULT, "case {place} read {number}");
        assert!(rt; failed.text.is_empty(), "case {place} read {number}");
    }
    let whole = with_failed_read(alloc, run, calls + 1)?;
    run.is_answered(rt, alloc, &whole, place)
}

#[test]
fn a_failed_read_writes_nothing(rt: HostRuntime) -> Result<(), AllocError> {
    for place in 0..COMMANDS.len() {
        fails_at_each_read(&rt, rt.alloc(), &COMMANDS[place], place)?;
    }
    Ok(())
}

/// Asserts that a write failed, behind so many bytes of the whole text.
fn is_cut_off(rt: &impl Abort, failed: &Answer, whole: &[u8], length: usize, place: usize) {
    assert_eq!(rt; failed.status, WRITE_FAULT, "case {place} byte {length}");
    assert_eq!(rt; failed.text.len(), length, "case {place} byte {length}");
    assert!(rt;
        whole.starts_with(failed.text.as_slice()),
        "case {place} byte {length}"
    );
}

/// Asserts that the run writes what stands before the piece whose write fails.
fn fails_at_each_write(
    rt: &impl Abort,
    alloc: Global,
    run: &Run<'_>,
    place: usize,
) -> Result<(), AllocError> {
    let whole = run.text.join(alloc, "")?;
    let count = whole.len().div_ceil(TAKEN);
    assert!(rt; (count as u64) < MOST_CALLS, "case {place}");
    for pieces in 0..count {
        let failed = with_failed_write(alloc, run, pieces as u64 + 1)?;
        is_cut_off(
            rt,
            &failed,
            whole.as_bytes(),
            pieces.saturating_mul(TAKEN),
            place,
        );
    }
    let answered = with_failed_write(alloc, run, count as u64 + 1)?;
    run.is_answered(rt, alloc, &answered, place)
}

#[test]
fn a_failed_write_ends_the_text(rt: HostRuntime) -> Result<(), AllocError> {
    for place in 0..COMMANDS.len() {
        fails_at_each_write(&rt, rt.alloc(), &COMMANDS[place], place)?;
    }
    Ok(())
}

/// How many bytes a narrow sink has room for.
const ROOM: usize = 40;

/// Such a sink.
const NARROW: &Medium<'static> = &Medium {
    reads: &[],
    writes: &[],
    given: GIVEN,
    taken: TAKEN,
    room: ROOM,
};

/// Asserts that the run writes what there is room for, where it has more.
fn fills_the_room(
    rt: &impl Abort,
    alloc: Global,
    run: &Run<'_>,
    place: usize,
) -> Result<(), AllocError> {
    let narrow = answer_to(alloc, NARROW, run)?;
    let whole = run.text.join(alloc, "")?;
    if whole.len() <= ROOM {
        return run.is_answered(rt, alloc, &narrow, place);
    }
    is_cut_off(rt, &narrow, whole.as_bytes(), ROOM, place);
    Ok(())
}

#[test]
fn a_full_sink_ends_the_text(rt: HostRuntime) -> Result<(), AllocError> {
    for place in 0..COMMANDS.len() {
        fills_the_room(&rt, rt.alloc(), &COMMANDS[place], place)?;
    }
    Ok(())
}

/// Files and a sink that give and take one byte at once, and such as give and take all.
const PIECES: &[Medium<'static>] = &[
    Medium {
        reads: &[],
        writes: &[],
        given: 1,
        taken: 1,
        room: 1_000,
    },
    Medium {
        reads: &[],
        writes: &[],
        given: 1_000_000,
        taken: 1_000_000,
        room: 1_000,
    },
];

/// Asserts that the run answers the same over each of these.
fn is_the_same_in_pieces(
    rt: &impl Abort,
    alloc: Global,
    run: &Run<'_>,
    place: usize,
) -> Result<(), AllocError> {
    for medium in PIECES {
        let answered = answer_to(alloc, medium, run)?;
        run.is_answered(rt, alloc, &answered, place)?;
    }
    Ok(())
}

#[test]
fn pieces_change_nothing(rt: HostRuntime) -> Result<(), AllocError> {
    for place in 0..COMMANDS.len() {
        is_the_same_in_pieces(&rt, rt.alloc(), &COMMANDS[place], place)?;
    }
    Ok(())
}
