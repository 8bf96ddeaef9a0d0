//! Files and sinks, in memory and on the real system.

ghost use Rattle.std.specs.Prelude.{◌<◌, ◌^◌};

use rela_io::{
    DiskFiles, Fault, Files, MemoryFile, MemoryFiles, MemorySink, ReadError, StdSink, read_all,
    write_all,
};
use std::alloc::{AllocError, Global};
use std::path::Path;
use std::test::Fail;
use std::{env, fs, rt};

fn file(alloc: Global, text: &str) -> Result<MemoryFile, AllocError> {
    let bytes = text.as_bytes().to_vec(alloc)?;
    let name = String::from_str(alloc, "a")?;
    Ok(MemoryFile { name, bytes })
}

/// The file `a` of this text.
fn one_file(
    alloc: Global,
    text: &str,
    failing: &[u64],
    piece: usize,
) -> Result<MemoryFiles, AllocError>
    requires { 0 < piece }
{
    let failing = failing.to_vec(alloc)?;
    let file = file(alloc, text)?;
    Ok(MemoryFiles::new(vec![in alloc; file]?, failing, piece))
}

/// Whether a read of the file gives this. What owns files or bytes lends them at once: the proof of a
/// function that does more with them is long.
fn gives<F: Files>(
    alloc: Global,
    files: &mut F,
    name: &str,
    limit: usize,
    wanted: Result<&[u8], ReadError>,
) -> bool
    requires { limit < 2 ^ 32 }
{
    match (read_all(alloc, files, name, limit), wanted) {
        (Ok(read), Ok(bytes)) => read.as_slice() == bytes,
        (Err(found), Err(error)) => found == error,
        _ => false,
    }
}

/// Whether three bytes of a file of this text are read so, two at once, and then no file `b`.
fn reads_three(alloc: Global, text: &str, wanted: Result<&[u8], ReadError>) -> bool {
    match one_file(alloc, text, &[], 2) {
        Ok(mut files) => {
            gives(alloc, &mut files, "a", 3, wanted)
                && gives(alloc, &mut files, "b", 3, Err(ReadError::Fault))
        }
        Err(_) => false,
    }
}

#[test]
fn reads_up_to_the_limit(rt: HostRuntime) {
    assert!(rt; reads_three(rt.alloc(), "abc", Ok(b"abc")));
    assert!(rt; reads_three(rt.alloc(), "abcd", Err(ReadError::TooLong)));
}

/// Whether an open, a read of eight bytes and a read that fails are followed by these calls, of which the
/// second open, the sixth call, fails too.
fn fails_twice(alloc: Global, files: &mut MemoryFiles) -> bool {
    if !gives(alloc, files, "a", 99, Err(ReadError::Fault)) {
        return false;
    }
    let mut piece = [0; 10];
    files.read(&mut piece) == Ok(8)
        && piece.as_slice() == b"complian\0\0".as_slice()
        && files.read(&mut []) == Ok(0)
        && files.read(&mut piece) == Ok(1)
        && files.open("a") == Err(Fault)
        && files.read(&mut piece) == Err(Fault)
}

#[test]
fn fails_at_the_numbered_call(rt: HostRuntime) -> Result<(), Fail> {
    let mut files = one_file(rt.alloc(), "flow f1 compliant", &[3, 6], 8)?;
    assert!(rt; fails_twice(rt.alloc(), &mut files));
    Ok(())
}

/// A sink that takes at most three bytes at once.
fn sink(alloc: Global, room: usize, failing: &[u64]) -> Result<MemorySink, AllocError> {
    let failing = failing.to_vec(alloc)?;
    MemorySink::new(alloc, room, failing, 3)
}

/// Whether a line is written so, and then nothing.
fn is_written(sink: &mut MemorySink, wanted: Result<(), Fault>, taken: &[u8]) -> bool {
    write_all(sink, b"flow f1\n") == wanted
        && sink.taken() == taken
        && write_all(sink, b"") == Ok(())
}

/// The room of a sink, the writes that fail, whether a line is written, and what is taken.
const WRITES: &[(usize, &[u64], Result<(), Fault>, &[u8])] = &[
    (99, &[2], Err(Fault), b"flo"),
    (7, &[], Err(Fault), b"flow f1"),
    (8, &[], Ok(()), b"flow f1\n"),
];

#[test]
fn keeps_what_came_before_a_failed_write(rt: HostRuntime) -> Result<(), Fail> {
    for (room, failing, wanted, taken) in WRITES {
        let mut sink = sink(rt.alloc(), *room, failing)?;
        assert!(rt; is_written(&mut sink, *wanted, taken), "{room}");
    }
    Ok(())
}

/// Whether the file has the text, of 70,000 bytes, and is too long for a lower limit.
fn has_text<F: Files>(alloc: Global, files: &mut F, path: Path<'_>, text: &[u8]) -> bool {
    let name = path.to_string_lossy();
    gives(alloc, files, name, 70_000, Ok(text))
        && gives(alloc, files, name, 69_999, Err(ReadError::TooLong))
}

/// Whether a text that was written to the path is read from it.
fn is_read_back<R: rt::Files>(rt: &R, alloc: Global, path: Path<'_>) -> Result<bool, Fail> {
    let text = vec![in alloc; b'a'; 70_000]?;
    fs::write(rt, path, text.as_slice())?;
    let mut files = DiskFiles::new(rt);
    Ok(has_text(alloc, &mut files, path, &text))
}

/// Whether neither path has a file that can be read.
fn are_faults<R: rt::Files>(rt: &R, alloc: Global, one: Path<'_>, other: Path<'_>) -> bool {
    let mut files = DiskFiles::new(rt);
    let fault = Err(ReadError::Fault);
    gives(alloc, &mut files, one.to_string_lossy(), 70_000, fault)
        && gives(alloc, &mut files, other.to_string_lossy(), 70_000, fault)
}

#[test]
fn reads_the_disk(rt: HostRuntime) -> Result<(), Fail> {
    let folder = env::temp_dir(&rt)?;
    let path = folder.join(rt.alloc(), "rela_io_reads_the_disk")?;
    assert!(rt; is_read_back(&rt, rt.alloc(), path.as_path())?);
    fs::remove_file(&rt, path.as_path())?;
    // There is no file any more, and a directory is none.
    assert!(rt; are_faults(&rt, rt.alloc(), path.as_path(), folder.as_path()));
    Ok(())
}

#[test]
fn writes_standard_output(rt: HostRuntime) {
    let mut sink = StdSink::new(&rt);
    assert_eq!(rt;
        write_all(&mut sink, b"rela_io writes to standard output\n"),
        Ok(())
    );
}
