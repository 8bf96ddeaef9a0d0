//! Runs over files and sinks in memory, and what they have to answer.

use rela_io::{MemoryFile, MemoryFiles, MemorySink};
use rela_top::run;
use std::alloc::{AllocError, Global};
use std::process::Abort;

/// A text, in pieces.
pub(crate) type Text = &'static [&'static str];

/// The words of a check of the files `before`, `after`, `locations` and `spec`.
pub(crate) const CHECK: Text = &["check", "before", "after", "locations", "spec"];

/// The words of a snapshot of the files `tables`, `other` and `locations`.
pub(crate) const DRAW: Text = &["fib", "tables", "other", "locations"];

/// A run, and what it has to answer.
#[derive(Drop)]
pub(crate) struct Run<'a> {
    /// The words behind the program's name.
    pub(crate) words: Text,
    /// The files, each by its name and its text.
    pub(crate) files: &'a [(&'static str, Text)],
    /// The exit status.
    pub(crate) status: u8,
    /// What is written, in pieces.
    pub(crate) text: &'a [&'static str],
}

/// What is written shorter than as a run, and stands for one.
pub(crate) trait Case {
    /// Says of the run that it has the status and writes the text. It fails where there is no memory to ask. A
    /// failed assertion names the place of the case in its list.
    fn holds(&self, rt: &impl Abort, alloc: Global, place: usize) -> Result<(), AllocError>;
}

/// Says so of each case.
pub(crate) fn hold<C: Case>(rt: &impl Abort, alloc: Global, cases: &[C]) -> Result<(), AllocError> {
    for place in 0..cases.len() {
        cases[place].holds(rt, alloc, place)?;
    }
    Ok(())
}

// What owns a value here lends it at once: the proof of a function that does more with it is long.
impl Case for Run<'_> {
    fn holds(&self, rt: &impl Abort, alloc: Global, place: usize) -> Result<(), AllocError> {
        let words = strings(alloc, self.words)?;
        holds_for(rt, alloc, &words, self, place)
    }
}

/// Says so of the run of these words.
fn holds_for(
    rt: &impl Abort,
    alloc: Global,
    words: &[String],
    case: &Run<'_>,
    place: usize,
) -> Result<(), AllocError> {
    let mut files = memory_files(alloc, case.files)?;
    holds_over(rt, alloc, words, &mut files, case, place)
}

/// The same over these files.
fn holds_over(
    rt: &impl Abort,
    alloc: Global,
    words: &[String],
    files: &mut MemoryFiles,
    case: &Run<'_>,
    place: usize,
) -> Result<(), AllocError> {
    // (it takes at most three bytes at once)
    let mut out = MemorySink::new(alloc, 4_000, Vec::new(alloc), 3)?;
    let status = run(alloc, words, files, &mut out);
    is_told(rt, alloc, status, out.taken(), case, place)
}

/// Says that the status and the bytes are what the run has to answer.
fn is_told(
    rt: &impl Abort,
    alloc: Global,
    status: u8,
    written: &[u8],
    case: &Run<'_>,
    place: usize,
) -> Result<(), AllocError> {
    let text = case.text.join(alloc, "")?;
    assert_eq!(rt; written, text.as_bytes(), "case {place}");
    assert_eq!(rt; status, case.status, "case {place}");
    Ok(())
}

fn strings(alloc: Global, texts: &[&str]) -> Result<Vec<String>, AllocError> {
    let mut strings = Vec::new(alloc);
    for text in texts {
        strings.push(String::from_str(alloc, text)?)?;
    }
    Ok(strings)
}

fn memory_file(alloc: Global, name: &str, text: Text) -> Result<MemoryFile, AllocError> {
    let bytes = text.join(alloc, "")?.into_bytes();
    let name = String::from_str(alloc, name)?;
    Ok(MemoryFile { name, bytes })
}

fn memory_file_list(
    alloc: Global,
    files: &[(&'static str, Text)],
) -> Result<Vec<MemoryFile>, AllocError> {
    let mut made = Vec::new(alloc);
    for (name, text) in files {
        made.push(memory_file(alloc, name, text)?)?;
    }
    Ok(made)
}

/// These files, which give at most 64 bytes at once.
fn memory_files(alloc: Global, files: &[(&'static str, Text)]) -> Result<MemoryFiles, AllocError> {
    let files = memory_file_list(alloc, files)?;
    Ok(MemoryFiles::new(files, Vec::new(alloc), 64))
}
