//! Runs over files and sinks in memory, and what they have to answer.

use rela_io::{MemoryFile, MemoryFiles, MemorySink};
use rela_top::run;
use std::alloc::{AllocError, Global};
use std::process::Abort;

/// A text, in pieces.
pub(crate) type Text = &'static [&'static str];

/// How the files and the sink of a run behave.
#[derive(Drop)]
pub(crate) struct Medium<'a> {
    /// The calls on the files that fail, by their numbers.
    pub(crate) reads: &'a [u64],
    /// The writes that fail, by their numbers.
    pub(crate) writes: &'a [u64],
    /// How many bytes a file gives at once, at most.
    pub(crate) given: usize,
    /// How many bytes the sink takes at once, at most.
    pub(crate) taken: usize,
    /// How many bytes the sink has room for.
    pub(crate) room: usize,
}

/// No call fails, and there is room for a report of 10,000 flows.
pub(crate) const STEADY: &Medium<'static> = &Medium {
    reads: &[],
    writes: &[],
    given: 1_000,
    taken: 100,
    room: 500_000,
};

/// The words of a check of the files `before`, `after`, `locations` and `spec`.
pub(crate) const CHECK: Text = &["check", "before", "after", "locations", "spec"];

/// The words of a snapshot of the files `tables`, `other` and `locations`.
pub(crate) const DRAW: Text = &["fib", "tables", "other", "locations"];

/// A run, and what it has to answer.
#[derive(Drop)]
pub(crate) struct Run<'a> {
    /// The words behind the program's name.
    pub(crate) words: Text,
    /// The files, each by its name and its text in pieces.
    pub(crate) files: &'a [(&'static str, &'a [&'a str])],
    /// The exit status.
    pub(crate) status: u8,
    /// What is written, in pieces.
    pub(crate) text: &'a [&'a str],
}

/// What a run answers.
#[derive(Drop)]
pub(crate) struct Answer {
    /// What it writes.
    pub(crate) text: Vec<u8>,
    /// Its exit status.
    pub(crate) status: u8,
}

/// What is written shorter than as a run, and stands for one.
pub(crate) trait Case {
    /// Says of the run that it has the status and writes the text. It fails where there is no memory to ask. A
    /// failed assertion names the place of the case in its list.
    fn holds(&self, rt: &impl Abort, alloc: Global, place: usize) -> Result<(), AllocError>;
}

/// Says so of each case.
pub(crate) fn hold<C: Case>(rt: &impl Abort, alloc: Global, cases: &[C]) -> Result<(), AllocError> {
    for place in 0..cases.len() {
        cases[place].holds(rt, alloc, place)?;
    }
    Ok(())
}

impl Case for Run<'_> {
    fn holds(&self, rt: &impl Abort, alloc: Global, place: usize) -> Result<(), AllocError> {
        let answer = answer_to(alloc, STEADY, self)?;
        self.is_answered(rt, alloc, &answer, place)
    }
}

impl Run<'_> {
    /// Asserts that this is what the run has to answer.
    pub(crate) fn is_answered(
        &self,
        rt: &impl Abort,
        alloc: Global,
        answer: &Answer,
        place: usize,
    ) -> Result<(), AllocError> {
        let text = self.text.join(alloc, "")?;
        assert_eq!(rt; answer.text.as_slice(), text.as_bytes(), "case {place}");
        assert_eq!(rt; answer.status, self.status, "case {place}");
        Ok(())
    }
}

/// What the run answers over these files and this sink. What owns a value here lends it at once: the proof of
/// a function that does more with it is long.
pub(crate) fn answer_to(
    alloc: Global,
    medium: &Medium<'_>,
    run: &Run<'_>,
) -> Result<Answer, AllocError> {
    let words = strings(alloc, run.words)?;
    answer_with(alloc, &words, medium, run)
}

/// The same of the run of these words.
fn answer_with(
    alloc: Global,
    words: &[String],
    medium: &Medium<'_>,
    run: &Run<'_>,
) -> Result<Answer, AllocError> {
    let mut files = memory_files(alloc, medium, run)?;
    answer_over(alloc, words, &mut files, medium)
}

/// The same over these files.
fn answer_over(
    alloc: Global,
    words: &[String],
    files: &mut MemoryFiles,
    medium: &Medium<'_>,
) -> Result<Answer, AllocError> {
    let mut out = memory_sink(alloc, medium)?;
    let status = run(alloc, words, files, &mut out);
    let text = out.taken().to_vec(alloc)?;
    Ok(Answer { text, status })
}

fn strings(alloc: Global, texts: &[&str]) -> Result<Vec<String>, AllocError> {
    let mut strings = Vec::new(alloc);
    for text in texts {
        strings.push(String::from_str(alloc, text)?)?;
    }
    Ok(strings)
}

fn memory_file(alloc: Global, name: &str, text: &[&str]) -> Result<MemoryFile, AllocError> {
    let bytes = text.join(alloc, "")?.into_bytes();
    let name = String::from_str(alloc, name)?;
    Ok(MemoryFile { name, bytes })
}

fn memory_file_list(alloc: Global, run: &Run<'_>) -> Result<Vec<MemoryFile>, AllocError> {
    let mut made = Vec::new(alloc);
    for (name, text) in run.files {
        made.push(memory_file(alloc, name, text)?)?;
    }
    Ok(made)
}

/// The files of the run.
fn memory_files(
    alloc: Global,
    medium: &Medium<'_>,
    run: &Run<'_>,
) -> Result<MemoryFiles, AllocError> {
    let failing = medium.reads.to_vec(alloc)?;
    let files = memory_file_list(alloc, run)?;
    Ok(MemoryFiles::new(files, failing, medium.given.max(1)))
}

/// An empty sink.
fn memory_sink(alloc: Global, medium: &Medium<'_>) -> Result<MemorySink, AllocError> {
    let failing = medium.writes.to_vec(alloc)?;
    MemorySink::new(alloc, medium.room, failing, medium.taken.max(1))
}
