//! Runs over files in memory, and what they answer.

use crate::network::LOCATIONS;
use rela_io::{MemoryFile, MemoryFiles, MemorySink};
use rela_top::run;
use std::alloc::{AllocError, Global};
use std::process::Abort;

/// A text, in pieces.
pub(crate) type Text = &'static [&'static str];

/// The words that ask for a certificate of the files `before`, `after`, `locations` and `spec`.
pub(crate) const CERTIFY: Text = &["certify", "before", "after", "locations", "spec"];

/// The words that ask for an audit of the file `certificate`.
pub(crate) const AUDIT: Text = &[
    "audit",
    "before",
    "after",
    "locations",
    "spec",
    "certificate",
];

/// How many bytes a file gives, and the sink takes, at once.
const PIECE: usize = 10_000;

/// How many bytes the sink takes in all.
const ROOM: usize = 2_000_000;

/// A change of the small network, and what is asked of it.
#[derive(Drop)]
pub(crate) struct Change {
    /// The snapshot before the change.
    pub(crate) before: Text,
    /// The snapshot after it.
    pub(crate) after: Text,
    /// The specification.
    pub(crate) spec: Text,
}

/// What a run answers.
#[derive(Drop)]
pub(crate) struct Answer {
    /// What it writes.
    pub(crate) text: Vec<u8>,
    /// Its exit status.
    pub(crate) status: u8,
}

/// A row of a table of tests.
pub(crate) trait Case {
    /// Asserts what the row says. A failed assertion names the place of the row in its table. It fails where
    /// there is no memory to ask.
    fn holds(&self, rt: &impl Abort, alloc: Global, place: usize) -> Result<(), AllocError>;
}

/// Asserts what each row says.
pub(crate) fn hold<C: Case>(rt: &impl Abort, alloc: Global, cases: &[C]) -> Result<(), AllocError> {
    for place in 0..cases.len() {
        cases[place].holds(rt, alloc, place)?;
    }
    Ok(())
}

/// What `certify` answers to these words.
pub(crate) fn certify(alloc: Global, words: Text, change: &Change) -> Result<Answer, AllocError> {
    answer_to(alloc, words, files_of(alloc, change)?)
}

/// What `audit` answers to the text of a certificate.
pub(crate) fn audit(
    alloc: Global,
    change: &Change,
    certificate: Vec<u8>,
) -> Result<Answer, AllocError> {
    let mut files = files_of(alloc, change)?;
    files.push(file(alloc, "certificate", certificate)?)?;
    answer_to(alloc, AUDIT, files)
}

/// What the program answers to these words, over these files.
pub(crate) fn answer_to(
    alloc: Global,
    words: Text,
    files: Vec<MemoryFile>,
) -> Result<Answer, AllocError> {
    let words = strings(alloc, words)?;
    let mut files = MemoryFiles::new(files, Vec::new(alloc), PIECE);
    answer_over(alloc, &words, &mut files)
}

/// The same over files that can be opened.
fn answer_over(
    alloc: Global,
    words: &[String],
    files: &mut MemoryFiles,
) -> Result<Answer, AllocError> {
    let mut out = MemorySink::new(alloc, ROOM, Vec::new(alloc), PIECE)?;
    let status = run(alloc, words, files, &mut out);
    let text = out.taken().to_vec(alloc)?;
    Ok(Answer { text, status })
}

/// The files of a change.
fn files_of(alloc: Global, change: &Change) -> Result<Vec<MemoryFile>, AllocError> {
    let mut files = Vec::new(alloc);
    files.push(file(alloc, "before", bytes(alloc, change.before)?)?)?;
    files.push(file(alloc, "after", bytes(alloc, change.after)?)?)?;
    files.push(file(alloc, "locations", bytes(alloc, LOCATIONS)?)?)?;
    files.push(file(alloc, "spec", bytes(alloc, change.spec)?)?)?;
    Ok(files)
}

/// A file of this name.
pub(crate) fn file(alloc: Global, name: &str, bytes: Vec<u8>) -> Result<MemoryFile, AllocError> {
    let name = String::from_str(alloc, name)?;
    Ok(MemoryFile { name, bytes })
}

/// The bytes of a text.
pub(crate) fn bytes(alloc: Global, text: Text) -> Result<Vec<u8>, AllocError> {
    Ok(text.join(alloc, "")?.into_bytes())
}

fn strings(alloc: Global, texts: &[&str]) -> Result<Vec<String>, AllocError> {
    let mut strings = Vec::new(alloc);
    for text in texts {
        strings.push(String::from_str(alloc, text)?)?;
    }
    Ok(strings)
}
