//! The program `rela`: its words, the files of the disk and standard output, joined to `run`.
#![tactic(auto)]

use rela_io::{DiskFiles, StdSink};
use rela_top::{NO_MEMORY, run};
use std::process::ExitCode;
use std::rt::Env;
use std::{env, io};

/// The exit status where the words of the command line can't be had as texts.
const NO_WORDS: u8 = 8;

/// The words of the command line after the program's name, or the status to end with: [`NO_MEMORY`]
/// where memory runs out, else [`NO_WORDS`].
fn words(rt: &(impl Env + AllocGlobal)) -> Result<Vec<String>, u8> {
    let mut words = Vec::new(rt.alloc());
    for word in env::args(rt).map_err(|error| status_of(&error))?.skip(1) {
        words.push(word).map_err(|_| NO_MEMORY)?;
    }
    Ok(words)
}

/// The status to end with where the words can't be had for this reason.
fn status_of(error: &io::Error) -> u8 {
    match error.kind() {
        io::ErrorKind::OutOfMemory => NO_MEMORY,
        _ => NO_WORDS,
    }
}

/// Carries out the command that the words give, over the files of the disk and standard output, and
/// ends with its status.
fn main(rt: HostRuntime) -> ExitCode {
    let words = match words(&rt) {
        Ok(words) => words,
        Err(status) => return ExitCode::from(status),
    };
    let mut files = DiskFiles::new(&rt);
    let mut out = StdSink::new(&rt);
    ExitCode::from(run(rt.alloc(), words.as_slice(), &mut files, &mut out))
}
