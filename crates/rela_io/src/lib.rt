//! Files to read and a place to write, as a program sees them from inside: each call answers, or
//! answers that it failed and counts the failure.
#![tactic(auto)]

mod calls;
mod disk_files;
mod errors;
mod memory_files;
mod memory_sink;
mod outside;
mod reading;
mod std_sink;
mod writing;

pub use disk_files::DiskFiles;
pub use errors::{Fault, ReadError};
pub use memory_files::{MemoryFile, MemoryFiles};
pub use memory_sink::MemorySink;
pub use outside::{Files, Sink};
pub use reading::read_all;
pub use std_sink::StdSink;
pub use writing::write_all;
