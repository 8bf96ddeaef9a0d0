//! The words of the command line: what they ask for, or that they ask for nothing.
#![tactic(auto)]

mod command;
mod commands;
mod errors;
mod number;
mod parts;
mod reading;
mod verb;

pub use command::{
    Audit, Certify, Check, Command, DEFAULT_STATES, Demo, Fib, Fmt, MAX_LAYERS, MAX_STATES, Rir,
    Zone,
};
pub use errors::WordsError;
pub use reading::read_words;
