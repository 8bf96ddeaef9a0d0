//! The tokens of a specification's text.
#![tactic(auto)]

mod cut;
mod error;
mod front;
mod readings;
mod token;

pub use cut::{MAX_TEXT_LEN, tokens};
pub use error::SpecError;
pub use readings::{cuts_join, one_reading};
pub use token::{Token, TokenKind};
