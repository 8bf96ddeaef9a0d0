//! Plain JSON values, read token by token with no tree.
#![tactic(auto)]

mod laws;
mod layout;
mod lists;
mod members;
mod number;
mod piece;
mod plain;
mod reader;
mod scan;
mod unread;

pub use laws::what_holds;
pub use layout::{close_object, close_text, open_array, open_object, take_key};
pub use lists::read_text;
pub use members::{find, read_members};
pub use number::read_number;
pub use piece::{Member, Piece, read_piece};
pub use reader::{Reader, Token};
pub use unread::Unread;
