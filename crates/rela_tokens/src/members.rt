//! The members of an object.

ghost use Rattle.std.specs.Prelude.{◌≡◌, ◌<◌, IfOk, OnOk, length, map, option_map, ◌∷◌};
ghost use Rattle.json.specs.Token.{begin_object};
ghost use Rattle.serde_json.specs.Data.{no_members};
ghost use Rattle.serde_json.specs.Find.{get_member};
ghost use Rattle.rela_tokens.specs.Holds.{Holds};
ghost use Rattle.rela_tokens.specs.Objects.{object_of, puts};
ghost use Rattle.rela_tokens.specs.Pieces.{data_of, member_of};

use crate::piece::{Member, Piece, read_piece};
use crate::reader::{Reader, Token};
use crate::unread::Unread;
use std::alloc::Global;

/// Takes an object each of whose members is a piece, and gives them in order. Time and space:
/// linear in the object.
///
/// # Errors
///
/// `Unread`, which says nothing of what stands there. The reader may then stand anywhere.
pub fn read_members<'a>(alloc: Global, reader: &mut Reader<'a>) -> Result<Vec<Member<'a>>, Unread>
    ensures members { IfOk result (λ members.
        Holds 3 reader.old (object_of (map member_of members.items)) reader.new) }
    ensures shorter { OnOk result (length reader.new < length reader.old) }
{
    match reader.next() {
        Some(Token::BeginObject) => read_opened_members(alloc, reader),
        _ => Err(Unread),
    }
}

/// How many members an object has room for before it grows.
const ROOM: usize = 8;

/// Takes the rest of an object, behind its opening brace.
fn read_opened_members<'a>(
    alloc: Global,
    reader: &mut Reader<'a>,
) -> Result<Vec<Member<'a>>, Unread>
    ensures members { IfOk result (λ members.
        Holds 3 (begin_object ∷ reader.old) (object_of (map member_of members.items)) reader.new) }
    ensures shorter { OnOk result (length reader.new < length reader.old) }
{
    let mut members = Vec::with_capacity(alloc, ROOM)?;
    'members: while let Some(name) = reader.next_key()? {
        let piece = read_piece(alloc, reader)?;
        members.push(Member { name, piece })?;
    }
    Ok(members)
}

/// The last member of this name, which is the one that counts. Time: linear in the members.
pub fn find<'m, 'a>(members: &'m [Member<'a>], name: &str) -> Option<&'m Piece<'a>>
    ensures found { option_map (λ piece. data_of piece.now) result
        ≡ get_member name.now (puts (map member_of members.now) no_members) }
{
    let mut left = members.len();
    while left > 0 {
        left -= 1;
        if members[left].name == name {
            return Some(&members[left].piece);
        }
    }
    None
}
