//! Members: a location of the level, the locations within what a name picks, `drop` or `loop`.

ghost use Rattle.std.specs.Prelude.{◌≡◌, ◌≢◌, ◌<◌, Ok, Err, length, IfOk, IfErr, OnOk};
ghost use Rattle.rela_lex.specs.declared.error.SpecError.TheVariants.{Memory};
ghost use Rattle.rela_rirfile.specs.ReadWords.{read_member, read_picked};

use crate::parsing::names::name;
use rela_lex::SpecError;
use rela_spec::{Cursor, Member, is_at_picking, picked_by};
use std::alloc::Global;

/// The member that has to come next, where `room` more brackets may be opened.
#[tactic(auto, unfolding(crate::specs::ReadWords::read_member))]
pub(crate) fn member(alloc: Global, cursor: &mut Cursor, room: usize) -> Result<Member, SpecError>
    ensures end { cursor.new.end ≡ cursor.old.end }
    ensures read { IfOk result (λ member. read_member cursor.old.end room cursor.old.rest.now
        ≡ Ok (member, cursor.new.rest.now)) }
    ensures fault { IfErr result (λ e. e ≢ Memory →
        read_member cursor.old.end room cursor.old.rest.now ≡ Err e) }
    ensures less { OnOk result (length cursor.new.rest.now < length cursor.old.rest.now) }
{
    if cursor.take_word(b"drop") {
        return Ok(Member::Drop);
    }
    if cursor.take_word(b"loop") {
        return Ok(Member::Loop);
    }
    if is_at_picking(cursor) {
        return picked(alloc, cursor, room);
    }
    let at = cursor.here();
    let name = name(alloc, cursor)?;
    Ok(Member::Here { name, at })
}

/// The member that picks locations by a word and a name in brackets, which has to come next, where
/// `room` more brackets may be opened.
#[tactic(auto, unfolding(crate::specs::ReadWords::read_picked))]
fn picked(alloc: Global, cursor: &mut Cursor, room: usize) -> Result<Member, SpecError>
    ensures end { cursor.new.end ≡ cursor.old.end }
    ensures read { IfOk result (λ member. read_picked cursor.old.end room cursor.old.rest.now
        ≡ Ok (member, cursor.new.rest.now)) }
    ensures fault { IfErr result (λ e. e ≢ Memory →
        read_picked cursor.old.end room cursor.old.rest.now ≡ Err e) }
    ensures less { OnOk result (length cursor.new.rest.now < length cursor.old.rest.now) }
{
    let by = picked_by(cursor)?;
    cursor.open(b'(', room)?;
    let at = cursor.here();
    let name = name(alloc, cursor)?;
    cursor.mark(b')')?;
    Ok(Member::Within { by, name, at })
}
