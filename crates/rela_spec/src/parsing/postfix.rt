//! What repeats a path expression.

ghost use Rattle.std.specs.Prelude.{◌≡◌, ◌≢◌, ◌<◌, ◌≤◌, Ok, Err, length, IfOk, IfErr, OnOk};
ghost use Rattle.rela_lex.specs.declared.error.SpecError.TheVariants.{Memory};
ghost use Rattle.rela_spec.specs.ReadPaths.{read_times, read_postfix};
ghost use Rattle.rela_spec.specs.Repeated.{repeated};
ghost use Rattle.rela_spec.specs.declared.tree.PathExpr.{PathExpr};

use crate::parsing::cursor::Cursor;
use crate::tree::PathExpr;
use rela_lex::SpecError;
use rela_names::Boxed;
use std::alloc::{AllocError, Global};

/// How often a part is repeated.
#[derive(Clone, Copy)]
enum Repetition {
    /// `*`: none, one or more times.
    Star,
    /// `+`: one or more times.
    Plus,
    /// `?`: none or one time.
    Maybe,
    /// `{n}`: exactly so many times.
    Times(u32),
}

/// The part, repeated as what comes next says, or the part itself where nothing repeats it. `room`
/// more brackets may be opened.
pub(crate) fn postfix(
    alloc: Global,
    cursor: &mut Cursor,
    room: usize,
    part: PathExpr,
) -> Result<PathExpr, SpecError>
    ensures end { cursor.new.end ≡ cursor.old.end }
    ensures read { IfOk result (λ path. read_postfix cursor.old.end room part cursor.old.rest.now
        ≡ Ok (path, cursor.new.rest.now)) }
    ensures fault { IfErr result (λ e. e ≢ Memory →
        read_postfix cursor.old.end room part cursor.old.rest.now ≡ Err e) }
    ensures left { OnOk result (length cursor.new.rest.now ≤ length cursor.old.rest.now) }
{
    let (part, repetition) = repetition_behind(cursor, room, part)?;
    Ok(repeated(alloc, part, repetition)?)
}

/// The repetition that comes next, if one does, with the value that was read before it. An error
/// drops the value here, for the reason that [`Cursor::closed`] has.
fn repetition_behind<T: Drop>(
    cursor: &mut Cursor,
    room: usize,
    before: T,
) -> Result<(T, Option<Repetition>), SpecError>
    ensures end { cursor.new.end ≡ cursor.old.end }
    ensures same { IfOk result (λ both. both.0 ≡ before) }
    ensures read { IfOk result (λ both. (part : PathExpr) →
        read_postfix cursor.old.end room part cursor.old.rest.now ≡ Ok (
          repeated both.1 part,
          cursor.new.rest.now,
        )) }
    ensures fault { IfErr result (λ e. (part : PathExpr) →
        read_postfix cursor.old.end room part cursor.old.rest.now ≡ Err e) }
    ensures left { OnOk result (length cursor.new.rest.now ≤ length cursor.old.rest.now) }
{
    let repetition = next_repetition(cursor, room)?;
    Ok((before, repetition))
}

/// The repetition that comes next, or `None` where none does.
#[tactic(auto, unfolding(crate::specs::ReadPaths::read_postfix))]
fn next_repetition(cursor: &mut Cursor, room: usize) -> Result<Option<Repetition>, SpecError>
    ensures end { cursor.new.end ≡ cursor.old.end }
    ensures read { IfOk result (λ found. (part : PathExpr) →
        read_postfix cursor.old.end room part cursor.old.rest.now ≡ Ok (
          repeated found part,
          cursor.new.rest.now,
        )) }
    ensures fault { IfErr result (λ e. (part : PathExpr) →
        read_postfix cursor.old.end room part cursor.old.rest.now ≡ Err e) }
    ensures left { OnOk result (length cursor.new.rest.now ≤ length cursor.old.rest.now) }
{
    if cursor.take_mark(b'*') {
        return Ok(Some(Repetition::Star));
    }
    if cursor.take_mark(b'+') {
        return Ok(Some(Repetition::Plus));
    }
    if cursor.take_mark(b'?') {
        return Ok(Some(Repetition::Maybe));
    }
    if !cursor.is_at_mark(b'{') {
        return Ok(None);
    }
    Ok(Some(Repetition::Times(times(cursor, room)?)))
}

/// The part, repeated so, or the part itself where there is no repetition.
fn repeated(
    alloc: Global,
    part: PathExpr,
    repetition: Option<Repetition>,
) -> Result<PathExpr, AllocError>
    ensures { IfOk result (λ path. path ≡ repeated repetition part) }
{
    let Some(repetition) = repetition else {
        return Ok(part);
    };
    let part = Boxed::new(alloc, part)?;
    Ok(match repetition {
        Repetition::Star => PathExpr::Star(part),
        Repetition::Plus => PathExpr::Plus(part),
        Repetition::Maybe => PathExpr::Maybe(part),
        Repetition::Times(n) => PathExpr::Times { part, n },
    })
}

/// The number of repetitions in its braces, which has to come next. A bad one counts as 0.
#[tactic(auto, unfolding(crate::specs::ReadPaths::read_times))]
fn times(cursor: &mut Cursor, room: usize) -> Result<u32, SpecError>
    ensures end { cursor.new.end ≡ cursor.old.end }
    ensures read { IfOk result (λ n. read_times cursor.old.end room cursor.old.rest.now
        ≡ Ok (n, cursor.new.rest.now)) }
    ensures fault { IfErr result (λ e. read_times cursor.old.end room cursor.old.rest.now ≡ Err e) }
    ensures less { OnOk result (length cursor.new.rest.now < length cursor.old.rest.now) }
{
    cursor.open(b'{', room)?;
    let n = cursor.number()?;
    cursor.mark(b'}')?;
    Ok(n)
}
