//! Parts of a tree, the second of which may have a fault, and the bracket behind them. They know of no
//! form of a tree, so that no drop of one is written out in a caller.

ghost use Rattle.std.specs.Prelude.{◌≡◌, ◌≢◌, ◌<◌, Ok, Err, length, IfOk, IfErr, OnOk};
ghost use Rattle.rela_lex.specs.declared.error.SpecError.TheVariants.{Memory};
ghost use Rattle.rela_spec.specs.ReadWords.{read_mark};

use rela_lex::SpecError;
use rela_names::Boxed;
use rela_spec::Cursor;
use std::alloc::{AllocError, Global};

/// Both parts, or the fault of the second.
pub(crate) fn paired<T: Drop, U: Drop>(
    first: T,
    second: Result<U, SpecError>,
) -> Result<(T, U), SpecError>
    ensures first { IfOk result (λ both. both.0 ≡ first) }
    ensures second { IfOk result (λ both. second ≡ Ok both.1) }
    ensures fault { IfErr result (λ e. second ≡ Err e) }
{
    match second {
        Ok(second) => Ok((first, second)),
        Err(refused) => Err(refused),
    }
}

/// The part in a box. The closing bracket has to come next.
pub(crate) fn closed_box<T: Drop>(
    alloc: Global,
    cursor: &mut Cursor,
    part: T,
) -> Result<Boxed<T>, SpecError>
    ensures end { cursor.new.end ≡ cursor.old.end }
    ensures part { IfOk result (λ made. made ≡ part) }
    ensures read { IfOk result (λ _. read_mark cursor.old.end 41 cursor.old.rest.now
        ≡ Ok (tt, cursor.new.rest.now)) }
    ensures fault { IfErr result (λ e. e ≢ Memory →
        read_mark cursor.old.end 41 cursor.old.rest.now ≡ Err e) }
    ensures less { OnOk result (length cursor.new.rest.now < length cursor.old.rest.now) }
{
    let part = cursor.closed(part, b')')?;
    Ok(Boxed::new(alloc, part)?)
}

/// Both parts, each in a box. The closing bracket has to come next.
pub(crate) fn closed_boxes<T: Drop, U: Drop>(
    alloc: Global,
    cursor: &mut Cursor,
    both: (T, U),
) -> Result<(Boxed<T>, Boxed<U>), SpecError>
    ensures end { cursor.new.end ≡ cursor.old.end }
    ensures first { IfOk result (λ boxes. boxes.0 ≡ both.0) }
    ensures second { IfOk result (λ boxes. boxes.1 ≡ both.1) }
    ensures read { IfOk result (λ _. read_mark cursor.old.end 41 cursor.old.rest.now
        ≡ Ok (tt, cursor.new.rest.now)) }
    ensures fault { IfErr result (λ e. e ≢ Memory →
        read_mark cursor.old.end 41 cursor.old.rest.now ≡ Err e) }
    ensures less { OnOk result (length cursor.new.rest.now < length cursor.old.rest.now) }
{
    let both = cursor.closed(both, b')')?;
    Ok(boxed(alloc, both)?)
}

/// Both parts, each in a box. The only error is want of memory.
fn boxed<T: Drop, U: Drop>(alloc: Global, both: (T, U)) -> Result<(Boxed<T>, Boxed<U>), AllocError>
    ensures first { IfOk result (λ boxes. boxes.0 ≡ both.0) }
    ensures second { IfOk result (λ boxes. boxes.1 ≡ both.1) }
{
    let (first, second) = both;
    let first = Boxed::new(alloc, first)?;
    let second = Boxed::new(alloc, second)?;
    Ok((first, second))
}
