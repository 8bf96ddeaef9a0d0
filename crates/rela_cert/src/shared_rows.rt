//! What rows share: flows that look the same at the level of a check have the same paths there, so
//! that what is found of the check on one of them holds of each.

ghost use Rattle.std.specs.Prelude.{ℕ, length};
ghost use Rattle.rela_certfile.specs.declared.rows.ListedRow.{ListedRow};
ghost use Rattle.rela_cert.specs.Certified.{AreBlocksMade, IsExcused};
ghost use Rattle.rela_cert.specs.Sharing.{CarriesOver, IsMetBy};

use crate::scene_laws::Rows;
use rela_names::Alphabet;
use rela_rir::{licences_carry_over, scenes_alike};
use rela_snapshot::FlowPair;
use rela_translate::Check;

/// What is found of a check on a flow holds of each flow that looks the same at the check's level:
/// that the check is met, which blocks show it, and that its row may be left out. The call does
/// nothing, and its contract is this law.
pub(crate) fn rows_carry_over(check: &Check, pair: &FlowPair, other: &FlowPair, alphabet: &Alphabet)
    ensures met { CarriesOver check.now pair.now other.now alphabet.now
        (IsMetBy (length alphabet.now) check.now) }
    ensures made { (row : ListedRow) → CarriesOver check.now pair.now other.now alphabet.now
        (AreBlocksMade (length alphabet.now) row check.now) }
    ensures excused { (limit : ℕ) → CarriesOver check.now pair.now other.now alphabet.now
        (IsExcused (length alphabet.now) limit check.now) }
{
    let level = check.level();
    other.before.same_outline_same_paths(&pair.before, level);
    other.before.same_outline_same_arrivals(&pair.before, level);
    other.after.same_outline_same_paths(&pair.after, level);
    other.after.same_outline_same_arrivals(&pair.after, level);
    scenes_alike::<Rows>();
    licences_carry_over::<Rows>();
}
