//! What two reports on the same assertions have to do with each other. The law is a function that
//! does nothing, and its contract is the law.
ghost use Rattle.std.specs.Prelude.{ℕ, List};
ghost use Rattle.std.specs.List.{AllZip};
ghost use Rattle.rela_assertions.specs.Agreement.{AgreeInRows, AreClaimsAlike, AreFlowsAlike};
ghost use Rattle.rela_assertions.specs.Rows.{AreRowsOf};
ghost use Rattle.rela_claims.specs.declared.claim.Claim.{Claim};
ghost use Rattle.rela_names.specs.declared.level.Level.{Level};
ghost use Rattle.rela_snapshot.specs.declared.pairing.FlowPair.{FlowPair};

use crate::row::AssertionRow;
use rela_names::shortlex_is_total;

/// Right rows of the same flows under the same assertions differ at most where one of them leaves
/// something undecided: what doesn't hold has just one first word, and just one side has it.
pub fn right_rows_agree()
    ensures agree { (names : List (List ℕ)) (level : Level) (states : ℕ)
        (pairs others : List FlowPair) (claims asserted : List Claim)
        (rows told : List AssertionRow) →
        AllZip (AreFlowsAlike names level) pairs others → AllZip AreClaimsAlike claims asserted →
        AreRowsOf names level states pairs claims rows →
        AreRowsOf names level states others asserted told → AgreeInRows rows told }
{
    shortlex_is_total();
}
