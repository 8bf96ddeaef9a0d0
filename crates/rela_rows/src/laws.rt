//! What two reports on the same checks have to do with each other. The law is a function that does
//! nothing, and its contract is the law.

ghost use Rattle.std.specs.Prelude.{ℕ, List};
ghost use Rattle.rela_report.specs.declared.rows.ReportRow.{ReportRow};
ghost use Rattle.rela_rows.specs.Rows.{AgreeInRows, AreRowsOf};
ghost use Rattle.rela_same_flows.specs.SameFlows.{SamePairs};
ghost use Rattle.rela_snapshot.specs.declared.pairing.FlowPair.{FlowPair};
ghost use Rattle.rela_translate.specs.Checked.{Checked};

use rela_plan::plans_are_equal;
use rela_same_flows::same_graphs_same_paths;

/// Right rows of the same flows under the same checks differ at most where one of them leaves the
/// verdict open: a violation has just one first word, and just one side has it.
pub fn right_rows_agree()
    ensures agree { (names : List (List ℕ)) (states : ℕ) (checks : List Checked)
        (pairs others : List FlowPair) (rows told : List ReportRow) → SamePairs pairs others →
        AreRowsOf names states checks pairs rows → AreRowsOf names states checks others told →
        AgreeInRows rows told }
{
    plans_are_equal();
    same_graphs_same_paths();
}
