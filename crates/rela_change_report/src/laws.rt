//! What the reports on changes that no file can tell apart have to do with each other. The law is a
//! function that does nothing, and its contract is the law.

ghost use Rattle.std.specs.Prelude.{◌≡◌, ℕ, Bool, List, Result, Ok};
ghost use Rattle.rela_change_report.specs.Reports.{Reports, SameReports};
ghost use Rattle.rela_inputs.specs.Answer.{Answer};
ghost use Rattle.rela_inputs.specs.Given.{Agrees};
ghost use Rattle.rela_inputs.specs.Loaded.{Loaded, SameLoaded, names_of};
ghost use Rattle.rela_inputs.specs.declared.refusal.Refusal.{Refusal};
ghost use Rattle.rela_report.specs.declared.rows.ReportRow.{ReportRow};
ghost use Rattle.rela_rows.specs.Rows.{AgreeInRows, AreRowsOf};

use rela_inputs::same_checks_are_equal;
use rela_rows::right_rows_agree;

/// The reports on changes that no file can tell apart differ at most where one of them leaves a
/// verdict open.
pub fn same_changes_agree()
    ensures names { (change other : Loaded) → SameLoaded change other →
        names_of change ≡ names_of other }
    ensures rows { (states : ℕ) (change other : Loaded) (rows told : List ReportRow) →
        SameLoaded change other →
        AreRowsOf (names_of change) states change.specified.checks change.pairs rows →
        AreRowsOf (names_of other) states other.specified.checks other.pairs told →
        AgreeInRows rows told }
    ensures reports { (steady : Bool) (states : ℕ) (change other : Loaded) (answer : Answer)
        (given : Result Answer Refusal) → SameLoaded change other →
        Reports states change (Ok answer) → Reports states other given →
        Agrees steady SameReports (Ok answer) given }
{
    same_checks_are_equal();
    right_rows_agree();
}
