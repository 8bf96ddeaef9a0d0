//! Laws of plans. Each is a function that does nothing, and its contract is the law.

ghost use Rattle.std.specs.Prelude.{◌≡◌, List};
ghost use Rattle.rela_flows.specs.Plan.{Plan};
ghost use Rattle.rela_flows.specs.declared.planning.PlannedRow.{PlannedRow};
ghost use Rattle.rela_flows.specs.declared.predicate.FlowClass.{FlowClass};
ghost use Rattle.rela_flows.specs.declared.predicate.Predicate.{Predicate};

/// The flows and the checks settle the plan.
pub fn plans_are_equal()
    ensures { (classes : List FlowClass) (checks : List Predicate)
        (rows others : List PlannedRow) → Plan classes checks rows → Plan classes checks others →
        rows ≡ others }
{}
