//! What values that are loaded from the same inputs have in common. Each law is a function that does
//! nothing, and its contract is the law.

ghost use Rattle.std.specs.Prelude.{◌≡◌, List};
ghost use Rattle.rela_locations.specs.Network.{Network};
ghost use Rattle.rela_rir.specs.declared.set.SymbolSet.{SymbolSet};
ghost use Rattle.rela_same_flows.specs.SameFlows.{SameFlows, SamePairs};
ghost use Rattle.rela_snapshot.specs.FlowEntry.{ListedFlow};
ghost use Rattle.rela_snapshot.specs.Flows.{AreFlowsOf};
ghost use Rattle.rela_snapshot.specs.Pair.{pairs_of};
ghost use Rattle.rela_snapshot.specs.declared.snapshot.Flow.{Flow};
ghost use Rattle.rela_spec.specs.declared.tree.SpecFile.{SpecFile};
ghost use Rattle.rela_inputs.specs.Specified.{IsSpecified, SameSpecified, Specified};

/// What is asked for is settled wholly: where the same is asked for, the checks are equal, and so are
/// two sets of symbols with one sign and the same members.
pub fn same_checks_are_equal()
    ensures specified { (specified other : Specified) → SameSpecified specified other →
        specified ≡ other }
    ensures sets { (set other : SymbolSet) → set.negated ≡ other.negated →
        set.members ≡ other.members → set ≡ other }
{}

/// What is loaded of the same entries and of the same tree is the same.
pub fn loads_are_the_same()
    ensures flows { (listed : List ListedFlow) (flows others : List Flow) →
        AreFlowsOf listed flows → AreFlowsOf listed others → SameFlows flows others }
    ensures pairs { (before others after later : List Flow) → SameFlows before others →
        SameFlows after later → SamePairs (pairs_of before after) (pairs_of others later) }
    ensures specified { (network : Network) (tree : SpecFile) (specified other : Specified) →
        IsSpecified network tree specified → IsSpecified network tree other →
        SameSpecified specified other }
{}
