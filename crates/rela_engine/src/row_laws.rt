//! Rows of flows that share a verdict.
ghost use Rattle.std.specs.Prelude.{ℕ};
ghost use Rattle.rela_build.specs.PathSets.{Paths, no_paths};
ghost use Rattle.rela_report.specs.declared.rows.Row.{Row};
ghost use Rattle.rela_translate.specs.Checked.{Checked};
ghost use Rattle.rela_engine.specs.FlowMachines.{two_scenes};
ghost use Rattle.rela_engine.specs.RowOf.{RowOf};
ghost use Rattle.rela_engine.specs.Scenes.{SamePathSets};

use rela_rir::{Staging, licences_carry_over};
use std::marker::{Brand, PhantomData};

/// The paths of a flow before and after a change, which only contracts name.
pub trait TwoPathSets {
    ghost paths: { Paths };
}

// What a caller's proof picks stands in the place of this one.
impl TwoPathSets for Brand {
    ghost paths = { no_paths };
}

/// The scenes of checks for the paths of both, which only contracts name.
struct Both<P: TwoPathSets, Q: TwoPathSets> {
    /// The two path sets.
    of: PhantomData<(P, Q)>,
}

impl<P: TwoPathSets, Q: TwoPathSets> Staging for Both<P, Q> {
    ghost scene = { two_scenes P.paths Q.paths };
}

/// A row of one flow is right for each flow whose paths have the same words and the same arrivals. The
/// call does nothing, and its contract is this law.
pub fn rows_carry_over<P: TwoPathSets, Q: TwoPathSets>()
    ensures { SamePathSets P.paths Q.paths → (check : Checked) (locations limit : ℕ) (row : Row) →
        RowOf check locations P.paths limit row → RowOf check locations Q.paths limit row }
{
    licences_carry_over::<Both<P, Q>>();
}
