//! Laws of shapes. Each is a function that does nothing, and its contract is the law.

ghost use Rattle.std.specs.Prelude.{◌≡◌, ℕ, ◌≤◌, Bool, true, List, length};
ghost use Rattle.rela_names.specs.Alphabet.{path_symbols};
ghost use Rattle.rela_names.specs.declared.level.Level.{Level};
ghost use Rattle.rela_trans.specs.Machine.{Machine};
ghost use Rattle.rela_trans.specs.Runs.{Relates};
ghost use Rattle.rela_rir.specs.Words.{ImageOf};
ghost use Rattle.rela_translate.specs.Verdict.{AreMet};
ghost use Rattle.rela_graph.specs.Paths.{Paths};
ghost use Rattle.rela_graph.specs.Topology.{IsTopology};
ghost use Rattle.rela_build.specs.Reading.{read_by};
ghost use Rattle.rela_snapshot.specs.PairsLocated.{IsPairLocated};
ghost use Rattle.rela_snapshot.specs.declared.pairing.FlowPair.{FlowPair};
ghost use Rattle.rela_shape.specs.Renamed.{AreRenamed};
ghost use Rattle.rela_shape.specs.Shape.{IsShape, same_shape};
ghost use Rattle.rela_shape.specs.declared.shape.Shape.{Shape};

/// Flows of one shape are one flow but for the names of locations.
pub fn one_shape_renames()
    ensures { (blocks : List ℕ) (level : Level) (pair other : FlowPair) (shape found : Shape) →
        IsShape blocks level pair shape → IsShape blocks level other found →
        same_shape shape found ≡ true → AreRenamed blocks level pair other }
{}

/// Flows that are one but for the names of locations, each within its block, meet alike what is
/// told by transducers over these blocks.
pub fn renamed_flows_meet_alike()
    ensures { (blocks : List ℕ) (level : Level) (names : List (List ℕ)) (pair other : FlowPair)
        (before after : Machine) (at_most : Bool) → path_symbols names ≤ length blocks →
        IsTopology pair.before → IsTopology pair.after →
        IsPairLocated names level pair → IsPairLocated names level other →
        AreRenamed blocks level pair other →
        AreMet at_most (ImageOf (Paths pair.before level names) (Relates (read_by blocks) before))
        (ImageOf (Paths pair.after level names) (Relates (read_by blocks) after)) →
        AreMet at_most (ImageOf (Paths other.before level names) (Relates (read_by blocks) before))
        (ImageOf (Paths other.after level names) (Relates (read_by blocks) after)) }
{}
