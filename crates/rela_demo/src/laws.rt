//! What holds of the values of an input.

ghost use Rattle.std.specs.Prelude.{ℕ};
ghost use Rattle.rela_demo.specs.Input.{DoNotDiffer};

/// The two snapshots of an input can be paired: no flow of the one differs in its prefixes or its
/// class from that of its name in the other.
pub fn flows_do_not_differ()
    ensures { (n : ℕ) → DoNotDiffer n }
{}
