//! Properties of sets of states.
ghost use Rattle.std.specs.Prelude.{ℕ, ◌↔◌, List, IsTrue};

/// A property of sets of states. Contracts see a set as the list of its states in ascending order.
pub trait Wanted {
    // whether the set has the property
    ghost wants: { Self → List ℕ → Type 0 };

    /// Whether the set of these states, which come in ascending order, has the property.
    fn is_wanted(&self, set: &[usize]) -> bool
        ensures { IsTrue result ↔ wants self.now set.now };
}
