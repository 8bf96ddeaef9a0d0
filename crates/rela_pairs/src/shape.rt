//! How many states two machines have.
ghost use Rattle.std.specs.Prelude.{◌≡◌, ℕ, ◌*◌, ◌^◌, ◌≤◌, IfSome};

/// How many states each of two machines has. They are numbered from 0.
#[derive(Clone, Copy, Debug, PartialEq, Eq)]
pub struct Shape {
    /// The number of states of the left machine.
    pub lefts: usize,
    /// The number of states of the right machine.
    pub rights: usize,
}

/// The greatest number of places of a table.
const MOST_PLACES: usize = 1 << 20;

/// How many places a table may have for each state, so that it costs little beside the machines.
const PLACES_PER_STATE: usize = 64;

impl Shape {
    /// The number of pairs of states, where they are few enough for a table of them all, and else
    /// `None`: at most `MOST_PLACES`, and at most `PLACES_PER_STATE` for each state of the two
    /// machines.
    pub(crate) fn table_places(self) -> Option<usize>
        ensures count { IfSome result (λ places. places ≡ self.lefts * self.rights) }
        ensures few { IfSome result (λ places. places ≤ 2 ^ 20) }
    {
        let places = self.lefts.checked_mul(self.rights)?;
        let states = self.lefts.saturating_add(self.rights);
        let most = states.saturating_mul(PLACES_PER_STATE).min(MOST_PLACES);
        (places <= most).then_some(places)
    }
}
