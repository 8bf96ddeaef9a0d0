//! The outside as two traits, for which a test or a proof can stand in something that tells all
//! its bytes.
ghost use Rattle.std.specs.Prelude.{◌≡◌, ℕ, ◌+◌, ◌<◌, ◌≤◌, ◌↔◌, List, [], length, take, Option, None, Bool, Ok, IsTrue, IsFalse, IsSome, IsErr, IfSome, IfOk, OnOk, OnErr};
ghost use Rattle.rela_io.specs.Count.{Rose, full};
ghost use Rattle.rela_io.specs.Bytes.{before_told, after_told};
ghost use Rattle.rela_io.specs.Held.{FilesByName, Lacks};

use crate::errors::Fault;

/// Files that are opened by name and read one at a time.
///
/// A failed call raises a count, so that a caller's contract can say that it failed exactly where
/// the count rose. A counter that reaches 2^64 - 1 stays there.
pub trait Files {
    /// The bytes under each name, where they are told.
    ghost holds: { Self → Option FilesByName };

    /// Whether a file is open.
    ghost is_open: { Self → Bool };

    /// The bytes of the open file that no read has given yet, where they are told.
    ghost left: { Self → Option (List ℕ) };

    /// How many bytes were given since the last `open` that succeeded.
    ghost given: { Self → ℕ };

    /// How many calls have failed.
    ghost faults: { Self → ℕ };

    /// Whether only a name that isn't there, or a read with no open file, is a fault.
    ghost steady: { Self → Bool };

    /// Opens the file of this name at its start, and closes the one that was open.
    ///
    /// # Errors
    ///
    /// `Fault` for a name that isn't there, and where the outside fails. No file is open then.
    fn open(&mut self, name: &str) -> Result<(), Fault>
        ensures ok_opens { OnOk result (IsTrue (is_open self.new)) }
        ensures ok_gave_nothing { OnOk result (given self.new ≡ 0) }
        ensures ok_tells_file { OnOk result (IfSome (holds self.old) (λ files.
            IsSome (files name.now) × (left self.new ≡ files name.now))) }
        ensures ok_keeps_count { OnOk result (faults self.new ≡ faults self.old) }

        ensures fault_closes { OnErr result (IsFalse (is_open self.new)) }
        ensures fault_leaves_nothing { OnErr result (left self.new ≡ None) }
        ensures fault_gives_nothing { OnErr result (given self.new ≡ given self.old) }
        ensures fault_counted { OnErr result (Rose (faults self.old) (faults self.new)) }
        ensures missing_is_fault { Lacks (holds self.old) name.now → IsErr result }
        ensures steady_fails_only_at_missing { OnErr result (IsTrue (steady self.old) →
            Lacks (holds self.old) name.now) }

        ensures same_holds { holds self.new ≡ holds self.old }
        ensures same_steady { steady self.new ≡ steady self.old }
        ensures count_never_falls { faults self.old ≤ faults self.new }
        ensures count_stops_at_full { faults self.old ≤ full → faults self.new ≤ full };

    /// Reads the next bytes of the open file into the front of `into`, and says how many. It gives
    /// none at the end of the file, and for an empty slice.
    ///
    /// # Errors
    ///
    /// `Fault` with no open file, unless the slice is empty, and where the outside fails.
    fn read(&mut self, into: &mut [u8]) -> Result<usize, Fault>
        ensures ok_within { IfOk result (λ n. n ≤ length into.new) }
        ensures ok_gives_next { IfOk result (λ n. left self.old
            ≡ before_told (take n into.new) (left self.new)) }
        ensures ok_none_only_at_end { 0 < length into.old → IfOk result (λ n.
            IfSome (left self.old) (λ rest. (n ≡ 0) ↔ (rest ≡ []))) }
        ensures ok_adds_to_given { IfOk result (λ n. given self.new ≡ given self.old + n) }
        ensures ok_keeps_count { OnOk result (faults self.new ≡ faults self.old) }

        ensures fault_keeps_left { OnErr result (left self.new ≡ left self.old) }
        ensures fault_keeps_given { OnErr result (given self.new ≡ given self.old) }
        ensures fault_counted { OnErr result (Rose (faults self.old) (faults self.new)) }
        ensures closed_is_fault { IsFalse (is_open self.old) → 0 < length into.old → IsErr result }
        ensures steady_fails_only_closed { OnErr result (IsTrue (steady self.old) →
            IsFalse (is_open self.old)) }

        ensures empty_gives_none { length into.old ≡ 0 → result ≡ Ok 0 }
        ensures empty_changes_nothing { length into.old ≡ 0 → self.new ≡ self.old }

        ensures same_open { is_open self.new ≡ is_open self.old }
        ensures same_holds { holds self.new ≡ holds self.old }
        ensures same_steady { steady self.new ≡ steady self.old }
        ensures count_never_falls { faults self.old ≤ faults self.new }
        ensures count_stops_at_full { faults self.old ≤ full → faults self.new ≤ full };

    /// Only an open file has a rest.
    ghost left_of_open: { (s : Self) → IsSome (left s) → IsTrue (is_open s) };

    /// Where the files are steady, all of them are told.
    ghost steady_tells_files: { (s : Self) → IsTrue (steady s) → IsSome (holds s) };

    /// Where the files are steady, what is left of the open one is told.
    ghost steady_tells_left: { (s : Self) → IsTrue (steady s) → IsTrue (is_open s) →
        IsSome (left s) };
}

/// A place that bytes are written to, one after another.
///
/// A failed call raises a count, so that a caller's contract can say that it failed exactly where
/// the count rose. A counter that reaches 2^64 - 1 stays there.
pub trait Sink {
    /// The bytes that were taken so far, where they are told.
    ghost taken: { Self → Option (List ℕ) };

    /// How many writes have failed.
    ghost faults: { Self → ℕ };

    /// Takes some first bytes of the piece, and says how many: at least one, unless it is empty.
    ///
    /// # Errors
    ///
    /// `Fault` where the outside fails, or takes nothing of a piece that isn't empty.
    fn write(&mut self, bytes: &[u8]) -> Result<usize, Fault>
        ensures ok_within { IfOk result (λ n. n ≤ length bytes.now) }
        ensures ok_takes_some { 0 < length bytes.now → IfOk result (λ n. 0 < n) }
        ensures ok_appends { IfOk result (λ n. taken self.new
            ≡ after_told (taken self.old) (take n bytes.now)) }
        ensures ok_keeps_count { OnOk result (faults self.new ≡ faults self.old) }

        ensures fault_keeps_taken { OnErr result (taken self.new ≡ taken self.old) }
        ensures fault_counted { OnErr result (Rose (faults self.old) (faults self.new)) }

        ensures empty_takes_none { length bytes.now ≡ 0 → result ≡ Ok 0 }
        ensures empty_changes_nothing { length bytes.now ≡ 0 → self.new ≡ self.old }

        ensures count_never_falls { faults self.old ≤ faults self.new }
        ensures count_stops_at_full { faults self.old ≤ full → faults self.new ≤ full };
}
