//! Complements by words that are searched for.

ghost use Rattle.std.specs.Prelude.{◌+◌, ◌≤◌, [], ◌∷◌};
ghost use Rattle.rela_closed.specs.Closed.{ReachSets};
ghost use Rattle.rela_cert.specs.Found.{AreFoundFor};

use rela_build::{Answer, Complements};
use rela_closed::{Step, complement, find};
use rela_labels::WideSet;
use rela_names::List;
use rela_nfa::{BuildError, Nfa};
use std::alloc::Global;

/// Makes each complement by the first words that reach their sets of states in its part, and notes
/// these words. It is refused where they are more than the limit.
#[derive(Drop)]
pub(crate) struct Finding {
    /// How many words there may be for each complement.
    pub(crate) limit: usize,
    ghost some: { 1 ≤ limit },
    ghost few: { limit ≤ 4000000 },
}

impl Complements for Finding {
    type Note = List<Step>;

    ghost tells_all = { Unit {0} };

    ghost answers = { λ _ number a over steps. AreFoundFor number a over steps };

    ghost refuses = { λ finding _ a over. ReachSets over (a ∷ []) (finding.limit + 1) };

    fn complement(
        &self,
        alloc: Global,
        _number: usize,
        a: &Nfa<WideSet>,
        over: &WideSet,
    ) -> Result<Answer<List<Step>>, BuildError> {
        let steps = find(alloc, &[a], over, self.limit)?;
        match complement(alloc, a, over, steps.as_slice())? {
            Some(nfa) => Ok(Answer {
                nfa,
                note: List::from_vec(steps),
            }),
            None => unreachable!(),
        }
    }
}
