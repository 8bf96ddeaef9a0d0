//! The states to which silent steps lead.
ghost use Rattle.std.specs.Prelude.{◌≡◌, ℕ, ◌↔◌, [], OnOk, Contains};
ghost use Rattle.rela_letter_nfa.specs.LetterAutomaton.{states};
ghost use Rattle.rela_letter_nfa.specs.Pair.{joined};
ghost use Rattle.rela_letter_nfa.specs.Sets.{LeadsFrom};

use crate::both::Both;
use crate::visited::Visited;
use std::alloc::AllocError;

/// Puts those states behind the others to which silent steps lead from them: a breadth-first
/// search, which looks once at each silent step out of these states.
pub(crate) fn close(both: &Both, visited: &mut Visited) -> Result<(), AllocError>
    requires { visited.old.count ≡ states (joined both.now) }
    ensures closed { OnOk result ((q : ℕ) → Contains visited.new.states q
        ↔ LeadsFrom (joined both.now) visited.old.states [] q) }
    ensures count { visited.new.count ≡ visited.old.count }
{
    // The states stand in a queue: those before `done` have been followed.
    let mut done = 0;
    while done < visited.states().len() {
        let q = visited.states()[done];
        both.insert_silent(q, visited)?;
        done += 1;
    }
    Ok(())
}
