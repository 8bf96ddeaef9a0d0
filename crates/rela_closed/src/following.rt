//! Which automata accept the words of a list that is closed for them.
ghost use Rattle.std.specs.Prelude.{◌≡◌, [], IfNone, IfOk, IfSome, map};
ghost use Rattle.rela_closed.specs.Closed.{AreAccepted, IsClosed};
ghost use Rattle.rela_closed.specs.Words.{AreOrdered, words_of};

use crate::acceptance::accepting;
use crate::closedness::is_closed;
use crate::numbering::number_words;
use crate::reader::Reader;
use crate::step::Step;
use crate::table::Table;
use rela_labels::LabelSet;
use rela_nfa::Nfa;
use std::alloc::{AllocError, Global};

/// What is known of a closed list of words.
#[derive(Drop)]
pub struct Followed {
    /// For each automaton and each listed word whether the automaton accepts the word.
    pub accepted: Vec<Vec<bool>>,
}

/// Which automata accept the words of the list, where it is closed for them: for each listed word
/// and each letter of `over`, some listed word reaches the same states of each automaton as the
/// word with the letter behind it. `None` where it isn't closed.
///
/// Time: for each listed word, and for each different list of sets of states and each block of
/// letters by which the same edges leave them, a look at each edge out of the states, and a look-up
/// of the states that follow. To split the letters into blocks costs at most a set operation for
/// each block and each edge with more letters than one, and about a look at each such edge for each
/// letter. Space: linear in the words and in the different lists of sets that they reach.
///
/// # Errors
///
/// Memory is the only error.
pub fn follow<L: LabelSet>(
    alloc: Global,
    automata: &[&Nfa<L>],
    over: &L,
    steps: &[Step],
) -> Result<Option<Followed>, AllocError>
    requires { AreOrdered steps.now }
    ensures closed { IfOk result (λ found. IfSome found (λ _.
        IsClosed (L.letters over.now) (map (λ a. a.now) automata.now) (words_of steps.now))) }
    ensures accepted { IfOk result (λ found. IfSome found (λ followed.
        AreAccepted (map (λ a. a.now) automata.now) (words_of steps.now)
        (map (λ flags. flags.items) followed.accepted.items))) }
    ensures open_list { IfOk result (λ found. IfNone found
        (¬ IsClosed (L.letters over.now) (map (λ a. a.now) automata.now) (words_of steps.now))) }
{
    let mut reader = Reader::new(alloc, automata)?;
    let mut table = Table::new(alloc);
    follow_by(alloc, automata, &mut reader, over, steps, &mut table)
}

/// What [`follow`] tells, by a reader of the automata, and with a table without any sets yet.
fn follow_by<'a, L: LabelSet>(
    alloc: Global,
    automata: &[&Nfa<L>],
    reader: &mut Reader<'a, L>,
    over: &L,
    steps: &[Step],
    table: &mut Table,
) -> Result<Option<Followed>, AllocError>
    requires reads { reader.old ≡ map (λ a. a.now) automata.now }
    requires ordered { AreOrdered steps.now }
    requires empty { table.old ≡ [] }
    ensures closed { IfOk result (λ found. IfSome found (λ _.
        IsClosed (L.letters over.now) (map (λ a. a.now) automata.now) (words_of steps.now))) }
    ensures accepted { IfOk result (λ found. IfSome found (λ followed.
        AreAccepted (map (λ a. a.now) automata.now) (words_of steps.now)
        (map (λ flags. flags.items) followed.accepted.items))) }
    ensures open_list { IfOk result (λ found. IfNone found
        (¬ IsClosed (L.letters over.now) (map (λ a. a.now) automata.now) (words_of steps.now))) }
{
    let numbers = number_words(alloc, reader, steps, table)?;
    if !is_closed(alloc, reader, over, table)? {
        return Ok(None);
    }
    let accepted = accepting(alloc, automata, table, &numbers)?;
    Ok(Some(Followed { accepted }))
}
