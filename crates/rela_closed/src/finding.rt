//! The search for a closed list of words.
ghost use Rattle.std.specs.Prelude.{◌≡◌, ◌+◌, ◌^◌, ◌<◌, ◌≤◌, IfErr, IfOk, length, map};
ghost use Rattle.std.specs.List.{All, AllPairs};
ghost use Rattle.rela_names.specs.Shortlex.{First, IsBefore};
ghost use Rattle.rela_closed.specs.Closed.{AreApart, IsClosed, ReachSets, ReachesLike};
ghost use Rattle.rela_closed.specs.Listing.{IsSearched};
ghost use Rattle.rela_closed.specs.Words.{AreOrdered, words_of};

use crate::reader::Reader;
use crate::step::Step;
use crate::table::Table;
use rela_labels::LabelSet;
use rela_names::{shortlex_is_irreflexive, shortlex_is_transitive};
use rela_nfa::{BuildError, Nfa};
use rela_pairs::within;
use std::alloc::Global;

/// The list of words that is closed for the automata and lists, for each list of sets of states
/// that words over the letters reach, just the first such word, in shortlex order. It begins with
/// the empty word, and each other word is given by its step.
///
/// Time: for each listed word and each block of letters by which the same edges leave the states
/// that it reaches, a look at each of these edges, and a look-up of the states that follow; and as
/// in [`follow`](crate::follow) what it costs to split the letters into blocks. Space: linear in the
/// words and their sets of states.
///
/// # Errors
///
/// - `Limit` exactly where there are more than `limit` such lists of sets.
/// - `Memory` where there isn't memory for them.
pub fn find<L: LabelSet>(
    alloc: Global,
    automata: &[&Nfa<L>],
    over: &L,
    limit: usize,
) -> Result<Vec<Step>, BuildError>
    requires some { 1 ≤ limit }
    requires numbered { limit ≤ 2 ^ 32 }
    ensures ordered { IfOk result (λ steps. AreOrdered steps.items) }
    ensures closed { IfOk result (λ steps.
        IsClosed (L.letters over.now) (map (λ a. a.now) automata.now) (words_of steps.items)) }
    ensures first { IfOk result (λ steps. All (λ word.
        First (ReachesLike (L.letters over.now) (map (λ a. a.now) automata.now) word) word)
        (words_of steps.items)) }
    ensures ascending { IfOk result (λ steps. AllPairs IsBefore (words_of steps.items)) }
    ensures apart { IfOk result (λ steps.
        AllPairs (AreApart (map (λ a. a.now) automata.now)) (words_of steps.items)) }
    ensures few { IfOk result (λ steps. length (words_of steps.items) ≤ limit) }
    ensures told { IfOk result (λ _.
        ¬ ReachSets (L.letters over.now) (map (λ a. a.now) automata.now) (limit + 1)) }
    ensures limit { IfErr result (λ e. e ≡ BuildError.Limit →
        ReachSets (L.letters over.now) (map (λ a. a.now) automata.now) (limit + 1)) }
{
    shortlex_is_irreflexive();
    shortlex_is_transitive();
    let mut reader = Reader::new(alloc, automata)?;
    let mut table = Table::new(alloc);
    table.number(reader.first(alloc)?)?;
    let mut steps = Vec::new(alloc);
    let mut number = 0;
    while number < table.len() {
        leave(
            alloc,
            &mut reader,
            over,
            &mut table,
            &mut steps,
            number,
            limit,
        )?;
        number += 1;
    }
    Ok(steps)
}

/// Leaves the sets of this number by each letter of `over`: by blocks of letters that lead alike,
/// each taken at its first letter, in ascending order. The sets to which a letter is the first to
/// lead are put into the table, and the steps to them behind the others. `Limit` where there are
/// then more than `limit`.
fn leave<'a, L: LabelSet>(
    alloc: Global,
    reader: &mut Reader<'a, L>,
    over: &L,
    table: &mut Table,
    steps: &mut Vec<Step>,
    number: usize,
    limit: usize,
) -> Result<(), BuildError>
    requires numbered { limit ≤ 2 ^ 32 }
    requires number { number < length table.old }
    requires few { length table.old ≤ limit }
    requires ordered { AreOrdered steps.old.items }
    requires searched { IsSearched (L.letters over.now) reader.old (words_of steps.old.items)
        table.old number 0 }
    ensures searched { IfOk result (λ _. IsSearched (L.letters over.now) reader.old
        (words_of steps.new.items) table.new (number + 1) 0) }
    ensures ordered { IfOk result (λ _. AreOrdered steps.new.items) }
    ensures more { IfOk result (λ _. length table.old ≤ length table.new) }
    ensures few { IfOk result (λ _. length table.new ≤ limit) }
    ensures same { reader.new ≡ reader.old }
    ensures limit { IfErr result (λ e. e ≡ BuildError.Limit →
        ReachSets (L.letters over.now) reader.old (limit + 1)) }
{
    shortlex_is_transitive();
    let mut blocks = reader.blocks(alloc, over, table.get(number))?;
    for letter in 0..over.size() {
        if !blocks.has_left(letter) {
            continue;
        }
        blocks.take(alloc, letter)?;
        let known = table.len();
        let next = reader.next(alloc, table.get(number), letter)?;
        if table.number(next)? < known {
            continue;
        }
        let parent = number as u32;
        steps.push(Step { parent, letter })?;
        within(table.len(), limit)?;
    }
    Ok(())
}
