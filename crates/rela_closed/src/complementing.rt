//! Complements by closed lists of words.
ghost use Rattle.std.specs.Prelude.{◌≡◌, ℕ, ◌<◌, ◌↔◌, false, [], ◌∷◌, IfNone, IfOk, IfSome, IsTrue, length, map, not, slice_index_or};
ghost use Rattle.std.specs.List.{All};
ghost use Rattle.rela_build.specs.Complement.{IsComplement, TellsAll};
ghost use Rattle.rela_closed.specs.Closed.{IsClosed};
ghost use Rattle.rela_closed.specs.Sets.{AreDistinct, AreMet, HasFinal};
ghost use Rattle.rela_closed.specs.Words.{AreOrdered, words_of};

use crate::acceptance::finals_of;
use crate::numbering::number_words;
use crate::reader::Reader;
use crate::step::Step;
use crate::table::Table;
use crate::transitions::transitions;
use rela_labels::LabelSet;
use rela_nfa::Nfa;
use std::alloc::{AllocError, Global};

/// The words over these letters that the automaton doesn't accept, where the list of words is
/// closed for it, and `None` where it isn't. The states are the different sets of states that
/// listed words reach, in the order in which the list meets them, so that words that lead to one of
/// them reach the same states of `a`.
///
/// Time and space: those of [`follow`](crate::follow), and the edges: one from a set to each set
/// that follows it.
///
/// # Errors
///
/// Memory is the only error.
pub fn complement<L: LabelSet>(
    alloc: Global,
    a: &Nfa<L>,
    over: &L,
    steps: &[Step],
) -> Result<Option<Nfa<L>>, AllocError>
    requires letters { length (L.letters over.now) ≡ a.now.letters }
    requires ordered { AreOrdered steps.now }
    ensures complement { IfOk result (λ found. IfSome found (λ nfa.
        IsComplement a.now (L.letters over.now) nfa)) }
    ensures told { IfOk result (λ found. IfSome found (λ nfa. TellsAll a.now nfa)) }
    ensures closed { IfOk result (λ found. IfSome found (λ _.
        IsClosed (L.letters over.now) (a.now ∷ []) (words_of steps.now))) }
    ensures open_list { IfOk result (λ found. IfNone found
        (¬ IsClosed (L.letters over.now) (a.now ∷ []) (words_of steps.now))) }
{
    let automata = [a];
    let mut reader = Reader::new(alloc, &automata)?;
    let mut table = Table::new(alloc);
    complement_by(alloc, a, &mut reader, over, steps, &mut table)
}

/// What [`complement`] makes, by a reader of the automaton, and with a table without any sets yet.
fn complement_by<'a, L: LabelSet>(
    alloc: Global,
    a: &Nfa<L>,
    reader: &mut Reader<'a, L>,
    over: &L,
    steps: &[Step],
    table: &mut Table,
) -> Result<Option<Nfa<L>>, AllocError>
    requires letters { length (L.letters over.now) ≡ a.now.letters }
    requires reads { reader.old ≡ a.now ∷ [] }
    requires ordered { AreOrdered steps.now }
    requires empty { table.old ≡ [] }
    ensures complement { IfOk result (λ found. IfSome found (λ nfa.
        IsComplement a.now (L.letters over.now) nfa)) }
    ensures told { IfOk result (λ found. IfSome found (λ nfa. TellsAll a.now nfa)) }
    ensures closed { IfOk result (λ found. IfSome found (λ _.
        IsClosed (L.letters over.now) (a.now ∷ []) (words_of steps.now))) }
    ensures open_list { IfOk result (λ found. IfNone found
        (¬ IsClosed (L.letters over.now) (a.now ∷ []) (words_of steps.now))) }
{
    number_words(alloc, reader, steps, table)?;
    let Some(edges) = transitions(alloc, reader, over, table)? else {
        return Ok(None);
    };
    let finals = refused_of(alloc, a, table)?;
    let nfa = Nfa::from_parts(alloc, a.letters(), 0, &finals, edges)?;
    Ok(Some(nfa))
}

/// For all sets of the table, which are of this automaton alone and differ, whether no state of them is
/// final.
fn refused_of<L: LabelSet>(
    alloc: Global,
    a: &Nfa<L>,
    table: &Table,
) -> Result<Vec<bool>, AllocError>
    requires { All (AreMet (a.now ∷ [])) table.now }
    ensures distinct { AreDistinct table.now }
    ensures each { IfOk result (λ flags. length flags.items ≡ length table.now) }
    ensures refused { IfOk result (λ flags. (i : ℕ) → i < length table.now →
        IsTrue (slice_index_or flags.items i false)
        ↔ (¬ HasFinal a.now (slice_index_or (slice_index_or table.now i []) 0 []))) }
{
    let finals = finals_of(alloc, a, 0, table)?;
    opposite(alloc, &finals)
}

/// For each flag the other one.
fn opposite(alloc: Global, flags: &[bool]) -> Result<Vec<bool>, AllocError>
    ensures { IfOk result (λ others. others.items ≡ map not flags.now) }
{
    flags.iter().map(|flag| !*flag).collect(alloc)
}
