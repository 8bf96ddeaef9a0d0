//! Where letters lead from each state.
ghost use Rattle.std.specs.Prelude.{◌≡◌, ℕ, ◌<◌, ◌&&◌, true, IfOk, length};
ghost use Rattle.rela_labels.specs.Letters.{has};
ghost use Rattle.rela_subset.specs.Deterministic.{IsDeterministic, next, states};
ghost use Rattle.rela_minimise.specs.Refining.{AreColumns, IsColumn, LeadAlike};
ghost use Rattle.rela_minimise.specs.Stored.{lists_of};

use rela_labels::LabelSet;
use rela_subset::Dfa;
use std::alloc::{AllocError, Global};

/// Letters of one kind, and where they lead.
#[derive(Drop)]
struct Kind<L: LabelSet> {
    /// The letters.
    letters: L,
    /// The state to which they lead from each state.
    column: Vec<usize>,
}

/// Letters in one label of a state, and where they lead from it.
#[derive(Drop)]
struct LabelPart<L: LabelSet> {
    /// The letters.
    letters: L,
    /// The state to which they lead.
    to: usize,
}

/// Where letters lead: one list for each kind of letters, of the state to which they lead from each
/// state. Letters are of one kind where at each state they are in the label of the same edge, so
/// many letters may be of few kinds. Time: for each kind a set operation for each state, and a look
/// at each edge; space: a number for each kind and state.
pub(crate) fn columns<L: LabelSet>(
    alloc: Global,
    dfa: &Dfa<L>,
) -> Result<Vec<Vec<usize>>, AllocError>
    requires { IsDeterministic dfa.now }
    ensures { IfOk result (λ columns. AreColumns dfa.now (lists_of columns.items)) }
{
    let mut columns = Vec::new(alloc);
    let mut rest = dfa.over().copy(alloc)?;
    while let Some(letter) = rest.least() {
        let kind = kind_of(alloc, dfa, &rest, letter)?;
        let Kind { letters, column } = kind;
        rest = rest.minus(alloc, &letters)?;
        columns.push(column)?;
    }
    Ok(columns)
}

/// The letters of the rest that are of one kind with this one.
fn kind_of<L: LabelSet>(
    alloc: Global,
    dfa: &Dfa<L>,
    rest: &L,
    letter: u32,
) -> Result<Kind<L>, AllocError>
    requires deterministic { IsDeterministic dfa.now }
    requires letter { has dfa.now.over letter ≡ true }
    requires size { length (L.letters rest.now) ≡ length dfa.now.over }
    ensures size { IfOk result (λ kind. length (L.letters kind.letters) ≡ length dfa.now.over) }
    ensures itself { IfOk result (λ kind. has (L.letters rest.now) letter ≡ true →
        has (L.letters kind.letters) letter ≡ true) }
    ensures alike { IfOk result (λ kind. (k : ℕ) → has (L.letters kind.letters) k ≡ true →
        (has (L.letters rest.now) k ≡ true) × LeadAlike dfa.now letter k) }
    ensures column { IfOk result (λ kind. IsColumn dfa.now letter kind.column.items) }
{
    let mut column = Vec::with_capacity(alloc, dfa.states())?;
    let mut letters = rest.copy(alloc)?;
    for q in 0..dfa.states() {
        let part = leading(alloc, dfa, q, letters, letter)?;
        letters = part.letters;
        column.push(part.to)?;
    }
    Ok(Kind { letters, column })
}

/// The letters of the block that are in the label of the same edge of the state `q` as this one,
/// and where that edge leads.
fn leading<L: LabelSet>(
    alloc: Global,
    dfa: &Dfa<L>,
    q: usize,
    block: L,
    letter: u32,
) -> Result<LabelPart<L>, AllocError>
    requires deterministic { IsDeterministic dfa.now }
    requires state { q < states dfa.now }
    requires letter { has dfa.now.over letter ≡ true }
    requires size { length (L.letters block) ≡ length dfa.now.over }
    ensures size { IfOk result (λ kept. length (L.letters kept.letters) ≡ length dfa.now.over) }
    ensures itself { IfOk result (λ kept. has (L.letters block) letter ≡ true →
        has (L.letters kept.letters) letter ≡ true) }
    ensures alike { IfOk result (λ kept. (k : ℕ) → has (L.letters kept.letters) k ≡ true →
        (has (L.letters block) k ≡ true) × (next dfa.now q letter ≡ next dfa.now q k)) }
    ensures leads { IfOk result (λ kept. kept.to ≡ next dfa.now q letter) }
    ensures state { IfOk result (λ kept. kept.to < states dfa.now) }
{
    let edges = dfa.edges(q);
    for edge in edges {
        if let Some(label) = &edge.label {
            if label.contains(letter) {
                let letters = common(alloc, block, label)?;
                let to = edge.to;
                return Ok(LabelPart { letters, to });
            }
        }
    }
    let to = dfa.start();
    Ok(LabelPart { letters: block, to })
}

/// The letters that are in both. At most states the label is the block itself, which is then given
/// back. Time: a comparison, and a set operation where the two differ.
fn common<L: LabelSet>(alloc: Global, block: L, label: &L) -> Result<L, AllocError>
    requires { length (L.letters block) ≡ length (L.letters label.now) }
    ensures size { IfOk result (λ set. length (L.letters set) ≡ length (L.letters block)) }
    ensures both { IfOk result (λ set. (k : ℕ) → has (L.letters set) k
        ≡ (has (L.letters block) k && has (L.letters label.now) k)) }
{
    if block.same(label) {
        return Ok(block);
    }
    block.meet(alloc, label)
}
