//! Edges to states that are numbered in the order in which the edges come.
ghost use Rattle.std.specs.Prelude.{◌≡◌, [], ◌∷◌, OnOk, map};
ghost use Rattle.std.specs.Option.{option_map};
ghost use Rattle.rela_nfa.specs.Directing.{extended, silent_label, silent_labels};
ghost use Rattle.rela_nfa.specs.Stored.{move_of};

use crate::edge::Edge;
use rela_labels::LabelSet;
use std::alloc::AllocError;

/// Adds an edge by this label to the next of the targets: the one that has as many before it as
/// there are edges. Where there is no more of them it adds none.
pub fn add_directed<L: LabelSet>(
    edges: &mut Vec<Edge<L>>,
    label: Option<L>,
    targets: &[usize],
) -> Result<(), AllocError>
    ensures { OnOk result (map (move_of L.letters) edges.new.items
        ≡ extended (map (move_of L.letters) edges.old.items) (option_map L.letters label
        ∷ []) targets.now) }
{
    if let Some(to) = targets.get(edges.len()) {
        edges.push(Edge { label, to: *to })?;
    }
    Ok(())
}

/// Adds a silent edge to the next of the targets where the source is silent.
fn add_if_silent<L: LabelSet>(
    edges: &mut Vec<Edge<L>>,
    source: &Edge<L>,
    targets: &[usize],
) -> Result<(), AllocError>
    ensures { OnOk result (map (move_of L.letters) edges.new.items
        ≡ extended (map (move_of L.letters) edges.old.items)
        (silent_label (move_of L.letters source.now).label) targets.now) }
{
    if source.label.is_none() {
        add_directed(edges, None, targets)?;
    }
    Ok(())
}

/// Adds a silent edge to the next of the targets for each of these that is silent. Time: linear in
/// these.
pub fn add_silent<L: LabelSet>(
    edges: &mut Vec<Edge<L>>,
    sources: &[Edge<L>],
    targets: &[usize],
) -> Result<(), AllocError>
    ensures { OnOk result (map (move_of L.letters) edges.new.items
        ≡ extended (map (move_of L.letters) edges.old.items)
        (silent_labels (map (move_of L.letters) sources.now)) targets.now) }
{
    for source in sources {
        add_if_silent(edges, source, targets)?;
    }
    Ok(())
}
