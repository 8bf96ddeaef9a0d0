//! The flows of two snapshots side by side.

ghost use Rattle.std.specs.Prelude.{◌≡◌, ◌≢◌, ◌<◌, ◌≤◌, ◌+◌, ℕ, List, [], ◌∷◌, ◌++◌, All, Some, IsNone, IfSome, Ok, Err, IfOk, IfErr, IsErrOf, OnOk, length, map, vec_len};
ghost use Rattle.rela_names.specs.declared.level.Level.{Level};
ghost use Rattle.rela_snapshot.specs.Located.{IsLocated, AreLocated};
ghost use Rattle.rela_snapshot.specs.Names.{AreDistinct, place_of};
ghost use Rattle.rela_snapshot.specs.Pair as spec;
ghost use Rattle.rela_snapshot.specs.Pair.{Agrees, AgreesWith, Pairing, flow_named, flows_without, no_nodes};
ghost use Rattle.rela_snapshot.specs.Partners.{IsDifference, with_flow};
ghost use Rattle.rela_snapshot.specs.PairsLocated.{IsPairLocated, ArePairsLocated, AreFoundLocated};
ghost use Rattle.rela_snapshot.specs.SnapshotFlows.{AreSnapshotFlows};
ghost use Rattle.rela_snapshot.specs.SnapshotFlows as snapshot_flows;
ghost use Rattle.rela_snapshot.specs.Steps.{IsAnswer};

use crate::name_table::NameTable;
use crate::snapshot::{Flow, MAX_FLOWS, Snapshot};
use rela_flows::{FlowClass, prefixes_of_one_length_are_apart};
use rela_graph::Graph;
use std::alloc::{AllocError, AllocFailed, Global};
use thiserror::Error;

/// A flow of two snapshots: what is said of it, and its graph in each. In a snapshot that lacks the
/// flow it has the graph without nodes.
#[derive(Drop)]
pub struct FlowPair {
    /// What is said of the flow, alike in both snapshots where both have it.
    pub class: FlowClass,
    /// Its graph before the change.
    pub before: Graph,
    /// Its graph after the change.
    pub after: Graph,
}

/// Why the flows of two snapshots could not be paired.
#[derive(Debug, Drop, Error)]
pub enum PairError {
    /// The flow in this row of the first snapshot differs from that of its name in the second in
    /// its prefixes or its class. `before` and `after` are what each says of it.
    #[error("the flow in row {row} differs")]
    FlowDiffers {
        row: u32,
        before: FlowClass,
        after: FlowClass,
    },
    /// Memory ran out.
    #[error("out of memory")]
    Memory,
}

impl From<AllocError> for PairError {
    ghost use Rattle.rela_snapshot.specs.declared.pairing.PairError.TheVariants.{Memory};

    ghost from_gives = { λ _ e. e ≡ Memory };

    fn from(_refused: AllocError) -> PairError {
        PairError::Memory
    }
}

impl<T: Drop> From<AllocFailed<T>> for PairError {
    ghost use Rattle.rela_snapshot.specs.declared.pairing.PairError.TheVariants.{Memory};

    ghost from_gives = { λ _ e. e ≡ Memory };

    fn from(_refused: AllocFailed<T>) -> PairError {
        PairError::Memory
    }
}

/// The flows of a second snapshot, split by whether a first has one of the same name.
#[derive(Drop)]
struct Partners {
    /// For each flow of the first snapshot, in order, the flow of its name, and `None` where there
    /// is none.
    found: Vec<Option<Flow>>,
    /// The flows whose names the first snapshot lacks, in order.
    others: Vec<Flow>,
}

/// The flows of two snapshots, paired by their names: first those of `before` in order, and then,
/// in order, those that only `after` has. Both snapshots are spent. Time and space: expected linear
/// in the flows; no graph is copied.
///
/// # Errors
///
/// `FlowDiffers` for the first flow of `before` that differs from that of its name in `after`;
/// `Memory` where memory runs out.
pub fn pair(alloc: Global, before: Snapshot, after: Snapshot) -> Result<Vec<FlowPair>, PairError>
    ensures pairs { IfOk result (λ pairs. IsAnswer (Pairing before after) (Ok pairs.items)) }
    ensures differs { IfErr result (λ e. e ≢ PairError.Memory →
        IsAnswer (Pairing before after) (Err e)) }
    ensures located { (names : List (List ℕ)) (level : Level) → AreLocated names level before →
        AreLocated names level after →
        IfOk result (λ pairs. ArePairsLocated names level pairs.items) }
{
    let before = before.into_flows();
    let partners = find_partners(alloc, &before, after.into_flows())?;
    let Partners { found, others } = partners;
    let mut pairs = pair_found(alloc, before, found)?;
    pair_others(alloc, &mut pairs, others)?;
    Ok(pairs)
}

/// The flows of `after`, split by whether `before` has one of the same name. The list is turned
/// round and emptied from its end, so that each flow is moved and none is copied.
fn find_partners(
    alloc: Global,
    before: &Vec<Flow>,
    mut after: Vec<Flow>,
) -> Result<Partners, AllocError>
    requires before { AreSnapshotFlows before.now.items }
    requires after { AreDistinct (snapshot_flows.names_of after.items) }
    ensures found { IfOk result (λ partners. partners.found.items
        ≡ map (λ flow. flow_named flow.class.name after.items) before.now.items) }
    ensures others { IfOk result (λ partners. partners.others.items
        ≡ flows_without (snapshot_flows.names_of before.now.items) after.items) }
    ensures located { (names : List (List ℕ)) (level : Level) → AreLocated names level after.items →
        IfOk result (λ partners. AreFoundLocated names level partners.found.items
        × AreLocated names level partners.others.items) }
{
    let names = names_of(alloc, before.as_slice())?;
    let mut partners = Partners {
        found: no_flows(alloc, before.len())?,
        others: Vec::new(alloc),
    };
    after.reverse();
    while let Some(flow) = after.pop() {
        put(&names, &mut partners, flow)?;
    }
    Ok(partners)
}

/// The names of the flows, in order.
fn names_of<'a>(alloc: Global, flows: &'a [Flow]) -> Result<NameTable<'a>, AllocError>
    requires few { length flows.now ≤ MAX_FLOWS }
    requires distinct { AreDistinct (snapshot_flows.names_of flows.now) }
    ensures names { IfOk result (λ names. names ≡ snapshot_flows.names_of flows.now) }
    ensures len { IfOk result (λ names. length names ≤ length flows.now) }
{
    let mut names = NameTable::new(alloc);
    for flow in flows {
        let _is_new = names.add(flow.class.name.as_bytes())?;
    }
    Ok(names)
}

/// A list of `count` places without a flow.
fn no_flows(alloc: Global, count: usize) -> Result<Vec<Option<Flow>>, AllocError>
    ensures len { IfOk result (λ none. vec_len none ≡ count) }
    ensures none { IfOk result (λ none. All IsNone none.items) }
{
    let mut none = Vec::with_capacity(alloc, count)?;
    for _ in 0..count {
        none.push(None)?;
    }
    Ok(none)
}

/// Puts a flow beside the flow of its name, or to the others. `names` are the names of the first
/// snapshot's flows.
fn put(names: &NameTable<'_>, partners: &mut Partners, flow: Flow) -> Result<(), AllocError>
    requires room { length names.now ≤ vec_len partners.old.found }
    ensures found { OnOk result (partners.new.found.items
        ≡ with_flow partners.old.found.items (place_of names.now flow.class.name) flow) }
    ensures others { OnOk result (partners.new.others.items ≡ partners.old.others.items
        ++ flows_without names.now (flow ∷ [])) }
    ensures len { vec_len partners.new.found ≡ vec_len partners.old.found }
    ensures located { (names : List (List ℕ)) (level : Level) → IsLocated names level flow.graph →
        AreFoundLocated names level partners.old.found.items →
        AreLocated names level partners.old.others.items →
        AreFoundLocated names level partners.new.found.items
        × AreLocated names level partners.new.others.items }
{
    match names.place(flow.class.name.as_bytes()) {
        Some(place) => partners.found[place as usize] = Some(flow),
        None => partners.others.push(flow)?,
    }
    Ok(())
}

/// The pairs of the first snapshot's flows, in order. Both lists are turned round and emptied from
/// their ends, so that each flow is moved and none is copied.
fn pair_found(
    alloc: Global,
    mut before: Vec<Flow>,
    mut found: Vec<Option<Flow>>,
) -> Result<Vec<FlowPair>, PairError>
    requires few { vec_len before ≤ MAX_FLOWS }
    ensures pairs { (after : List Flow) → found.items
        ≡ map (λ flow. flow_named flow.class.name after) before.items →
        IfOk result (λ pairs. All (Agrees after) before.items
        × (pairs.items ≡ map (spec.pair_before after) before.items)) }
    ensures differs { (after : List Flow) → found.items
        ≡ map (λ flow. flow_named flow.class.name after) before.items →
        IfErr result (λ e. e ≢ PairError.Memory → Pairing before.items after (Err e)) }
    ensures located { (names : List (List ℕ)) (level : Level) →
        AreLocated names level before.items →
        AreFoundLocated names level found.items →
        IfOk result (λ pairs. ArePairsLocated names level pairs.items) }
{
    let mut pairs = Vec::with_capacity(alloc, before.len())?;
    before.reverse();
    found.reverse();
    while let Some(flow) = before.pop() {
        let row = pairs.len() as u32;
        let pair = pair_of(alloc, row, flow, found.pop().flatten())?;
        pairs.push(pair)?;
    }
    Ok(pairs)
}

/// The pair of a flow of the first snapshot, in this row, and its partner in the second, if it has
/// one.
///
/// # Errors
///
/// `FlowDiffers` where the partner has other prefixes or another class; `Memory` only where there is
/// no partner.
fn pair_of(
    alloc: Global,
    row: u32,
    before: Flow,
    partner: Option<Flow>,
) -> Result<FlowPair, PairError>
    ensures pair { IfOk result (λ pair. pair ≡ spec.pair_with partner before) }
    ensures agrees { OnOk result (AgreesWith partner before) }
    ensures differs { IfErr result (λ e. e ≢ PairError.Memory → IsDifference row before partner e) }
    ensures memory { IsErrOf result PairError.Memory → IsNone partner }
    ensures located { (names : List (List ℕ)) (level : Level) → IsLocated names level before.graph →
        IfSome partner (λ flow. IsLocated names level flow.graph) →
        IfOk result (IsPairLocated names level) }
{
    let Some(after) = partner else {
        return Ok(FlowPair {
            class: before.class,
            before: before.graph,
            after: no_graph(alloc)?,
        });
    };
    prefixes_of_one_length_are_apart();
    if before.class != after.class {
        return Err(PairError::FlowDiffers {
            row,
            before: before.class,
            after: after.class,
        });
    }
    Ok(FlowPair {
        class: before.class,
        before: before.graph,
        after: after.graph,
    })
}

/// Adds the pairs of the flows that only the second snapshot has, in order.
fn pair_others(
    alloc: Global,
    pairs: &mut Vec<FlowPair>,
    mut others: Vec<Flow>,
) -> Result<(), AllocError>
    ensures pairs { OnOk result (pairs.new.items ≡ pairs.old.items
        ++ map spec.pair_after others.items) }
    ensures located { (names : List (List ℕ)) (level : Level) →
        AreLocated names level others.items →
        ArePairsLocated names level pairs.old.items →
        OnOk result (ArePairsLocated names level pairs.new.items) }
{
    others.reverse();
    while let Some(flow) = others.pop() {
        let pair = pair_alone(alloc, flow)?;
        pairs.push(pair)?;
    }
    Ok(())
}

/// The pair of a flow that only the second snapshot has.
fn pair_alone(alloc: Global, flow: Flow) -> Result<FlowPair, AllocError>
    ensures pair { IfOk result (λ pair. pair ≡ spec.pair_after flow) }
    ensures located { (names : List (List ℕ)) (level : Level) → IsLocated names level flow.graph →
        IfOk result (IsPairLocated names level) }
{
    Ok(FlowPair {
        class: flow.class,
        before: no_graph(alloc)?,
        after: flow.graph,
    })
}

/// The graph without nodes.
fn no_graph(alloc: Global) -> Result<Graph, AllocError>
    ensures { IfOk result (λ graph. graph ≡ no_nodes) }
{
    let graph = Graph::new(alloc, Vec::new(alloc), &[], &[], &[], &[])?;
    prove!(graph.nodes().is_empty());
    Ok(graph)
}
