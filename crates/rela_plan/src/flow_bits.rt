//! Sets of the flows of a block of at most 64, as the bits of one word: flow `k` is bit `k`.

ghost use Rattle.std.specs.Prelude.{◌≢◌, ℕ, ◌⊎◌, ◌<◌, ◌≤◌, ◌↔◌, IsTrue, IfNone, IfSome};
ghost use Rattle.rela_plan.specs.Selection.{HasFlow};

/// How many flows a block has at most.
pub(crate) const BLOCK: usize = 64;

/// Whether the flow at the place is in the set.
#[tactic(auto, using(crate::proofs::FlowBits::read_bit))]
pub(crate) fn has_flow(flows: u64, place: u32) -> bool
    requires { place < 64 }
    ensures { IsTrue result ↔ HasFlow flows place }
{
    flows >> place & 1 == 1
}

/// The set with the flow at the place in it.
#[tactic(auto, using(crate::proofs::FlowBits::set_same, crate::proofs::FlowBits::set_other))]
pub(crate) fn with_flow(flows: u64, place: u32) -> u64
    requires { place < 64 }
    ensures added { HasFlow result place }
    ensures others { (k : ℕ) → k ≢ place → HasFlow result k ↔ HasFlow flows k }
{
    flows | 1 << place
}

/// The set without the flow at the place, which is in it.
pub(crate) fn without_flow(flows: u64, place: u32) -> u64
    requires place { place < 64 }
    requires member { HasFlow flows place }
    ensures removed { ¬ HasFlow result place }
    ensures others { (k : ℕ) → k < 64 → k ≢ place → HasFlow result k ↔ HasFlow flows k }
    ensures smaller { result < flows }
{
    flows & !(1 << place)
}

/// The place of the first flow of the set, and `None` where it has none.
pub(crate) fn first_flow(flows: u64) -> Option<u32>
    ensures none { IfNone result ((k : ℕ) → ¬ HasFlow flows k) }
    ensures place { IfSome result (λ place. place < 64) }
    ensures member { IfSome result (λ place. HasFlow flows place) }
{
    if flows == 0 {
        None
    } else {
        Some(flows.trailing_zeros())
    }
}

/// The set of the first flows, as many as are counted.
pub(crate) fn first_flows(count: usize) -> u64
    requires { count ≤ 64 }
    ensures { (k : ℕ) → k < count → HasFlow result k }
{
    if count == 0 {
        0
    } else {
        u64::MAX >> (64 - count) as u32
    }
}

/// The flows that both sets have.
#[tactic(auto, using(crate::proofs::FlowBits::both_bits))]
pub(crate) fn in_both(flows: u64, others: u64) -> u64
    ensures { (k : ℕ) → HasFlow result k ↔ (HasFlow flows k × HasFlow others k) }
{
    flows & others
}

/// The flows that one set or the other has.
#[tactic(auto, using(crate::proofs::FlowBits::either_bits))]
pub(crate) fn in_either(flows: u64, others: u64) -> u64
    ensures { (k : ℕ) → HasFlow result k ↔ (HasFlow flows k ⊎ HasFlow others k) }
{
    flows | others
}

/// The flows that the first set has and the other doesn't.
#[tactic(auto, using(crate::proofs::FlowBits::but_bits))]
pub(crate) fn but_not(flows: u64, others: u64) -> u64
    ensures { (k : ℕ) → k < 64 → HasFlow result k ↔ (HasFlow flows k × (¬ HasFlow others k)) }
{
    flows & !others
}
