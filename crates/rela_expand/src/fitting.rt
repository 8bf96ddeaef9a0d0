//! Whether the terms of a body are small enough, told before it is unfolded.

ghost use Rattle.std.specs.Prelude.{◌≡◌, ◌+◌, ◌<◌, ◌≤◌, ◌⊎◌, Err, IfErr, OnOk};
ghost use Rattle.rela_lex.specs.declared.error.SpecError.TheVariants.{TooDeep, TooLarge};
ghost use Rattle.rela_expand.specs.Bodies.{capped_sizes};
ghost use Rattle.rela_expand.specs.Measures.{Measures};

use crate::bodies::BodySize;
use rela_lex::SpecError;

/// The greatest depth of a relation's term.
const MAX_DEPTH: u64 = 1_000;

/// The greatest number of nodes that the terms of both relations may have together.
const MAX_NODES: u64 = 20_000;

/// Sees that the terms of the two relations are small enough.
///
/// # Errors
///
/// `TooDeep` where one is deeper than 1,000; else `TooLarge` where the two have more than 20,000
/// nodes together.
pub(crate) fn fit(size: BodySize, at: u32) -> Result<(), SpecError>
    ensures shallow_before { (sizes : Measures) → size ≡ capped_sizes sizes →
        OnOk result (sizes.before.depth ≤ 1000) }
    ensures shallow_after { (sizes : Measures) → size ≡ capped_sizes sizes →
        OnOk result (sizes.after.depth ≤ 1000) }
    ensures few { (sizes : Measures) → size ≡ capped_sizes sizes →
        OnOk result (sizes.before.nodes + sizes.after.nodes ≤ 20000) }
    ensures refused { IfErr result (λ e. (e ≡ TooDeep at) ⊎ (e ≡ TooLarge at)) }
    ensures too_deep { (sizes : Measures) → size ≡ capped_sizes sizes →
        IfErr result (λ e. e ≡ TooDeep at → (1000 < sizes.before.depth)
        ⊎ (1000 < sizes.after.depth)) }
    ensures too_large { (sizes : Measures) → size ≡ capped_sizes sizes →
        IfErr result (λ e. e ≡ TooLarge at →
        (sizes.before.depth ≤ 1000) × (sizes.after.depth ≤ 1000)
        × (20000 < sizes.before.nodes + sizes.after.nodes)) }
{
    if size.before.depth > MAX_DEPTH || size.after.depth > MAX_DEPTH {
        return Err(SpecError::TooDeep { at });
    }
    if size.before.nodes.saturating_add(size.after.nodes) > MAX_NODES {
        return Err(SpecError::TooLarge { at });
    }
    Ok(())
}
