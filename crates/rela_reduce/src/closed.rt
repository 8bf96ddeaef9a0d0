//! The steps that states may take, silently at first.
ghost use Rattle.std.specs.Prelude.{ℕ, ◌<◌, ◌⊎◌, false, IsTrue, IfOk, IfSome, Some, None, Contains, length, slice_index_or};
ghost use Rattle.std.specs.List.{All};
ghost use Rattle.rela_reduce.specs.Numbered.{IsPlain};
ghost use Rattle.rela_reduce.specs.declared.arrow.Step.{Step as StepOf};
ghost use Rattle.rela_reduce.specs.Simulation.{AreClosed, Silently, arrows_of};
ghost use Rattle.rela_reduce.specs.Stored.{lists_of, plain};

use crate::arrow::{Arrow, Step};
use crate::flags::flag;
use crate::numbered::Numbered;
use std::alloc::{AllocError, Global};

/// What each state can do once silent arrows have led it on, or at once.
#[derive(Drop)]
pub(crate) struct Closed {
    /// For each state the labelled arrows of the states to which silent ones lead from it, itself
    /// among them.
    pub(crate) steps: Vec<Vec<Step>>,
    /// For each state whether one of these states is final.
    pub(crate) finals: Vec<bool>,
}

/// The steps of each state; `None` where there are more than `most` in all. Time: for each state a
/// step for each other, and a look at each arrow of those to which silent ones lead from it; space:
/// linear in the states and the steps.
pub(crate) fn closed_steps(
    alloc: Global,
    whole: &Numbered,
    most: usize,
) -> Result<Option<Closed>, AllocError>
    requires { IsPlain (plain whole.now) }
    ensures { IfOk result (λ found. IfSome found (λ closed.
        AreClosed (plain whole.now) (lists_of closed.steps.items) closed.finals.items)) }
{
    let mut steps = Vec::with_capacity(alloc, whole.finals.len())?;
    let mut finals = Vec::with_capacity(alloc, whole.finals.len())?;
    let mut room = most;
    for p in 0..whole.finals.len() {
        let ends = silent_ends(alloc, whole, p)?;
        let own = steps_of(alloc, whole, &ends)?;
        if own.len() > room {
            return Ok(None);
        }
        room -= own.len();
        steps.push(own)?;
        finals.push(has_final(whole, &ends))?;
    }
    Ok(Some(Closed { steps, finals }))
}

/// The states to which silent arrows lead from the state, which is the first of them: a
/// breadth-first search.
fn silent_ends(alloc: Global, whole: &Numbered, p: usize) -> Result<Vec<usize>, AllocError>
    requires plain { IsPlain (plain whole.now) }
    requires state { p < length whole.now.finals.items }
    ensures silent { IfOk result (λ ends.
        All (Silently (lists_of whole.now.arrows.items) p) ends.items) }
    ensures states { IfOk result (λ ends. All (λ q. q < length whole.now.finals.items) ends.items) }
{
    let mut flags = vec![in alloc; false; whole.finals.len()]?;
    flags[p] = true;
    let mut ends = Vec::new(alloc);
    ends.push(p)?;
    // The states stand in a queue: those before `done` have been followed.
    for done in 0..whole.finals.len() {
        if done >= ends.len() {
            return Ok(ends);
        }
        insert_silent(&whole.arrows[ends[done]], &mut flags, &mut ends)?;
    }
    Ok(ends)
}

/// Puts the ends of the silent arrows behind the others, unless their flags are set, and sets
/// these.
fn insert_silent(
    arrows: &[Arrow],
    flags: &mut [bool],
    ends: &mut Vec<usize>,
) -> Result<(), AllocError>
    requires { All (λ arrow. arrow.to < length flags.old) arrows.now }
    ensures { IfOk result (λ _. (t : ℕ) → Contains ends.new.items t
        → Contains ends.old.items t ⊎ Contains arrows.now (record { label = None; to = t })) }
{
    for arrow in arrows {
        if arrow.label.is_none() && !flags[arrow.to] {
            flags[arrow.to] = true;
            ends.push(arrow.to)?;
        }
    }
    Ok(())
}

/// The labelled arrows of the states, as steps.
fn steps_of(alloc: Global, whole: &Numbered, states: &[usize]) -> Result<Vec<Step>, AllocError>
    requires plain { IsPlain (plain whole.now) }
    requires states { All (λ q. q < length whole.now.finals.items) states.now }
    ensures { IfOk result (λ steps. All (λ step. (c : ℕ) × Contains states.now c
        × Contains (arrows_of (lists_of whole.now.arrows.items) c)
        (record { label = Some step.label; to = step.to })) steps.items) }
{
    let mut steps = Vec::new(alloc);
    for q in states {
        add_steps(&whole.arrows[*q], &mut steps)?;
    }
    Ok(steps)
}

/// Puts the labelled ones of the arrows behind the others, as steps.
fn add_steps(arrows: &[Arrow], steps: &mut Vec<Step>) -> Result<(), AllocError>
    ensures { IfOk result (λ _. (step : StepOf) → Contains steps.new.items step
        → Contains steps.old.items step ⊎ Contains arrows.now (record {
          label = Some step.label;
          to = step.to;
        })) }
{
    for arrow in arrows {
        if let Some(label) = arrow.label {
            steps.push(Step {
                label,
                to: arrow.to,
            })?;
        }
    }
    Ok(())
}

/// Whether one of the states is final.
fn has_final(whole: &Numbered, states: &[usize]) -> bool
    ensures { IsTrue result → (f : ℕ) × Contains states.now f
        × IsTrue (slice_index_or whole.now.finals.items f false) }
{
    for q in states {
        if flag(&whole.finals, *q) {
            return true;
        }
    }
    false
}
