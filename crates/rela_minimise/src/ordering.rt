//! Classes that are numbered by their first states.
ghost use Rattle.std.specs.Prelude.{◌<◌, IfOk};
ghost use Rattle.std.specs.List.{All};
ghost use Rattle.rela_minimise.specs.Classes.{AreInOrder};

use crate::refinement::Classes;
use std::alloc::{AllocError, Global};

/// Classes that are numbered in the order of their first states.
#[derive(Drop)]
pub(crate) struct OrderedClasses {
    /// The number of each state's class.
    pub(crate) numbers: Vec<usize>,
    /// The first state of each class.
    pub(crate) heads: Vec<usize>,
}

/// The same classes, numbered in the order of their first states. Time: a step for each state.
pub(crate) fn in_order(alloc: Global, classes: &Classes) -> Result<OrderedClasses, AllocError>
    requires { All (λ class. class < classes.now.count) classes.now.numbers.items }
    ensures { IfOk result (λ made. AreInOrder classes.now.numbers.items made.numbers.items
        made.heads.items) }
{
    let mut renumbered = vec![in alloc; None; classes.count]?;
    let mut numbers = Vec::with_capacity(alloc, classes.numbers.len())?;
    let mut heads = Vec::with_capacity(alloc, classes.count)?;
    for (q, class) in classes.numbers.iter().enumerate() {
        if let Some(number) = renumbered[*class] {
            numbers.push(number)?;
        } else {
            renumbered[*class] = Some(heads.len());
            numbers.push(heads.len())?;
            heads.push(q)?;
        }
    }
    Ok(OrderedClasses { numbers, heads })
}
