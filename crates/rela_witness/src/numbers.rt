//! Numbers given to states, and the layer of those that were given one number.
ghost use Rattle.std.specs.Prelude.{◌≡◌, ℕ, ◌<◌, OnOk, Contains, length, vec_len};
ghost use Rattle.std.specs.List.{All};
ghost use Rattle.rela_witness.specs.Linked.{IsLinked};
ghost use Rattle.rela_witness.specs.Numbered.{HasNumber, IsLayer, Grows, Spread, IsDone};

use crate::links::Links;
use std::alloc::AllocError;

/// Gives a state the number and puts it into the layer, unless it has a number.
pub(crate) fn enter(
    numbers: &mut Vec<Option<usize>>,
    layer: &mut Vec<usize>,
    q: usize,
    number: usize,
) -> Result<(), AllocError>
    requires { q < vec_len numbers.old }
    ensures grows { OnOk result (Grows (λ p. q ≡ p) number numbers.old.items numbers.new.items
        layer.old.items layer.new.items) }
    ensures entered { OnOk result (HasNumber numbers.new.items q) }
{
    if numbers[q].is_none() {
        layer.push(q)?;
        numbers[q] = Some(number);
    }
    Ok(())
}

/// Gives each of these states the number and puts it into the layer, unless it has a number.
pub(crate) fn enter_all(
    numbers: &mut Vec<Option<usize>>,
    layer: &mut Vec<usize>,
    states: &[usize],
    number: usize,
) -> Result<(), AllocError>
    requires { All (λ q. q < vec_len numbers.old) states.now }
    ensures grows { OnOk result (Grows (Contains states.now) number numbers.old.items
        numbers.new.items layer.old.items layer.new.items) }
    ensures entered { OnOk result ((q : ℕ) → Contains states.now q →
        HasNumber numbers.new.items q) }
{
    for q in states {
        enter(numbers, layer, *q, number)?;
    }
    Ok(())
}

/// Puts into the layer what the links lead to from it, step by step, unless it has a number. These
/// states get the number of the layer.
pub(crate) fn close(
    numbers: &mut Vec<Option<usize>>,
    layer: &mut Vec<usize>,
    links: &Links,
    number: usize,
) -> Result<(), AllocError>
    requires states { length links.now ≡ vec_len numbers.old }
    requires layer { IsLayer number numbers.old.items layer.old.items }
    ensures grows { OnOk result (Grows (Spread (IsLinked links.now) (Contains layer.old.items))
        number numbers.old.items numbers.new.items layer.old.items layer.new.items) }
    ensures done { OnOk result (IsDone (IsLinked links.now) numbers.new.items layer.new.items) }
{
    // The layer is a queue: what the states before `done` lead to has been entered.
    let mut done = 0;
    while done < layer.len() {
        let q = layer[done];
        enter_all(numbers, layer, links.ends(q), number)?;
        done += 1;
    }
    Ok(())
}
