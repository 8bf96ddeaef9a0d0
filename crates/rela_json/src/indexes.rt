//! Arrays of indexes.

ghost use Rattle.std.specs.Prelude.{◌≡◌, ◌≢◌, Ok, Err, IfOk, IfErr, IsErrOf, IsSome};
ghost use Rattle.serde_json.specs.View.{view};
ghost use Rattle.rela_json.specs.Parts.{items_of};
ghost use Rattle.rela_json.specs.Indexes.{index_of, indexes_of};

use crate::error::ListError;
use crate::parts::{array, number};
use serde_json::Value;
use std::alloc::Global;

/// The entries of an array of whole numbers below a bound, in order. Time and space: linear in the entries.
///
/// # Errors
///
/// `Shape` where the value is no array; else the first entry at fault decides: `Shape` where it is no whole number,
/// `Index` where it is not below the bound; `Memory` where memory runs out, and so only for an array.
pub fn index_list(alloc: Global, value: &Value, below: u32) -> Result<Vec<u32>, ListError>
    ensures indexes { IfOk result (λ v. indexes_of below (view value.now) ≡ Ok v.items) }
    ensures fault { IfErr result (λ e. e ≢ ListError.Memory
        → indexes_of below (view value.now) ≡ Err e) }
    ensures memory { IsErrOf result ListError.Memory → IsSome (items_of (view value.now)) }
{
    let entries = array(value)?;
    let mut indexes = Vec::with_capacity(alloc, entries.len())?;
    for entry in entries {
        let index = index_below(entry, below)?;
        indexes.push(index)?;
    }
    Ok(indexes)
}

/// A whole number below the bound.
///
/// # Errors
///
/// `Shape` where the value is no whole number; `Index` where it is not below the bound.
fn index_below(entry: &Value, below: u32) -> Result<u32, ListError>
    ensures index { IfOk result (λ n. index_of below (view entry.now) ≡ Ok n) }
    ensures fault { IfErr result (λ e. index_of below (view entry.now) ≡ Err e) }
{
    let n = number(entry)?;
    if n < u64::from(below) {
        Ok(n as u32)
    } else {
        Err(ListError::Index)
    }
}
