//! Rows of flags.
ghost use Rattle.std.specs.Prelude.{◌≡◌, ◌↔◌, false, IsTrue, slice_index_or};
ghost use Rattle.rela_reduce.specs.Simulation.{IsSet};
ghost use Rattle.rela_reduce.specs.Stored.{lists_of};

/// Whether the flag is set. None past the end is.
pub(crate) fn flag(flags: &[bool], i: usize) -> bool
    ensures { result ≡ slice_index_or flags.now i false }
{
    flags.get(i).copied().unwrap_or(false)
}

/// Whether the flag at place `j` of row `i` is set. None past the row or past the rows is.
pub(crate) fn is_set(rows: &[Vec<bool>], i: usize, j: usize) -> bool
    ensures { IsTrue result ↔ IsSet (lists_of rows.now) i j }
{
    match rows.get(i) {
        Some(row) => flag(row, j),
        None => false,
    }
}
