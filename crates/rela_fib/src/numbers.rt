//! Lists of numbers in ascending order.

ghost use Rattle.std.specs.Prelude.{◌↔◌, ℕ};
ghost use Rattle.std.specs.List.{Contains};
ghost use Rattle.std.specs.List.Sorted.{IsStrictlyIncreasing};

/// The same numbers, ascending and each once. Time: O(n log n); no memory is taken.
pub(crate) fn ascending(numbers: Vec<u32>) -> Vec<u32>
    ensures rising { IsStrictlyIncreasing result.items }
    ensures same { (n : ℕ) → Contains result.items n ↔ Contains numbers.items n }
{
    let mut numbers = numbers;
    numbers.sort_unstable();
    numbers.dedup();
    numbers
}
