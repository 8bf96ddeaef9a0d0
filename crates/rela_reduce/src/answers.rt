//! Which ends of arrows a state has an answer to.
ghost use Rattle.std.specs.Prelude.{ℕ, IsTrue};
ghost use Rattle.rela_reduce.specs.Bits.{HasBit, bit_of};
ghost use Rattle.rela_reduce.specs.Simulation.{HasAnswer};
ghost use Rattle.rela_reduce.specs.Stored.{lists_of};

use crate::arrow::Step;
use crate::bits::{clear_all, join, row_at};
use crate::flags::is_set;

/// Writes for each label a bit for each state `t`: 1 where one of the steps is by each letter of the
/// label, to a state that simulates `t`. So a state with these steps can go along with an arrow by
/// the label to `t`. Time: for each label and step, a look at each word of a row.
pub(crate) fn answer_all(
    steps: &[Step],
    within: &[Vec<bool>],
    relation: &[Vec<u64>],
    answers: &mut [Vec<u64>],
)
    ensures { (k t : ℕ) → HasBit (lists_of answers.new) k t → HasAnswer (lists_of within.now)
        (lists_of relation.now) steps.now k t }
{
    for k in 0..answers.len() {
        answer(steps, within, relation, k, &mut answers[k]);
    }
}

/// Writes the row of the label `k`.
fn answer(steps: &[Step], within: &[Vec<bool>], relation: &[Vec<u64>], k: usize, row: &mut [u64])
    ensures { (t : ℕ) → IsTrue (bit_of row.new t) → HasAnswer (lists_of within.now)
        (lists_of relation.now) steps.now k t }
{
    clear_all(row);
    for step in steps {
        if is_set(within, k, step.label) {
            join(row, row_at(relation, step.to));
        }
    }
}
