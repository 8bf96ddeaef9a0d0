//! What is told of an assertion.
ghost use Rattle.std.specs.Prelude.{◌≡◌};
ghost use Rattle.rela_engine.specs.Leaves.{value_of};

use rela_compare::Which;
use rela_names::Word;
use rela_rir::Value;

/// What is told of an assertion about two sets of words, for the paths of a flow.
#[derive(Debug, Drop)]
pub enum Leaf {
    /// It holds.
    Holds,
    /// A word tells against it.
    Fails {
        /// The first such word, in shortlex order.
        word: Word,
        /// The set that has it.
        side: Which,
    },
    /// It is left open under the limit.
    Undecided,
}

impl Leaf {
    /// What is known of the assertion.
    pub fn value(&self) -> Value
        ensures { result ≡ value_of self.now }
    {
        match self {
            Leaf::Holds => Value::Holds,
            Leaf::Fails { .. } => Value::Fails,
            Leaf::Undecided => Value::Undecided,
        }
    }
}
