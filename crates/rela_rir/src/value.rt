//! What is known of an assertion, and of assertions that are put together. It is Kleene's strong
//! three-valued logic.
ghost use Rattle.std.specs.Prelude.{◌≡◌};
ghost use Rattle.rela_rir.specs.Assertions.{both_of, either_of, opposite_of};

/// What is known of an assertion.
#[derive(Clone, Copy, Debug, PartialEq, Eq)]
pub enum Value {
    /// It holds.
    Holds,
    /// It fails.
    Fails,
    /// It was left open under the limit.
    Undecided,
}

impl Value {
    /// Of this and another, both of which are to hold: it fails where one fails, and holds where
    /// both hold.
    pub fn and(self, other: Value) -> Value
        ensures { result ≡ both_of self other }
    {
        match (self, other) {
            (Value::Holds, Value::Holds) => Value::Holds,
            (Value::Fails, _) | (_, Value::Fails) => Value::Fails,
            _ => Value::Undecided,
        }
    }

    /// Of this and another, one of which is to hold: it holds where one holds, and fails where
    /// both fail.
    pub fn or(self, other: Value) -> Value
        ensures { result ≡ either_of self other }
    {
        match (self, other) {
            (Value::Fails, Value::Fails) => Value::Fails,
            (Value::Holds, _) | (_, Value::Holds) => Value::Holds,
            _ => Value::Undecided,
        }
    }

    /// Of this one, which is not to hold.
    pub fn not(self) -> Value
        ensures { result ≡ opposite_of self }
    {
        match self {
            Value::Holds => Value::Fails,
            Value::Fails => Value::Holds,
            Value::Undecided => Value::Undecided,
        }
    }
}
