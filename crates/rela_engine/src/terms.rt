//! The two terms of an assertion.
ghost use Rattle.std.specs.Prelude.{◌≡◌};
ghost use Rattle.rela_rir.specs.Assertions as terms;

use rela_rir::{Assertion, PathTerm};

/// The first of the terms that it is about.
pub(crate) fn first_term(assertion: &Assertion) -> &PathTerm
    ensures { result.now ≡ terms.first_term assertion.now }
{
    match assertion {
        Assertion::Equal(first, _) | Assertion::Included(first, _) => first,
    }
}

/// The second of them.
pub(crate) fn second_term(assertion: &Assertion) -> &PathTerm
    ensures { result.now ≡ terms.second_term assertion.now }
{
    match assertion {
        Assertion::Equal(_, second) | Assertion::Included(_, second) => second,
    }
}
