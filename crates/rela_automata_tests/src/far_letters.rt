//! Words with a letter some places before the last.

ghost use Rattle.std.specs.Prelude.{◌≡◌, IfOk};

use rela_labels::LabelSet;
use rela_nfa::Nfa;
use std::alloc::{AllocError, Global};

/// Any number of the words, and then one of the others.
fn one_last<L: LabelSet>(alloc: Global, any: &Nfa<L>, one: &Nfa<L>) -> Result<Nfa<L>, AllocError>
    requires { any.now.letters ≡ one.now.letters }
    ensures { IfOk result (λ nfa. nfa.letters ≡ any.now.letters) }
{
    let many = any.star(alloc)?;
    many.concat(alloc, one)
}

/// Any number of the words, one of the others, and then this many of the words again.
pub(crate) fn one_before<L: LabelSet>(
    alloc: Global,
    any: &Nfa<L>,
    one: &Nfa<L>,
    places: u32,
) -> Result<Nfa<L>, AllocError>
    requires { any.now.letters ≡ one.now.letters }
    ensures { IfOk result (λ nfa. nfa.letters ≡ any.now.letters) }
{
    let mut words = one_last(alloc, any, one)?;
    'places: for _ in 0..places {
        words = words.concat(alloc, any)?;
    }
    Ok(words)
}
