//! Alternatives of a body, as far as it writes them itself.

ghost use Rattle.std.specs.Prelude.{◌≡◌, ◌++◌, [], ◌∷◌, List, ℕ, OnOk, take};
ghost use Rattle.std.specs.List.{All};
ghost use Rattle.rela_blame.specs.Leads.{IsBelow, spread};

use std::alloc::AllocError;

/// Alternatives of a body, of which a reference brings in many by one number.
#[derive(Clone, Copy)]
pub(crate) enum Lead {
    /// One alternative, by the offset of the `{` of its leftmost unit.
    Unit(u32),
    /// The alternatives of the definition with this number, of which there are some.
    Every(usize),
    /// One alternative, whose leftmost unit is that of the first alternative of this definition.
    First(usize),
}

/// One alternative, whose leftmost unit is the one that the lead begins with.
fn first_of(lead: Lead) -> Lead
    ensures value { (values : List (List ℕ)) (bound : ℕ) → IsBelow values bound lead →
        (others : List ℕ) →
        spread values (result ∷ []) ≡ take 1 (spread values (lead ∷ []) ++ others) }
    ensures below { (values : List (List ℕ)) (bound : ℕ) → IsBelow values bound lead →
        IsBelow values bound result }
{
    match lead {
        Lead::Unit(at) => Lead::Unit(at),
        Lead::Every(number) | Lead::First(number) => Lead::First(number),
    }
}

/// Pushes the one alternative whose leftmost unit is the one that these alternatives begin with, if
/// there are any.
pub(crate) fn push_first(leads: &mut Vec<Lead>, parts: &[Lead]) -> Result<(), AllocError>
    ensures value { (values : List (List ℕ)) (bound : ℕ) → All (IsBelow values bound) parts.now →
        OnOk result (spread values leads.new.items
        ≡ spread values leads.old.items ++ take 1 (spread values parts.now)) }
    ensures below { (values : List (List ℕ)) (bound : ℕ) → All (IsBelow values bound) parts.now →
        All (IsBelow values bound) leads.old.items →
        OnOk result (All (IsBelow values bound) leads.new.items) }
{
    match parts.first() {
        Some(lead) => {
            leads.push(first_of(*lead))?;
            Ok(())
        }
        None => Ok(()),
    }
}
