//! What an audit has to do with what is certified.

ghost use Rattle.std.specs.Prelude.{◌<◌, ◌^◌, ℕ, All, List, length};
ghost use Rattle.rela_certfile.specs.Layout.{HasBounds};
ghost use Rattle.rela_names.specs.Name.{IsName};
ghost use Rattle.rela_cert.specs.Accepted.{AcceptsRows};
ghost use Rattle.rela_cert.specs.Audited.{IsAudited};
ghost use Rattle.rela_cert.specs.Certified.{IsCertified};
ghost use Rattle.rela_cert.specs.Subject.{IsSubject, shape_of, subject};

use crate::answer::Audit;
use crate::row_audit::MAX_STATES;
use rela_blocks::symbols_of;
use rela_certfile::{one_reading, planned_rows, unbroken};
use rela_names::Alphabet;
use rela_plan::plans_are_equal;
use rela_snapshot::FlowPair;
use rela_translate::Check;

/// An audit doesn't reject what [`certify`](crate::certify) writes for the same checks and flows. It
/// accepts the rows that are listed, or the images of one of them have more than [`MAX_STATES`]
/// places. The call does nothing but look at the names of the flows and the checks, and its contract
/// is this law. Time: linear in them and in the bodies of the checks.
pub fn audit_accepts_what_certify_writes(checks: &[Check], pairs: &[FlowPair], alphabet: &Alphabet)
    requires subject { IsSubject (subject checks.now pairs.now alphabet.now) }
    ensures { (limit : ℕ) (text : List ℕ) (audit : Audit) → length text < 2 ^ 32 →
        (certified : IsCertified (subject checks.now pairs.now alphabet.now) limit text) →
        IsAudited (subject checks.now pairs.now alphabet.now) MAX_STATES text audit →
        AcceptsRows (subject checks.now pairs.now alphabet.now) certified.planned MAX_STATES
        certified.rows audit }
{
    plans_are_equal();
    planned_rows();
    one_reading();
    unbroken();
    flows_are_named(pairs);
    checks_have_bounds(checks, alphabet);
}

/// Each flow has a name. The call does nothing but look at each, and its contract is this law.
fn flows_are_named(pairs: &[FlowPair])
    ensures { All (λ pair. IsName pair.class.name) pairs.now }
{
    for pair in pairs {
        pair.class.name.as_bytes();
    }
}

/// Each check has a name, and the symbols that it asks of its rows have 32 bits. The call does
/// nothing but look at each, and its contract is this law.
fn checks_have_bounds(checks: &[Check], alphabet: &Alphabet)
    ensures named { All (λ check. IsName check.name) checks.now }
    ensures bounds { All (λ check. HasBounds (shape_of (length alphabet.now) check)) checks.now }
{
    // An alphabet has at most 100,000 locations.
    alphabet.len();
    for check in checks {
        check.name().as_bytes();
        symbols_of(check, alphabet);
    }
}
