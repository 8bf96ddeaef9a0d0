//! What steps give one after the other, how calls end that open no file, and when texts are refused.
//! Each law is a function that does nothing, and its contract is the law.

ghost use Rattle.std.specs.Prelude.{◌≡◌, ◌≢◌, ◌≤◌, ◌⊎◌, ℕ, Bool, Result, Ok, Err, IfErr};
ghost use Rattle.rela_snapshot.specs.Steps.{Is};
ghost use Rattle.rela_inputs.specs.Chained.{Chain, Chained};
ghost use Rattle.rela_inputs.specs.Given.{Equals};
ghost use Rattle.rela_inputs.specs.Halts.{refused, spec_halt};
ghost use Rattle.rela_inputs.specs.Reading.{Ends, HaltsInside, max_file_bytes};

use crate::reading::Halt;
use crate::refusal::{Input, Reason};
use rela_lex::SpecError;
use std::marker::Brand;

/// The points of a command at which one step comes after another, which only contracts name.
pub trait Steps {
    ghost Point: { Type 0 };

    ghost chain: { Point → Chain };
}

// What a caller's proof picks stands in the place of this one.
impl Steps for Brand {
    ghost Point = { Unit {0} };

    ghost chain = { λ point. record {
      Value = Unit {0};
      Made = Unit {0};
      Same = Equals;
      Alike = Equals;
      Step = Is (Ok tt);
      Next = λ value. Is (Ok tt);
    } };
}

/// At each point, what the two steps give one after the other.
pub fn steps_chain<S: Steps>()
    ensures { (told steady : Bool) (point : S.Point) → Chained told steady (S.chain point) }
{}

/// A call that opens no file, after one that was given bytes, ends as one that reads files does, and
/// never for a read fault.
pub fn calls_inside_end<T>()
    ensures ends { (old new given : ℕ) (result : Result T Halt) → new ≡ old →
        given ≤ max_file_bytes → IfErr result HaltsInside → Ends old new given result }
    ensures no_fault { (result : Result T Halt) → IfErr result HaltsInside →
        result ≢ Err Halt.ReadFault }
{}

/// An error of a text of tokens ends a command for want of memory where it is that, and else with the
/// refusal of the input.
pub fn texts_are_refused()
    ensures { (input : Input) (error : SpecError) →
        ((error ≡ SpecError.Memory) × (spec_halt input error ≡ Halt.Memory))
        ⊎ ((error ≢ SpecError.Memory)
        × (spec_halt input error ≡ refused input (Reason.Specification error))) }
{}
