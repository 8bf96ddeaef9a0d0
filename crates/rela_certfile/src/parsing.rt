//! Reading the text of a certificate.

ghost use Rattle.std.specs.Prelude.{◌≡◌, ◌≢◌, [], ◌∷◌, ◌++◌, ◌+◌, ◌<◌, ◌^◌, ◌↔◌, ℕ, List, IfErr, IfOk, IsErrOf, MatchOption, None, Some, length};
ghost use Rattle.rela_certfile.specs.declared.error.CertificateError.TheVariants.{Broken};
ghost use Rattle.rela_certfile.specs.Breaks.{BreaksAt, GoesOn};
ghost use Rattle.rela_certfile.specs.Listed.{AreListed};
ghost use Rattle.rela_certfile.specs.Text.{header, text_of};

use crate::builder::Builder;
use crate::certificate::Certificate;
use crate::error::CertificateError;
use crate::item::State;
use crate::layout::PlanLayout;
use crate::lines::{after_prefix, cut_at};
use std::alloc::Global;

/// The rows that a text lists, read line by line. Time: linear in the text, and in the planned rows
/// and their names. Space: linear in the text.
///
/// # Errors
///
/// `Broken` where the text is that of no list of rows, with the first line that breaks it; `Memory`
/// where memory runs out, and so only at a line behind the first that may follow those before it.
pub fn parse(
    alloc: Global,
    layout: &PlanLayout,
    text: &[u8],
) -> Result<Certificate, CertificateError>
    requires { length text.now < 2 ^ 32 }
    ensures listed { IfOk result (λ rows. AreListed layout.now rows) }
    ensures whole { IfOk result (λ rows. text.now ≡ text_of layout.now rows) }
    ensures broken { IfErr result (λ error. (line : ℕ) → error ≡ Broken line →
        BreaksAt layout.now text.now line) }
    ensures memory { IsErrOf result CertificateError.Memory → GoesOn layout.now text.now }
{
    layout.is_layout();
    let Some(mut rest) = after_first_line(text) else {
        return Err(CertificateError::Broken { line: 1 });
    };
    let mut line: u32 = 2;
    let mut state = State::start();
    let mut builder = Builder::new(alloc);
    while let Some((next, others)) = cut_at(rest, b'\n') {
        if next == b"end".as_slice() {
            if let Some(line) = broken_by_end(state.heads, others, line) {
                return Err(CertificateError::Broken { line });
            }
            return Ok(Certificate::new(
                builder.places,
                builder.firsts,
                builder.starts,
                builder.steps,
            ));
        }
        let Some(item) = state.item_of(layout, next) else {
            return Err(CertificateError::Broken { line });
        };
        builder.push(item)?;
        state = state.after(layout, item);
        rest = others;
        line += 1;
    }
    Err(CertificateError::Broken { line })
}

/// The first line that breaks where the last line comes as this line: this one where blocks of a
/// row are still to begin, and the next one where something else follows. `None` where the text may
/// end so.
fn broken_by_end(heads: usize, others: &[u8], line: u32) -> Option<u32>
    requires { line + 1 < 2 ^ 32 }
    ensures whole { (result ≡ None) ↔ ((heads ≡ 0) × (others.now ≡ [])) }
    ensures missing { 0 < heads → result ≡ Some line }
    ensures more { heads ≡ 0 → others.now ≢ [] → result ≡ Some (line + 1) }
{
    if heads > 0 {
        return Some(line);
    }
    if !others.is_empty() {
        return Some(line + 1);
    }
    None
}

/// What stands behind the first line, or `None` where that is not the first line of a certificate.
fn after_first_line(text: &[u8]) -> Option<&[u8]>
    ensures { MatchOption result ((rest : List ℕ) → text.now ≢ (header ++ 10 ∷ []) ++ rest)
        (λ rest. text.now ≡ (header ++ 10 ∷ []) ++ rest.now) }
{
    after_prefix(text, b"rela certificate 1\n")
}
