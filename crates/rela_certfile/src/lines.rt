//! Cutting texts.

ghost use Rattle.std.specs.Prelude.{◌≡◌, ◌≢◌, ◌++◌, List, ℕ, MatchOption};
ghost use Rattle.rela_certfile.specs.Cut.{IsCutAt, Lacks};

/// What stands before the first byte of this value, and what stands behind it, or `None` where
/// there is no such byte. Time: linear in what stands before it.
pub(crate) fn cut_at(text: &[u8], byte: u8) -> Option<(&[u8], &[u8])>
    ensures { MatchOption result (Lacks byte text.now)
        (λ parts. IsCutAt byte text.now parts.0.now parts.1.now) }
{
    match text.iter().position(|&other| other == byte) {
        Some(at) => Some((&text[..at], &text[at + 1..])),
        None => None,
    }
}

/// What stands behind this prefix, or `None` where the text doesn't begin with it.
pub(crate) fn after_prefix<'a>(text: &'a [u8], prefix: &[u8]) -> Option<&'a [u8]>
    ensures { MatchOption result ((rest : List ℕ) → text.now ≢ prefix.now ++ rest)
        (λ rest. text.now ≡ prefix.now ++ rest.now) }
{
    text.strip_prefix(prefix)
}
