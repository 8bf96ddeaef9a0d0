//! Where the units of a specification stand in its text.

ghost use Rattle.std.specs.Prelude.{◌≡◌, [], ◌∷◌, IfNone, IfSome};
ghost use Rattle.rela_spec.specs.Grammar.{is_mark_of};
ghost use Rattle.rela_blame.specs.Units.{opens_unit, unit_offsets};

use rela_lex::{Token, TokenKind};

/// The units of a text that are left, in their order.
#[derive(Drop)]
pub(crate) struct Units<'a> {
    /// The tokens that are left.
    pub(crate) tokens: &'a [Token],
}

impl<'a> Units<'a> {
    /// The units that stand in these tokens.
    pub(crate) fn new(tokens: &'a [Token]) -> Units<'a>
        ensures { result.tokens.now ≡ tokens.now }
    {
        Units { tokens }
    }

    /// The number of bytes before the `{` of the next unit, or `None` where no unit is left. Time:
    /// linear in the tokens up to there.
    #[tactic(auto, unfolding(crate::specs::Units::unit_offsets))]
    pub(crate) fn next_unit(&mut self) -> Option<u32>
        ensures some { IfSome result (λ at. unit_offsets self.old.tokens.now
            ≡ at ∷ unit_offsets self.new.tokens.now) }
        ensures none { IfNone result (unit_offsets self.old.tokens.now ≡ []) }
        ensures end { IfNone result (unit_offsets self.new.tokens.now ≡ []) }
    {
        while let Some((token, others)) = self.tokens.split_first() {
            let opens = opens_unit(self.tokens);
            self.tokens = others;
            if opens {
                return Some(token.at);
            }
        }
        None
    }
}

/// Whether the tokens begin with the `{` of a unit.
#[tactic(auto, unfolding(crate::specs::Units::opens_unit))]
fn opens_unit(tokens: &[Token]) -> bool
    ensures { result ≡ opens_unit tokens.now }
{
    match tokens {
        [open, _, close, ..] => is_mark(&open.kind, b'{') && !is_mark(&close.kind, b'}'),
        _ => false,
    }
}

/// Whether the token is this mark.
fn is_mark(kind: &TokenKind, byte: u8) -> bool
    ensures { result ≡ is_mark_of byte kind.now }
{
    match kind {
        TokenKind::Mark(other) => *other == byte,
        _ => false,
    }
}
