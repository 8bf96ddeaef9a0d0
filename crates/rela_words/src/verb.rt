//! The names of the commands.

ghost use Rattle.std.specs.Prelude.{◌≡◌, ◌≢◌, IfSome, IsNone};
ghost use Rattle.rela_words.specs.Commands.{name_of};
ghost use Rattle.rela_words.specs.declared.verb.Verb.{Verb};

/// Which command is asked for.
#[derive(Clone, Copy)]
pub(crate) enum Verb {
    /// `check`
    Check,
    /// `fmt`
    Fmt,
    /// `fib`
    Fib,
    /// `zone`
    Zone,
    /// `rir`
    Rir,
    /// `certify`
    Certify,
    /// `audit`
    Audit,
    /// `demo`
    Demo,
}

impl Verb {
    /// The command of this name, or `None` where there is none. Time: linear in the name.
    pub(crate) fn named(name: &str) -> Option<Verb>
        ensures named { IfSome result (λ verb. name.now ≡ name_of verb) }
        ensures none { IsNone result → (verb : Verb) → name.now ≢ name_of verb }
    {
        match name {
            "check" => Some(Verb::Check),
            "fmt" => Some(Verb::Fmt),
            "fib" => Some(Verb::Fib),
            "zone" => Some(Verb::Zone),
            "rir" => Some(Verb::Rir),
            "certify" => Some(Verb::Certify),
            "audit" => Some(Verb::Audit),
            "demo" => Some(Verb::Demo),
            _ => None,
        }
    }
}
