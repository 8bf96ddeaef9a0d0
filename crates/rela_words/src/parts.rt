//! The words behind a command's name, read by `clap`: operands, options and the flag.

ghost use Rattle.std.specs.Prelude.{◌≡◌, ◌↔◌, ℕ, false, Some, IfOk, IfErr, IsTrue, map, string_bytes};
ghost use Rattle.clap.specs.Words.{app_of};
ghost use Rattle.rela_words.specs.Parts.{GiveJust, GiveNothing, HaveNoOptions, IsLimitUpTo};
ghost use Rattle.rela_words.specs.Parts.{options_app, parts_of, words_of};

use crate::command::{DEFAULT_STATES, MAX_STATES};
use crate::errors::WordsError;
use crate::number::number_of;
use clap::error::ErrorKind;
use clap::{Arg, ArgAction, ArgMatches, Command};
use std::alloc::{AllocError, Global};

/// What the words behind a command's name give.
#[derive(Drop)]
pub(crate) struct Parts<'w> {
    /// The operands and the values of the option, as `clap` found them.
    matches: ArgMatches<'w>,
    /// Whether `--blame` is given.
    pub(crate) blame: bool,
}

impl<'w> Parts<'w> {
    /// The operands in order, and `None` where there are none.
    pub(crate) fn operands(&self) -> Option<&[&'w str]>
        ensures { words_of result ≡ (parts_of self.now).operands }
    {
        self.matches.get_raw("operands")
    }

    /// What the uses of `--states` give, in order, and `None` where it isn't used.
    pub(crate) fn limits(&self) -> Option<&[&'w str]>
        ensures { words_of result ≡ (parts_of self.now).limits }
    {
        self.matches.get_raw("states")
    }

    /// Whether neither `--states` nor `--blame` is given.
    pub(crate) fn have_no_options(&self) -> bool
        ensures { IsTrue result ↔ HaveNoOptions (parts_of self.now) }
    {
        !matches!(self.limits(), Some([_, ..])) && !self.blame
    }

    /// The state limit: the one that `--states` gives, or the default where it isn't used. `None`
    /// where it is used twice, or gives no number from 1 to [`MAX_STATES`].
    pub(crate) fn states(&self) -> Option<usize>
        ensures { (n : ℕ) → (result ≡ Some n)
            ↔ IsLimitUpTo 4000000 (parts_of self.now).limits n }
    {
        match self.limits() {
            None | Some([]) => Some(DEFAULT_STATES),
            Some([word]) => number_of(word, MAX_STATES),
            Some(_) => None,
        }
    }

    /// The state limit, for a command that takes no flag. `None` where the flag is given, or where
    /// there is no such limit.
    pub(crate) fn states_without_flag(&self) -> Option<usize>
        ensures { (n : ℕ) → (result ≡ Some n)
            ↔ (IsLimitUpTo 4000000 (parts_of self.now).limits n × (self.now.blame ≡ false)) }
    {
        if self.blame { None } else { self.states() }
    }
}

/// Reads the words behind a command's name. Time and space: linear in the bytes of the words.
///
/// # Errors
///
/// `Bad` where they give no parts.
pub(crate) fn parse<'w>(alloc: Global, words: &'w [String]) -> Result<Parts<'w>, WordsError>
    ensures parts { IfOk result (λ p. GiveJust (map string_bytes words.now) (parts_of p)) }
    ensures bad { IfErr result (λ e. e ≡ WordsError.Bad
        → GiveNothing (map string_bytes words.now)) }
{
    match options(alloc)?.try_get_matches_from(words) {
        Ok(matches) => {
            let blame = matches.get_flag("blame");
            Ok(Parts { matches, blame })
        }
        Err(error) => match error.kind() {
            ErrorKind::OutOfMemory => Err(WordsError::Memory),
            _ => Err(WordsError::Bad),
        },
    }
}

/// The option, the flag and the operands, without a flag for help.
fn options<'w>(alloc: Global) -> Result<Command<'w>, AllocError>
    ensures { IfOk result (λ c. app_of c ≡ options_app) }
{
    let states = Arg::new(alloc, "states")
        .long("states")
        .action(ArgAction::Append);
    let blame = Arg::new(alloc, "blame")
        .long("blame")
        .action(ArgAction::SetTrue);
    let operands = Arg::new(alloc, "operands").action(ArgAction::Append);
    Command::new(alloc, "rela")
        .no_binary_name(true)
        .disable_help_flag(true)
        .arg(states)?
        .arg(blame)?
        .arg(operands)
}
