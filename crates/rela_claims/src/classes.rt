//! Classes as they are written, and where that is.

ghost use Rattle.std.specs.Prelude.{◌≡◌};
ghost use Rattle.rela_claims.specs.Classes.{mention_of, mention_of_all};
ghost use Rattle.rela_claims.specs.Written.{class_of, mentioned};
ghost use Rattle.rela_locations.specs.Network.{by_level};

use rela_locations::By;
use rela_names::{Level, Name};
use rela_spec::Member;

/// A class as it is written, wherever in the text that is.
#[derive(Clone, Copy, PartialEq, Eq, Hash)]
pub(crate) enum Written<'a> {
    /// Any one path symbol.
    All,
    /// The locations within what the name picks.
    Within(By, &'a Name),
    /// The symbol `drop`.
    Drop,
    /// The symbol `loop`.
    Loop,
}

/// A class where it is written.
#[derive(Clone, Copy)]
pub(crate) struct Mention<'a> {
    /// The class.
    pub(crate) class: Written<'a>,
    /// The number of bytes of the text before its name, or 0 where it has none.
    pub(crate) at: u32,
}

impl<'a> Mention<'a> {
    /// What a member mentions. A bare name is that of a location of the level.
    pub(crate) fn of(level: Level, member: &'a Member) -> Mention<'a>
        ensures { mentioned result ≡ mention_of level member.now }
    {
        match member {
            Member::Here { name, at } => Mention {
                class: Written::Within(by_level(level), name),
                at: *at,
            },
            Member::Within { by, name, at } => Mention {
                class: Written::Within(*by, name),
                at: *at,
            },
            Member::Drop => Mention::without_name(Written::Drop),
            Member::Loop => Mention::without_name(Written::Loop),
        }
    }

    /// What `all` mentions.
    pub(crate) fn all() -> Mention<'a>
        ensures { mentioned result ≡ mention_of_all }
    {
        Mention::without_name(Written::All)
    }

    /// A class that is written without a name.
    fn without_name(class: Written<'a>) -> Mention<'a>
        ensures { mentioned result ≡ record { class = class_of class.entry; at = 0 } }
    {
        Mention { class, at: 0 }
    }
}

/// The way of picking that picks a location of the level by its own name.
fn by_level(level: Level) -> By
    ensures { result ≡ by_level level }
{
    match level {
        Level::Interface => By::Interface,
        Level::Device => By::Device,
        Level::Group => By::Group,
    }
}
