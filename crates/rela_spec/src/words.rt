//! The words of the language that are no names.

ghost use Rattle.std.specs.Prelude.{◌≡◌};
ghost use Rattle.rela_spec.specs.Keywords.{is_keyword, is_item_word, is_member_word, is_modifier_word, is_joining_word, is_predicate_word};

/// Whether the word is a keyword, which is a name only in quotes.
#[tactic(auto, unfolding(crate::specs::Keywords::is_keyword))]
pub fn is_keyword(word: &[u8]) -> bool
    ensures { result ≡ is_keyword word.now }
{
    is_item_word(word)
        || is_member_word(word)
        || is_modifier_word(word)
        || is_joining_word(word)
        || is_predicate_word(word)
}

/// Whether the word begins a line of a specification, or says for which flows a check is or how
/// strict.
#[tactic(auto, unfolding(crate::specs::Keywords::is_item_word))]
fn is_item_word(word: &[u8]) -> bool
    ensures { result ≡ is_item_word word.now }
{
    word == b"level".as_slice()
        || word == b"path".as_slice()
        || word == b"spec".as_slice()
        || word == b"check".as_slice()
        || word == b"for".as_slice()
        || word == b"atmost".as_slice()
}

/// Whether the word picks locations, or is a symbol that is no location.
#[tactic(auto, unfolding(crate::specs::Keywords::is_member_word))]
fn is_member_word(word: &[u8]) -> bool
    ensures { result ≡ is_member_word word.now }
{
    word == b"interface".as_slice()
        || word == b"device".as_slice()
        || word == b"group".as_slice()
        || word == b"tag".as_slice()
        || word == b"drop".as_slice()
        || word == b"loop".as_slice()
}

/// Whether the word is that of a modifier other than `drop`.
#[tactic(auto, unfolding(crate::specs::Keywords::is_modifier_word))]
fn is_modifier_word(word: &[u8]) -> bool
    ensures { result ≡ is_modifier_word word.now }
{
    word == b"preserve".as_slice()
        || word == b"add".as_slice()
        || word == b"remove".as_slice()
        || word == b"replace".as_slice()
        || word == b"any".as_slice()
        || word == b"ignore".as_slice()
}

/// Whether the word joins or negates parts of specifications or predicates.
#[tactic(auto, unfolding(crate::specs::Keywords::is_joining_word))]
fn is_joining_word(word: &[u8]) -> bool
    ensures { result ≡ is_joining_word word.now }
{
    word == b"then".as_slice()
        || word == b"else".as_slice()
        || word == b"not".as_slice()
        || word == b"and".as_slice()
        || word == b"or".as_slice()
}

/// Whether the word belongs to a single test of flows.
#[tactic(auto, unfolding(crate::specs::Keywords::is_predicate_word))]
fn is_predicate_word(word: &[u8]) -> bool
    ensures { result ≡ is_predicate_word word.now }
{
    word == b"all".as_slice()
        || word == b"dst".as_slice()
        || word == b"src".as_slice()
        || word == b"in".as_slice()
        || word == b"overlaps".as_slice()
        || word == b"flow".as_slice()
        || word == b"class".as_slice()
}
