//! The words of assertion files that are no names.

ghost use Rattle.std.specs.Prelude.{◌≡◌};
ghost use Rattle.rela_rirfile.specs.Keywords.{is_reserved, is_assertion_word, is_set_word, is_relation_word};

use rela_spec::is_keyword;

/// Whether the word is a name only in quotes: one of the words of assertion files, or a keyword of
/// specifications.
#[tactic(auto, unfolding(crate::specs::Keywords::is_reserved))]
pub fn is_reserved(word: &[u8]) -> bool
    ensures { result ≡ is_reserved word.now }
{
    is_keyword(word) || is_assertion_word(word) || is_set_word(word) || is_relation_word(word)
}

/// Whether the word begins an assertion, or says what is asserted of two sets.
#[tactic(auto, unfolding(crate::specs::Keywords::is_assertion_word))]
fn is_assertion_word(word: &[u8]) -> bool
    ensures { result ≡ is_assertion_word word.now }
{
    word == b"assert".as_slice() || word == b"equal".as_slice() || word == b"included".as_slice()
}

/// Whether the word is that of a set of words.
#[tactic(auto, unfolding(crate::specs::Keywords::is_set_word))]
fn is_set_word(word: &[u8]) -> bool
    ensures { result ≡ is_set_word word.now }
{
    word == b"none".as_slice()
        || word == b"eps".as_slice()
        || word == b"pre".as_slice()
        || word == b"post".as_slice()
        || word == b"union".as_slice()
        || word == b"concat".as_slice()
        || word == b"star".as_slice()
        || word == b"meet".as_slice()
        || word == b"complement".as_slice()
        || word == b"image".as_slice()
}

/// Whether the word is that of relations alone.
#[tactic(auto, unfolding(crate::specs::Keywords::is_relation_word))]
fn is_relation_word(word: &[u8]) -> bool
    ensures { result ≡ is_relation_word word.now }
{
    word == b"identity".as_slice() || word == b"product".as_slice() || word == b"compose".as_slice()
}
