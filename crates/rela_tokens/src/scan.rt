//! Bytes of a JSON text, from a place on.

ghost use Rattle.std.specs.Prelude.{◌≡◌, ◌<◌, ◌≤◌, ◌||◌, IfSome, IsTrue, drop, false, get_or, length};
ghost use Rattle.json.specs.Lex.{between, lex};
ghost use Rattle.json.specs.Word.{is_operator, is_space};
ghost use Rattle.rela_tokens.specs.Reading.{BeginsWith, tokens_from, WritesNumber};

/// The greatest number of digits of a number that is read: whatever these write, it is below 2^32.
const MAX_DIGITS: usize = 9;

/// The byte at a place, or a blank past the end.
#[inline(always)]
pub(crate) fn byte_at(text: &[u8], at: usize) -> u8
    ensures byte { result ≡ get_or text.now at 32 }
{
    if at < text.len() { text[at] } else { b' ' }
}

/// Whether a byte is a blank.
#[inline(always)]
fn is_blank(byte: u8) -> bool
    ensures { result ≡ is_space byte }
{
    (byte == b' ') | (byte == b'\t') | (byte == b'\n') | (byte == b'\r')
}

/// Whether a number ends before this byte.
#[inline(always)]
fn ends_number(byte: u8) -> bool
    ensures { result ≡ (is_operator byte || is_space byte) }
{
    let is_bracket = (byte == b'{') | (byte == b'}') | (byte == b'[') | (byte == b']');
    is_bracket | (byte == b':') | (byte == b',') | is_blank(byte)
}

/// The first place from `at` on where no blank stands, or the length.
#[inline(always)]
pub(crate) fn solid_from(text: &[u8], at: usize) -> usize
    requires { at ≤ length text.now }
    ensures same { lex between (drop result text.now) ≡ lex between (drop at text.now) }
    ensures solid { result < length text.now → is_space (get_or text.now result 32) ≡ false }
    ensures within { result ≤ length text.now }
{
    let mut solid = at;
    'blanks: while solid < text.len() && is_blank(byte_at(text, solid)) {
        solid += 1;
    }
    solid
}

/// Where a value or a key begins, if one does, in a text from `at` on, where no blank stands. A
/// value that stands before it needs a comma.
#[inline(always)]
pub(crate) fn value_from(text: &[u8], at: usize, after_value: bool) -> Option<usize>
    requires { at ≤ length text.now }
    ensures begins { IfSome result (λ from.
        BeginsWith (tokens_from after_value (drop at text.now)) (drop from text.now)) }
    ensures within { IfSome result (λ from. from ≤ length text.now) }
{
    if !after_value {
        return Some(at);
    }
    if byte_at(text, at) != b',' {
        return None;
    }
    Some(solid_from(text, at + 1))
}

/// The whole number of at most nine digits that a text begins with, and how many these are.
#[inline(always)]
pub(crate) fn number_in(text: &[u8]) -> Option<(u32, usize)>
    ensures number { IfSome result (λ found.
        WritesNumber text.now found.0 (drop found.1 text.now)) }
    ensures within { IfSome result (λ found. found.1 ≤ length text.now) }
{
    let mut number: u32 = 0;
    let mut count = 0;
    'digits: while count < text.len() && text[count].is_ascii_digit() {
        if count == MAX_DIGITS {
            return None;
        }
        number = number * 10 + u32::from(text[count] - b'0');
        count += 1;
    }
    if count > 0 && has_no_zero_before(text, count) && ends_number(byte_at(text, count)) {
        Some((number, count))
    } else {
        None
    }
}

/// Whether no zero stands before other ones of the first `count` digits of a text.
#[inline(always)]
fn has_no_zero_before(text: &[u8], count: usize) -> bool
    requires some { 0 < count }
    requires within { count ≤ length text.now }
    ensures { IsTrue result → get_or text.now 0 32 ≡ 48 → count ≡ 1 }
{
    count == 1 || byte_at(text, 0) != b'0'
}
