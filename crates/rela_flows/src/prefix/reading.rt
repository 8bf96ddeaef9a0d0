//! The texts of prefixes, read: dotted decimal (RFC 4632, section 3.1) and colon hexadecimal
//! (RFC 4291, section 2.2), each with a slash and a length.
ghost use Rattle.std.specs.Prelude.{◌≡◌, ℕ, ◌+◌, ◌*◌, ◌<◌, ◌≤◌, ◌^◌, ◌↔◌, ◌==◌, ◌∷◌, Option, Some, MatchOption, length, option_copied};
ghost use Rattle.std.specs.List.{slice_split};
ghost use Rattle.std.specs.Str.Parse.{IsNumeral, digits_value};
ghost use Rattle.rela_flows.specs.Notation.{IsOctet, IsIpv4Address, IsIpv6Address};
ghost use Rattle.rela_flows.specs.Fields.{separator_of, bits_of, IsField, parts_of, Write, IsGap};

/// How the fields of an address are written.
#[derive(Clone, Copy)]
enum Notation {
    /// Octets in decimal, joined by dots.
    Dotted,
    /// Groups of 16 bits in hexadecimal, joined by colons.
    Colons,
}

/// The fields of a text.
#[derive(Clone, Copy)]
struct Fields {
    /// How many they are: at most 8.
    count: u32,
    /// The number that they write one after another, the first the most significant.
    number: u128,
}

impl Notation {
    /// The byte between two fields.
    fn separator(self) -> u8
        ensures { result ≡ separator_of self }
    {
        match self {
            Notation::Dotted => b'.',
            Notation::Colons => b':',
        }
    }

    /// How many bits a field writes.
    fn bits(self) -> u32
        ensures { result ≡ bits_of self }
    {
        match self {
            Notation::Dotted => 8,
            Notation::Colons => 16,
        }
    }

    /// The number that a field writes, or `None` where the text is no field.
    fn field(self, text: &[u8]) -> Option<u16>
        ensures { (n : ℕ) → (result ≡ Some n) ↔ IsField self text.now n }
    {
        match self {
            Notation::Dotted => octet(text),
            Notation::Colons => short_numeral(text, 16),
        }
    }
}

/// The number that one to four digits of a radix write, or `None` where the text is no such
/// numeral.
fn short_numeral(text: &[u8], radix: u32) -> Option<u16>
    requires low { 2 ≤ radix }
    requires high { radix ≤ 16 }
    ensures { (n : ℕ) → (result ≡ Some n)
        ↔ (IsNumeral radix text.now × (length text.now ≤ 4) × (n ≡ digits_value radix text.now)) }
{
    if text.is_empty() || text.len() > 4 {
        return None;
    }
    let mut number: u16 = 0;
    for &byte in text {
        let digit = char::from(byte).to_digit(radix)?;
        number = number * radix as u16 + digit as u16;
    }
    Some(number)
}

/// The number below 256 that a decimal with no leading zero writes, or `None` where the text is
/// none.
pub(super) fn octet(text: &[u8]) -> Option<u16>
    ensures { (n : ℕ) → (result ≡ Some n) ↔ IsOctet text.now n }
{
    if text.len() > 1 && text[0] == b'0' {
        return None;
    }
    let number = short_numeral(text, 10)?;
    if number < 256 { Some(number) } else { None }
}

/// What stands before the first separator, and what stands after it, or `None` where there is no
/// separator.
pub(super) fn cut(text: &[u8], separator: u8) -> (&[u8], Option<&[u8]>)
    ensures { slice_split (λ b. b == separator) text.now ≡ result.0.now
        ∷ parts_of separator (option_copied result.1) }
{
    match text.iter().position(|&b| b == separator) {
        Some(i) => (&text[..i], Some(&text[i + 1..])),
        None => (text, None),
    }
}

/// The fields of a text, or `None` where it has more than eight or one of them is no field of this
/// notation. The empty text has none.
fn read_fields(text: &[u8], notation: Notation) -> Option<Fields>
    ensures { (fields : Fields) → (result ≡ Some fields) ↔ Write notation text.now fields }
{
    let mut read = Fields {
        count: 0,
        number: 0,
    };
    let mut rest = if text.is_empty() { None } else { Some(text) };
    while let Some(more) = rest {
        let (field, after) = cut(more, notation.separator());
        if read.count == 8 {
            return None;
        }
        read = Fields {
            count: read.count + 1,
            number: (read.number << notation.bits()) | u128::from(notation.field(field)?),
        };
        rest = after;
    }
    Some(read)
}

/// The address that four octets write, or `None` where the text is no such address.
pub(super) fn ipv4_address(text: &[u8]) -> Option<u32>
    ensures { (a : ℕ) → (result ≡ Some a) ↔ IsIpv4Address text.now a }
{
    let octets = read_fields(text, Notation::Dotted)?;
    if octets.count == 4 {
        Some(octets.number as u32)
    } else {
        None
    }
}

/// The place of the first of the first two colons that stand side by side, or `None` where no two
/// do.
fn gap(text: &[u8]) -> Option<usize>
    ensures { MatchOption result ((k : ℕ) → ¬ IsGap text.now k) (λ i. IsGap text.now i
        × ((k : ℕ) → k < i → ¬ IsGap text.now k)) }
{
    for i in 1..text.len() {
        if text[i - 1] == b':' && text[i] == b':' {
            return Some(i - 1);
        }
    }
    None
}

/// The number shifted to the left, by which no set bit is lost. Zero may be shifted by all 128
/// bits.
fn shifted(number: u128, bits: u32) -> u128
    requires width { bits ≤ 128 }
    requires room { number * 2 ^ bits < 2 ^ 128 }
    ensures { result ≡ number * 2 ^ bits }
{
    number.checked_shl(bits).unwrap_or(0)
}

/// The address that eight groups write, or fewer round two colons, which stand for groups of zeros.
/// `None` where the text is no such address.
pub(super) fn ipv6_address(text: &[u8]) -> Option<u128>
    ensures { (a : ℕ) → (result ≡ Some a) ↔ IsIpv6Address text.now a }
{
    let Some(gap) = gap(text) else {
        let groups = read_fields(text, Notation::Colons)?;
        return if groups.count == 8 {
            Some(groups.number)
        } else {
            None
        };
    };
    let left = read_fields(&text[..gap], Notation::Colons)?;
    let right = read_fields(&text[gap + 2..], Notation::Colons)?;
    if left.count + right.count > 7 {
        return None;
    }
    Some(shifted(left.number, 16 * (8 - left.count)) | right.number)
}
