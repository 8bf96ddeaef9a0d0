//! Numbers of the command line.
ghost use Rattle.std.specs.Prelude.{◌≡◌, ◌≤◌, ℕ, ◌↔◌, Some};
ghost use Rattle.rela_words.specs.Parts.{IsNumber};

/// The number that the word gives: decimal digits without a sign or a zero before them, for a
/// number from 1 to `most`. `None` for any other word. Time: linear in the bytes of the word.
pub(crate) fn number_of(word: &str, most: usize) -> Option<usize>
    requires { most ≤ 4000000 }
    ensures { (n : ℕ) → (result ≡ Some n) ↔ IsNumber most word.now n }
{
    // Neither a sign nor a zero may stand first. Both come before the other digits.
    if *word.as_bytes().first()? < b'1' {
        return None;
    }
    let number = word.parse().ok()?;
    if number <= most { Some(number) } else { None }
}
