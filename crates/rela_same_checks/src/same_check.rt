//! Whether two checks ask for the same.
ghost use Rattle.std.specs.Prelude.{◌≡◌, ◌↔◌, IsTrue};
ghost use Rattle.rela_same_checks.specs.SameChecks.{AskTheSame};

use crate::same_body::same_body;
use rela_rir::SymbolSet;
use rela_translate::Check;

/// Whether the checks ask for the same. It goes as deep into the stack as their bodies. Time: linear
/// in the smaller body and the smaller class table.
pub fn ask_the_same(check: &Check, other: &Check) -> bool
    ensures { IsTrue result ↔ AskTheSame check.now other.now }
{
    check.level() == other.level()
        && check.at_most() == other.at_most()
        && same_classes(check.classes(), other.classes())
        && same_body(check.body(), other.body())
}

/// Whether the class tables are the same.
fn same_classes(one: &[SymbolSet], other: &[SymbolSet]) -> bool
    ensures { IsTrue result ↔ one.now ≡ other.now }
{
    one == other
}
