//! Names in a text.

ghost use Rattle.std.specs.Prelude.{◌≡◌, ◌++◌, OnOk};
ghost use Rattle.rela_print.specs.Names.{needs_quotes, name_text, reference_text};

use rela_names::Name;
use rela_spec::is_keyword;
use std::alloc::AllocError;

/// Appends the name, in quotes where it would not be read as a name without them.
#[tactic(auto, unfolding(crate::specs::Names::name_text))]
pub(crate) fn push_name(out: &mut Vec<u8>, name: &Name) -> Result<(), AllocError>
    ensures { OnOk result (out.new.items ≡ out.old.items ++ name_text name.now) }
{
    let bytes = name.as_bytes();
    if !needs_quotes(bytes) {
        return out.extend_from_slice(bytes);
    }
    out.extend_from_slice(b"\"")?;
    out.extend_from_slice(bytes)?;
    out.extend_from_slice(b"\"")
}

/// Whether the name, if it stood bare, would be read as a keyword or as a mark.
#[tactic(auto, unfolding(crate::specs::Names::needs_quotes))]
fn needs_quotes(bytes: &[u8]) -> bool
    ensures { result ≡ needs_quotes bytes.now }
{
    is_keyword(bytes) || bytes == b".".as_slice() || bytes == b":".as_slice()
}

/// Appends a reference to the name.
#[tactic(auto, unfolding(crate::specs::Names::reference_text))]
pub(crate) fn push_reference(out: &mut Vec<u8>, name: &Name) -> Result<(), AllocError>
    ensures { OnOk result (out.new.items ≡ out.old.items ++ reference_text name.now) }
{
    out.extend_from_slice(b"$")?;
    out.extend_from_slice(name.as_bytes())
}
