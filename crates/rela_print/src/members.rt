//! The texts of members and of classes.

ghost use Rattle.std.specs.Prelude.{◌≡◌, ◌++◌, codes, OnOk};
ghost use Rattle.rela_print.specs.Joined.{joined};
ghost use Rattle.rela_print.specs.Members.{by_opening, member_text, class_opening, class_text};

use crate::names::push_name;
use rela_locations::By;
use rela_spec::Member;
use std::alloc::AllocError;

/// Appends a class in brackets.
#[tactic(auto, unfolding(crate::specs::Members::class_text))]
pub(crate) fn push_class(
    out: &mut Vec<u8>,
    negated: bool,
    members: &[Member],
) -> Result<(), AllocError>
    ensures { OnOk result (out.new.items ≡ out.old.items ++ class_text negated members.now) }
{
    out.extend_from_slice(class_opening(negated))?;
    push_members(out, members)?;
    out.extend_from_slice(b"]")
}

/// What opens a class: a bracket, with a `^` behind it where the class is negated.
fn class_opening(negated: bool) -> &'static [u8]
    ensures { result.now ≡ class_opening negated }
{
    if negated { b"[^" } else { b"[" }
}

/// Appends the members, with a blank between each two.
fn push_members(out: &mut Vec<u8>, members: &[Member]) -> Result<(), AllocError>
    ensures { OnOk result (out.new.items ≡ out.old.items
        ++ joined (codes " ") member_text members.now) }
{
    let Some((first, others)) = members.split_first() else {
        return Ok(());
    };
    push_member(out, first)?;
    for member in others {
        out.extend_from_slice(b" ")?;
        push_member(out, member)?;
    }
    Ok(())
}

/// Appends a member.
#[tactic(auto, unfolding(crate::specs::Members::member_text))]
pub(crate) fn push_member(out: &mut Vec<u8>, member: &Member) -> Result<(), AllocError>
    ensures { OnOk result (out.new.items ≡ out.old.items ++ member_text member.now) }
{
    match member {
        Member::Here { name, .. } => push_name(out, name),
        Member::Within { by, name, .. } => {
            out.extend_from_slice(by_opening(*by))?;
            push_name(out, name)?;
            out.extend_from_slice(b")")
        }
        Member::Drop => out.extend_from_slice(b"drop"),
        Member::Loop => out.extend_from_slice(b"loop"),
    }
}

/// The word and the bracket that stand before a name that picks locations.
fn by_opening(by: By) -> &'static [u8]
    ensures { result.now ≡ by_opening by }
{
    match by {
        By::Interface => b"interface(",
        By::Device => b"device(",
        By::Group => b"group(",
        By::Tag => b"tag(",
    }
}
