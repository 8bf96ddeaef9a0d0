//! The canonical text of a tree.

ghost use Rattle.std.specs.Prelude.{◌≡◌, ◌++◌, codes, IfOk, OnOk};
ghost use Rattle.rela_print.specs.Names.{name_text};
ghost use Rattle.rela_print.specs.PredicateTexts.{condition_text};
ghost use Rattle.rela_print.specs.Print.{level_line, check_words, item_line, print_of};
ghost use Rattle.rela_print.specs.ReadBack.{IsOfText, ReadsBack};

use crate::laws::canonical_texts_are_read;
use crate::names::push_name;
use crate::paths::push_path;
use crate::predicates::push_condition;
use crate::specs::push_spec;
use rela_flows::Predicate;
use rela_names::{Level, Name};
use rela_spec::{Item, SpecFile};
use std::alloc::{AllocError, Global};

/// The canonical text of the tree: a line with the level, then a line for each item. Where some
/// text spells the tree, this one is read as the same tree, and as no other. The only error is want
/// of memory.
///
/// Time and space: linear in the text that is written. It goes as deep into the stack as the tree
/// is deep.
pub fn print(alloc: Global, file: &SpecFile) -> Result<Vec<u8>, AllocError>
    ensures canonical { IfOk result (λ text. text.items ≡ print_of file.now) }
    ensures reads_back { IsOfText file.now → IfOk result (λ text. ReadsBack text.items file.now) }
{
    let mut out = Vec::new(alloc);
    out.extend_from_slice(level_line(file.level))?;
    for item in file.items.as_slice() {
        push_item(&mut out, item)?;
    }
    canonical_texts_are_read();
    Ok(out)
}

/// The line that declares the level.
fn level_line(level: Level) -> &'static [u8]
    ensures { result.now ≡ level_line level }
{
    match level {
        Level::Interface => b"level interface;\n",
        Level::Device => b"level device;\n",
        Level::Group => b"level group;\n",
    }
}

/// Appends the line of an item.
#[tactic(auto, unfolding(crate::specs::Print::item_line))]
fn push_item(out: &mut Vec<u8>, item: &Item) -> Result<(), AllocError>
    ensures { OnOk result (out.new.items ≡ out.old.items ++ item_line item.now) }
{
    match item {
        Item::Path { name, body, .. } => {
            push_definition(out, b"path ", name)?;
            push_path(out, body)?;
            out.extend_from_slice(b";\n")
        }
        Item::Spec { name, body, .. } => {
            push_definition(out, b"spec ", name)?;
            push_spec(out, body)?;
            out.extend_from_slice(b";\n")
        }
        Item::Check {
            at_most,
            name,
            when,
            body,
            ..
        } => {
            push_check(out, *at_most, name, when)?;
            push_spec(out, body)?;
            out.extend_from_slice(b";\n")
        }
    }
}

/// Appends what stands before the body of a definition.
fn push_definition(out: &mut Vec<u8>, word: &[u8], name: &Name) -> Result<(), AllocError>
    ensures { OnOk result (out.new.items ≡ out.old.items
        ++ (word.now ++ (name_text name.now ++ codes " = "))) }
{
    out.extend_from_slice(word)?;
    push_name(out, name)?;
    out.extend_from_slice(b" = ")
}

/// Appends what stands before the body of a check.
fn push_check(
    out: &mut Vec<u8>,
    at_most: bool,
    name: &Name,
    when: &Predicate,
) -> Result<(), AllocError>
    ensures { OnOk result (out.new.items ≡ out.old.items
        ++ (check_words at_most ++ (name_text name.now ++ (condition_text when.now
        ++ codes " : ")))) }
{
    out.extend_from_slice(check_words(at_most))?;
    push_name(out, name)?;
    push_condition(out, when)?;
    out.extend_from_slice(b" : ")
}

/// The words before a check's name.
fn check_words(at_most: bool) -> &'static [u8]
    ensures { result.now ≡ check_words at_most }
{
    if at_most { b"check atmost " } else { b"check " }
}
