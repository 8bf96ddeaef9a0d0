//! What is said of a flow besides its graph: its name, its prefixes and its class.

ghost use Rattle.std.specs.Prelude.{◌≡◌, ◌≢◌, ◌<◌, [], ◌∷◌, ◌++◌, Ok, Err, IfOk, IfErr, OnOk, IsErrOf, IsOk, length, option_map};
ghost use Rattle.serde_json.specs.View.{view};
ghost use Rattle.rela_names.specs.Name.{IsName};
ghost use Rattle.rela_snapshot.specs.Class as spec;
ghost use Rattle.rela_snapshot.specs.Flows.{IsDst, IsSrc};
ghost use Rattle.rela_snapshot.specs.Names.{AreDistinct};
ghost use Rattle.rela_snapshot.specs.Steps.{IsAnswer};

use crate::name_table::NameTable;
use crate::snapshot::MAX_FLOWS;
use crate::version::{FlowRules, Version, flow_rules};
use rela_flows::Prefix;
use rela_json::{LoadError, Value, part, string};
use rela_names::{Name, NameError, is_name};
use std::alloc::Global;

/// The name of the class of a flow whose file leaves it out.
pub(crate) const DEFAULT_CLASS: &[u8] = b"default";

/// The family of an address or a prefix.
#[derive(Clone, Copy)]
pub(crate) enum Family {
    /// Addresses of 32 bits.
    Ipv4,
    /// Addresses of 128 bits.
    Ipv6,
}

/// The text of the prefix of all IPv4 addresses.
const ALL_IPV4: &[u8] = b"0.0.0.0/0";

/// The text of the prefix of all IPv6 addresses.
const ALL_IPV6: &[u8] = b"::/0";

/// The name of the next flow, which goes into the table, and which no earlier flow has.
///
/// # Errors
///
/// `WrongShape` where the flow is no object or its name no string; otherwise those of [`add_name`].
#[tactic(auto, unfolding(crate::specs::Class::new_name_of, crate::specs::Class::flow_name_of, crate::specs::Class::unused_name_of))]
pub(crate) fn read_name<'a>(
    alloc: Global,
    names: &mut NameTable<'a>,
    value: &'a Value,
    rules: FlowRules,
    row: u32,
) -> Result<Name, LoadError>
    requires few { length names.old < MAX_FLOWS }
    ensures name { IfOk result (λ name. spec.new_name_of rules names.old row (view value.now)
        ≡ Ok name) }
    ensures fault { IfErr result (λ e. e ≢ LoadError.Memory →
        spec.new_name_of rules names.old row (view value.now) ≡ Err e) }
    ensures memory { IsErrOf result LoadError.Memory →
        IsOk (spec.new_name_of rules names.old row (view value.now)) }
    ensures names { IfOk result (λ name. names.new ≡ names.old ++ name ∷ []) }
    ensures distinct { OnOk result (AreDistinct names.new) }
{
    let bytes = string(part(value, "name", rules.flow, row)?, rules.name, row)?;
    add_name(alloc, names, bytes, row)
}

/// The name of these bytes, which goes into the table, and which no earlier flow has.
///
/// # Errors
///
/// `BadName` where they are not 1 to 64 name bytes; else `RepeatedEntry` where an earlier flow has
/// the name; else `Memory` where memory runs out.
#[tactic(auto, unfolding(crate::specs::Class::unused_name_of, crate::specs::Class::name_of))]
pub(crate) fn add_name<'a>(
    alloc: Global,
    names: &mut NameTable<'a>,
    bytes: &'a [u8],
    row: u32,
) -> Result<Name, LoadError>
    requires few { length names.old < MAX_FLOWS }
    ensures name { IfOk result (λ name. spec.unused_name_of names.old row bytes.now ≡ Ok name) }
    ensures fault { IfErr result (λ e. e ≢ LoadError.Memory →
        spec.unused_name_of names.old row bytes.now ≡ Err e) }
    ensures memory { IsErrOf result LoadError.Memory →
        IsOk (spec.unused_name_of names.old row bytes.now) }
    ensures names { IfOk result (λ name. names.new ≡ names.old ++ name ∷ []) }
    ensures distinct { OnOk result (AreDistinct names.new) }
{
    if !is_name(bytes) {
        return Err(LoadError::BadName { row });
    }
    if names.has(bytes) {
        return Err(LoadError::RepeatedEntry { row });
    }
    let name = name_of(alloc, bytes, row)?;
    names.add(bytes)?;
    Ok(name)
}

/// Where a flow goes. Version 1 reads no IPv6 prefix.
///
/// # Errors
///
/// `WrongShape` where the `dst` is missing or no string; else `BadPrefix` where it writes no prefix
/// that the version reads.
pub(crate) fn read_dst(value: &Value, version: Version, row: u32) -> Result<Prefix, LoadError>
    ensures { IsAnswer (IsDst version row (view value.now)) result }
{
    let text = dst_text(value, flow_rules(version), row)?;
    prefix_of(text, family_in(version), row)
}

/// Where a flow comes from: a prefix of the family of `dst`, all of that family where none is
/// given.
///
/// # Errors
///
/// `WrongShape` where the `src` is there and no string; else `BadPrefix` where it writes no prefix
/// of that family.
pub(crate) fn read_src(
    value: &Value,
    dst: &Prefix,
    version: Version,
    row: u32,
) -> Result<Prefix, LoadError>
    ensures { IsAnswer (IsSrc version row dst.now (view value.now)) result }
{
    let family = family_of(dst);
    let text = src_text(value, family, flow_rules(version), row)?;
    prefix_of(text, Some(family), row)
}

/// The text of a flow's `dst`, or `WrongShape`.
#[tactic(auto, unfolding(crate::specs::Class::dst_text_of))]
fn dst_text(value: &Value, rules: FlowRules, row: u32) -> Result<&[u8], LoadError>
    ensures text { IfOk result (λ text. spec.dst_text_of rules row (view value.now) ≡ Ok text.now) }
    ensures fault { IfErr result (λ e. spec.dst_text_of rules row (view value.now) ≡ Err e) }
{
    string(part(value, "dst", rules.flow, row)?, rules.dst, row)
}

/// The text of a flow's `src`, or else that of all addresses of the family; or `WrongShape`.
#[tactic(auto, unfolding(crate::specs::Class::src_text_of))]
fn src_text(value: &Value, family: Family, rules: FlowRules, row: u32) -> Result<&[u8], LoadError>
    ensures text { IfOk result (λ text. spec.src_text_of rules row family (view value.now)
        ≡ Ok text.now) }
    ensures fault { IfErr result (λ e. spec.src_text_of rules row family (view value.now) ≡ Err e) }
{
    match part(value, "src", rules.flow, row)? {
        Some(src) => string(Some(src), rules.src, row),
        None => Ok(whole_family(family)),
    }
}

/// The text of the prefix of all addresses of a family.
pub(crate) fn whole_family(family: Family) -> &'static [u8]
    ensures { result.now ≡ spec.whole_family family }
{
    match family {
        Family::Ipv4 => ALL_IPV4,
        Family::Ipv6 => ALL_IPV6,
    }
}

/// The prefix that a text writes, of the family that is wanted, and of any where none is.
///
/// # Errors
///
/// `BadPrefix` where the text writes no such prefix.
#[tactic(auto, unfolding(crate::specs::Class::IsPrefixOf))]
pub(crate) fn prefix_of(text: &[u8], wanted: Option<Family>, row: u32) -> Result<Prefix, LoadError>
    ensures { IsAnswer (spec.IsPrefixOf wanted row text.now) result }
{
    let Some(prefix) = Prefix::parse(text) else {
        return Err(LoadError::BadPrefix { row });
    };
    if !is_wanted(wanted, &prefix) {
        return Err(LoadError::BadPrefix { row });
    }
    Ok(prefix)
}

/// The family that a version holds alone, and `None` where it holds both.
fn family_in(version: Version) -> Option<Family>
    ensures { result ≡ spec.family_in version }
{
    match version {
        Version::One => Some(Family::Ipv4),
        Version::Two => None,
    }
}

/// The family of a prefix.
pub(crate) fn family_of(prefix: &Prefix) -> Family
    ensures { result ≡ spec.family_of prefix.now }
{
    match prefix {
        Prefix::V4(_) => Family::Ipv4,
        Prefix::V6(_) => Family::Ipv6,
    }
}

/// Whether a prefix is of the family that is wanted, as each is where none is.
fn is_wanted(wanted: Option<Family>, prefix: &Prefix) -> bool
    ensures { result ≡ spec.is_wanted wanted prefix.now }
{
    match (wanted, prefix) {
        (None, _) => true,
        (Some(Family::Ipv4), Prefix::V4(_)) => true,
        (Some(Family::Ipv6), Prefix::V6(_)) => true,
        (Some(_), _) => false,
    }
}

/// How a flow is treated: the name of its class, which is `default` where the file leaves it out.
///
/// # Errors
///
/// `WrongShape` where the `class` is there and no string; else `BadName` where it is not 1 to 64
/// name bytes; `Memory`.
#[tactic(auto, unfolding(crate::specs::Class::class_of))]
pub(crate) fn read_class(
    alloc: Global,
    value: &Value,
    rules: FlowRules,
    row: u32,
) -> Result<Name, LoadError>
    ensures class { IfOk result (λ name. spec.class_of rules row (view value.now) ≡ Ok name) }
    ensures fault { IfErr result (λ e. e ≢ LoadError.Memory →
        spec.class_of rules row (view value.now) ≡ Err e) }
{
    class_name(alloc, part(value, "class", rules.flow, row)?, rules, row)
}

/// The name of a class, from the member that may be missing. The errors are those of
/// [`read_class`].
#[tactic(auto, unfolding(crate::specs::Class::class_name_of))]
fn class_name(
    alloc: Global,
    class: Option<&Value>,
    rules: FlowRules,
    row: u32,
) -> Result<Name, LoadError>
    ensures class { IfOk result (λ name.
        spec.class_name_of rules row (option_map (λ v. view v.now) class.entry) ≡ Ok name) }
    ensures fault { IfErr result (λ e. e ≢ LoadError.Memory →
        spec.class_name_of rules row (option_map (λ v. view v.now) class.entry) ≡ Err e) }
{
    match class {
        Some(class) => name_of(alloc, string(Some(class), rules.class, row)?, row),
        None => name_of(alloc, DEFAULT_CLASS, row),
    }
}

/// The name of these bytes.
///
/// # Errors
///
/// `BadName` where they are not 1 to 64 name bytes; else `Memory` where memory runs out.
#[tactic(auto, unfolding(crate::specs::Class::name_of))]
pub(crate) fn name_of(alloc: Global, bytes: &[u8], row: u32) -> Result<Name, LoadError>
    ensures name { IfOk result (λ name. spec.name_of row bytes.now ≡ Ok name) }
    ensures same { IfOk result (λ name. name ≡ bytes.now) }
    ensures fault { IfErr result (λ e. e ≢ LoadError.Memory → spec.name_of row bytes.now ≡ Err e) }
    ensures memory { IsErrOf result LoadError.Memory → IsName bytes.now }
{
    match Name::from_bytes(alloc, bytes) {
        Ok(name) => Ok(name),
        Err(NameError::Memory) => Err(LoadError::Memory),
        Err(_) => Err(LoadError::BadName { row }),
    }
}
