//! Prefixes and predicates.

ghost use Rattle.std.specs.Prelude.{◌≤◌, IfOk};
ghost use Rattle.rela_flows.specs.Selects.{depth};

use rela_flows::{FlowClass, Ipv4Prefix, Ipv6Prefix, Predicate, Prefix, selects};
use rela_names::{List, Name, NameError};
use std::alloc::{AllocError, Global};
use std::test::Fail;

/// Whether the text writes a prefix whose canonical text is `expected`, which writes the same
/// prefix.
fn is_rewritten(alloc: Global, text: &[u8], expected: &[u8]) -> Result<bool, AllocError> {
    let Some(prefix) = Prefix::parse(text) else {
        return Ok(false);
    };
    let written = prefix.text(alloc)?;
    Ok(written.as_slice() == expected && Prefix::parse(written.as_slice()) == Some(prefix))
}

/// Prefixes are read in all their forms, and written in one.
#[test]
fn reads_and_writes_prefixes(rt: HostRuntime) -> Result<(), Fail> {
    for (text, written) in [
        (b"172.16.0.0/12".as_slice(), b"172.16.0.0/12".as_slice()),
        (b"10.1.2.3/8", b"10.0.0.0/8"),
        (b"2001:0DB8::CD30:0:0:0:0/60", b"2001:db8:0:cd30:0:0:0:0/60"),
        (b"::/0", b"0:0:0:0:0:0:0:0/0"),
        (b"1:2:3:4:5:6:7::/112", b"1:2:3:4:5:6:7:0/112"),
        (b"FF01::101/128", b"ff01:0:0:0:0:0:0:101/128"),
    ] {
        assert!(rt; is_rewritten(rt.alloc(), text, written)?, "{text:?}");
    }
    Ok(())
}

/// A text without a length, or whose address or length is none, is no prefix.
#[test]
fn refuses_what_is_no_prefix(rt: HostRuntime) {
    for text in [
        b"10.0.0.0".as_slice(),
        b"10.0.0.0/33",
        b"10.0.0.256/24",
        b"010.0.0.0/8",
        b"1::2::/64",
        b"1:2:3:4:5:6:7:8::/128",
        b"::ffff:10.0.0.1/96",
    ] {
        assert!(rt; Prefix::parse(text).is_none(), "{text:?}");
    }
}

/// Whether the one prefix lies within the other, and whether they overlap. `None` where one is no
/// prefix.
fn compared(one: &[u8], other: &[u8]) -> Option<[bool; 2]> {
    let one = Prefix::parse(one)?;
    let other = Prefix::parse(other)?;
    Some([one.within(&other), one.overlaps(&other)])
}

/// Prefixes are compared by the addresses of their own family.
#[test]
fn compares_prefixes(rt: HostRuntime) {
    for (one, other, found) in [
        (
            b"10.1.0.0/16".as_slice(),
            b"10.0.0.0/8".as_slice(),
            [true, true],
        ),
        (b"10.0.0.0/8", b"10.0.0.0/8", [true, true]),
        (b"10.0.0.0/8", b"10.1.0.0/16", [false, true]),
        (b"10.0.0.0/8", b"11.0.0.0/8", [false, false]),
        (b"10.0.0.0/8", b"a00::/8", [false, false]),
    ] {
        assert_eq!(rt; compared(one, other), Some(found), "{one:?} {other:?}");
    }
}

/// Whether the prefix lies within all addresses of each family. `None` where the text is no prefix.
fn within_all(text: &[u8]) -> Option<[bool; 2]> {
    let prefix = Prefix::parse(text)?;
    Some([
        prefix.within(&Prefix::V4(Ipv4Prefix::all())),
        prefix.within(&Prefix::V6(Ipv6Prefix::all())),
    ])
}

/// The prefix of all addresses has those of its own family alone, and no prefix is longer than an
/// address.
#[test]
fn compares_with_all_addresses(rt: HostRuntime) {
    assert_eq!(rt; within_all(b"10.0.0.0/8"), Some([true, false]));
    assert_eq!(rt; within_all(b"a00::/8"), Some([false, true]));
    assert!(rt; Ipv4Prefix::new(0, 33).is_none());
    assert!(rt; Ipv6Prefix::new(1, 127).is_some());
}

/// The prefix that the text writes.
fn prefix(text: &[u8]) -> Result<Prefix, Fail> {
    Ok(Prefix::parse(text).ok_or("no prefix")?)
}

/// A flow of this name from anywhere to these destinations, with the class `default`.
fn class_to(alloc: Global, name: &[u8], dst: &[u8]) -> Result<FlowClass, Fail> {
    Ok(FlowClass {
        name: Name::from_bytes(alloc, name)?,
        dst: prefix(dst)?,
        src: prefix(b"0.0.0.0/0")?,
        class: Name::from_bytes(alloc, b"default")?,
    })
}

/// The predicate that each destination lies in the prefix.
fn to(prefix: Prefix) -> Predicate
    ensures { depth result ≤ 10 }
{
    Predicate::DstIn(prefix)
}

/// The predicate that the flow has this name.
fn named(alloc: Global, name: &[u8]) -> Result<Predicate, NameError>
    ensures { IfOk result (λ p. depth p ≤ 10) }
{
    Ok(Predicate::Flow(Name::from_bytes(alloc, name)?))
}

/// The predicate that the flow has another name than f2.
fn other(alloc: Global) -> Result<Predicate, NameError>
    ensures { IfOk result (λ p. depth p ≤ 11) }
{
    Ok(Predicate::negated(alloc, named(alloc, b"f2")?)?)
}

/// Whether the flow is selected by the predicate and by the conjunction of none, and not by the
/// disjunction of none.
fn is_selected(alloc: Global, class: &FlowClass, other: &Predicate) -> bool
    requires { depth other.now ≤ 11 }
{
    let nothing = Predicate::any_of(List::from_vec(Vec::new(alloc)));
    let anything = Predicate::all_of(List::from_vec(Vec::new(alloc)));
    selects(other, class) && !selects(&nothing, class) && selects(&anything, class)
}

/// Whether the flow is selected as it should be, given that its name is not f2.
fn selects_the_flow(alloc: Global, class: &FlowClass) -> bool {
    match other(alloc) {
        Ok(other) => is_selected(alloc, class, &other),
        Err(_) => false,
    }
}

/// Negations, conjunctions and disjunctions select by their parts.
#[test]
fn selects_by_form(rt: HostRuntime) -> Result<(), Fail> {
    let class = class_to(rt.alloc(), b"f1", b"10.1.0.0/16")?;
    assert!(rt; selects_the_flow(rt.alloc(), &class));
    Ok(())
}

/// Whether the predicate equals its copy.
fn is_copied(alloc: Global, predicate: &Predicate) -> bool {
    match predicate.copy(alloc) {
        Ok(copy) => copy == *predicate,
        Err(_) => false,
    }
}

/// A predicate equals its copy.
#[test]
fn copies_a_predicate(rt: HostRuntime) -> Result<(), Fail> {
    let other = other(rt.alloc())?;
    assert!(rt; is_copied(rt.alloc(), &other));
    Ok(())
}
