//! The canonical texts of prefixes.
ghost use Rattle.std.specs.Prelude.{◌≡◌, ◌<◌, ◌/◌, ◌%◌, ◌^◌, ◌∷◌, ◌++◌, false, IfOk};
ghost use Rattle.std.specs.String.{string_bytes};
ghost use Rattle.std.specs.Fmt.{digits};
ghost use Rattle.rela_flows.specs.Notation.{colon, text_of};
ghost use Rattle.rela_flows.specs.declared.prefix.Prefix.TheVariants.{V4, V6};

use super::{Ipv4Prefix, Ipv6Prefix};
use std::alloc::{AllocError, Global};

/// The eight bits of the address from the place `shift` on, where the last bit has place 0.
fn octet(address: u32, shift: u32) -> u8
    requires { shift < 32 }
    ensures { result ≡ address / 2 ^ shift % 2 ^ 8 }
{
    ((address >> shift) & 0xff) as u8
}

/// The sixteen bits of the address from the place `shift` on, where the last bit has place 0.
fn group(address: u128, shift: u32) -> u16
    requires { shift < 128 }
    ensures { result ≡ address / 2 ^ shift % 2 ^ 16 }
{
    ((address >> shift) & 0xffff) as u16
}

/// The canonical text of an IPv4 prefix.
pub(super) fn ipv4_text(alloc: Global, prefix: &Ipv4Prefix) -> Result<Vec<u8>, AllocError>
    ensures { IfOk result (λ v. v.items ≡ text_of (V4 prefix.now)) }
{
    let a = octet(prefix.address, 24);
    let b = octet(prefix.address, 16);
    let c = octet(prefix.address, 8);
    let d = octet(prefix.address, 0);
    let length = prefix.length;
    let text = format!(in alloc; "{a}.{b}.{c}.{d}/{length}")?;
    Ok(text.into_bytes())
}

/// Four groups in hexadecimal, joined by colons.
fn four_groups(alloc: Global, a: u16, b: u16, c: u16, d: u16) -> Result<String, AllocError>
    ensures { IfOk result (λ text. string_bytes text ≡ digits 16 false a ++ colon
        ∷ (digits 16 false b ++ colon ∷ (digits 16 false c ++ colon ∷ digits 16 false d))) }
{
    format!(in alloc; "{a:x}:{b:x}:{c:x}:{d:x}")
}

/// The canonical text of an IPv6 prefix.
pub(super) fn ipv6_text(alloc: Global, prefix: &Ipv6Prefix) -> Result<Vec<u8>, AllocError>
    ensures { IfOk result (λ v. v.items ≡ text_of (V6 prefix.now)) }
{
    let a = group(prefix.address, 112);
    let b = group(prefix.address, 96);
    let c = group(prefix.address, 80);
    let d = group(prefix.address, 64);
    let left = four_groups(alloc, a, b, c, d)?;
    let e = group(prefix.address, 48);
    let f = group(prefix.address, 32);
    let g = group(prefix.address, 16);
    let h = group(prefix.address, 0);
    let right = four_groups(alloc, e, f, g, h)?;
    let length = prefix.length;
    let text = format!(in alloc; "{left}:{right}/{length}")?;
    Ok(text.into_bytes())
}
