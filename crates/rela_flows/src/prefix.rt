//! Address prefixes of both families, and how they lie to one another.
ghost use Rattle.std.specs.Prelude.{◌≡◌, ◌<◌, ◌≤◌, ◌-◌, ◌%◌, ◌^◌, ◌↔◌, IsTrue, IsSome, Some, IfOk};
ghost use Rattle.rela_flows.specs.Network.{network};

mod bits;
mod reading;
mod writing;

use bits::{leading_v4, leading_v6, network_v4, network_v6};
use std::alloc::{AllocError, Global};

/// An IPv4 prefix (RFC 4632, section 3.1): the addresses that agree with `address` in the first
/// `length` of their 32 bits. The bits past them are zero, so that each set of addresses has one
/// such value.
#[derive(Clone, Copy, PartialEq, Eq, Debug)]
pub struct Ipv4Prefix {
    /// The least of the addresses as a number, whose most significant bit is their first.
    pub address: u32,
    /// How many of the first bits the addresses share: 0 to 32.
    pub length: u8,
    pub ghost address_fits: { address < 2 ^ 32 },
    pub ghost length_fits: { length ≤ 32 },
    pub ghost host_bits_zero: { address % 2 ^ (32 - length) ≡ 0 },
}

/// An IPv6 prefix (RFC 4291, section 2.3): the addresses that agree with `address` in the first
/// `length` of their 128 bits. The bits past them are zero.
#[derive(Clone, Copy, PartialEq, Eq, Debug)]
pub struct Ipv6Prefix {
    /// The least of the addresses as a number, whose most significant bit is their first.
    pub address: u128,
    /// How many of the first bits the addresses share: 0 to 128.
    pub length: u8,
    pub ghost address_fits: { address < 2 ^ 128 },
    pub ghost length_fits: { length ≤ 128 },
    pub ghost host_bits_zero: { address % 2 ^ (128 - length) ≡ 0 },
}

/// A set of addresses of one family that agree in their first bits.
#[derive(Clone, Copy, PartialEq, Eq, Debug)]
pub enum Prefix {
    V4(Ipv4Prefix),
    V6(Ipv6Prefix),
}

impl Ipv4Prefix {
    /// The prefix of all IPv4 addresses.
    pub fn all() -> Ipv4Prefix
        ensures address { result.address ≡ 0 }
        ensures length { result.length ≡ 0 }
    {
        Ipv4Prefix {
            address: 0,
            length: 0,
        }
    }

    /// The prefix of this length that has the address in it. `None` where the length is above 32.
    pub fn new(address: u32, length: u8) -> Option<Ipv4Prefix>
        ensures fits { IsSome result ↔ (length ≤ 32) }
        ensures exact { (p : Ipv4Prefix) → (result ≡ Some p) ↔
            ((p.length ≡ length) × (p.address ≡ network 32 length address)) }
    {
        if length > 32 {
            return None;
        }
        Some(Ipv4Prefix {
            address: network_v4(address, length),
            length,
        })
    }
}

impl Ipv6Prefix {
    /// The prefix of all IPv6 addresses.
    pub fn all() -> Ipv6Prefix
        ensures address { result.address ≡ 0 }
        ensures length { result.length ≡ 0 }
    {
        Ipv6Prefix {
            address: 0,
            length: 0,
        }
    }

    /// The prefix of this length that has the address in it. `None` where the length is above 128.
    pub fn new(address: u128, length: u8) -> Option<Ipv6Prefix>
        ensures fits { IsSome result ↔ (length ≤ 128) }
        ensures exact { (p : Ipv6Prefix) → (result ≡ Some p) ↔
            ((p.length ≡ length) × (p.address ≡ network 128 length address)) }
    {
        if length > 128 {
            return None;
        }
        Some(Ipv6Prefix {
            address: network_v6(address, length),
            length,
        })
    }
}

impl Prefix {
    ghost use Rattle.rela_flows.specs.Address.{IsWithin, Overlap};
    ghost use Rattle.rela_flows.specs.Notation.{IsTextOf, text_of};

    /// The prefix that a text writes: an address, a slash, and the length in decimal. An IPv4
    /// address is four octets in decimal joined by dots, an IPv6 address eight groups of one to
    /// four hexadecimal digits joined by colons, or fewer round `::`, which stands for the groups
    /// of zeros that are missing, one or more. Bits past the length may be set, and are put to
    /// zero. `None` exactly where the text is none.
    ///
    /// Time: linear in the text.
    pub fn parse(text: &[u8]) -> Option<Prefix>
        ensures { (p : Prefix) → (result ≡ Some p) ↔ IsTextOf text.now p }
    {
        let (address, length) = reading::cut(text, b'/');
        let Some(length) = length else {
            return None;
        };
        let length = reading::octet(length)? as u8;
        match reading::ipv4_address(address) {
            Some(v4) => Some(Prefix::V4(Ipv4Prefix::new(v4, length)?)),
            None => {
                let v6 = reading::ipv6_address(address)?;
                Some(Prefix::V6(Ipv6Prefix::new(v6, length)?))
            }
        }
    }

    /// The canonical text. Of an IPv6 address it has all eight groups, in lower case with no leading
    /// zeros. `parse` reads it as this prefix again.
    pub fn text(&self, alloc: Global) -> Result<Vec<u8>, AllocError>
        ensures canonical { IfOk result (λ v. v.items ≡ text_of self.now) }
        ensures reads_back { IfOk result (λ v. IsTextOf v.items self.now) }
    {
        match self {
            Prefix::V4(prefix) => writing::ipv4_text(alloc, prefix),
            Prefix::V6(prefix) => writing::ipv6_text(alloc, prefix),
        }
    }

    /// Whether each address of the prefix is one of `other`.
    pub fn within(&self, other: &Prefix) -> bool
        ensures { IsTrue result ↔ IsWithin self.now other.now }
    {
        match (self, other) {
            (Prefix::V4(inner), Prefix::V4(outer)) => {
                outer.length <= inner.length
                    && leading_v4(inner.address, outer.length)
                        == leading_v4(outer.address, outer.length)
            }
            (Prefix::V6(inner), Prefix::V6(outer)) => {
                outer.length <= inner.length
                    && leading_v6(inner.address, outer.length)
                        == leading_v6(outer.address, outer.length)
            }
            (Prefix::V4(_), Prefix::V6(_)) => false,
            (Prefix::V6(_), Prefix::V4(_)) => false,
        }
    }

    /// Whether some address is one of both prefixes.
    pub fn overlaps(&self, other: &Prefix) -> bool
        ensures { IsTrue result ↔ Overlap self.now other.now }
    {
        match (self, other) {
            (Prefix::V4(one), Prefix::V4(two)) => {
                let bits = one.length.min(two.length);
                leading_v4(one.address, bits) == leading_v4(two.address, bits)
            }
            (Prefix::V6(one), Prefix::V6(two)) => {
                let bits = one.length.min(two.length);
                leading_v6(one.address, bits) == leading_v6(two.address, bits)
            }
            (Prefix::V4(_), Prefix::V6(_)) => false,
            (Prefix::V6(_), Prefix::V4(_)) => false,
        }
    }
}
