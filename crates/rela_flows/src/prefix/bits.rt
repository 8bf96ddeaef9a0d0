//! The first bits of addresses.
ghost use Rattle.std.specs.Prelude.{◌≡◌, ◌≤◌, ◌-◌, ◌/◌, ◌^◌};
ghost use Rattle.rela_flows.specs.Network.{network};

/// The number that the first `bits` bits of an IPv4 address write.
pub(super) fn leading_v4(address: u32, bits: u8) -> u32
    requires { bits ≤ 32 }
    ensures { result ≡ address / 2 ^ (32 - bits) }
{
    // A shift by all 32 bits leaves nothing.
    address.checked_shr(32 - u32::from(bits)).unwrap_or(0)
}

/// The address with zeros in place of all but its first `bits` bits.
pub(super) fn network_v4(address: u32, bits: u8) -> u32
    requires { bits ≤ 32 }
    ensures { result ≡ network 32 bits address }
{
    leading_v4(address, bits)
        .checked_shl(32 - u32::from(bits))
        .unwrap_or(0)
}

/// The number that the first `bits` bits of an IPv6 address write.
pub(super) fn leading_v6(address: u128, bits: u8) -> u128
    requires { bits ≤ 128 }
    ensures { result ≡ address / 2 ^ (128 - bits) }
{
    address.checked_shr(128 - u32::from(bits)).unwrap_or(0)
}

/// The address with zeros in place of all but its first `bits` bits.
pub(super) fn network_v6(address: u128, bits: u8) -> u128
    requires { bits ≤ 128 }
    ensures { result ≡ network 128 bits address }
{
    leading_v6(address, bits)
        .checked_shl(128 - u32::from(bits))
        .unwrap_or(0)
}
