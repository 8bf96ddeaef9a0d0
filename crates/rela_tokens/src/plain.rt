//! Runs of plain bytes in the strings of a JSON text, passed over by vectors.

ghost use Rattle.std.specs.Prelude.{◌≡◌, ◌+◌, ◌≤◌, drop, length, map};
ghost use Rattle.std.specs.List.{prefix_len};
ghost use Rattle.std.specs.Simd.Lanes.{mask_l};
ghost use Rattle.json.specs.Run.{is_plain, is_stop};

use std::simd::prelude::*;

/// The lanes of a vector where a quote, a backslash or a control byte stands.
#[inline(always)]
fn stops(bytes: u8x16) -> u64
    ensures { result ≡ mask_l (map is_stop bytes) }
{
    (bytes.simd_eq(u8x16::splat(b'"'))
        | bytes.simd_eq(u8x16::splat(b'\\'))
        | bytes.simd_lt(u8x16::splat(0x20))).to_bitmask()
}

/// The first quote, backslash or control byte from `from` on, or the length. Time: linear in the
/// bytes before it, 16 at a time.
#[inline(always)]
pub(crate) fn plain_end(text: &[u8], from: usize) -> usize
    requires { from ≤ length text.now }
    ensures end { result ≡ from + prefix_len is_plain (drop from text.now) }
    ensures within { result ≤ length text.now }
{
    let mut end = from;
    'vectors: while text.len() - end >= 16 {
        let found = stops(u8x16::from_slice(&text[end..]));
        if found != 0 {
            return end + found.trailing_zeros() as usize;
        }
        end += 16;
    }
    slow_end(text, end)
}

/// The same, byte by byte.
#[inline(never)]
fn slow_end(text: &[u8], from: usize) -> usize
    requires { from ≤ length text.now }
    ensures end { result ≡ from + prefix_len is_plain (drop from text.now) }
    ensures within { result ≤ length text.now }
{
    let mut end = from;
    'plain: while end < text.len() && text[end] != b'"' && text[end] != b'\\' && text[end] >= 0x20 {
        end += 1;
    }
    end
}
