//! Listed rows with equal blocks.

ghost use Rattle.std.specs.Prelude.{◌≡◌, ℕ, ◌<◌, ◌↔◌, IsSome, IsTrue, length};
ghost use Rattle.std.specs.List.{slice_get};
ghost use Rattle.rela_certfile.specs.Blocks.{block_at, blocks_of_row};
ghost use Rattle.rela_cert.specs.KeptChecks.{complements_of_row};

use rela_certfile::{Certificate, listed_blocks};

/// Whether the listed rows of these numbers have equal blocks, step for step. Time: linear in the
/// blocks.
pub(crate) fn have_same_blocks(certificate: &Certificate, row: usize, other: usize) -> bool
    requires row { row < length certificate.now }
    requires other { other < length certificate.now }
    ensures { IsTrue result ↔ (blocks_of_row (slice_get certificate.now row)
        ≡ blocks_of_row (slice_get certificate.now other)) }
{
    listed_blocks();
    let count = certificate.block_count(row);
    if certificate.block_count(other) != count {
        return false;
    }
    begin_alike(certificate, row, other, count)
}

/// Whether the listed rows of these numbers have equal complement blocks, step for step. Time: linear
/// in these blocks.
pub(crate) fn have_same_complements(certificate: &Certificate, row: usize, other: usize) -> bool
    requires row { row < length certificate.now }
    requires other { other < length certificate.now }
    ensures { IsTrue result ↔ (complements_of_row (slice_get certificate.now row)
        ≡ complements_of_row (slice_get certificate.now other)) }
{
    listed_blocks();
    let count = certificate.block_count(row);
    if count != certificate.block_count(other) {
        return false;
    }
    begin_alike(certificate, row, other, count - 1)
}

/// Whether the first blocks of the listed rows of these numbers, so many, are equal. Time: linear in
/// these blocks.
fn begin_alike(certificate: &Certificate, row: usize, other: usize, count: usize) -> bool
    requires row { (k : ℕ) → k < count → IsSome (block_at certificate.now row k) }
    requires other { (k : ℕ) → k < count → IsSome (block_at certificate.now other k) }
    ensures { IsTrue result ↔ ((k : ℕ) → k < count →
        block_at certificate.now row k ≡ block_at certificate.now other k) }
{
    for block in 0..count {
        if certificate.block(row, block) != certificate.block(other, block) {
            return false;
        }
    }
    true
}
