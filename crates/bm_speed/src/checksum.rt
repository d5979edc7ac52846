//! Checksums of buffers.

ghost use Rattle.std.specs.Prelude.{◌≡◌};
ghost use Rattle.bm_speed.specs.Checksum.{fnv1a};

// The hash of no bytes.
const OFFSET_BASIS: u64 = 14695981039346656037;

// What each byte multiplies the hash by.
const PRIME: u64 = 1099511628211;

/// The FNV-1a hash of 64 bits (Fowler, Noll, Vo).
pub fn checksum(bytes: &[u8]) -> u64
    ensures { result ≡ fnv1a bytes.now }
{
    let mut hash = OFFSET_BASIS;
    for byte in bytes {
        hash = (hash ^ u64::from(*byte)).wrapping_mul(PRIME);
    }
    hash
}
