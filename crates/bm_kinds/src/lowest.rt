//! The lowest bits of a set.

ghost use Rattle.std.specs.Prelude.{◌≡◌, ℕ, ◌+◌, ◌^◌, ◌<◌, ◌≤◌, slice_index, count_ones, bit_or};
ghost use Rattle.bm_butter.specs.OnBits.{set_of, AreBits};
ghost use Rattle.bm_kinds.specs.Lowest.{TakesBits};

/// The T lowest bits of a set of at least so many, in ascending order, and the set without them.
pub fn lowest<const T: usize>(set: u64) -> ([u8; T], u64)
    requires { T ≤ count_ones set }
    ensures { TakesBits set T (slice_index result.0) result.1 }
{
    let mut bits = [0; T];
    let mut rest = set;
    for j in 0..T {
        let i = rest.trailing_zeros();
        bits[j] = i as u8;
        rest ^= 1 << i;
    }
    (bits, rest)
}
