//! The bytes that are moved.

ghost use Rattle.std.specs.Prelude.{◌≡◌, ℕ, ◌+◌, ◌^◌, ◌<◌, ◌≤◌, length, slice_index};
ghost use Rattle.bm_speed.specs.Pattern.{pattern_byte};

// An odd number near `2 ^ 64` divided by the golden ratio.
const FACTOR: u64 = 11400714819323198485;

/// Fills a buffer with the bytes of the pattern from number `first` on.
pub fn fill(bytes: &mut [u8], first: u64)
    requires { first + length bytes.old ≤ 2 ^ 63 }
    ensures size { length bytes.new ≡ length bytes.old }
    ensures filled { (i : ℕ) → i < length bytes.old
        → slice_index bytes.new i ≡ pattern_byte (first + i) }
{
    for i in 0..bytes.len() {
        let number = first + i as u64;
        bytes[i] = (number.wrapping_mul(FACTOR) >> 56) as u8;
    }
}
