//! Powers of two.

ghost use Rattle.std.specs.Prelude.{◌≡◌, ◌≢◌, ℕ, ◌^◌, MatchOption};

/// lg v, or nothing exactly where v is no power of two.
pub fn log2_of(v: u64) -> Option<u8>
    ensures { MatchOption result ((k : ℕ) → v ≢ 2 ^ k) (λ k. v ≡ 2 ^ k) }
{
    for k in 0..64u8 {
        if v == 1 << k {
            return Some(k);
        }
    }
    None
}
