//! What a stop leaves of the units that were dirty.

ghost use Rattle.std.specs.Prelude.{◌≡◌, ℕ, ◌+◌, ◌*◌, ◌^◌, ◌<◌, ◌≤◌, Bool, true, false, length, take, drop};
ghost use Rattle.std.specs.Fork.{slice_chunk};
ghost use borrow.Rule.Slice.PartMut.{put_mid};
ghost use Rattle.bm_memrack.specs.BlockCopy.{flag_at};
ghost use Rattle.bm_memrack.specs.CrashChoice.{choice_of, remains_of, dirty_count, unit_after};

/// What a stop leaves of one dirty unit.
#[derive(Clone, Copy, Debug, PartialEq, Eq)]
pub enum CrashChoice {
    /// What a read gives.
    Written,
    /// Zeros.
    Zeros,
    /// Bytes of 255.
    Ones,
    /// The first half, and then zeros.
    FrontHalf,
}

impl CrashChoice {
    /// The choice for a unit, counted from 0, by the two-bit digit of `pick` at bit
    /// `2 * (unit mod 32)`.
    pub fn of(pick: u64, unit: usize) -> CrashChoice
        ensures { result ≡ choice_of pick unit }
    {
        match (pick >> (2 * (unit % 32))) % 4 {
            0 => CrashChoice::Written,
            1 => CrashChoice::Zeros,
            2 => CrashChoice::Ones,
            _ => CrashChoice::FrontHalf,
        }
    }

    /// Leaves of a unit what was chosen.
    pub fn apply(self, unit: &mut [u8])
        ensures { unit.new ≡ remains_of self unit.old }
    {
        match self {
            CrashChoice::Written => {}
            CrashChoice::Zeros => unit.fill(0),
            CrashChoice::Ones => unit.fill(255),
            CrashChoice::FrontHalf => {
                let half = unit.len() / 2;
                unit[half..].fill(0);
            }
        }
    }
}

// Leaves of one unit among others what was chosen.
fn apply_at(choice: CrashChoice, bytes: &mut [u8], at: usize, size: usize)
    requires { at + size ≤ length bytes.old }
    ensures { bytes.new
        ≡ put_mid at size bytes.old (remains_of choice (take size (drop at bytes.old))) }
{
    choice.apply(&mut bytes[at..at + size]);
}

/// Leaves of each dirty unit of a list what `pick` chooses, and answers the next unit's number.
///
/// The dirty units are counted in order, from `first`.
pub fn choose_units(dirty: &[bool], bytes: &mut [u8], size: usize, first: usize, pick: u64) -> usize
    requires bytes { length bytes.old ≡ length dirty.now * size }
    requires count { first + length dirty.now < 2 ^ 64 }
    ensures next { result ≡ first + dirty_count (flag_at dirty.now) (length dirty.now) }
    ensures bound { result ≤ first + length dirty.now }
    ensures length { length bytes.new ≡ length bytes.old }
    ensures units { (k : ℕ) → k < length dirty.now → slice_chunk bytes.new size k
        ≡ unit_after (flag_at dirty.now) first pick k (slice_chunk bytes.old size k) }
{
    let mut unit = first;
    for (place, is_dirty) in dirty.iter().enumerate() {
        if *is_dirty {
            apply_at(CrashChoice::of(pick, unit), bytes, place * size, size);
            unit += 1;
        }
    }
    unit
}
