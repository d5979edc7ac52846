//! The rounds of the transform.

ghost use Rattle.std.specs.Prelude.{◌≡◌, ◌+◌, ◌-◌, ◌*◌, ◌≤◌};
ghost use Rattle.bm_forms.specs.Rounds.{rounds_of, last_bits};

use bm_base::Shape;

/// How many rounds the transform has: n/m, rounded up. Each does m address bits, the last one those
/// that are left, and each ends with the rotation by its bits.
pub fn round_count(shape: &Shape) -> u8
    ensures rounds { result ≡ rounds_of shape.now }
    ensures some { 1 ≤ result }
    ensures few { result ≤ shape.now.n }
{
    shape.n().div_ceil(shape.m())
}

/// How many address bits the last round does.
pub fn last_bits(shape: &Shape) -> u8
    ensures bits { result ≡ last_bits shape.now }
    ensures some { 1 ≤ result }
    ensures few { result ≤ shape.now.m }
{
    shape.n() - (round_count(shape) - 1) * shape.m()
}

/// What the rounds take together: `whole` each but the last one, and that one `last`.
pub fn over_rounds(shape: &Shape, whole: u8, last: u8) -> u16
    requires whole { whole ≤ shape.now.b + 2 }
    requires last { last ≤ shape.now.b + 2 }
    ensures sum { result ≡ (rounds_of shape.now - 1) * whole + last }
    ensures few { result ≤ 256 }
{
    u16::from(round_count(shape) - 1) * u16::from(whole) + u16::from(last)
}
