//! A kernel on two bits of the places in a buffer, in one pass over it.

ghost use Rattle.std.specs.Prelude.{◌≡◌, ◌≢◌, ℕ, ◌+◌, ◌-◌, ◌*◌, ◌^◌, ◌<◌, ◌≤◌, min, max, length};
ghost use Rattle.bm_butter.specs.Groups.{AreApart, AreTold, AreCorners, GroupsDone};
ghost use Rattle.bm_butter.specs.Groups.{corner_place, run_place, spread};

use crate::kernels::Kernel;
use crate::on_bit::Halves;
use crate::quad::quad;

/// Where the records of a group of four stand: so many places after a place without the bits `low`
/// and `high`.
#[derive(Clone, Copy, Debug)]
pub struct Corners {
    pub low: u8,
    pub high: u8,
    pub first: usize,
    pub second: usize,
    pub third: usize,
    pub fourth: usize,
    pub ghost order: { low < high },
    pub ghost few: { high < 61 },
    pub ghost corners: { AreCorners low high first second third fourth },
}

impl Corners {
    /// The corners of two bits: `second` is `first` with the inner bit's other half, `third` with
    /// the outer bit's, and `fourth` with both.
    pub fn of(inner: Halves, outer: Halves) -> Corners
        requires { inner.bit ≢ outer.bit }
        ensures low { result.low ≡ min inner.bit outer.bit }
        ensures high { result.high ≡ max inner.bit outer.bit }
        ensures first { result.first ≡ inner.at_u + outer.at_u }
        ensures second { result.second ≡ inner.at_v + outer.at_u }
        ensures third { result.third ≡ inner.at_u + outer.at_v }
        ensures fourth { result.fourth ≡ inner.at_v + outer.at_v }
    {
        Corners {
            low: inner.bit.min(outer.bit),
            high: inner.bit.max(outer.bit),
            first: inner.at_u + outer.at_u,
            second: inner.at_v + outer.at_u,
            third: inner.at_u + outer.at_v,
            fourth: inner.at_v + outer.at_v,
        }
    }
}

// The place without both bits where a run begins. A run has as many neighbours as the lower bit's
// value.
fn run_start(corners: &Corners, blocks: usize, run: usize) -> usize
    requires fits { blocks * 2 ^ (corners.now.high + 1) < 2 ^ 64 }
    requires inside { run < blocks * 2 ^ (corners.now.high - corners.now.low - 1) }
    ensures { result ≡ spread corners.now.high (run * 2 ^ (corners.now.low + 1)) }
{
    let spread = run << (corners.low + 1);
    spread + (spread >> corners.high << corners.high)
}

// Transforms so many groups: that of records p, q, r and s, and those that follow.
fn make_quads<K: Kernel>(
    kernel: &K,
    buf: &mut [u8],
    p: usize,
    q: usize,
    r: usize,
    s: usize,
    count: usize,
)
    requires apart { AreApart p q r s }
    requires told { AreTold count (run_place p q r s) }
    requires p { (p + count) * 8 ≤ length buf.old }
    requires q { (q + count) * 8 ≤ length buf.old }
    requires r { (r + count) * 8 ≤ length buf.old }
    requires s { (s + count) * 8 ≤ length buf.old }
    ensures done { GroupsDone (K.meaning kernel.now) (run_place p q r s) 0 count buf.old buf.new }
    ensures size { length buf.new ≡ length buf.old }
{
    for k in 0..count {
        quad(kernel, buf, p + k, q + k, r + k, s + k);
    }
}

// Transforms the groups of one run: at each corner as many neighbours.
fn transform_run<K: Kernel>(
    kernel: &K,
    buf: &mut [u8],
    corners: &Corners,
    blocks: usize,
    run: usize,
)
    requires fits { blocks * 2 ^ (corners.now.high + 1) * 8 ≤ length buf.old }
    requires inside { run < blocks * 2 ^ (corners.now.high - corners.now.low - 1) }
    ensures done { GroupsDone (K.meaning kernel.now) (corner_place corners.now.low corners.now.high
        corners.now.first corners.now.second corners.now.third corners.now.fourth)
        (run * 2 ^ corners.now.low) ((run + 1) * 2 ^ corners.now.low) buf.old buf.new }
    ensures size { length buf.new ≡ length buf.old }
{
    let start = run_start(corners, blocks, run);
    make_quads(
        kernel,
        buf,
        start + corners.first,
        start + corners.second,
        start + corners.third,
        start + corners.fourth,
        1 << corners.low,
    );
}

/// A kernel on two bits of the places, in so many blocks from the first on, in one pass over them.
/// A block has twice as many records as the higher bit's value.
pub fn mix_two<K: Kernel>(kernel: &K, buf: &mut [u8], corners: &Corners, blocks: usize)
    requires fits { blocks * 2 ^ (corners.now.high + 1) * 8 ≤ length buf.old }
    ensures done { GroupsDone (K.meaning kernel.now) (corner_place corners.now.low corners.now.high
        corners.now.first corners.now.second corners.now.third corners.now.fourth)
        0 (blocks * 2 ^ (corners.now.high - 1)) buf.old buf.new }
    ensures size { length buf.new ≡ length buf.old }
{
    for run in 0..blocks << (corners.high - corners.low - 1) {
        transform_run(kernel, buf, corners, blocks, run);
    }
}
