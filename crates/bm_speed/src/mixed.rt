//! Loads that go through a kernel on bits of the numbers.

ghost use Rattle.std.specs.Prelude.{◌≡◌, ◌+◌, ◌-◌, ◌*◌, ◌^◌, ◌<◌, ◌≤◌, length};
ghost use Rattle.bm_gf2.specs.Matrix.{IsNonsingular};

use crate::map_name::MapName;
use crate::pattern::fill;
use crate::sizes::Sizes;
use crate::stopwatch::{nanoseconds_used, print_line};
use bm_gf2::Affine;
use bm_kinds::{Kernel, kernel_at};
use std::io;

// lg of the bytes of a record.
const WIDTH_BITS: u8 = 3;

/// Every bit.
pub const ALL: u64 = u64::MAX;

/// The bits of even number.
pub const EVEN: u64 = 0x5555_5555_5555_5555;

// The kernel on the bits of a number that are among these, of records at the places of a map.
fn mix_among<K: Kernel>(kernel: &K, load: &mut [u8], map: &Affine, among: u64)
    requires nonsingular { IsNonsingular map.now.a }
    requires whole { length load.old ≡ 8 * 2 ^ map.now.a.n }
    ensures { length load.new ≡ length load.old }
{
    kernel_at(kernel, load, &map.a, map.c, among & ((1 << map.a.n) - 1));
}

/// Takes a load of the pattern's records at the places of a map through a kernel on the bits that are
/// among these, and prints its line.
pub fn mix<K: Kernel>(
    rt: &HostRuntime,
    sizes: Sizes,
    name: MapName,
    act: &str,
    kernel: &K,
    among: u64,
) -> io::Result<()> {
    let n = sizes.load_bits - WIDTH_BITS;
    let map = name.map(n);
    let mut load = vec![in rt.alloc(); 0u8; 8 << n]?;
    fill(&mut load, 0);
    let start = nanoseconds_used(rt)?;
    mix_among(kernel, &mut load, &map, among);
    let spent = nanoseconds_used(rt)?.saturating_sub(start);
    print_line(rt, sizes, act, name, 8, load.as_slice(), spent)
}
