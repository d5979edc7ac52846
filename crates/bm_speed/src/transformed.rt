//! Loads that butterflies transform.

ghost use Rattle.std.specs.Prelude.{◌≡◌, ◌+◌, ◌*◌, ◌^◌, ◌<◌, ◌≤◌, length};

use crate::map_name::MapName;
use crate::pattern::fill;
use crate::sizes::Sizes;
use crate::stopwatch::{nanoseconds_used, print_line};
use bm_butter::butterflies_at;
use std::io;

// lg of the bytes of a record.
const WIDTH_BITS: u8 = 3;

/// Transforms a load of the pattern's records at the places of a map, and prints its line.
pub fn transform(rt: &HostRuntime, sizes: Sizes, name: MapName) -> io::Result<()> {
    let n = sizes.load_bits - WIDTH_BITS;
    let map = name.map(n);
    let mut load = vec![in rt.alloc(); 0u8; 8 << n]?;
    fill(&mut load, 0);
    let start = nanoseconds_used(rt)?;
    butterflies_at(&mut load, &map.a, map.c, n);
    let spent = nanoseconds_used(rt)?.saturating_sub(start);
    print_line(rt, sizes, "butterflies", name, 8, load.as_slice(), spent)
}
