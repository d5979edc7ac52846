//! The copy of a load row by row, which placing is compared with.

ghost use Rattle.std.specs.Prelude.{◌≡◌, ◌+◌, ◌*◌, ◌^◌, ◌<◌, ◌≤◌, length};

use crate::map_name::MapName;
use crate::pattern::fill;
use crate::sizes::Sizes;
use crate::stopwatch::{nanoseconds_used, print_line};
use std::io;
use std::time::CpuClock;

// Copies the pattern into a load, a row at a time, and returns the nanoseconds.
fn copy_load(rt: &impl CpuClock, load: &mut [u8], row: &mut [u8]) -> io::Result<u64>
    requires some { 0 < length row.old }
    requires few { length load.old ≤ 2 ^ 26 }
{
    let size = row.len();
    let mut spent = 0u64;
    for r in 0..load.len() / size {
        let at = r * size;
        fill(row, at as u64);
        let start = nanoseconds_used(rt)?;
        load[at..at + size].copy_from_slice(row);
        let end = nanoseconds_used(rt)?;
        spent = spent.saturating_add(end.saturating_sub(start));
    }
    Ok(spent)
}

/// Copies a load row by row, and prints its line.
pub fn copy_rows(rt: &HostRuntime, sizes: Sizes) -> io::Result<()> {
    let mut load = vec![in rt.alloc(); 0u8; 1usize << sizes.load_bits]?;
    let mut row = vec![in rt.alloc(); 0u8; 1usize << sizes.row_bits]?;
    let spent = copy_load(rt, &mut load, &mut row)?;
    print_line(
        rt,
        sizes,
        "copy",
        MapName::Identity,
        1,
        load.as_slice(),
        spent,
    )
}
