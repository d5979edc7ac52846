//! Times, and the lines that the program prints.

ghost use Rattle.std.specs.Prelude.{◌≤◌, ◌<◌};

use crate::checksum::checksum;
use crate::map_name::MapName;
use crate::sizes::Sizes;
use std::io;
use std::time::CpuClock;

/// The nanoseconds of processor time that the program has used, at most 2^64 - 1.
pub fn nanoseconds_used(rt: &impl CpuClock) -> io::Result<u64> {
    Ok(u64::try_from(rt.process_cpu_time()?.as_nanos()).unwrap_or(u64::MAX))
}

/// Prints what was moved, by which map, the bytes of a record, the KiB of a load and of a row, the
/// checksum of what came out, and in a run that measures the nanoseconds.
pub fn print_line(
    rt: &impl Print,
    sizes: Sizes,
    act: &str,
    map: MapName,
    width: u16,
    bytes: &[u8],
    nanoseconds: u64,
) -> io::Result<()> {
    let load = 1u64 << (sizes.load_bits - 10);
    let row = 1u64 << (sizes.row_bits - 10);
    let hash = checksum(bytes);
    if sizes.measured {
        println!(rt; "{act} {map} {width} {load} {row} {hash:016x} {nanoseconds}")
    } else {
        println!(rt; "{act} {map} {width} {load} {row} {hash:016x}")
    }
}
