//! What stands, by the lengths of a rack's files.

ghost use Rattle.std.specs.Prelude.{◌≡◌, ◌*◌, ◌^◌, ◌<◌, ◌≤◌, ◌↔◌, IsTrue, None, All, EachIndex, slice_index_or, length, MatchOption};
ghost use Rattle.bm_filerack.specs.Standing.{length_of, Stands};

use bm_base::{Dims, MOST_DISK_BYTES_BITS, MOST_DISKS, SLATE_BYTES};
use bm_rack::Found;
use std::io::ErrorKind;
use std::rt::Files;
use std::{fs, io};

/// The length of the file at a path, 2^64 - 1 for what is no plain file, or nothing where nothing is.
///
/// At a link it is the file that the link leads to.
pub fn length_at<F: Files>(rt: &F, path: &str) -> io::Result<Option<u64>> {
    match fs::metadata(rt, path) {
        Ok(metadata) => {
            if metadata.is_file() {
                Ok(Some(metadata.len()))
            } else {
                Ok(Some(u64::MAX))
            }
        }
        Err(error) if error.kind() == ErrorKind::NotFound => Ok(None),
        Err(error) => Err(error),
    }
}

/// A length for each disk's file, as where there is none.
pub fn no_lengths() -> [Option<u64>; MOST_DISKS as usize]
    ensures { length result ≡ 64 }
{
    [None; MOST_DISKS as usize]
}

/// The bytes of a disk's file, or nothing where no file can be so long.
pub fn disk_length(dims: &Dims) -> Option<u64>
    ensures { MatchOption result (2 ^ 63 ≤ dims.now.places * dims.now.block)
        (λ length. (length ≡ dims.now.places * dims.now.block) × (length < 2 ^ 63)) }
{
    let length = u128::from(dims.places) * u128::from(dims.block);
    if length < 1 << MOST_DISK_BYTES_BITS {
        Some(length as u64)
    } else {
        None
    }
}

/// What stands where the files have these lengths, beside a rack of these sizes.
pub fn found(dims: &Dims, slate: Option<u64>, disks: &[Option<u64>]) -> Found
    requires { length disks.now ≡ 64 }
    ensures { Stands dims.now slate disks.now result }
{
    if slate.is_none() && has_none(disks) {
        return Found::Absent;
    }
    let Some(wanted) = disk_length(dims) else {
        return Found::Other;
    };
    if slate == Some(SLATE_BYTES as u64)
        && dims.disks <= MOST_DISKS
        && has_lengths(dims.disks as usize, wanted, disks)
    {
        Found::Ready
    } else {
        Found::Other
    }
}

// Whether none of the files is there.
fn has_none(disks: &[Option<u64>]) -> bool
    ensures { IsTrue result ↔ All (λ length. length ≡ None) disks.now }
{
    disks.iter().all(|length| length.is_none())
}

// Whether the first files have the length, and no other is there.
fn has_lengths(count: usize, wanted: u64, disks: &[Option<u64>]) -> bool
    ensures { IsTrue result
        ↔ EachIndex disks.now (λ disk. slice_index_or disks.now disk None ≡ length_of count wanted disk) }
{
    disks.iter().enumerate().all(|(disk, length)| *length
        == if disk < count { Some(wanted) } else { None })
}
