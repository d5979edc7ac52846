//! Lists of records, and where a map takes them.

use bm_gf2::Matrix;
use std::alloc::Global;

/// So many bytes, from 0 to 250 again and again. Nothing where memory is refused.
pub fn pattern(alloc: Global, size: usize) -> Option<Vec<u8>> {
    let mut bytes = Vec::new(alloc);
    for i in 0..size {
        bytes.push((i % 251) as u8).ok()?;
    }
    Some(bytes)
}

/// These numbers as records of 8 bytes. Nothing where memory is refused.
pub fn records_of(alloc: Global, numbers: &[u64]) -> Option<Vec<u8>> {
    let mut bytes = Vec::new(alloc);
    for number in numbers {
        bytes.extend_from_slice(&number.to_le_bytes()).ok()?;
    }
    Some(bytes)
}

/// The numbers from 0 on, as records of 8 bytes. Nothing where memory is refused.
pub fn counted(alloc: Global, count: u64) -> Option<Vec<u8>> {
    let mut bytes = Vec::new(alloc);
    for x in 0..count {
        bytes.extend_from_slice(&x.to_le_bytes()).ok()?;
    }
    Some(bytes)
}

// Whether record `to` of one list is record `from` of the other. Both lists have it.
fn is_record(moved: &[u8], to: u64, records: &[u8], from: u64, width: usize) -> bool {
    let at = (to as usize).wrapping_mul(width);
    let start = (from as usize).wrapping_mul(width);
    match (
        moved.get(at..at.wrapping_add(width)),
        records.get(start..start.wrapping_add(width)),
    ) {
        (Some(there), Some(record)) => there == record,
        _ => false,
    }
}

/// Whether each record x stands at `a x XOR plus`, in lists of 2^n records of so many bytes.
pub fn has_moved(moved: &[u8], records: &[u8], a: &Matrix, plus: u64, width: u16) -> bool {
    for x in 0..1u64 << a.n {
        let to = a.apply(x) ^ plus;
        if !is_record(moved, to, records, x, usize::from(width)) {
            return false;
        }
    }
    moved.len() == records.len()
}
