//! Lists of numbers at the places of a map, and kernels on them.

ghost use Rattle.bm_gf2.specs.Matrix.{IsNonsingular};

use bm_gf2::Affine;
use bm_kinds::{Kernel, kernel_at};
use std::alloc::Global;

/// One of the four kernels.
#[derive(Clone, Copy, Debug, PartialEq, Eq)]
pub enum Name {
    Signs,
    Sums,
    Differences,
    Xors,
}

// The record at a place, as a number. Nothing where there is none.
fn number(records: &[u8], place: u64) -> Option<u64> {
    let at = (place as usize).wrapping_mul(8);
    let bytes = records.get(at..at.wrapping_add(8))?;
    let mut record = [0; 8];
    for (to, from) in record.iter_mut().zip(bytes) {
        *to = *from;
    }
    Some(u64::from_le_bytes(record))
}

// Writes a number as the record at a place. Nothing where there is none.
fn set_number(records: &mut [u8], place: u64, number: u64) -> Option<()> {
    let at = (place as usize).wrapping_mul(8);
    let bytes = records.get_mut(at..at.wrapping_add(8))?;
    bytes.copy_from_slice(&number.to_le_bytes());
    Some(())
}

/// These numbers as records, number x at the place of x. Nothing where memory is refused or there
/// are more numbers than places.
pub fn placed(alloc: Global, map: &Affine, numbers: &[u64]) -> Option<Vec<u8>> {
    let mut records = vec![in alloc; 0u8; 8 << map.a.n].ok()?;
    for (x, number) in numbers.iter().enumerate() {
        let x = x as u64;
        if x >= 1 << map.a.n {
            return None;
        }
        set_number(&mut records, map.apply(x), *number)?;
    }
    Some(records)
}

/// The numbers of such records. Nothing where memory is refused.
pub fn read_back(alloc: Global, map: &Affine, records: &[u8]) -> Option<Vec<u64>> {
    let mut numbers = Vec::new(alloc);
    for x in 0..1u64 << map.a.n {
        numbers.push(number(records, map.apply(x))?).ok()?;
    }
    Some(numbers)
}

/// A kernel over a set, where the set and the records are those of the map's addresses.
pub fn over<K: Kernel>(kernel: &K, records: &mut [u8], map: &Affine, set: u64) -> Option<()>
    requires { IsNonsingular map.now.a }
{
    if set >= 1 << map.a.n || records.len() != 8 << map.a.n {
        return None;
    }
    kernel_at(kernel, records, &map.a, map.c, set);
    Some(())
}
