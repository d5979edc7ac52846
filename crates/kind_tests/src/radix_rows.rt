//! Three bits at once, listed in each order.

ghost use Rattle.bm_gf2.specs.Matrix.{IsNonsingular};

use crate::lists::{over, placed, read_back};
use bm_gf2::Affine;
use bm_kinds::{Kernel, Signs, Sums, radix};
use bm_named::{reversal, rotation};
use std::alloc::Global;
use std::test::Fail;

// Three bits at once, where they are three bits of the map's addresses.
fn three<K: Kernel>(kernel: &K, records: &mut [u8], map: &Affine, bits: (u8, u8, u8)) -> Option<()>
    requires { IsNonsingular map.now.a }
{
    let (i, j, k) = bits;
    if i >= map.a.n || j >= map.a.n || k >= map.a.n || i == j || i == k || j == k {
        return None;
    }
    if records.len() != 8 << map.a.n {
        return None;
    }
    radix(kernel, records, &map.a, map.c, [i, j, k]);
    Some(())
}

// What three bits at once make of the numbers of a list.
fn at_once<K: Kernel>(
    alloc: Global,
    kernel: &K,
    map: &Affine,
    bits: (u8, u8, u8),
    numbers: &[u64],
) -> Option<Vec<u64>>
    requires { IsNonsingular map.now.a }
{
    let mut records = placed(alloc, map, numbers)?;
    three(kernel, &mut records, map, bits)?;
    read_back(alloc, map, &records)
}

// What the same bits as a set make of them.
fn as_set<K: Kernel>(
    alloc: Global,
    kernel: &K,
    map: &Affine,
    set: u64,
    numbers: &[u64],
) -> Option<Vec<u64>>
    requires { IsNonsingular map.now.a }
{
    let mut records = placed(alloc, map, numbers)?;
    over(kernel, &mut records, map, set)?;
    read_back(alloc, map, &records)
}

const NUMBERS: [u64; 16] = [3, 1, 4, 1, 5, 9, 2, 6, 5, 3, 5, 8, 9, 7, 9, 3];

// Over bits 0, 2 and 3, summed by hand.
const SUMMED: [u64; 16] = [3, 4, 4, 5, 8, 18, 6, 13, 8, 12, 9, 18, 22, 42, 20, 38];

const ORDERS: [(u8, u8, u8); 6] = [
    (0, 2, 3),
    (0, 3, 2),
    (2, 0, 3),
    (2, 3, 0),
    (3, 0, 2),
    (3, 2, 0),
];

// Each order gives what the set gives.
#[test]
fn three_bits_in_each_order(rt: HostRuntime) -> Result<(), Fail> {
    let alloc = rt.alloc();
    for map in [reversal(4), rotation(4, 1)] {
        let signs = as_set(alloc, &Signs, &map, 0b1101, &NUMBERS).ok_or("signs")?;
        for bits in ORDERS {
            let sums = at_once(alloc, &Sums, &map, bits, &NUMBERS).ok_or("sums")?;
            assert!(rt; sums.as_slice() == SUMMED.as_slice(), "{bits:?}");
            let again = at_once(alloc, &Signs, &map, bits, &NUMBERS).ok_or("again")?;
            assert!(rt; again.as_slice() == signs.as_slice(), "{bits:?}");
        }
    }
    Ok(())
}
