//! Rows of the four kernels over sets of bits.

ghost use Rattle.bm_gf2.specs.Matrix.{IsNonsingular};

use crate::lists::{Name, over, placed, read_back};
use bm_gf2::Affine;
use bm_kinds::{Differences, Signs, Sums, Xors};
use bm_named::{bit_reversal, identity, reversal, with_complement};
use std::alloc::Global;
use std::test::Fail;

// What a kernel makes of the numbers, placed by a map.
fn made(alloc: Global, name: Name, map: &Affine, set: u64, numbers: &[u64]) -> Option<Vec<u64>>
    requires { IsNonsingular map.now.a }
{
    let mut records = placed(alloc, map, numbers)?;
    match name {
        Name::Signs => over(&Signs, &mut records, map, set)?,
        Name::Sums => over(&Sums, &mut records, map, set)?,
        Name::Differences => over(&Differences, &mut records, map, set)?,
        Name::Xors => over(&Xors, &mut records, map, set)?,
    }
    read_back(alloc, map, &records)
}

// A kernel, a set of bits of two, four numbers and what becomes of them.
const ROWS: [(Name, u64, [u64; 4], [u64; 4]); 7] = [
    (Name::Sums, 0b11, [1, 2, 3, 4], [1, 3, 4, 10]),
    (Name::Differences, 0b11, [1, 3, 4, 10], [1, 2, 3, 4]),
    (Name::Xors, 0b11, [1, 2, 3, 4], [1, 3, 2, 4]),
    (
        Name::Signs,
        0b10,
        [1, 2, 3, 4],
        [4, 6, 18446744073709551614, 18446744073709551614],
    ),
    (
        Name::Signs,
        0b11,
        [1, 2, 3, 4],
        [10, 18446744073709551614, 18446744073709551612, 0],
    ),
    (Name::Sums, 0, [1, 2, 3, 4], [1, 2, 3, 4]),
    (Name::Sums, 0b01, [1, 2, 3, 4], [1, 3, 3, 7]),
];

// The rows, with the numbers in order and placed by maps that move them.
#[test]
fn rows_of_four_numbers(rt: HostRuntime) -> Result<(), Fail> {
    let alloc = rt.alloc();
    for (name, set, numbers, expected) in ROWS {
        for map in [
            identity(2),
            reversal(2),
            bit_reversal(2),
            with_complement(&bit_reversal(2), 1),
        ] {
            let result = made(alloc, name, &map, set, &numbers).ok_or("made")?;
            assert!(rt;
                result.as_slice() == expected.as_slice(),
                "{name:?} over {set}"
            );
        }
    }
    Ok(())
}

// So many numbers of a linear congruential generator with Knuth's factor.
fn mixed(alloc: Global, count: usize) -> Option<Vec<u64>> {
    let mut numbers = Vec::new(alloc);
    let mut state = 1u64;
    for _i in 0..count {
        state = state
            .wrapping_mul(6364136223846793005)
            .wrapping_add(1442695040888963407);
        numbers.push(state).ok()?;
    }
    Some(numbers)
}

// Kernels of which the second undoes the first.
const PAIRS: [(Name, Name); 3] = [
    (Name::Sums, Name::Differences),
    (Name::Differences, Name::Sums),
    (Name::Xors, Name::Xors),
];

const SETS: [u64; 5] = [0, 1, 0b1000_0000_0100, 0b0101_1010_0110, 0b1111_1111_1111];

// What one kernel makes, another makes undone.
#[test]
fn kernels_are_undone(rt: HostRuntime) -> Result<(), Fail> {
    let alloc = rt.alloc();
    let numbers = mixed(alloc, 4096).ok_or("numbers")?;
    let map = with_complement(&bit_reversal(12), 2730);
    for (first, second) in PAIRS {
        for set in SETS {
            let there = made(alloc, first, &map, set, &numbers).ok_or("there")?;
            let back = made(alloc, second, &map, set, &there).ok_or("back")?;
            assert!(rt;
                back.as_slice() == numbers.as_slice(),
                "{first:?} over {set}"
            );
            assert!(rt;
                (there.as_slice() == numbers.as_slice()) == (set == 0),
                "{first:?} over {set}"
            );
        }
    }
    Ok(())
}
