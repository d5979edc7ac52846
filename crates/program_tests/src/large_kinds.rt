//! A million numbers over files: sums over subsets of chosen bits by the program.

use bm_program::{exit_status, run};
use file_helpers::{Notes, Watched, enter_empty_folder};
use std::alloc::Global;
use std::fs;
use std::fs::File;
use std::test::Fail;
use test_helpers::{DONE, records_of};

const JOB: &[u8] =
    b"[shape]\nn = 20\nb = 7\nd = 2\nm = 14\nwidth = 8\n[map]\nkind = \"sums\"\nset = [0, 3, 7, 13, 14, 19]\n";

// The bits of the set.
const BITS: [u8; 6] = [0, 3, 7, 13, 14, 19];

// Numbers that differ in all bits.
fn mixed(alloc: Global) -> Option<Vec<u64>> {
    let mut numbers = Vec::new(alloc);
    for x in 0..1u64 << 20 {
        let number = (x ^ (x << 41)).wrapping_mul(0x9E37_79B9_7F4A_7C15);
        numbers.push(number).ok()?;
    }
    Some(numbers)
}

// Adds to each number at an address with the bit the one at the address without it.
fn add_over(numbers: &mut [u64], bit: u8) {
    for x in 0..numbers.len() {
        let below = x ^ (1usize << (bit % 32));
        if below < x {
            let sum = numbers[x].wrapping_add(numbers[below]);
            numbers[x] = sum;
        }
    }
}

// Each sum over the subsets of six bits, against one sweep a bit over the numbers in memory.
#[test]
fn sums_of_a_million(rt: HostRuntime) -> Result<(), Fail> {
    enter_empty_folder(&rt, "sums_of_a_million")?;
    let alloc = rt.alloc();
    let mut numbers = mixed(alloc).ok_or("memory")?;
    fs::write(&rt, "sums.toml", JOB)?;
    fs::write(
        &rt,
        "input",
        records_of(alloc, &numbers).ok_or("memory")?.as_slice(),
    )?;
    let notes = Notes::new(alloc);
    let files = Watched::called(&rt, &notes, "bmmc kind sums.toml");
    let input = File::open(&rt, "input")?;
    let output = File::create(&rt, "output")?;
    let error = File::create(&rt, "error")?;
    let end = run(&files, input, output, error);
    for bit in BITS {
        add_over(&mut numbers, bit);
    }
    let wanted = records_of(alloc, &numbers).ok_or("memory")?;
    let same = fs::read(&rt, "output")?.as_slice() == wanted.as_slice();
    let error = fs::read(&rt, "error")?;
    assert_eq!(rt;
        (exit_status(&end), same, error.as_slice()),
        (0, true, DONE.as_bytes())
    );
    Ok(())
}
