//! Random numbers over random sets: what undoes what, and sums taken directly.

ghost use Rattle.std.specs.Prelude.{◌≡◌, IfSome, length};

use crate::calling::said;
use bm_memrack::{MemSink, SureRack};
use bm_top::Status;
use call_helpers::said_over;
use itoa::Buffer;
use std::alloc::Global;
use std::test::Fail;
use test_helpers::{bytes_source, draw, records_of, text_source};

// 4096 numbers, 32 in memory, on two disks in blocks of two.
const SHAPE: &str = "[shape]\nn = 12\nb = 1\nd = 1\nm = 5\nwidth = 8\n";

const BYTES: usize = 8 << 12;

// The text of a kind over the bits of a set.
fn text_over(alloc: Global, kind: &str, set: u64) -> Option<String> {
    let mut text = String::new(alloc);
    text.push_str(SHAPE).ok()?;
    text.push_str("[map]\nkind = \"").ok()?;
    text.push_str(kind).ok()?;
    text.push_str("\"\nset = [").ok()?;
    for bit in 0..12u64 {
        if set >> bit & 1 == 1 {
            text.push_str(Buffer::new().format(bit)).ok()?;
            text.push_str(", ").ok()?;
        }
    }
    text.push_str("]\n").ok()?;
    Some(text)
}

// Numbers of 64 bits.
fn draw_numbers(alloc: Global, state: &mut u64) -> Option<Vec<u64>> {
    let mut numbers = Vec::new(alloc);
    for _x in 0..1 << 12 {
        let high = draw(state, 32) << 32;
        numbers.push(high | draw(state, 32)).ok()?;
    }
    Some(numbers)
}

// What a kind over a set makes of records, on new disks.
fn made(alloc: Global, kind: &str, set: u64, input: &[u8]) -> Option<Vec<u8>> {
    let text = text_over(alloc, kind, set)?;
    let mut rack = SureRack::new(alloc);
    let said = said(alloc, "kind job", text.as_str(), input, BYTES, &mut rack)?;
    if said.status != Status::Done {
        return None;
    }
    said.out.taken().to_vec(alloc).ok()
}

// Whether one kind after another, over one set, leaves random numbers as they were.
fn undoes(alloc: Global, one: &str, other: &str, seed: u64) -> Option<bool> {
    let mut state = seed;
    let set = draw(&mut state, 12);
    let input = records_of(alloc, &draw_numbers(alloc, &mut state)?)?;
    let there = made(alloc, one, set, &input)?;
    let back = made(alloc, other, set, &there)?;
    Some(back.as_slice() == input.as_slice() && (set == 0 || there.as_slice() != input.as_slice()))
}

#[test]
fn kinds_that_undo(rt: HostRuntime) -> Result<(), Fail> {
    let a = rt.alloc();
    for seed in 1..6u64 {
        let undone = [
            undoes(a, "sums", "differences", seed),
            undoes(a, "differences", "sums", seed),
            undoes(a, "xors", "xors", seed),
        ];
        assert_eq!(rt; undone, [Some(true); 3], "{seed}");
    }
    Ok(())
}

// The sum of a kind at one address: over the addresses that agree with it outside the set and whose
// bits in the set are among its own.
fn sum_at(numbers: &[u64], kind: &str, set: u64, k: u64) -> u64 {
    let mut sum = 0u64;
    for (x, number) in numbers.iter().enumerate() {
        let x = x as u64;
        if (x ^ k) & !set == 0 && x & set & !k == 0 {
            let odd = (x ^ k).count_ones() % 2 == 1;
            sum = match kind {
                "xors" => sum ^ *number,
                "differences" if odd => sum.wrapping_sub(*number),
                _ => sum.wrapping_add(*number),
            };
        }
    }
    sum
}

// Whether a kind makes these sums of random numbers, at every 97th address.
fn is_summed(alloc: Global, kind: &str, seed: u64) -> Option<bool> {
    let mut state = seed;
    let set = draw(&mut state, 12);
    let numbers = draw_numbers(alloc, &mut state)?;
    let there = made(alloc, kind, set, &records_of(alloc, &numbers)?)?;
    for (k, record) in there.chunks_exact(8).enumerate().step_by(97) {
        if record
            != sum_at(&numbers, kind, set, k as u64)
                .to_le_bytes()
                .as_slice()
        {
            return Some(false);
        }
    }
    Some(there.len() == BYTES)
}

#[test]
fn sums_taken_directly(rt: HostRuntime) -> Result<(), Fail> {
    for kind in ["sums", "differences", "xors"] {
        for seed in 6..9u64 {
            assert_eq!(rt;
                is_summed(rt.alloc(), kind, seed),
                Some(true),
                "{kind} {seed}"
            );
        }
    }
    Ok(())
}

// What the job of the transform makes of records, on new disks.
fn transformed(alloc: Global, input: &[u8]) -> Option<Vec<u8>> {
    let mut text = String::new(alloc);
    text.push_str(SHAPE).ok()?;
    text.push_str("[map]\nkind = \"walsh\"\n").ok()?;
    let mut job = text_source(alloc, text.as_str())?;
    let mut input = bytes_source(alloc, input)?;
    let out = MemSink::new(alloc, BYTES, 1 << 10, Vec::new(alloc)).ok()?;
    let mut rack = SureRack::new(alloc);
    let carried = said_over(alloc, "carry job", &mut job, &mut input, out, &mut rack)?;
    if carried.status != Status::Done {
        return None;
    }
    carried.out.taken().to_vec(alloc).ok()
}

// Whether the signed sums over all bits are the Walsh-Hadamard transform.
fn is_transform(alloc: Global) -> Option<bool> {
    let input = records_of(alloc, &draw_numbers(alloc, &mut 20261201)?)?;
    let over_all = made(alloc, "walsh-bits", (1 << 12) - 1, &input)?;
    let transformed = transformed(alloc, &input)?;
    Some(over_all.as_slice() == transformed.as_slice())
}

#[test]
fn all_bits_are_the_transform(rt: HostRuntime) -> Result<(), Fail> {
    assert_eq!(rt; is_transform(rt.alloc()), Some(true));
    Ok(())
}
