//! Commands over more records.

use bm_memrack::{MemSink, SureRack, SureSource};
use bm_rack::Rack;
use call_helpers::{Answer, said_over};
use std::alloc::Global;
use std::test::Fail;
use test_helpers::{DONE, TRANSPOSE, counted, is_transposed, text_source};

// The most bytes that are carried here.
const MOST: usize = 8 << 20;

// What `carry` says of a job over this rack. Nothing where memory is refused.
fn carried<R: Rack>(alloc: Global, job: &str, input: Vec<u8>, rack: &mut R) -> Option<Answer> {
    let mut job = text_source(alloc, job)?;
    let mut input = SureSource::new(input);
    let out = MemSink::new(alloc, MOST, MOST, Vec::new(alloc)).ok()?;
    said_over(alloc, "carry job", &mut job, &mut input, out, rack)
}

// A matrix of 1024 rows and columns on four disks, in 64 loads: two passes of 4096 transfers, and
// 4096 for load and dump.
#[test]
fn transpose(rt: HostRuntime) -> Result<(), Fail> {
    let input = counted(rt.alloc(), 1 << 20).ok_or("memory")?;
    let mut rack = SureRack::new(rt.alloc());
    let said = carried(rt.alloc(), TRANSPOSE, input, &mut rack).ok_or("memory")?;
    assert_eq!(rt;
        (
            said.err.taken(),
            is_transposed(said.out.taken()),
            rack.rows()
        ),
        (DONE.as_bytes(), true, 8192 + 4096)
    );
    Ok(())
}

// Records of 4096 bytes, each with its number in every byte.
fn wide(alloc: Global) -> Option<Vec<u8>> {
    let mut bytes = Vec::with_capacity(alloc, 256 << 12).ok()?;
    for at in 0..256usize << 12 {
        bytes.push((at >> 12) as u8).ok()?;
    }
    Some(bytes)
}

// Whether such records lie in Gray code: at x XOR x / 2 that with the number x.
fn is_in_gray_code(bytes: &[u8]) -> bool {
    for (at, byte) in bytes.iter().enumerate() {
        let to = at >> 12;
        let from = to
            ^ (to >> 1)
            ^ (to >> 2)
            ^ (to >> 3)
            ^ (to >> 4)
            ^ (to >> 5)
            ^ (to >> 6)
            ^ (to >> 7);
        if usize::from(*byte) != from {
            return false;
        }
    }
    bytes.len() == 256 << 12
}

// Wide records in Gray code, in one pass of 128 transfers, and 128 for load and dump.
#[test]
fn wide_records(rt: HostRuntime) -> Result<(), Fail> {
    let job = "[shape]\nn = 8\nb = 1\nd = 1\nm = 4\nwidth = 4096\n[map]\nkind = \"gray\"\n";
    let input = wide(rt.alloc()).ok_or("memory")?;
    let mut rack = SureRack::new(rt.alloc());
    let said = carried(rt.alloc(), job, input, &mut rack).ok_or("memory")?;
    assert_eq!(rt;
        (
            said.err.taken(),
            is_in_gray_code(said.out.taken()),
            rack.rows()
        ),
        (DONE.as_bytes(), true, 128 + 128)
    );
    Ok(())
}
