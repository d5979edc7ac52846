//! Words, inputs and devices for which the call is not done, and what stands afterwards.

use crate::calling::{FOUR, said, said_over};
use bm_kind_call::kind_job;
use bm_memrack::{MemRack, MemSink, MemSource, SureRack};
use bm_rack::Rack;
use bm_top::Status;
use std::alloc::Global;
use std::test::Fail;
use test_helpers::{records_of, text_with, words_of};

const SUMS: &str = "kind = \"sums\"\nset = [0, 1]";

// What a line says over new disks, of so many bytes of input, and how much it writes.
fn answered(alloc: Global, line: &str, size: usize) -> Option<(Status, usize)> {
    let text = text_with(alloc, FOUR, SUMS)?;
    let bytes = vec![in alloc; 7u8; size].ok()?;
    let mut rack = SureRack::new(alloc);
    let said = said(alloc, line, text.as_str(), &bytes, 512, &mut rack)?;
    Some((said.status, said.out.taken().len()))
}

// A line, the bytes of the input, the status and the bytes of the output.
const ROWS: [(&str, usize, Status, usize); 8] = [
    ("kind", 32, Status::Usage, 0),
    ("kind a b", 32, Status::Usage, 0),
    ("kinds job", 32, Status::Usage, 0),
    ("carry job", 32, Status::Usage, 0),
    ("kind job", 31, Status::DataShort { got: 31 }, 0),
    ("kind job", 0, Status::DataShort { got: 0 }, 0),
    ("kind job", 33, Status::DataLong, 0),
    ("kind job", 32, Status::Done, 32),
];

#[test]
fn words_and_sizes(rt: HostRuntime) -> Result<(), Fail> {
    for (line, size, status, written) in ROWS {
        let said = answered(rt.alloc(), line, size);
        assert_eq!(rt; said, Some((status, written)), "{line} {size}");
    }
    Ok(())
}

// The word that a line names the job by.
fn is_named(alloc: Global, line: &str, job: Option<&str>) -> Option<bool> {
    let words = words_of(alloc, line).ok()?;
    Some(kind_job(&words) == job)
}

#[test]
fn the_word_of_the_job(rt: HostRuntime) -> Result<(), Fail> {
    let a = rt.alloc();
    let named = [
        is_named(a, "kind job.toml", Some("job.toml")),
        is_named(a, "kind", None),
        is_named(a, "run job.toml", None),
    ];
    assert_eq!(rt; named, [Some(true); 3]);
    Ok(())
}

// What the call says where this read of the job, of the input, this write of the output and this
// call of the disks fails, and what it says of the same disks afterwards. No call has number 0.
fn with_faults(
    alloc: Global,
    job: u64,
    input: u64,
    out: u64,
    rack: u64,
) -> Option<(Status, Status)> {
    let text = text_with(alloc, FOUR, SUMS)?;
    let bytes = records_of(alloc, &[1, 2, 3, 4])?;
    let text_bytes = text.as_bytes().to_vec(alloc).ok()?;
    let mut source = MemSource::new(text_bytes, 16, [job].to_vec(alloc).ok()?);
    let mut numbers = MemSource::new(bytes.clone().ok()?, 16, [input].to_vec(alloc).ok()?);
    let sink = MemSink::new(alloc, 512, 16, [out].to_vec(alloc).ok()?).ok()?;
    let mut disks = MemRack::new(alloc, [rack].to_vec(alloc).ok()?);
    let first = said_over(
        alloc,
        "kind job",
        &mut source,
        &mut numbers,
        sink,
        &mut disks,
    )?;
    let next = said(alloc, "kind job", text.as_str(), &bytes, 512, &mut disks)?;
    Some((first.status, next.status))
}

#[test]
fn devices_that_fail(rt: HostRuntime) -> Result<(), Fail> {
    let rows = [
        ("job", 1, 0, 0, 0, Status::JobFault, Status::Done),
        ("input", 0, 1, 0, 0, Status::DataFault, Status::Exists),
        ("output", 0, 0, 2, 0, Status::SinkFault, Status::Exists),
        ("create", 0, 0, 0, 1, Status::RackFault, Status::Done),
        ("attach", 0, 0, 0, 2, Status::RackFault, Status::Exists),
        ("load", 0, 0, 0, 6, Status::RackFault, Status::Exists),
        ("pass", 0, 0, 0, 30, Status::RackFault, Status::Exists),
        ("none", 0, 0, 0, 0, Status::Done, Status::Exists),
    ];
    for (name, job, input, out, rack, first, next) in rows {
        let said = with_faults(rt.alloc(), job, input, out, rack);
        assert_eq!(rt; said, Some((first, next)), "{name}");
    }
    Ok(())
}

// Whether a job can be carried out over the disks that a transform leaves, with the input that it
// loaded: what it leaves is loaded, and no job is open.
fn goes_on(alloc: Global) -> Option<Status> {
    let text = text_with(alloc, FOUR, SUMS)?;
    let bytes = records_of(alloc, &[1, 2, 3, 4])?;
    let mut rack = SureRack::new(alloc);
    let first = said(alloc, "kind job", text.as_str(), &bytes, 512, &mut rack)?;
    if first.status != Status::Done {
        return None;
    }
    let reversal = text_with(alloc, FOUR, "kind = \"bit-reversal\"")?;
    let ran = call_helpers::said(alloc, "run job", reversal.as_str(), &[], &mut rack)?;
    Some(ran.status)
}

#[test]
fn a_run_after_it(rt: HostRuntime) -> Result<(), Fail> {
    assert_eq!(rt; goes_on(rt.alloc()), Some(Status::Done));
    Ok(())
}
