//! Commands over devices that fail, and what the next command finds.

use crate::steps::{
    Exchange, done, fed, first_wrong, loaded, refused, run_after_all, run_anew, step,
};
use bm_memrack::{MemRack, MemSink, MemSource, SureSource, UntoldRack};
use bm_rack::{Found, Rack, StopRack};
use call_helpers::{said, said_over};
use std::alloc::Global;
use std::test::Fail;
use test_helpers::{DONE, INPUT, MARKED_REVERSAL, RACK_FAULT, REVERSAL, REVERSED, text_source};

// A rack whose device call of this number fails.
fn failing(alloc: Global, call: u64) -> Option<MemRack> {
    Some(MemRack::new(alloc, [call].to_vec(alloc).ok()?))
}

// The first transfer of the second pass fails: the first pass stays done.
fn second_pass() -> [Exchange; 7] {
    [
        done("new job", &[]),
        loaded(),
        refused("run job", 11, RACK_FAULT),
        done("status job", b"job permute\ngates 1 of 2\n"),
        refused("dump job", 18, "bmmc: not done 1 of 2\n"),
        done("run job", b"passes 2\nbefore 1\nmoves 8\nbound 24\n"),
        done("dump job", REVERSED),
    ]
}

// A transfer of the first pass fails.
fn first_pass() -> [Exchange; 6] {
    [
        done("new job", &[]),
        loaded(),
        refused("run job", 11, RACK_FAULT),
        done("status job", b"job permute\ngates 0 of 2\n"),
        run_anew(),
        done("dump job", REVERSED),
    ]
}

// The first transfer of the second load fails, where the first one is counted.
fn second_load() -> [Exchange; 5] {
    [
        step("new job", MARKED_REVERSAL, 0, &[], DONE),
        fed("load job", MARKED_REVERSAL, INPUT, 0, &[], DONE),
        step("run job", MARKED_REVERSAL, 11, &[], RACK_FAULT),
        done("run job", b"passes 2\nbefore 0\nmoves 12\nbound 24\n"),
        done("dump job", REVERSED),
    ]
}

// The number of the first step that does not say what it is to say, where the device call of this
// number fails.
fn wrong_step(alloc: Global, call: u64, steps: &[Exchange]) -> Option<usize> {
    let Some(mut rack) = failing(alloc, call) else {
        return Some(0);
    };
    first_wrong(alloc, steps, &mut rack)
}

#[test]
fn faults_of_a_run(rt: HostRuntime) -> Result<(), Fail> {
    // Of a run's calls before its attach there are 13, one of `new` and 12 of `load`.
    let rows = [
        ("second pass", wrong_step(rt.alloc(), 40, &second_pass())),
        ("first pass", wrong_step(rt.alloc(), 28, &first_pass())),
        ("second load", wrong_step(rt.alloc(), 39, &second_load())),
    ];
    for (name, wrong) in rows {
        assert_eq!(rt; wrong, None, "{name}");
    }
    Ok(())
}

// What `carry` answers where this device call fails, and the `run` after it.
fn wanted(call: u64) -> (u8, u8) {
    match call {
        1 => (11, 12),
        2..=11 => (11, 15),
        12..=62 => (11, 0),
        _ => (0, 11),
    }
}

// Each device call of a `carry` fails in turn. The one after its last fails the attach of the run.
#[test]
fn faults_of_a_carry(rt: HostRuntime) -> Result<(), Fail> {
    let after = [run_after_all(), done("dump job", REVERSED)];
    for call in 1..=63 {
        let mut rack = failing(rt.alloc(), call).ok_or("memory")?;
        let carried = said(rt.alloc(), "carry job", REVERSAL, INPUT, &mut rack).ok_or("memory")?;
        let ran = said(rt.alloc(), "run job", REVERSAL, &[], &mut rack).ok_or("memory")?;
        let wrong = if ran.code == 0 || carried.code == 0 {
            first_wrong(rt.alloc(), &after, &mut rack)
        } else {
            None
        };
        let (carry, run) = wanted(call);
        assert_eq!(rt;
            (carried.code, ran.code, wrong),
            (carry, run, None),
            "call {call}"
        );
    }
    Ok(())
}

// The run is stopped after its attach and 24 calls: one gate is open whatever the restart leaves.
#[test]
fn stop_of_a_run(rt: HostRuntime) -> Result<(), Fail> {
    let before = [
        done("new job", &[]),
        loaded(),
        refused("status job", 19, "bmmc: no job\n"),
    ];
    let steps = second_pass();
    for pick in [0, u64::MAX / 3, u64::MAX / 3 * 2, u64::MAX] {
        let mut rack = MemRack::new(rt.alloc(), Vec::new(rt.alloc()));
        let first = first_wrong(rt.alloc(), &before, &mut rack);
        rack.stop_after(25);
        let stopped = said(rt.alloc(), "run job", REVERSAL, &[], &mut rack).ok_or("memory")?;
        rack.restart(pick);
        let next = first_wrong(rt.alloc(), &steps[3..], &mut rack);
        assert_eq!(rt;
            (first, stopped.code, next),
            (None, 11, None),
            "pick {pick}"
        );
    }
    Ok(())
}

// A read of the input fails: nothing is loaded, and what was loaded before is not there any more.
#[test]
fn faults_of_an_input(rt: HostRuntime) -> Result<(), Fail> {
    for call in 1..=4 {
        let mut rack = MemRack::new(rt.alloc(), Vec::new(rt.alloc()));
        let carried = said(rt.alloc(), "carry job", REVERSAL, INPUT, &mut rack).ok_or("memory")?;
        let mut job = text_source(rt.alloc(), REVERSAL).ok_or("memory")?;
        let faults = [call].to_vec(rt.alloc())?;
        let mut input = MemSource::new(INPUT.to_vec(rt.alloc())?, 8, faults);
        let out = MemSink::new(rt.alloc(), 64, 64, Vec::new(rt.alloc())).map_err(|_| "memory")?;
        let load = said_over(rt.alloc(), "load job", &mut job, &mut input, out, &mut rack).ok_or(
            "memory",
        )?;
        let ran = said(rt.alloc(), "run job", REVERSAL, &[], &mut rack).ok_or("memory")?;
        // Two reads of a load each and one that finds the end.
        let want = if call < 4 { (0, 8, 15) } else { (0, 0, 0) };
        assert_eq!(rt; (carried.code, load.code, ran.code), want, "read {call}");
    }
    Ok(())
}

// A write of the output fails: what was written before is the beginning of the records.
#[test]
fn faults_of_an_output(rt: HostRuntime) -> Result<(), Fail> {
    for call in 1..=5 {
        let mut rack = MemRack::new(rt.alloc(), Vec::new(rt.alloc()));
        let carried = said(rt.alloc(), "carry job", REVERSAL, INPUT, &mut rack).ok_or("memory")?;
        let mut job = text_source(rt.alloc(), REVERSAL).ok_or("memory")?;
        let mut input = SureSource::new(Vec::new(rt.alloc()));
        let faults = [call].to_vec(rt.alloc())?;
        let out = MemSink::new(rt.alloc(), 64, 4, faults).map_err(|_| "memory")?;
        let dumped = said_over(rt.alloc(), "dump job", &mut job, &mut input, out, &mut rack).ok_or(
            "memory",
        )?;
        let (code, written) = if call < 5 {
            (21, 4 * (call as usize - 1))
        } else {
            (0, 16)
        };
        assert_eq!(rt;
            (carried.code, dumped.code, dumped.out.taken()),
            (0, code, &REVERSED[..written]),
            "write {call}"
        );
    }
    Ok(())
}

// A page that is damaged is told; the job is dropped and run anew from the input.
#[test]
fn damaged_page(rt: HostRuntime) -> Result<(), Fail> {
    let mut rack = MemRack::new(rt.alloc(), Vec::new(rt.alloc()));
    let carried = said(rt.alloc(), "carry job", REVERSAL, INPUT, &mut rack).ok_or("memory")?;
    let damaged = has_damaged(&mut rack, 2);
    let steps = [
        refused("status job", 20, "bmmc: bad page 2\n"),
        refused("run job", 20, "bmmc: bad page 2\n"),
        refused("dump job", 20, "bmmc: bad page 2\n"),
        done("drop job", &[]),
        run_anew(),
        done("dump job", REVERSED),
    ];
    let wrong = first_wrong(rt.alloc(), &steps, &mut rack);
    assert_eq!(rt; (carried.code, damaged, wrong), (0, true, None));
    Ok(())
}

// Sets the last byte of a page to 1. The disks are those of the worked examples.
fn has_damaged<R: Rack>(rack: &mut R, page: u16) -> bool {
    let dims = bm_base::Dims {
        disks: 2,
        places: 12,
        block: 2,
    };
    let mut bytes = [0; 512];
    if page >= 516 || rack.attach(&dims) != Ok(Found::Ready) {
        return false;
    }
    if rack.read_page(page, &mut bytes).is_err() {
        return false;
    }
    bytes[511] = 1;
    rack.write_page(page, &bytes).is_ok() && rack.sync().is_ok()
}

// A call that took room for all records would be refused memory here: they are 2^51 bytes.
#[test]
fn no_room_for_all_records(rt: HostRuntime) -> Result<(), Fail> {
    let large =
        "[shape]\nn = 48\nb = 10\nd = 3\nm = 20\nwidth = 8\n[map]\nkind = \"bit-reversal\"\n";
    let mut rack = UntoldRack::new();
    let load = said(rt.alloc(), "load job", large, &[], &mut rack).ok_or("memory")?;
    let ran = said(rt.alloc(), "run job", large, &[], &mut rack).ok_or("memory")?;
    assert_eq!(rt;
        (load.err.taken(), ran.err.taken()),
        (
            b"bmmc: input short 0\n".as_slice(),
            b"bmmc: not loaded\n".as_slice()
        )
    );
    Ok(())
}
