//! Batches of the program over files, three jobs in one folder, stopped and gone on with.

use bm_program::{exit_status, run};
use file_helpers::{Notes, Watched, enter_empty_folder};
use std::fs::File;
use std::test::Fail;
use std::{fs, io};
use test_helpers::{IDENTITY, MARKED_GRAY, MARKED_REVERSAL, ONE_DISK, THREE_OUTPUTS};

// What the program said of a line: its status, whether it wrote what the jobs make, and whether it
// wrote nothing.
#[derive(Clone, Copy)]
struct Answer {
    code: u8,
    made: bool,
    empty: bool,
}

// Writes the three job files, and an input of so many bytes, the bytes 0 to 15 over and over.
fn write_files(rt: &HostRuntime, size: usize) -> io::Result<()> {
    fs::write(rt, "r.toml", MARKED_REVERSAL.as_bytes())?;
    fs::write(rt, "g.toml", MARKED_GRAY.as_bytes())?;
    fs::write(rt, "i.toml", IDENTITY.as_bytes())?;
    let mut input = Vec::new(rt.alloc());
    for i in 0..size {
        input.push((i % 16) as u8)?;
    }
    fs::write(rt, "input", input.as_slice())
}

// Removes the files of three bays.
fn clear_bays(rt: &HostRuntime) {
    for path in [
        "bmmc-bay-00-slate",
        "bmmc-bay-00-disk-00",
        "bmmc-bay-00-disk-01",
        "bmmc-bay-01-slate",
        "bmmc-bay-01-disk-00",
        "bmmc-bay-01-disk-01",
        "bmmc-bay-02-slate",
        "bmmc-bay-02-disk-00",
        "bmmc-bay-02-disk-01",
    ] {
        let _ = fs::remove_file(rt, path);
    }
}

// What the program says of a line, with the file `input` as its input.
fn said(rt: &HostRuntime, notes: &Notes, line: &str) -> io::Result<Answer> {
    let files = Watched::called(rt, notes, line);
    let input = File::open(rt, "input")?;
    let output = File::create(rt, "output")?;
    let error = File::create(rt, "error")?;
    let end = run(&files, input, output, error);
    let output = fs::read(rt, "output")?;
    Ok(Answer {
        code: exit_status(&end),
        made: output.as_slice() == THREE_OUTPUTS,
        empty: output.is_empty(),
    })
}

// What a batch says that stops at this call on its files, and what `batch-run` says after it.
fn stopped_at(rt: &HostRuntime, notes: &Notes, call: u64) -> io::Result<(Answer, Answer)> {
    clear_bays(rt);
    notes.stop(call);
    let first = said(rt, notes, "bmmc batch 3 r.toml g.toml i.toml")?;
    notes.stop(0);
    let next = said(rt, notes, "bmmc batch-run 7 r.toml g.toml i.toml")?;
    let _ = notes.take();
    Ok((first, next))
}

// A batch that stops before its load gates are open leaves nothing to go on with, and says so.
#[test]
fn a_batch_that_stopped_early_is_not_loaded(rt: HostRuntime) -> Result<(), Fail> {
    enter_empty_folder(&rt, "a_batch_that_stopped_early_is_not_loaded")?;
    write_files(&rt, 48)?;
    let notes = Notes::new(rt.alloc());
    notes.hold_syncs();
    // At the first job file, before the first disk is made, between two of them, and between two load
    // gates.
    for (call, first_code, next_code) in [(1, 3, 12), (4, 11, 12), (70, 11, 13), (404, 11, 15)] {
        let (first, next) = stopped_at(&rt, &notes, call)?;
        assert_eq!(rt;
            (first.code, first.empty, next.code, next.empty),
            (first_code, true, next_code, true),
            "call {call}"
        );
    }
    Ok(())
}

// A batch is stopped at a call on its files, once its bays are loaded and up to one past its end:
// `batch-run` goes on, and its output is that of a batch that was not stopped.
#[test]
fn a_batch_that_was_stopped_goes_on(rt: HostRuntime) -> Result<(), Fail> {
    enter_empty_folder(&rt, "a_batch_that_was_stopped_goes_on")?;
    write_files(&rt, 48)?;
    let notes = Notes::new(rt.alloc());
    notes.hold_syncs();
    let mut stopped = 0u32;
    for step in 0..12u64 {
        let call = 500 + 16 * step;
        let (first, next) = stopped_at(&rt, &notes, call)?;
        stopped = stopped.saturating_add(u32::from(first.code == 11));
        let as_wanted = next.code == 0 && next.made && first.made == (first.code == 0);
        assert_eq!(rt; as_wanted, true, "call {call}");
    }
    assert!(rt; 6 <= stopped && stopped < 12);
    Ok(())
}

// A batch of jobs of two shapes, of a job file that is missing, and of words that are none: no bay is
// made, and no more is opened than the files before.
#[test]
fn a_batch_that_is_refused_makes_no_bay(rt: HostRuntime) -> Result<(), Fail> {
    enter_empty_folder(&rt, "a_batch_that_is_refused_makes_no_bay")?;
    write_files(&rt, 48)?;
    fs::write(&rt, "o.toml", ONE_DISK.as_bytes())?;
    for (line, code, called) in [
        (
            "bmmc batch 0 r.toml o.toml",
            25,
            "open r.toml\nopen o.toml\n",
        ),
        (
            "bmmc batch 0 r.toml none.toml",
            3,
            "open r.toml\nopen none.toml\n",
        ),
        ("bmmc batch-run 01 r.toml", 2, ""),
        ("bmmc batch 0", 2, ""),
    ] {
        let notes = Notes::new(rt.alloc());
        let answer = said(&rt, &notes, line)?;
        let as_called = notes.take().as_str() == called;
        assert_eq!(rt;
            (answer.code, answer.empty, as_called),
            (code, true, true),
            "{line}"
        );
    }
    Ok(())
}
