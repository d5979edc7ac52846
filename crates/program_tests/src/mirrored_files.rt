//! Mirrors of the disks in two folders.

use bm_filerack::{FileRack, FileSource, LockFile};
use bm_memrack::MemSink;
use bm_mirror_call::mirror_top;
use bm_program::{exit_status, run};
use call_helpers::Answer;
use file_helpers::{Notes, Watched, enter_empty_folder};
use session_helpers::said;
use std::fs;
use std::fs::File;
use std::os::unix::fs::FileExt;
use std::rt::Files;
use std::test::Fail;
use test_helpers::{
    DONE_BOTH, DONE_LEFT, DONE_RIGHT, INPUT, MARKED_REVERSAL, REVERSED, bytes_source, words_of,
};

// What a command says over a mirror of the folders `left` and `right`, where the left one's files are
// called so, with the bytes 0 to 15 as its input. Nothing where memory is refused.
fn mirrored<F: Files>(rt: &HostRuntime, left: &F, line: &str) -> Option<Answer>
where
    F::File: FileExt + LockFile,
{
    let alloc = rt.alloc();
    let words = words_of(alloc, line).ok()?;
    let path = words.last()?;
    let mut job = FileSource::new(rt, path.as_str());
    let mut input = bytes_source(alloc, INPUT)?;
    let mut out = MemSink::new(alloc, 512, 512, Vec::new(alloc)).ok()?;
    let mut err = MemSink::new(alloc, 64, 64, Vec::new(alloc)).ok()?;
    let left = FileRack::at(left, alloc, "left").ok()?;
    let right = FileRack::at(rt, alloc, "right").ok()?;
    let (status, _mirror) = mirror_top(
        alloc, &words, &mut job, &mut input, &mut out, &mut err, left, right,
    );
    Some(Answer::of(status, out, err))
}

// The records that one folder has alone.
fn dumped_of(rt: &HostRuntime, folder: &str) -> Option<(u8, bool)> {
    let mut rack = FileRack::at(rt, rt.alloc(), folder).ok()?;
    let dumped = said(rt, "dump job.toml", &mut rack)?;
    Some((dumped.code, dumped.out.taken() == REVERSED))
}

const REPORT: &[u8] = b"passes 2\nbefore 0\nmoves 16\nbound 24\n";

// A run of which left can write no more after so many writing calls, and a dump that trusts right,
// when it can again: what each says is as wanted, and what left has alone then.
fn worn(rt: &HostRuntime, room: u64) -> Option<([bool; 4], (u8, bool))> {
    let notes = Notes::new(rt.alloc());
    notes.hold_syncs();
    let files = Watched::new(rt, &notes);
    let made = mirrored(rt, &files, "mirror left new job.toml")?;
    let loaded = mirrored(rt, &files, "mirror left load job.toml")?;
    notes.fill(Some(room));
    let ran = mirrored(rt, &files, "mirror left run job.toml")?;
    notes.fill(None);
    let dumped = mirrored(rt, &files, "mirror right dump job.toml")?;
    Some((
        [
            made.says(0, &[], DONE_BOTH),
            loaded.says(0, &[], DONE_BOTH),
            ran.says(0, REPORT, DONE_RIGHT),
            dumped.says(0, REVERSED, DONE_BOTH),
        ],
        dumped_of(rt, "left")?,
    ))
}

// Removes the disks of both folders.
fn clear_both(rt: &HostRuntime) {
    for path in ["left", "right"] {
        let _ = fs::remove_dir_all(rt, path);
    }
}

// A side that can be written no more in the middle of a run goes out, and is filled again from the
// other one.
#[test]
fn a_side_that_can_not_be_written(rt: HostRuntime) -> Result<(), Fail> {
    enter_empty_folder(&rt, "a_side_that_can_not_be_written")?;
    fs::write(&rt, "job.toml", MARKED_REVERSAL.as_bytes())?;
    for room in [9, 20, 30, 40] {
        clear_both(&rt);
        fs::create_dir(&rt, "left")?;
        fs::create_dir(&rt, "right")?;
        assert_eq!(rt;
            worn(&rt, room),
            Some(([true; 4], (0, true))),
            "room {room}"
        );
    }
    Ok(())
}

// What is said where the folder `right` is missing, then where it is there, then where `left` is
// missing.
fn missing(rt: &HostRuntime) -> Option<[bool; 4]> {
    fs::create_dir(rt, "left").ok()?;
    let alone = mirrored(rt, rt, "mirror left carry job.toml")?;
    let apart = mirrored(rt, rt, "mirror left dump job.toml")?;
    fs::create_dir(rt, "right").ok()?;
    let filled = mirrored(rt, rt, "mirror left dump job.toml")?;
    let _ = fs::remove_dir_all(rt, "left");
    let other = mirrored(rt, rt, "mirror right dump job.toml")?;
    Some([
        alone.says(0, REVERSED, DONE_LEFT),
        apart.says(0, REVERSED, DONE_LEFT),
        filled.says(0, REVERSED, DONE_BOTH),
        other.says(0, REVERSED, DONE_RIGHT),
    ])
}

// A side whose folder is missing stays out.
#[test]
fn a_folder_that_is_missing(rt: HostRuntime) -> Result<(), Fail> {
    enter_empty_folder(&rt, "a_folder_that_is_missing")?;
    fs::write(&rt, "job.toml", MARKED_REVERSAL.as_bytes())?;
    assert_eq!(rt; missing(&rt), Some([true; 4]));
    Ok(())
}

// The program takes the folders `left` and `right` of the current one, and the job file there.
#[test]
fn the_program_mirrors(rt: HostRuntime) -> Result<(), Fail> {
    enter_empty_folder(&rt, "the_program_mirrors")?;
    fs::write(&rt, "job.toml", MARKED_REVERSAL.as_bytes())?;
    fs::write(&rt, "input", INPUT)?;
    fs::create_dir(&rt, "left")?;
    fs::create_dir(&rt, "right")?;
    let notes = Notes::new(rt.alloc());
    let files = Watched::called(&rt, &notes, "bmmc mirror left carry job.toml");
    let input = File::open(&rt, "input")?;
    let output = File::create(&rt, "output")?;
    let error = File::create(&rt, "error")?;
    let end = run(&files, input, output, error);
    let (output, error) = (fs::read(&rt, "output")?, fs::read(&rt, "error")?);
    assert_eq!(rt;
        (exit_status(&end), output.as_slice(), error.as_slice()),
        (0, REVERSED, DONE_BOTH.as_bytes())
    );
    assert_eq!(rt;
        (dumped_of(&rt, "left"), dumped_of(&rt, "right")),
        (Some((0, true)), Some((0, true)))
    );
    Ok(())
}
