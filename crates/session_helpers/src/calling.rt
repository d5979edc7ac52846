//! Calls of the top call over the files of the current folder.

use bm_filerack::FileSource;
use bm_memrack::{MemSink, SureSource};
use bm_rack::Rack;
use call_helpers::{Answer, said_over};
use std::alloc::Global;
use std::{fs, io};
use test_helpers::{INPUT, MARKED_REVERSAL, words_of};

/// What a command says over this rack, where its job is the file that its last word names, with this
/// input and room for so much output. Nothing where memory is refused.
pub fn said_of<R: Rack>(
    rt: &HostRuntime,
    line: &str,
    input: Vec<u8>,
    room: usize,
    rack: &mut R,
) -> Option<Answer> {
    let alloc = rt.alloc();
    let words = words_of(alloc, line).ok()?;
    let mut job = FileSource::new(rt, words.last()?.as_str());
    let mut input = SureSource::new(input);
    let out = MemSink::new(alloc, room, 1 << 20, Vec::new(alloc)).ok()?;
    said_over(alloc, line, &mut job, &mut input, out, rack)
}

/// What a command says over this rack, with the bytes 0 to 15 as its input.
pub fn said<R: Rack>(rt: &HostRuntime, line: &str, rack: &mut R) -> Option<Answer> {
    said_of(rt, line, INPUT.to_vec(rt.alloc()).ok()?, 512, rack)
}

/// Makes disks, loads them, and leaves the job file there. The status of the load.
pub fn loaded<R: Rack>(rt: &HostRuntime, rack: &mut R) -> Option<u8> {
    fs::write(rt, "job.toml", MARKED_REVERSAL.as_bytes()).ok()?;
    let made = said(rt, "new job.toml", rack)?;
    let loaded = said(rt, "load job.toml", rack)?;
    Some(made.code.max(loaded.code))
}

/// Removes all that a test may have put in the place of the disks and of the job file.
pub fn clear(rt: &HostRuntime) {
    for path in [
        "bmmc-slate",
        "bmmc-disk-00",
        "bmmc-disk-01",
        "bmmc-disk-02",
        "job.toml",
    ] {
        let _ = fs::remove_file(rt, path);
        let _ = fs::remove_dir(rt, path);
    }
}

/// All bytes of the disks and of the control file, one after another.
pub fn stored(rt: &HostRuntime) -> io::Result<Vec<u8>> {
    let mut all = Vec::new(rt.alloc());
    for path in ["bmmc-slate", "bmmc-disk-00", "bmmc-disk-01"] {
        all.extend_from_slice(fs::read(rt, path)?.as_slice())?;
    }
    Ok(all)
}
