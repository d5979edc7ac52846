//! Words that are no command over a mirror, job sources that fail, and sinks that fail.

use crate::calling::{said, said_over};
use bm_memrack::{MemSink, MemSource, SureRack, SureSource};
use bm_mirror_call::mirror_job;
use bm_top::Status;
use std::alloc::Global;
use std::test::Fail;
use test_helpers::{
    DONE_BOTH, FLIPPED, INPUT, REVERSAL, bytes_source, rack_of, text_source, words_of,
};

const NO_WORDS: [&str; 8] = [
    "mirror",
    "mirror left",
    "mirror middle run job",
    "mirror left walk job",
    "mirror left run",
    "mirror left run job more",
    "mirror left mirror right run job",
    "left run job",
];

// What is said of a line that is no command over a mirror.
fn usage(alloc: Global, line: &str) -> Option<(Status, bool)> {
    let left = SureRack::new(alloc);
    let right = SureRack::new(alloc);
    let said = said(alloc, line, REVERSAL, INPUT, left, right)?;
    let quiet = said.out.taken().is_empty() && said.err.taken() == b"bmmc: usage\n".as_slice();
    Some((said.status, quiet))
}

#[test]
fn words_of_no_command(rt: HostRuntime) -> Result<(), Fail> {
    for line in NO_WORDS {
        assert_eq!(rt;
            usage(rt.alloc(), line),
            Some((Status::Usage, true)),
            "{line}"
        );
    }
    Ok(())
}

// The job that a line names.
fn is_named(alloc: Global, line: &str, name: Option<&str>) -> Option<bool> {
    let words = words_of(alloc, line).ok()?;
    Some(match (mirror_job(&words), name) {
        (Some(job), Some(name)) => job == name,
        (None, None) => true,
        _ => false,
    })
}

#[test]
fn the_word_of_the_job(rt: HostRuntime) -> Result<(), Fail> {
    let a = rt.alloc();
    let named = [
        is_named(a, "mirror left run some.toml", Some("some.toml")),
        is_named(a, "mirror right plan left", Some("left")),
        is_named(a, "mirror left flip 4 1 1 3 1 5", None),
        is_named(a, "run some.toml", None),
        is_named(a, "mirror up run some.toml", None),
    ];
    assert_eq!(rt; named, [Some(true); 5]);
    Ok(())
}

// The lines of a flip, which has no job: its source is not asked.
fn flipped(alloc: Global) -> Option<(Status, bool)> {
    let mut job = MemSource::new(Vec::new(alloc), 8, [1].to_vec(alloc).ok()?);
    let mut input = bytes_source(alloc, INPUT)?;
    let err = MemSink::new(alloc, 64, 64, Vec::new(alloc)).ok()?;
    let said = said_over(
        alloc,
        "mirror right flip 4 1 1 3 1 15",
        &mut job,
        &mut input,
        err,
        SureRack::new(alloc),
        SureRack::new(alloc),
    )?;
    Some((
        said.status,
        said.out.taken() == FLIPPED && said.err.taken() == DONE_BOTH.as_bytes(),
    ))
}

#[test]
fn a_flip(rt: HostRuntime) -> Result<(), Fail> {
    assert_eq!(rt; flipped(rt.alloc()), Some((Status::Done, true)));
    Ok(())
}

// What is said of a job source whose read of this number fails.
fn job_fault(alloc: Global, call: u64) -> Option<(Status, bool)> {
    let mut job = MemSource::new(
        REVERSAL.as_bytes().to_vec(alloc).ok()?,
        64,
        [call].to_vec(alloc).ok()?,
    );
    let mut input = bytes_source(alloc, INPUT)?;
    let err = MemSink::new(alloc, 64, 64, Vec::new(alloc)).ok()?;
    let said = said_over(
        alloc,
        "mirror right carry job",
        &mut job,
        &mut input,
        err,
        SureRack::new(alloc),
        SureRack::new(alloc),
    )?;
    let lines = b"bmmc: job fault\nsides right\n".as_slice();
    Some((said.status, said.err.taken() == lines))
}

// The text is read in three pieces, and once more to see its end.
#[test]
fn job_sources_that_fail(rt: HostRuntime) -> Result<(), Fail> {
    for call in 1..=2 {
        assert_eq!(rt;
            job_fault(rt.alloc(), call),
            Some((Status::JobFault, true)),
            "{call}"
        );
    }
    Ok(())
}

// The lines of a text that is a byte too long, and of one that is not.
fn long_text(alloc: Global, size: usize) -> Option<(Status, bool)> {
    let mut text = REVERSAL.as_bytes().to_vec(alloc).ok()?;
    for _more in text.len()..size {
        text.push(b'\n').ok()?;
    }
    let mut job = SureSource::new(text);
    let mut input = bytes_source(alloc, INPUT)?;
    let err = MemSink::new(alloc, 64, 64, Vec::new(alloc)).ok()?;
    let said = said_over(
        alloc,
        "mirror left plan job",
        &mut job,
        &mut input,
        err,
        SureRack::new(alloc),
        SureRack::new(alloc),
    )?;
    let lines = b"bmmc: job text\nsides left\n".as_slice();
    Some((said.status, said.err.taken() == lines))
}

#[test]
fn long_texts(rt: HostRuntime) -> Result<(), Fail> {
    assert_eq!(rt; long_text(rt.alloc(), 65536), Some((Status::Done, false)));
    assert_eq!(rt; long_text(rt.alloc(), 65537), Some((Status::JobText, true)));
    Ok(())
}

// What is written of the lines where this write of them fails, four bytes at a time.
fn cut(alloc: Global, call: u64, want: &[u8]) -> Option<bool> {
    let mut job = text_source(alloc, REVERSAL)?;
    let mut input = bytes_source(alloc, INPUT)?;
    let err = MemSink::new(alloc, 64, 4, [call].to_vec(alloc).ok()?).ok()?;
    let said = said_over(
        alloc,
        "mirror left carry job",
        &mut job,
        &mut input,
        err,
        rack_of(alloc, &[])?,
        rack_of(alloc, &[])?,
    )?;
    Some(said.status == Status::Done && said.err.taken() == want)
}

// The line of the sides is tried also where the first one fails.
#[test]
fn lines_that_are_cut(rt: HostRuntime) -> Result<(), Fail> {
    let rows = [
        (1, b"sides left right\n".as_slice()),
        (2, b"bmmcsides left right\n".as_slice()),
        (3, b"bmmc: sides left right\n".as_slice()),
        (4, b"bmmc: donesides left right\n".as_slice()),
        (5, b"bmmc: done\n".as_slice()),
        (6, b"bmmc: done\nside".as_slice()),
        (10, b"bmmc: done\nsides left right\n".as_slice()),
    ];
    for (call, want) in rows {
        assert_eq!(rt; cut(rt.alloc(), call, want), Some(true), "{call}");
    }
    Ok(())
}
