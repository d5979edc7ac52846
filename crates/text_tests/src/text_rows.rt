//! The printed texts but that of a plan, byte for byte.

use bm_base::{DrillReport, RunReport, Shape};
use bm_forms::Job;
use bm_memrack::MemSink;
use bm_named::{bit_reversal, from_rows};
use bm_text::{write_drill, write_job, write_line, write_report, write_status};
use std::test::Fail;

// The job text of the list 0 1 3 2.
#[test]
fn job_text(rt: HostRuntime) -> Result<(), Fail> {
    let mut sink = MemSink::new(rt.alloc(), 256, 7, Vec::new(rt.alloc())).map_err(|_| "memory")?;
    let shape = Shape::new(2, 0, 0, 1, 8).map_err(|_| "shape")?;
    write_job(&mut sink, &shape, &from_rows(2, &[3, 2])?).map_err(|_| "sink")?;
    assert_eq!(rt;
        sink.taken(),
        b"[shape]\nn = 2\nb = 0\nd = 0\nm = 1\nwidth = 8\n\n\
          [map]\nkind = \"rows\"\nrows = [3, 2]\ncomplement = 0\n"
            .as_slice()
    );
    Ok(())
}

// The short texts, over a sink that takes a few bytes at a time.
#[test]
fn short_texts(rt: HostRuntime) -> Result<(), Fail> {
    let mut sink = MemSink::new(rt.alloc(), 256, 3, Vec::new(rt.alloc())).map_err(|_| "memory")?;
    let report = RunReport {
        passes: 2,
        done_before: 0,
        part_before: 0,
        moves: 16,
    };
    write_report(&mut sink, &report, 24).map_err(|_| "sink")?;
    write_status(&mut sink, &Job::Permute(bit_reversal(4)), 1, 2).map_err(|_| "sink")?;
    let report = DrillReport {
        passes: 2,
        restarts: 1,
        moves: 16,
        bound: 24,
        digest: [175; 32],
    };
    write_drill(&mut sink, &report).map_err(|_| "sink")?;
    write_line(&mut sink, b"not done 1 of 2").map_err(|_| "sink")?;
    assert_eq!(rt;
        sink.taken(),
        b"passes 2\nbefore 0\nmoves 16\nbound 24\n\
          job permute\ngates 1 of 2\n\
          passes 2\nrestarts 1\nmoves 16\nbound 24\n\
          sha256 afafafafafafafafafafafafafafafafafafafafafafafafafafafafafafafaf\n\
          bmmc: not done 1 of 2\n"
            .as_slice()
    );
    Ok(())
}

// A sink without room has a front of the text.
#[test]
fn front_of_a_text(rt: HostRuntime) -> Result<(), Fail> {
    let mut sink = MemSink::new(rt.alloc(), 9, 7, Vec::new(rt.alloc())).map_err(|_| "memory")?;
    assert!(rt; write_line(&mut sink, b"done").is_err());
    assert_eq!(rt; sink.taken(), b"bmmc: don".as_slice());
    Ok(())
}
