//! The program's own run, with streams that stand as they are told.

use bm_program::{StartError, Stream, exit_status, run};
use bm_top::Status;
use file_helpers::{Notes, Watched, enter_empty_folder};
use std::cell::Cell;
use std::io;
use std::io::{Read, Write};
use std::test::Fail;

// A stream that is open or closed, has no bytes and takes all, and tells whether it was used.
#[derive(Drop)]
struct Standing<'a> {
    open: bool,
    used: &'a Cell<bool>,
}

impl<'a> Stream for Standing<'a> {
    fn is_open(&self) -> bool {
        self.open
    }
}

impl<'a> Read for Standing<'a> {
    fn read(&mut self, _bytes: &mut [u8]) -> io::Result<usize> {
        self.used.set(true);
        Ok(0)
    }
}

impl<'a> Write for Standing<'a> {
    fn write(&mut self, bytes: &[u8]) -> io::Result<usize> {
        self.used.set(true);
        Ok(bytes.len())
    }

    fn flush(&mut self) -> io::Result<()> {
        self.used.set(true);
        Ok(())
    }
}

// With all three open the missing job file is asked for, and the line is written. With one of them
// closed no file is asked for, and no stream is read, written or flushed.
#[test]
fn a_closed_stream_ends_the_run_first(rt: HostRuntime) -> Result<(), Fail> {
    enter_empty_folder(&rt, "a_closed_stream_ends_the_run_first")?;
    let unavailable = Err(StartError::Unavailable);
    let cases = [
        (
            [true, true, true],
            (Ok(Status::JobFault), 3, "open other.toml\n", true),
        ),
        ([false, true, true], (unavailable, 26, "", false)),
        ([true, false, true], (unavailable, 26, "", false)),
        ([true, true, false], (unavailable, 26, "", false)),
    ];
    for (open, wanted) in cases {
        let notes = Notes::new(rt.alloc());
        let files = Watched::called(&rt, &notes, "bmmc run other.toml");
        let used = Cell::new(false);
        let [input, out, err] = open.map(|open| Standing { open, used: &used });
        let end = run(&files, input, out, err);
        let text = notes.take();
        assert_eq!(rt;
            (end, exit_status(&end), text.as_str(), used.get()),
            wanted,
            "{open:?}"
        );
    }
    Ok(())
}
