//! The program's own run, with files as its standard streams.

use bm_program::{exit_status, run};
use file_helpers::{Notes, Watched, enter_empty_folder};
use std::fs;
use std::fs::File;
use std::test::Fail;
use test_helpers::{DONE, INPUT, MARKED_REVERSAL, REVERSED};

// Its words, its status, its output, its line, and what it calls on files to begin with.
#[derive(Clone, Copy)]
struct Case {
    line: &'static str,
    code: u8,
    out: &'static [u8],
    err: &'static str,
    begins: &'static str,
}

const REPORT: &[u8] = b"passes 2\nbefore 2\nmoves 0\nbound 24\n";

const CASES: [Case; 5] = [
    Case {
        line: "bmmc carry some.toml",
        code: 0,
        out: REVERSED,
        err: DONE,
        begins: "open some.toml\nmake bmmc-disk-00\n",
    },
    Case {
        line: "bmmc run some.toml",
        code: 0,
        out: REPORT,
        err: DONE,
        begins: "open some.toml\nopen bmmc-slate\n",
    },
    Case {
        line: "bmmc run other.toml",
        code: 3,
        out: &[],
        err: "bmmc: job fault\n",
        begins: "open other.toml\n",
    },
    Case {
        line: "bmmc walk some.toml",
        code: 2,
        out: &[],
        err: "bmmc: usage\n",
        begins: "",
    },
    Case {
        line: "bmmc",
        code: 2,
        out: &[],
        err: "bmmc: usage\n",
        begins: "",
    },
];

// The job file is that of the last word, the output goes to the output, and the line to standard
// error. Words that name no job open no file.
#[test]
fn the_program_is_run(rt: HostRuntime) -> Result<(), Fail> {
    enter_empty_folder(&rt, "the_program_is_run")?;
    fs::write(&rt, "some.toml", MARKED_REVERSAL.as_bytes())?;
    fs::write(&rt, "input", INPUT)?;
    for case in CASES {
        let notes = Notes::new(rt.alloc());
        let files = Watched::called(&rt, &notes, case.line);
        let input = File::open(&rt, "input")?;
        let output = File::create(&rt, "output")?;
        let error = File::create(&rt, "error")?;
        let end = run(&files, input, output, error);
        let (output, error) = (fs::read(&rt, "output")?, fs::read(&rt, "error")?);
        let text = notes.take();
        let begins = if case.begins.is_empty() {
            text.is_empty()
        } else {
            text.starts_with(case.begins)
        };
        assert_eq!(rt;
            (
                exit_status(&end),
                output.as_slice(),
                error.as_slice(),
                begins
            ),
            (case.code, case.out, case.err.as_bytes(), true),
            "{}",
            case.line
        );
    }
    Ok(())
}
