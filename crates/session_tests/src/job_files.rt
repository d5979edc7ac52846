//! Plans of job files.

use bm_memrack::SureRack;
use file_helpers::enter_empty_folder;
use session_helpers::said;
use std::fs;
use std::test::Fail;
use test_helpers::GRAY;

const PLAN: &str =
    "shape n=4 b=1 d=1 m=3 width=1\njob permute\nstep 1 butterflies 0 lower 0 high 0 passes 1 at-most 2\npasses 1\nmoves 8\nbound 16\n";

const ROWS: [(&str, u8, &str); 2] = [("plan job.toml", 0, PLAN), ("plan missing.toml", 3, "")];

// The plan of a job file, and of one that is not there.
#[test]
fn a_job_file_is_planned(rt: HostRuntime) -> Result<(), Fail> {
    enter_empty_folder(&rt, "a_job_file_is_planned")?;
    fs::write(&rt, "job.toml", GRAY.as_bytes())?;
    for (line, code, text) in ROWS {
        let mut rack = SureRack::new(rt.alloc());
        let said = said(&rt, line, &mut rack).ok_or("memory")?;
        assert_eq!(rt;
            (said.code, said.out.taken() == text.as_bytes()),
            (code, true),
            "{line}"
        );
    }
    Ok(())
}
