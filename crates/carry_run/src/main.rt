//! The program again, whose stored run is the command `carry` over disks in the folder where it runs.

#![tactic(auto)]

use bm_program::{exit_status, run};
use std::process::ExitCode;

fn main(rt: HostRuntime) -> ExitCode {
    let end = run(&rt, rt.stdin(), rt.stdout(), rt.stderr());
    ExitCode::from(exit_status(&end))
}
