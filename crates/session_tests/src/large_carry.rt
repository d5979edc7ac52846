//! A large matrix, carried whole over files.

use bm_filerack::FileRack;
use bm_rack::Rack;
use file_helpers::enter_empty_folder;
use session_helpers::said_of;
use std::fs;
use std::test::Fail;
use test_helpers::{TRANSPOSE, counted, is_transposed};

// A matrix of 1024 rows and columns of numbers on four disks, in 64 loads.
#[test]
fn a_matrix_is_transposed(rt: HostRuntime) -> Result<(), Fail> {
    enter_empty_folder(&rt, "a_matrix_is_transposed")?;
    fs::write(&rt, "job.toml", TRANSPOSE.as_bytes())?;
    let input = counted(rt.alloc(), 1 << 20).ok_or("memory")?;
    let mut rack = FileRack::new(&rt, rt.alloc()).map_err(|_| "memory")?;
    let said = said_of(&rt, "carry job.toml", input, 8 << 20, &mut rack).ok_or("memory")?;
    // Two passes of 4096 transfers, and 4096 for load and dump.
    assert_eq!(rt;
        (said.code, is_transposed(said.out.taken()), rack.rows()),
        (0, true, 8192 + 4096)
    );
    Ok(())
}
