//! Runs that stop or that find their disks taken, and the run after them.

use bm_filerack::FileRack;
use file_helpers::{Notes, Watched, enter_empty_folder};
use session_helpers::{loaded, said, stored};
use std::test::Fail;
use test_helpers::REVERSED;

// A run is stopped at a call on its files, from the first one to one past its end: another run
// goes on, and its output is that of a run that was not stopped.
#[test]
fn a_run_that_was_stopped_goes_on(rt: HostRuntime) -> Result<(), Fail> {
    enter_empty_folder(&rt, "a_run_that_was_stopped_goes_on")?;
    let notes = Notes::new(rt.alloc());
    let files = Watched::new(&rt, &notes);
    let mut stopped = 0u32;
    for step in 0..40u64 {
        let call = if step == 0 { 1 } else { 60 + 3 * step };
        let mut rack = FileRack::new(&files, rt.alloc()).map_err(|_| "memory")?;
        let before = loaded(&rt, &mut rack).ok_or("memory")?;
        notes.stop(call);
        let ran = said(&rt, "run job.toml", &mut rack).ok_or("memory")?;
        notes.stop(0);
        let mut next = FileRack::new(&files, rt.alloc()).map_err(|_| "memory")?;
        drop(rack);
        let again = said(&rt, "run job.toml", &mut next).ok_or("memory")?;
        let dumped = said(&rt, "dump job.toml", &mut next).ok_or("memory")?;
        let as_wanted = again.code == 0 && dumped.code == 0 && dumped.out.taken() == REVERSED;
        let _ = notes.take();
        stopped = stopped.saturating_add(u32::from(ran.code == 11));
        // Only the first time there are no disks yet.
        let made = if step == 0 { 0 } else { 14 };
        assert_eq!(rt; (before, as_wanted), (made, true), "call {call}");
    }
    assert!(rt; 10 <= stopped && stopped < 40);
    Ok(())
}

// While a rack has the files, the run of another is a fault of its disks and touches nothing.
#[test]
fn two_runs_do_not_mix(rt: HostRuntime) -> Result<(), Fail> {
    enter_empty_folder(&rt, "two_runs_do_not_mix")?;
    let mut first = FileRack::new(&rt, rt.alloc()).map_err(|_| "memory")?;
    let before = loaded(&rt, &mut first).ok_or("memory")?;
    let bytes = stored(&rt)?;
    let notes = Notes::new(rt.alloc());
    let files = Watched::new(&rt, &notes);
    let mut second = FileRack::new(&files, rt.alloc()).map_err(|_| "memory")?;
    let ran = said(&rt, "run job.toml", &mut second).ok_or("memory")?;
    let same = stored(&rt)?.as_slice() == bytes.as_slice();
    let quiet = notes.take().as_str() == "open bmmc-slate\nlock bmmc-slate\n";
    assert_eq!(rt; (before, ran.code, same, quiet), (0, 11, true, true));
    drop(first);
    let again = said(&rt, "run job.toml", &mut second).ok_or("memory")?;
    let dumped = said(&rt, "dump job.toml", &mut second).ok_or("memory")?;
    assert_eq!(rt; (again.code, dumped.out.taken()), (0, REVERSED));
    Ok(())
}
