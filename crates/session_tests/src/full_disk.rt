//! Commands that find the disk full, and the commands after them, when there is room again.

use bm_filerack::FileRack;
use bm_rack::Rack;
use call_helpers::Answer;
use file_helpers::{Notes, Watched, enter_empty_folder};
use session_helpers::{clear, said, said_of};
use std::fs;
use std::test::Fail;
use test_helpers::{INPUT, MARKED_REVERSAL, REVERSED};

// What makes disks with a job that is done on them, in order.
const COMMANDS: [&str; 3] = ["new job.toml", "load job.toml", "run job.toml"];

// What `status` writes.
const NONE_OF_TWO: &str = "job permute\ngates 0 of 2\n";

const ONE_OF_TWO: &str = "job permute\ngates 1 of 2\n";

const BOTH: &str = "job permute\ngates 2 of 2\n";

// A command, how many of those in order come before it, its input, and how many writing calls it
// makes.
#[derive(Clone, Copy)]
struct Case {
    line: &'static str,
    before: usize,
    input: &'static [u8],
    writes: u64,
    /// What `status` answers and writes after it, and the records at the end: from the first writing
    /// call that finds the disk full at such a number on.
    after: &'static [(u64, u8, &'static str, &'static [u8])],
}

const STEPS: [Case; 4] = [
    Case {
        line: "new job.toml",
        before: 0,
        input: INPUT,
        writes: 10,
        after: &[(1, 12, "", REVERSED), (11, 15, "", REVERSED)],
    },
    Case {
        line: "load job.toml",
        before: 1,
        input: INPUT,
        writes: 17,
        after: &[(1, 15, "", REVERSED), (16, 19, "", REVERSED)],
    },
    // Another input, in the place of one whose job is done.
    Case {
        line: "load job.toml",
        before: 3,
        input: REVERSED,
        writes: 21,
        after: &[
            (1, 0, BOTH, REVERSED),
            (4, 19, "", REVERSED),
            (6, 15, "", INPUT),
            (20, 19, "", INPUT),
        ],
    },
    Case {
        line: "run job.toml",
        before: 2,
        input: INPUT,
        writes: 51,
        after: &[
            (1, 19, "", REVERSED),
            (12, 0, NONE_OF_TWO, REVERSED),
            (30, 0, ONE_OF_TWO, REVERSED),
            (50, 0, BOTH, REVERSED),
        ],
    },
];

// `carry` does all of that in one, and the others only make durable what stands, or close a gate.
const OTHERS: [Case; 4] = [
    Case {
        line: "carry job.toml",
        before: 0,
        input: INPUT,
        writes: 75,
        after: &[
            (1, 12, "", REVERSED),
            (11, 15, "", REVERSED),
            (26, 19, "", REVERSED),
            (36, 0, NONE_OF_TWO, REVERSED),
            (54, 0, ONE_OF_TWO, REVERSED),
            (74, 0, BOTH, REVERSED),
        ],
    },
    Case {
        line: "status job.toml",
        before: 3,
        input: INPUT,
        writes: 3,
        after: &[(1, 0, BOTH, REVERSED)],
    },
    Case {
        line: "dump job.toml",
        before: 3,
        input: INPUT,
        writes: 3,
        after: &[(1, 0, BOTH, REVERSED)],
    },
    Case {
        line: "drop job.toml",
        before: 3,
        input: INPUT,
        writes: 5,
        after: &[(1, 0, BOTH, REVERSED), (4, 19, "", REVERSED)],
    },
];

// What the table has where the writing call of this number is the first that finds the disk full.
fn wanted(case: &Case, number: u64) -> (u8, &'static str, &'static [u8]) {
    let mut last = (0, "", INPUT);
    for (from, code, told, records) in case.after {
        if *from <= number {
            last = (*code, *told, *records);
        }
    }
    last
}

// Says these commands over this input. Nothing where one of them is not done.
fn have_done<R: Rack>(rt: &HostRuntime, lines: &[&str], input: &[u8], rack: &mut R) -> Option<()> {
    for line in lines {
        let said = said_of(rt, line, input.to_vec(rt.alloc()).ok()?, 512, rack)?;
        if said.code != 0 {
            return None;
        }
    }
    Some(())
}

// What `status` says, and `dump` after the commands that the status asks for. Nothing where one of
// these is not done.
fn said_after<R: Rack>(rt: &HostRuntime, input: &[u8], rack: &mut R) -> Option<(Answer, Answer)> {
    let told = said(rt, "status job.toml", rack)?;
    let done = match told.code {
        12 => 0,
        15 => 1,
        _ => 2,
    };
    have_done(rt, COMMANDS.split_at_checked(done)?.1, input, rack)?;
    Some((told, said(rt, "dump job.toml", rack)?))
}

// Whether all is as the table says where there is room for so many writing calls.
fn is_as_wanted(rt: &HostRuntime, case: &Case, room: u64) -> Option<bool> {
    clear(rt);
    fs::write(rt, "job.toml", MARKED_REVERSAL.as_bytes()).ok()?;
    let notes = Notes::new(rt.alloc());
    notes.hold_syncs();
    let files = Watched::new(rt, &notes);
    let mut rack = FileRack::new(&files, rt.alloc()).ok()?;
    have_done(
        rt,
        COMMANDS.split_at_checked(case.before)?.0,
        INPUT,
        &mut rack,
    )?;
    notes.fill(Some(room));
    let said = said_of(
        rt,
        case.line,
        case.input.to_vec(rt.alloc()).ok()?,
        512,
        &mut rack,
    )?;
    notes.fill(None);
    drop(rack);
    let mut rack = FileRack::new(&files, rt.alloc()).ok()?;
    let (told, dumped) = said_after(rt, case.input, &mut rack)?;
    let (code, text, records) = wanted(case, room.saturating_add(1));
    let is_answered = if room < case.writes {
        said.code == 11 && said.out.taken().is_empty()
    } else {
        said.code == 0
    };
    Some(
        is_answered
            && told.code == code
            && told.out.taken() == text.as_bytes()
            && dumped.code == 0
            && dumped.out.taken() == records,
    )
}

// The first room for which it is not as the table says, if any.
fn first_wrong(rt: &HostRuntime, case: &Case) -> Option<u64> {
    for room in 0..=case.writes {
        if is_as_wanted(rt, case, room) != Some(true) {
            return Some(room);
        }
    }
    None
}

// Each writing call of a command is in turn the first that finds the disk full. The command answers
// that the rack failed and writes nothing, and when there is room again the commands that `status`
// asks for end with the right records.
#[test]
fn a_step_on_a_full_disk_fails(rt: HostRuntime) -> Result<(), Fail> {
    enter_empty_folder(&rt, "a_step_on_a_full_disk_fails")?;
    for case in STEPS {
        assert_eq!(rt;
            first_wrong(&rt, &case),
            None,
            "{} after {}",
            case.line,
            case.before
        );
    }
    Ok(())
}

// The same of the other commands.
#[test]
fn another_command_on_a_full_disk_fails(rt: HostRuntime) -> Result<(), Fail> {
    enter_empty_folder(&rt, "another_command_on_a_full_disk_fails")?;
    for case in OTHERS {
        assert_eq!(rt;
            first_wrong(&rt, &case),
            None,
            "{} after {}",
            case.line,
            case.before
        );
    }
    Ok(())
}
