//! Commands one after another on one rack.

use crate::steps::{
    Exchange, done, fed, first_wrong, loaded, refused, run_after_all, run_anew, step,
};
use bm_memrack::MemRack;
use std::alloc::Global;
use std::test::Fail;
use test_helpers::{
    DONE, FLIPPED, GRAY, GRAYED, INPUT, MARKED_REVERSAL, ONE_DISK, ONE_MORE, REVERSAL, REVERSED,
    SMALL_MEMORY,
};

// A job that is done is done again at no transfer; another job waits until it is dropped.
fn jobs_in_a_row() -> [Exchange; 14] {
    [
        done("new job", &[]),
        loaded(),
        run_anew(),
        run_after_all(),
        done("status job", b"job permute\ngates 2 of 2\n"),
        step("run job", GRAY, 17, &[], "bmmc: other job\n"),
        step("status job", GRAY, 17, &[], "bmmc: other job\n"),
        step("dump job", GRAY, 17, &[], "bmmc: other job\n"),
        done("dump job", REVERSED),
        step("drop job", GRAY, 0, &[], DONE),
        step("drop job", GRAY, 19, &[], "bmmc: no job\n"),
        step("dump job", GRAY, 19, &[], "bmmc: no job\n"),
        step(
            "run job",
            GRAY,
            0,
            b"passes 1\nbefore 0\nmoves 8\nbound 16\n",
            DONE,
        ),
        step("dump job", GRAY, 0, GRAYED, DONE),
    ]
}

// An input of another size is refused, and nothing is loaded after it.
fn wrong_inputs() -> [Exchange; 10] {
    let short = ONE_MORE.split_at(15).0;
    [
        done("new job", &[]),
        loaded(),
        fed(
            "load job",
            REVERSAL,
            short,
            9,
            &[],
            "bmmc: input short 15\n",
        ),
        refused("run job", 15, "bmmc: not loaded\n"),
        refused("load job", 9, "bmmc: input short 0\n"),
        refused("status job", 15, "bmmc: not loaded\n"),
        fed(
            "load job",
            REVERSAL,
            ONE_MORE,
            10,
            &[],
            "bmmc: input long\n",
        ),
        refused("dump job", 15, "bmmc: not loaded\n"),
        loaded(),
        run_anew(),
    ]
}

// What stands is told, whatever a job wants.
fn other_disks() -> [Exchange; 14] {
    [
        refused("run job", 12, "bmmc: no disks\n"),
        fed("load job", REVERSAL, INPUT, 12, &[], "bmmc: no disks\n"),
        done("new job", &[]),
        refused("new job", 14, "bmmc: disks exist\n"),
        fed("carry job", REVERSAL, INPUT, 14, &[], "bmmc: disks exist\n"),
        fed(
            "flip 4 1 1 3 1 15",
            "",
            INPUT,
            14,
            &[],
            "bmmc: disks exist\n",
        ),
        step("run job", ONE_DISK, 13, &[], "bmmc: wrong dims\n"),
        step("drop job", ONE_DISK, 13, &[], "bmmc: wrong dims\n"),
        loaded(),
        refused("status job", 19, "bmmc: no job\n"),
        refused("drop job", 19, "bmmc: no job\n"),
        step("run job", SMALL_MEMORY, 16, &[], "bmmc: other shape\n"),
        step("status job", SMALL_MEMORY, 16, &[], "bmmc: other shape\n"),
        step("dump job", SMALL_MEMORY, 16, &[], "bmmc: other shape\n"),
    ]
}

// A job with checkpoints is the same job, and a load gives up what was open.
fn loaded_again() -> [Exchange; 6] {
    [
        fed("carry job", MARKED_REVERSAL, INPUT, 0, REVERSED, DONE),
        run_after_all(),
        fed("load job", REVERSAL, REVERSED, 0, &[], DONE),
        refused("dump job", 19, "bmmc: no job\n"),
        run_anew(),
        done("dump job", INPUT),
    ]
}

// After a flip the disks stay, with its job done.
fn after_a_flip() -> [Exchange; 5] {
    [
        fed("flip 4 1 1 3 1 15", "", INPUT, 0, FLIPPED, DONE),
        refused("run job", 17, "bmmc: other job\n"),
        done("drop job", &[]),
        run_anew(),
        done("dump job", REVERSED),
    ]
}

// Job texts that are none, one for each place of the order.
const NO_TEXT: &str = "a = ";

const NO_MEMORY: &str = "[shape]\nn = 4\nb = 1\nd = 1\nwidth = 1\n";

const UNKNOWN: &str =
    "[shape]\nn = 4\nb = 1\nd = 1\nm = 3\nwidth = 1\n[map]\nkind = \"gray\"\np = 2\n";

const TOO_MANY: &str =
    "[shape]\nn = 53\nb = 12\nd = 4\nm = 28\nwidth = 4\n[map]\nkind = \"gray\"\n";

const TOO_WIDE: &str =
    "[shape]\nn = 20\nb = 7\nd = 2\nm = 14\nwidth = 4097\n[map]\nkind = \"gray\"\n";

const TOO_LARGE: &str =
    "[shape]\nn = 52\nb = 8\nd = 0\nm = 18\nwidth = 4096\n[map]\nkind = \"gray\"\n";

const SINGULAR: &str =
    "[shape]\nn = 4\nb = 1\nd = 1\nm = 3\nwidth = 1\n[map]\nkind = \"rows\"\nrows = [3, 3, 4, 8]\n";

// Words that are none, and jobs that are none: nothing is done.
fn no_commands() -> [Exchange; 12] {
    [
        refused("run", 2, "bmmc: usage\n"),
        refused("run job job", 2, "bmmc: usage\n"),
        step("flip 04 1 1 3 1 0", "", 2, &[], "bmmc: usage\n"),
        step("flip 4 1 1 3 1 16", "", 2, &[], "bmmc: usage\n"),
        step("new job", NO_TEXT, 4, &[], "bmmc: job text\n"),
        step("load job", NO_MEMORY, 5, &[], "bmmc: job field shape.m\n"),
        step("carry job", UNKNOWN, 5, &[], "bmmc: job field unknown\n"),
        step("run job", TOO_MANY, 6, &[], "bmmc: job shape rule 1\n"),
        step("status job", TOO_WIDE, 6, &[], "bmmc: job shape rule 6\n"),
        step("dump job", TOO_LARGE, 6, &[], "bmmc: job shape rule 9\n"),
        step("drop job", SINGULAR, 7, &[], "bmmc: job map singular 3\n"),
        refused("run job", 12, "bmmc: no disks\n"),
    ]
}

// The number of the first step that does not say what it is to say, where no disks stand before.
fn wrong_step(alloc: Global, steps: &[Exchange]) -> Option<usize> {
    let mut rack = MemRack::new(alloc, Vec::new(alloc));
    first_wrong(alloc, steps, &mut rack)
}

#[test]
fn sessions(rt: HostRuntime) -> Result<(), Fail> {
    let alloc = rt.alloc();
    let sessions = [
        ("jobs in a row", wrong_step(alloc, &jobs_in_a_row())),
        ("wrong inputs", wrong_step(alloc, &wrong_inputs())),
        ("other disks", wrong_step(alloc, &other_disks())),
        ("loaded again", wrong_step(alloc, &loaded_again())),
        ("after a flip", wrong_step(alloc, &after_a_flip())),
        ("no commands", wrong_step(alloc, &no_commands())),
    ];
    for (name, wrong) in sessions {
        assert_eq!(rt; wrong, None, "{name}");
    }
    Ok(())
}
