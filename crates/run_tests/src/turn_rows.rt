//! The turns of a run, one by one.

ghost use Rattle.std.specs.Prelude.{◌≡◌, IsTrue, Some};
ghost use Rattle.bm_base.specs.Shape.{dims_of};
ghost use Rattle.bm_bufs.specs.Bufs.{FitsShape};

use bm_base::Shape;
use bm_bufs::Bufs;
use bm_forms::Job;
use bm_gf2::Affine;
use bm_job::{Machine, RunError, Turn};
use bm_memrack::MemRack;
use bm_named::bit_reversal;
use bm_rack::Rack;
use run_helpers::{has_loaded, plan_of};
use std::alloc::Global;
use std::test::Fail;
use test_helpers::INPUT;

// What a machine tells after a turn, with the row calls so far.
#[derive(Clone, Copy, Debug, PartialEq, Eq)]
struct Told {
    answer: Result<Turn, RunError>,
    alive: bool,
    all: u16,
    done: u16,
    finished: bool,
    moved: u64,
    rows: u64,
}

// Takes a turn.
fn told_after<R: Rack>(machine: &mut Machine, rack: &mut R, bufs: &mut Bufs) -> Told
    requires alive { IsTrue machine.old.alive }
    requires attached { (R.view rack.old).attached ≡ Some (dims_of machine.old.shape) }
    requires fits { FitsShape machine.old.shape bufs.old }
    ensures attached { (R.view rack.new).attached ≡ Some (dims_of machine.new.shape) }
    ensures fits { FitsShape machine.new.shape bufs.new }
{
    let before = rack.rows();
    let answer = machine.turn(rack, bufs);
    Told {
        answer,
        alive: machine.alive(),
        all: machine.all(),
        done: machine.done(),
        finished: machine.finished(),
        moved: machine.moved(),
        rows: rack.rows().wrapping_sub(before),
    }
}

// Takes so many turns of the machine, or fewer where it is no more alive.
fn turns_of<R: Rack>(
    alloc: Global,
    machine: Machine,
    rack: &mut R,
    bufs: &mut Bufs,
    count: u64,
) -> Option<Vec<Told>>
    requires attached { (R.view rack.old).attached ≡ Some (dims_of machine.shape) }
    requires fits { FitsShape machine.shape bufs.old }
{
    let mut machine = machine;
    let mut list = Vec::new(alloc);
    for _turn in 0..count {
        if !machine.alive() {
            return Some(list);
        }
        list.push(told_after(&mut machine, rack, bufs)).ok()?;
    }
    Some(list)
}

// Begins the permutation by the map, and takes so many turns.
fn by_turns<R: Rack>(
    alloc: Global,
    rack: &mut R,
    shape: &Shape,
    map: &Affine,
    every: u64,
    count: u64,
) -> Option<Vec<Told>>
    requires { (R.view rack.old).attached ≡ Some (dims_of shape.now) }
{
    let plan = plan_of(alloc, shape, map, every)?;
    let Ok(mut bufs) = Bufs::new(alloc, shape) else {
        return None;
    };
    let Ok(machine) = Machine::begin(rack, shape, &Job::Permute(*map), &plan, every) else {
        return None;
    };
    turns_of(alloc, machine, rack, &mut bufs, count)
}

// The turns of the bit reversal on new disks, whose device calls with these numbers fail.
fn reversal_by_turns(
    alloc: Global,
    (d, m): (u8, u8),
    faults: Vec<u64>,
    every: u64,
    count: u64,
) -> Option<Vec<Told>> {
    let shape = Shape::new(4, 1, d, m, 1).ok()?;
    let mut rack = MemRack::new(alloc, faults);
    if !has_loaded(&mut rack, &shape, INPUT) {
        return None;
    }
    by_turns(alloc, &mut rack, &shape, &bit_reversal(4), every, count)
}

// Each turn moves a load by four row calls. The last one ends all passes, and one more does nothing.
#[test]
fn turns_to_the_end(rt: HostRuntime) -> Result<(), Fail> {
    // the passes, and the loads of each
    let rows = [
        ((1, 3), 2u16, 2u16, 1),
        ((1, 3), 2, 2, 2),
        ((0, 2), 3, 4, 1),
        ((0, 2), 3, 4, 3),
    ];
    for (sizes, all, loads, every) in rows {
        let turns = all.wrapping_mul(loads);
        let none = Vec::new(rt.alloc());
        let count = u64::from(turns).wrapping_add(1);
        let found = reversal_by_turns(rt.alloc(), sizes, none, every, count).ok_or("disks")?;
        let mut want = Vec::new(rt.alloc());
        for turn in 1..turns {
            want.push(Told {
                answer: Ok(Turn::Went),
                alive: true,
                all,
                done: turn.checked_div(loads).ok_or("loads")?,
                finished: false,
                moved: u64::from(turn),
                rows: 4,
            })?;
        }
        let end = Told {
            answer: Ok(Turn::Finished),
            alive: true,
            all,
            done: all,
            finished: true,
            moved: u64::from(turns),
            rows: 4,
        };
        want.push(end)?;
        want.push(Told { rows: 0, ..end })?;
        assert_eq!(rt; found.as_slice(), want.as_slice(), "{sizes:?} {every}");
    }
    Ok(())
}

// After a turn that failed the machine is as before and not alive.
//
// Ten device calls are made before, and twelve by the start. The calls of pass 1 after them: its body is
// read, eight row calls, a sync, its gate is written, a sync.
#[test]
fn turns_that_fail(rt: HostRuntime) -> Result<(), Fail> {
    let rows = [
        (23u64, 0, 0),
        (24, 0, 1),
        (27, 0, 4),
        (28, 1, 1),
        (32, 1, 4),
        (34, 1, 4),
    ];
    for (fault, moved, calls) in rows {
        let faults = [fault].to_vec(rt.alloc())?;
        let found = reversal_by_turns(rt.alloc(), (1, 3), faults, 2, 4).ok_or("disks")?;
        let want = Told {
            answer: Err(RunError::Failed),
            alive: false,
            all: 2,
            done: 0,
            finished: false,
            moved,
            rows: calls,
        };
        assert_eq!(rt; found.last().copied(), Some(want), "{fault}");
    }
    Ok(())
}
