//! Runs of jobs, what they tell and what they refuse.

ghost use Rattle.std.specs.Prelude.{◌≡◌, ◌<◌, Some};
ghost use Rattle.bm_base.specs.Shape.{dims_of};

use bm_base::{Area, PAGE_BYTES, RunReport, Shape};
use bm_control::{close_job, close_load};
use bm_factor::factor;
use bm_forms::Plan;
use bm_gf2::Affine;
use bm_job::RunError;
use bm_memrack::MemRack;
use bm_named::{bit_reversal, gray};
use bm_rack::Rack;
use run_helpers::{Step, has_loaded, have_made, holds, ran, report};
use std::alloc::Global;
use std::test::Fail;
use test_helpers::{GRAYED, INPUT, REVERSED, has_disks, is_attached, read_area};

// What runs in a row answer, and what stands after the first and after the last.
#[derive(Clone, Copy, Debug, PartialEq, Eq)]
struct Runs {
    answers: [Option<Result<RunReport, RunError>>; 4],
    holds: (bool, bool),
}

// Runs the bit reversal twice and the Gray code, closes the job, and runs the Gray code again.
fn runs_in_a_row<R: Rack>(alloc: Global, rack: &mut R, shape: &Shape, every: u64) -> Runs
    requires { (R.view rack.old).attached ≡ Some (dims_of shape.now) }
{
    let first = ran(alloc, rack, shape, &bit_reversal(4), every);
    let reversed = holds(alloc, rack, shape, 2, REVERSED);
    let second = ran(alloc, rack, shape, &bit_reversal(4), every);
    let other = ran(alloc, rack, shape, &gray(4), every);
    let closed = close_job(rack).is_ok();
    let last = ran(alloc, rack, shape, &gray(4), every);
    let moved = holds(alloc, rack, shape, 1, GRAYED);
    Runs {
        answers: [first, second, other, last],
        holds: (reversed, closed && moved),
    }
}

// A job that is done is done again at no row call. Another job is run after it is closed.
#[test]
fn runs_after_a_run(rt: HostRuntime) -> Result<(), Fail> {
    let shape = Shape::new(4, 1, 1, 3, 1).ok().ok_or("shape")?;
    for every in [1, 2] {
        let mut rack = MemRack::new(rt.alloc(), Vec::new(rt.alloc()));
        if !has_loaded(&mut rack, &shape, INPUT) {
            return Err(Fail::from("disks"));
        }
        let found = runs_in_a_row(rt.alloc(), &mut rack, &shape, every);
        let want = Runs {
            answers: [
                Some(Ok(report(2, 0, 0, 16))),
                Some(Ok(report(2, 2, 0, 0))),
                Some(Err(RunError::OtherJob)),
                Some(Ok(report(1, 0, 0, 8))),
            ],
            holds: (true, true),
        };
        assert_eq!(rt; found, want);
    }
    Ok(())
}

// The bytes of the areas and of the control file, where memory is given and no call fails.
fn all_bytes<R: Rack>(alloc: Global, rack: &mut R, shape: &Shape) -> Option<Vec<u8>>
    requires { (R.view rack.old).attached ≡ Some (dims_of shape.now) }
    ensures { (R.view rack.new).attached ≡ Some (dims_of shape.now) }
{
    let mut bytes = read_area(alloc, rack, shape, Area::Input)?;
    bytes
        .extend_from_slice(&read_area(alloc, rack, shape, Area::One)?)
        .ok()?;
    bytes
        .extend_from_slice(&read_area(alloc, rack, shape, Area::Two)?)
        .ok()?;
    let mut page_bytes = [0u8; PAGE_BYTES];
    for page in 0..516u16 {
        if rack.read_page(page, &mut page_bytes).is_err() {
            return None;
        }
        bytes.extend_from_slice(&page_bytes).ok()?;
    }
    Some(bytes)
}

// What a run answers, its row calls, and whether blocks and pages are as before.
#[derive(Clone, Copy, Debug, PartialEq, Eq)]
struct Answer {
    answer: Result<RunReport, RunError>,
    rows: u64,
    same: bool,
}

// Runs the permutation by the map.
fn answer_of<R: Rack>(alloc: Global, rack: &mut R, shape: &Shape, map: &Affine) -> Option<Answer>
    requires { (R.view rack.old).attached ≡ Some (dims_of shape.now) }
{
    let bytes = all_bytes(alloc, rack, shape)?;
    let before = rack.rows();
    let answer = ran(alloc, rack, shape, map, 2)?;
    let rows = rack.rows().checked_sub(before)?;
    let after = all_bytes(alloc, rack, shape)?;
    Some(Answer {
        answer,
        rows,
        same: bytes.as_slice() == after.as_slice(),
    })
}

// A change of the control file before a run.
#[derive(Clone, Copy, Debug, PartialEq, Eq)]
enum Change {
    None,
    /// Zeros are written on a page.
    Zeros { page: u16 },
    /// The load gate is closed.
    CloseLoad,
}

// Makes the steps of the bit reversal, and the change. Whether no call failed.
fn is_made<R: Rack>(
    rack: &mut R,
    shape: &Shape,
    plan: &Plan,
    steps: [Step; 6],
    change: Change,
) -> bool
    requires ready { (R.view rack.old).attached ≡ Some (dims_of shape.now) }
    requires plan { plan.now.shape ≡ shape.now }
{
    if !have_made(rack, shape, &bit_reversal(4), plan, steps) {
        return false;
    }
    match change {
        Change::None => true,
        Change::Zeros { page } => page < 516 && rack.write_page(page, &[0; PAGE_BYTES]).is_ok(),
        Change::CloseLoad => close_load(rack).is_ok(),
    }
}

// Makes the steps of the bit reversal of eight records in a load, and the change. Then it runs the
// permutation by a map with loads of 2^m.
fn answer_after(
    alloc: Global,
    steps: [Step; 6],
    change: Change,
    m: u8,
    map: &Affine,
) -> Option<Answer> {
    let loaded = Shape::new(4, 1, 1, 3, 1).ok()?;
    let shape = Shape::new(4, 1, 1, m, 1).ok()?;
    let reversal = bit_reversal(4);
    if reversal.a.n != loaded.n() {
        return None;
    }
    let plan = factor(alloc, &loaded, &reversal).ok()?;
    let mut rack = MemRack::new(alloc, Vec::new(alloc));
    if !has_disks(&mut rack, &loaded) || !is_made(&mut rack, &loaded, &plan, steps, change) {
        return None;
    }
    if !is_attached(&mut rack, &shape) {
        return None;
    }
    answer_of(alloc, &mut rack, &shape, map)
}

// Zeros on a page.
fn zeros(page: u16) -> Change {
    Change::Zeros { page }
}

// A refusal: it makes no row call, and leaves blocks and pages.
fn refused(error: RunError) -> Option<Answer> {
    Some(Answer {
        answer: Err(error),
        rows: 0,
        same: true,
    })
}

// The steps of the bit reversal before a run: none, a load, a start, both passes, and a mark within the
// first one.
const NO: Step = Step::Nothing;

const LOAD: Step = Step::OpenLoad;

const START: Step = Step::StartJob { every: 2 };

const EMPTY: [Step; 6] = [NO, NO, NO, NO, NO, NO];

const LOADED: [Step; 6] = [LOAD, NO, NO, NO, NO, NO];

const STARTED: [Step; 6] = [LOAD, START, NO, NO, NO, NO];

const DONE: [Step; 6] = [
    LOAD,
    START,
    Step::OpenGate { k: 0 },
    Step::OpenGate { k: 1 },
    NO,
    NO,
];

const MARKED: [Step; 6] = [
    LOAD,
    Step::StartJob { every: 1 },
    Step::MarkPart {
        slot: 0,
        pass: 1,
        loads: 1,
    },
    NO,
    NO,
    NO,
];

// Nothing is loaded, what is loaded has another shape, or another job is open.
#[test]
fn refusals_of_a_job(rt: HostRuntime) -> Result<(), Fail> {
    let reversal = bit_reversal(4);
    let gray = gray(4);
    let none = Change::None;
    let rows = [
        (EMPTY, none, 3u8, reversal, RunError::NotLoaded),
        (LOADED, Change::CloseLoad, 3, reversal, RunError::NotLoaded),
        (DONE, zeros(1), 3, reversal, RunError::NotLoaded),
        (LOADED, none, 2, reversal, RunError::OtherShape),
        (STARTED, none, 2, reversal, RunError::OtherShape),
        // the shape before the job
        (DONE, none, 2, gray, RunError::OtherShape),
        (STARTED, none, 3, gray, RunError::OtherJob),
        (DONE, none, 3, gray, RunError::OtherJob),
    ];
    for (steps, change, m, map, error) in rows {
        let found = answer_after(rt.alloc(), steps, change, m, &map);
        assert_eq!(rt; found, refused(error), "{change:?} {m} {error:?}");
    }
    Ok(())
}

// A page that is wrong.
#[test]
fn refusals_of_a_page(rt: HostRuntime) -> Result<(), Fail> {
    let reversal = bit_reversal(4);
    let gray = gray(4);
    let rows = [
        // before the shape and the job
        (DONE, 0u16, 2u8, gray, 0u16),
        (DONE, 2, 3, gray, 2),
        (DONE, 4, 3, reversal, 4),
        (DONE, 5, 3, reversal, 7),
        (DONE, 6, 3, reversal, 6),
        (MARKED, 512, 3, reversal, 512),
    ];
    for (steps, changed, m, map, page) in rows {
        let found = answer_after(rt.alloc(), steps, zeros(changed), m, &map);
        assert_eq!(rt; found, refused(RunError::BadPage { page }), "{changed} {m}");
    }
    Ok(())
}
