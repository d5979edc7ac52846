//! Sixteen records of one byte: loaded, run, dumped and dropped.

ghost use Rattle.std.specs.Prelude.{◌≡◌, Some};
ghost use Rattle.bm_base.specs.Shape.{dims_of};

use crate::moving::{dumped, loaded};
use bm_base::{Area, Shape};
use bm_disks::{DropError, DumpError, LoadError, OpenError, OpenJob, drop_job, open_job};
use bm_forms::Job;
use bm_memrack::MemRack;
use bm_named::{bit_reversal, gray};
use bm_rack::Rack;
use run_helpers::ran;
use std::alloc::Global;
use std::test::Fail;
use test_helpers::{INPUT, ONE_MORE, REVERSED, has_disks};

// What the disks tell of two jobs: nothing loaded, loaded, one of them done, and dropped.
#[derive(Clone, Copy, Debug, PartialEq, Eq)]
struct Told {
    bare: Result<OpenJob, OpenError>,
    fresh: Result<OpenJob, OpenError>,
    done: Result<OpenJob, OpenError>,
    other: Result<OpenJob, OpenError>,
    drops: [Result<(), DropError>; 3],
    dropped: Result<OpenJob, OpenError>,
}

// Loads the input, runs the bit reversal, and drops it, with a look at the jobs in between.
fn looked_at<R: Rack>(alloc: Global, rack: &mut R, shape: &Shape) -> Option<Told>
    requires { (R.view rack.old).attached ≡ Some (dims_of shape.now) }
    ensures { (R.view rack.new).attached ≡ Some (dims_of shape.now) }
{
    let job = Job::Permute(bit_reversal(4));
    let bare = open_job(rack, shape, &job);
    loaded(alloc, rack, shape, INPUT)?.ok()?;
    let fresh = open_job(rack, shape, &job);
    let early = drop_job(rack);
    ran(alloc, rack, shape, &bit_reversal(4), 2)?.ok()?;
    let done = open_job(rack, shape, &job);
    let other = open_job(rack, shape, &Job::Permute(gray(4)));
    let drops = [early, drop_job(rack), drop_job(rack)];
    Some(Told {
        bare,
        fresh,
        done,
        other,
        drops,
        dropped: open_job(rack, shape, &job),
    })
}

#[test]
fn jobs_that_are_open(rt: HostRuntime) -> Result<(), Fail> {
    let shape = Shape::new(4, 1, 1, 3, 1).ok().ok_or("shape")?;
    let mut rack = MemRack::new(rt.alloc(), Vec::new(rt.alloc()));
    if !has_disks(&mut rack, &shape) {
        return Err(Fail::from("disks"));
    }
    let want = Told {
        bare: Err(OpenError::NotLoaded),
        fresh: Err(OpenError::NoJob),
        done: Ok(OpenJob {
            passes: 2,
            done: 2,
            every: 2,
            part: 0,
        }),
        other: Err(OpenError::OtherJob),
        drops: [Err(DropError::NoJob), Ok(()), Err(DropError::NoJob)],
        dropped: Err(OpenError::NoJob),
    };
    assert_eq!(rt; looked_at(rt.alloc(), &mut rack, &shape), Some(want));
    Ok(())
}

// Each load is one piece. A write that fails ends the dump.
#[test]
fn areas_in_pieces(rt: HostRuntime) -> Result<(), Fail> {
    let shape = Shape::new(4, 1, 1, 3, 1).ok().ok_or("shape")?;
    let mut rack = MemRack::new(rt.alloc(), Vec::new(rt.alloc()));
    if !has_disks(&mut rack, &shape) || looked_at(rt.alloc(), &mut rack, &shape).is_none() {
        return Err(Fail::from("disks"));
    }
    let input = dumped(rt.alloc(), &mut rack, &shape, Area::Input, &[]).ok_or("input")?;
    assert_eq!(rt; input.answer, Ok(()));
    assert_eq!(rt; input.bytes.as_slice(), INPUT);
    assert_eq!(rt; input.pieces.as_slice(), [8usize, 8].as_slice());
    let output = dumped(rt.alloc(), &mut rack, &shape, Area::Two, &[]).ok_or("output")?;
    assert_eq!(rt; output.answer, Ok(()));
    assert_eq!(rt; output.bytes.as_slice(), REVERSED);
    let part = dumped(rt.alloc(), &mut rack, &shape, Area::Two, &[2]).ok_or("part")?;
    assert_eq!(rt; part.answer, Err(DumpError::SinkFault));
    assert_eq!(rt;
        part.bytes.as_slice(),
        [0u8, 8, 4, 12, 2, 10, 6, 14].as_slice()
    );
    Ok(())
}

// What a load of these bytes over a loaded input answers, and then whether records are loaded.
fn answers<R: Rack>(
    alloc: Global,
    rack: &mut R,
    shape: &Shape,
    bytes: &[u8],
) -> Option<(Result<(), LoadError>, OpenError)>
    requires { (R.view rack.old).attached ≡ Some (dims_of shape.now) }
    ensures { (R.view rack.new).attached ≡ Some (dims_of shape.now) }
{
    loaded(alloc, rack, shape, INPUT)?.ok()?;
    let answer = loaded(alloc, rack, shape, bytes)?;
    let state = open_job(rack, shape, &Job::Permute(bit_reversal(4))).err()?;
    Some((answer, state))
}

// After an input of another length no records are loaded.
#[test]
fn inputs_of_any_length(rt: HostRuntime) -> Result<(), Fail> {
    let shape = Shape::new(4, 1, 1, 3, 1).ok().ok_or("shape")?;
    let rows = [
        (16, Ok(()), OpenError::NoJob),
        (
            15,
            Err(LoadError::DataShort { got: 15 }),
            OpenError::NotLoaded,
        ),
        (
            0,
            Err(LoadError::DataShort { got: 0 }),
            OpenError::NotLoaded,
        ),
        (17, Err(LoadError::DataLong), OpenError::NotLoaded),
    ];
    for (count, answer, state) in rows {
        let mut rack = MemRack::new(rt.alloc(), Vec::new(rt.alloc()));
        if !has_disks(&mut rack, &shape) {
            return Err(Fail::from("disks"));
        }
        let given = ONE_MORE.get(..count).ok_or("count")?;
        let found = answers(rt.alloc(), &mut rack, &shape, given);
        assert_eq!(rt; found, Some((answer, state)), "{count}");
    }
    Ok(())
}
