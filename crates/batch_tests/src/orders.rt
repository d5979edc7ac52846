//! Batches in any order of turns.

ghost use Rattle.std.specs.Prelude.{◌≡◌, ◌<◌, length, map};
ghost use Rattle.std.specs.List.{All};
ghost use Rattle.bm_bufs.specs.Bufs.{FitsShape};
ghost use Rattle.bm_batch.specs.Batches.{AreAttached};

use crate::batches::{are_below, batch_on_disks, finished, have_loaded, jobs_of};
use bm_base::Shape;
use bm_batch::{Batch, BayState};
use bm_bufs::Bufs;
use bm_memrack::MemRack;
use bm_rack::Rack;
use std::alloc::Global;
use std::test::Fail;

// The bit reversal of two passes, the Gray code and the identity of one end with their records, their
// loads and the row calls of these, in any order of turns.
#[test]
fn orders_of_turns(rt: HostRuntime) -> Result<(), Fail> {
    let shape = Shape::new(4, 1, 1, 3, 1).ok().ok_or("shape")?;
    let orders = [
        [].as_slice(),
        [0].as_slice(),
        [2, 1, 0].as_slice(),
        [0, 0, 0, 0, 0, 0].as_slice(),
        [1, 1, 1, 2, 2, 2, 0, 1, 2].as_slice(),
        [0, 1, 2, 0, 1, 2, 0, 1, 2, 0, 1, 2].as_slice(),
    ];
    for turns in orders {
        for every in [1, 2] {
            let mut bays = Vec::new(rt.alloc());
            for _bay in 0..3 {
                bays.push(MemRack::new(rt.alloc(), Vec::new(rt.alloc())))?;
            }
            let found = batch_on_disks(rt.alloc(), &shape, bays.as_mut_slice(), turns, every).ok_or(
                "memory",
            )?;
            assert_eq!(rt;
                found.as_slice(),
                [finished(4, 16), finished(2, 8), finished(2, 8)].as_slice()
            );
        }
    }
    Ok(())
}

// What a turn answers, and the loads that are then moved in each of three bays.
type Told = (BayState, (u64, u64, u64));

// The loads that are moved in each of three bays.
fn moved_of(batch: &Batch) -> Option<(u64, u64, u64)> {
    if batch.count() != 3 {
        return None;
    }
    Some((batch.moved(0), batch.moved(1), batch.moved(2)))
}

// Gives these turns, and tells of each.
fn turns_of<R: Rack>(
    alloc: Global,
    batch: &mut Batch,
    bays: &mut [R],
    bufs: &mut Bufs,
    turns: &[u16],
) -> Option<Vec<Told>>
    requires turns { All (λ bay. bay < length batch.old.slots) turns.now }
    requires many { length bays.old ≡ length batch.old.slots }
    requires attached { AreAttached batch.old (map R.view bays.old) }
    requires fits { FitsShape batch.old.shape bufs.old }
{
    let mut list = Vec::new(alloc);
    for bay in turns {
        let state = batch.turn(*bay, bays, bufs);
        list.push((state, moved_of(batch)?)).ok()?;
    }
    Some(list)
}

// Begins the jobs of three bays on new disks, and gives these turns.
fn turns_alone<R: Rack>(
    alloc: Global,
    shape: &Shape,
    bays: &mut [R],
    turns: &[u16],
) -> Option<Vec<Told>> {
    if bays.len() != 3 || !have_loaded(bays, shape) {
        return None;
    }
    let jobs = jobs_of(alloc, shape, 3, 2)?;
    let mut bufs = Bufs::new(alloc, shape).ok()?;
    let Ok(mut batch) = Batch::begin(alloc, shape, jobs.as_slice(), bays) else {
        return None;
    };
    if !are_below(turns, batch.count()) {
        return None;
    }
    turns_of(alloc, &mut batch, bays, &mut bufs, turns)
}

// A turn moves one load of its own bay, and nothing where the bay is Finished.
#[test]
fn turns_one_by_one(rt: HostRuntime) -> Result<(), Fail> {
    let shape = Shape::new(4, 1, 1, 3, 1).ok().ok_or("shape")?;
    let mut bays = Vec::new(rt.alloc());
    for _bay in 0..3 {
        bays.push(MemRack::new(rt.alloc(), Vec::new(rt.alloc())))?;
    }
    let turns = [1, 1, 1, 0, 2, 0, 0, 0, 0, 2];
    let found = turns_alone(rt.alloc(), &shape, bays.as_mut_slice(), &turns).ok_or("memory")?;
    let (going, finished) = (BayState::Going, BayState::Finished);
    let want = [
        (going, (0, 1, 0)),
        (finished, (0, 2, 0)),
        (finished, (0, 2, 0)),
        (going, (1, 2, 0)),
        (going, (1, 2, 1)),
        (going, (2, 2, 1)),
        (going, (3, 2, 1)),
        (finished, (4, 2, 1)),
        (finished, (4, 2, 1)),
        (finished, (4, 2, 2)),
    ];
    assert_eq!(rt; found.as_slice(), want.as_slice());
    Ok(())
}
