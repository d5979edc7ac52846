//! The order of a load's device calls.

use crate::moving::loaded;
use bm_base::Shape;
use bm_memrack::MemRack;
use bm_named::bit_reversal;
use run_helpers::{Call, Recorder, ran};
use std::test::Fail;
use test_helpers::{INPUT, has_disks};

// A row write to both disks.
fn row(place: u64) -> Call {
    Call::WriteRow {
        places: [Some(place), Some(place)],
    }
}

// On new disks, where both gates are closed.
fn on_new_disks() -> [Call; 11] {
    [
        Call::Sync,
        Call::ReadPage { page: 3 },
        Call::ReadPage { page: 1 },
        row(0),
        row(1),
        row(2),
        row(3),
        Call::WritePage { page: 0 },
        Call::Sync,
        Call::WritePage { page: 1 },
        Call::Sync,
    ]
}

// Where a job is open.
fn over_a_job() -> [Call; 15] {
    [
        Call::Sync,
        Call::ReadPage { page: 3 },
        Call::WritePage { page: 3 },
        Call::Sync,
        Call::ReadPage { page: 1 },
        Call::WritePage { page: 1 },
        Call::Sync,
        row(0),
        row(1),
        row(2),
        row(3),
        Call::WritePage { page: 0 },
        Call::Sync,
        Call::WritePage { page: 1 },
        Call::Sync,
    ]
}

// Gates that are open are closed first, the job's before the load's.
#[test]
fn calls_in_order(rt: HostRuntime) -> Result<(), Fail> {
    let shape = Shape::new(4, 1, 1, 3, 1).ok().ok_or("shape")?;
    let rack = MemRack::new(rt.alloc(), Vec::new(rt.alloc()));
    let mut recorder = Recorder::new(rt.alloc(), rack);
    if !has_disks(&mut recorder, &shape) {
        return Err(Fail::from("disks"));
    }
    recorder.forget();
    assert_eq!(rt;
        loaded(rt.alloc(), &mut recorder, &shape, INPUT),
        Some(Ok(()))
    );
    assert_eq!(rt; recorder.calls(), on_new_disks().as_slice());
    if ran(rt.alloc(), &mut recorder, &shape, &bit_reversal(4), 2).is_none() {
        return Err(Fail::from("run"));
    }
    recorder.forget();
    assert_eq!(rt;
        loaded(rt.alloc(), &mut recorder, &shape, INPUT),
        Some(Ok(()))
    );
    assert_eq!(rt; recorder.calls(), over_a_job().as_slice());
    Ok(())
}
