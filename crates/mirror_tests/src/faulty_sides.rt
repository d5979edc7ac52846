//! One failing call on one side, and on both.

ghost use Rattle.std.specs.Prelude.{◌≡◌, Some};

use crate::marks::{SMALL, is_made, is_ready, marks, marks_alone, mirror_of, put_page, put_row};
use bm_base::PAGE_BYTES;
use bm_mirror::Sides;
use bm_rack::Rack;
use std::alloc::Global;
use std::test::Fail;

// A call of an attached rack.
#[derive(Clone, Copy, Debug, PartialEq, Eq)]
enum Kind {
    Attach,
    ReadRow,
    WriteRow,
    ReadPage,
    WritePage,
    Sync,
}

// Whether the call succeeds.
fn does<R: Rack>(rack: &mut R, kind: Kind) -> bool
    requires { (R.view rack.old).attached ≡ Some SMALL }
{
    match kind {
        Kind::Attach => is_ready(rack),
        Kind::ReadRow => rack.read_row(&[Some(2), None], &mut [0; 8]).is_ok(),
        Kind::WriteRow => rack.write_row(&[None, Some(2)], &[7; 8]).is_ok(),
        Kind::ReadPage => rack.read_page(515, &mut [0; PAGE_BYTES]).is_ok(),
        Kind::WritePage => rack.write_page(515, &[7; PAGE_BYTES]).is_ok(),
        Kind::Sync => rack.sync().is_ok(),
    }
}

// What a mirror made of a call, where each side made two calls before: create and attach.
#[derive(Clone, Copy, Debug, PartialEq, Eq)]
struct Outcome {
    done: bool,
    left: bool,
    right: bool,
}

fn outcome_of(alloc: Global, kind: Kind, left: &[u64], right: &[u64]) -> Option<Outcome> {
    let mut mirror = mirror_of(alloc, left, right)?;
    if !is_made(&mut mirror) {
        return None;
    }
    let done = does(&mut mirror, kind);
    let Sides { left, right } = mirror.sides();
    Some(Outcome { done, left, right })
}

const NEITHER: Outcome = Outcome {
    done: true,
    left: true,
    right: true,
};

const LEFT_FELL: Outcome = Outcome {
    done: true,
    left: false,
    right: true,
};

const RIGHT_FELL: Outcome = Outcome {
    done: true,
    left: true,
    right: false,
};

// The last side stays in, and left was asked first.
const BOTH_FAILED: Outcome = Outcome {
    done: false,
    left: false,
    right: true,
};

// A read takes no side out.
const NOT_READ: Outcome = Outcome {
    done: false,
    left: true,
    right: true,
};

// No fault, one on left, one on right, one on each.
fn outcomes(alloc: Global, kind: Kind) -> Option<[Outcome; 4]> {
    Some([
        outcome_of(alloc, kind, &[], &[])?,
        outcome_of(alloc, kind, &[3], &[])?,
        outcome_of(alloc, kind, &[], &[3])?,
        outcome_of(alloc, kind, &[3], &[3])?,
    ])
}

#[test]
fn calls_that_change(rt: HostRuntime) -> Result<(), Fail> {
    let kinds = [Kind::Attach, Kind::WriteRow, Kind::WritePage, Kind::Sync];
    let want = [NEITHER, LEFT_FELL, RIGHT_FELL, BOTH_FAILED];
    for kind in kinds {
        assert_eq!(rt; outcomes(rt.alloc(), kind), Some(want));
    }
    Ok(())
}

// Left alone is asked, but where it fails. So a fault of the third call of right is not met where
// left reads.
#[test]
fn calls_that_read(rt: HostRuntime) -> Result<(), Fail> {
    for kind in [Kind::ReadRow, Kind::ReadPage] {
        assert_eq!(rt;
            outcomes(rt.alloc(), kind),
            Some([NEITHER, NEITHER, NEITHER, NOT_READ])
        );
    }
    Ok(())
}

// Writes a row, a page and syncs, three times over, of which each side fails once.
fn worn(alloc: Global) -> Option<([Option<u8>; 5], [Option<[Option<u8>; 5]>; 2])> {
    let mut mirror = mirror_of(alloc, &[6], &[])?;
    if !is_made(&mut mirror) {
        return None;
    }
    let mut done = put_row(&mut mirror, 0, 1);
    done &= put_page(&mut mirror, 0, 2);
    done &= put_row(&mut mirror, 1, 3);
    done &= put_row(&mut mirror, 2, 4);
    done &= put_page(&mut mirror, 515, 5);
    if !done {
        return None;
    }
    let seen = marks(&mut mirror);
    let (left, right) = mirror.parts();
    Some((seen, [marks_alone(left), marks_alone(right)]))
}

// The fourth write fails on left, which keeps the half of it and gets no later one.
#[test]
fn a_side_that_fell_is_not_written(rt: HostRuntime) -> Result<(), Fail> {
    let whole = [Some(1), Some(3), Some(4), Some(2), Some(5)];
    let old = [Some(1), Some(3), None, Some(2), Some(0)];
    assert_eq!(rt; worn(rt.alloc()), Some((whole, [Some(old), Some(whole)])));
    Ok(())
}
