//! Batches that are refused: their words, their shapes, their inputs.

use crate::calling::{THREE, said};
use bm_memrack::SureRack;
use bm_rack::Rack;
use bm_top::Status;
use std::alloc::Global;
use std::test::Fail;
use test_helpers::{GRAY, ONE_DISK, REVERSAL};

// So many new bays.
fn new_bays(alloc: Global, count: usize) -> Option<Vec<SureRack>> {
    let mut bays = Vec::new(alloc);
    for _bay in 0..count {
        bays.push(SureRack::new(alloc)).ok()?;
    }
    Some(bays)
}

// What a line says over as many new bays as there are texts, where it writes nothing, and the row
// calls of the first bay.
fn refused(alloc: Global, line: &str, texts: &[&str], size: usize) -> Option<(Status, u64)> {
    let mut bays = new_bays(alloc, texts.len())?;
    let said = said(alloc, line, texts, size, &mut bays)?;
    if !said.out.taken().is_empty() {
        return None;
    }
    match bays.first() {
        Some(bay) => Some((said.status, bay.rows())),
        None => Some((said.status, 0)),
    }
}

#[test]
fn words_of_no_batch(rt: HostRuntime) -> Result<(), Fail> {
    let rows = [
        ("batch", 0),
        ("batch 1", 0),
        ("batch-run 1", 0),
        ("batch 01 r", 1),
        ("batch x r", 1),
        ("batch 18446744073709551616 r", 1),
        ("batches 1 r", 1),
        ("carry 1 r", 1),
    ];
    for (line, count) in rows {
        let texts = [REVERSAL; 1];
        let said = refused(rt.alloc(), line, texts.split_at(count).0, 16);
        assert_eq!(rt; said, Some((Status::Usage, 0)), "{line}");
    }
    Ok(())
}

#[test]
fn another_shape(rt: HostRuntime) -> Result<(), Fail> {
    let rows = [
        ([REVERSAL, ONE_DISK, GRAY], 1),
        ([REVERSAL, GRAY, ONE_DISK], 2),
        ([REVERSAL, ONE_DISK, ONE_DISK], 1),
        ([ONE_DISK, GRAY, REVERSAL], 1),
    ];
    for (texts, bay) in rows {
        let said = refused(rt.alloc(), "batch 7 a b c", &texts, 48);
        assert_eq!(rt; said, Some((Status::BatchShape { bay }, 0)), "{bay}");
    }
    Ok(())
}

// The line of a batch whose second job is of another shape.
fn shape_line(alloc: Global) -> Option<bool> {
    let mut bays = new_bays(alloc, 2)?;
    let said = said(alloc, "batch 0 a b", &[REVERSAL, ONE_DISK], 32, &mut bays)?;
    Some(said.err.taken() == b"bmmc: batch shape 1\n".as_slice())
}

#[test]
fn line_of_another_shape(rt: HostRuntime) -> Result<(), Fail> {
    assert_eq!(rt; shape_line(rt.alloc()), Some(true));
    Ok(())
}

// What a batch says of an input of so many bytes, and what `batch-run` says of its bays.
fn loaded_with(alloc: Global, size: usize) -> Option<(Status, Status)> {
    let mut bays = new_bays(alloc, 3)?;
    let first = said(alloc, "batch 5 r g i", &THREE, size, &mut bays)?;
    let next = said(alloc, "batch-run 5 r g i", &THREE, 0, &mut bays)?;
    Some((first.status, next.status))
}

#[test]
fn inputs_of_other_sizes(rt: HostRuntime) -> Result<(), Fail> {
    let rows = [
        (47, Status::DataShort { got: 15 }, Status::NotLoaded),
        (49, Status::DataLong, Status::NotLoaded),
        (0, Status::DataShort { got: 0 }, Status::NoDisks),
        (20, Status::DataShort { got: 4 }, Status::NoDisks),
        (48, Status::Done, Status::Done),
    ];
    for (size, first, next) in rows {
        assert_eq!(rt;
            loaded_with(rt.alloc(), size),
            Some((first, next)),
            "{size}"
        );
    }
    Ok(())
}

// What a second batch says of bays that stand.
fn twice(alloc: Global) -> Option<Status> {
    let mut bays = new_bays(alloc, 3)?;
    let first = said(alloc, "batch 5 r g i", &THREE, 48, &mut bays)?;
    if first.status != Status::Done {
        return None;
    }
    Some(said(alloc, "batch 5 r g i", &THREE, 48, &mut bays)?.status)
}

#[test]
fn bays_that_stand(rt: HostRuntime) -> Result<(), Fail> {
    assert_eq!(rt; twice(rt.alloc()), Some(Status::Exists));
    Ok(())
}
