//! The order of a run's device calls.

use bm_base::Shape;
use bm_memrack::MemRack;
use bm_named::bit_reversal;
use run_helpers::{Call, Recorder, has_loaded, ran, report};
use std::test::Fail;
use test_helpers::INPUT;

// A call as the order names it: a row that is read by its place, one that is written by its area.
#[derive(Clone, Copy, Debug, PartialEq, Eq)]
enum Seen {
    Read(u64),
    Write(u64),
    ReadPage(u16),
    WritePage(u16),
    Sync,
    Other,
}

use Seen::{Read, ReadPage, Sync, Write, WritePage};

// The calls of a new run of two passes over two loads each.
const NEW_RUN: [Seen; 36] = [
    Sync,
    ReadPage(1),
    ReadPage(0),
    ReadPage(3),
    WritePage(2),
    WritePage(4),
    WritePage(5),
    WritePage(6),
    WritePage(7),
    Sync,
    WritePage(3),
    Sync,
    ReadPage(4),
    Read(0),
    Read(1),
    Write(1),
    Write(1),
    Read(2),
    Read(3),
    Write(1),
    Write(1),
    Sync,
    WritePage(5),
    Sync,
    ReadPage(6),
    Read(4),
    Read(5),
    Write(2),
    Write(2),
    Read(6),
    Read(7),
    Write(2),
    Write(2),
    Sync,
    WritePage(7),
    Sync,
];

// The same with progress made durable after each load.
const MARKED_RUN: [Seen; 50] = [
    Sync,
    ReadPage(1),
    ReadPage(0),
    ReadPage(3),
    WritePage(2),
    WritePage(4),
    WritePage(5),
    WritePage(6),
    WritePage(7),
    WritePage(513),
    WritePage(515),
    Sync,
    WritePage(3),
    Sync,
    ReadPage(4),
    Read(0),
    Read(1),
    Write(1),
    Write(1),
    ReadPage(513),
    WritePage(512),
    Sync,
    WritePage(513),
    Sync,
    Read(2),
    Read(3),
    Write(1),
    Write(1),
    Sync,
    WritePage(5),
    Sync,
    ReadPage(6),
    Read(4),
    Read(5),
    Write(2),
    Write(2),
    ReadPage(513),
    WritePage(513),
    Sync,
    WritePage(512),
    Sync,
    WritePage(513),
    Sync,
    Read(6),
    Read(7),
    Write(2),
    Write(2),
    Sync,
    WritePage(7),
    Sync,
];

// What a call on two disks of three areas of four rows is in the order. Both disks take part.
fn in_order(call: &Call) -> Seen {
    match call {
        Call::ReadRow {
            places: [Some(one), Some(other)],
        } if one == other => Seen::Read(*one),
        Call::WriteRow {
            places: [Some(one), Some(other)],
        } if one / 4 == other / 4 => { Seen::Write(one / 4) }
        Call::ReadPage { page } => Seen::ReadPage(*page),
        Call::WritePage { page } => Seen::WritePage(*page),
        Call::Sync => Seen::Sync,
        _ => Seen::Other,
    }
}

// A run makes the listed calls in the listed order, with and without checkpoints.
#[test]
fn calls_in_order(rt: HostRuntime) -> Result<(), Fail> {
    let shape = Shape::new(4, 1, 1, 3, 1).ok().ok_or("shape")?;
    let orders = [(2, NEW_RUN.as_slice()), (1, MARKED_RUN.as_slice())];
    for (every, want) in orders {
        let rack = MemRack::new(rt.alloc(), Vec::new(rt.alloc()));
        let mut recorder = Recorder::new(rt.alloc(), rack);
        if !has_loaded(&mut recorder, &shape, INPUT) {
            return Err(Fail::from("disks"));
        }
        recorder.forget();
        let found = ran(rt.alloc(), &mut recorder, &shape, &bit_reversal(4), every);
        assert_eq!(rt; found, Some(Ok(report(2, 0, 0, 16))));
        let mut calls = Vec::new(rt.alloc());
        for call in recorder.calls() {
            calls.push(in_order(call))?;
        }
        assert_eq!(rt; calls.as_slice(), want);
    }
    Ok(())
}
