//! Texts of transforms over chosen bits, and their faults.

use bm_base::{FieldName, Shape};
use bm_jobfile::JobError;
use bm_kindjob::{KindFile, KindName, read_kind};
use bm_named::MapFault;
use std::test::Fail;
use test_helpers::text_with;

const SHAPE: &str = "n = 2\nb = 0\nd = 0\nm = 1\nwidth = 8";

// The lines of `map`, the kind and the set.
const FILES: [(&str, KindName, u64); 5] = [
    ("kind = \"sums\"\nset = [0, 1]", KindName::Sums, 3),
    (
        "kind = \"differences\"\nset = [1, 0]",
        KindName::Differences,
        3,
    ),
    ("kind = \"xors\"\nset = [0]", KindName::Xors, 1),
    ("kind = \"walsh-bits\"\nset = [1]", KindName::WalshBits, 2),
    ("kind = \"sums\"\nset = []", KindName::Sums, 0),
];

// What each text says.
#[test]
fn texts_say_sets(rt: HostRuntime) -> Result<(), Fail> {
    let shape = Shape::new(2, 0, 0, 1, 8).ok().ok_or("shape")?;
    for (map, kind, set) in FILES {
        let text = text_with(rt.alloc(), SHAPE, map).ok_or("text")?;
        let file = read_kind(rt.alloc(), text.as_bytes());
        assert!(rt; file == Ok(KindFile { shape, kind, set }), "{map}");
    }
    Ok(())
}

// The lines of `shape` and of `map`, and the fault.
const FAULTS: [(&str, &str, FieldName); 8] = [
    (SHAPE, "kind = \"gray\"\nset = [0]", FieldName::Kind),
    (SHAPE, "kind = \"sums\"", FieldName::Set),
    (SHAPE, "kind = \"sums\"\nset = 3", FieldName::Set),
    (SHAPE, "kind = \"sums\"\nset = [256]", FieldName::Set),
    (SHAPE, "kind = \"sums\"\nset = [-1]", FieldName::Set),
    (
        SHAPE,
        "kind = \"sums\"\nset = [0]\ncomplement = 1",
        FieldName::Unknown,
    ),
    (
        "n = 2\nb = 0\nd = 0\nm = 1",
        "kind = \"gray\"",
        FieldName::Width,
    ),
    (
        "n = 2\nb = 0\nd = 0\nm = 1\nwidth = 8\nk = 1",
        "kind = \"sums\"\nset = [9]",
        FieldName::Unknown,
    ),
];

// The first faulty field.
#[test]
fn faulty_fields(rt: HostRuntime) -> Result<(), Fail> {
    for (shape, map, which) in FAULTS {
        let text = text_with(rt.alloc(), shape, map).ok_or("text")?;
        let file = read_kind(rt.alloc(), text.as_bytes());
        assert!(rt; file == Err(JobError::Field { which }), "{map}");
    }
    Ok(())
}

// The width, the lines of `map` and the fault.
const MAP_FAULTS: [(u16, &str, &str, MapFault); 5] = [
    (
        8,
        SHAPE,
        "kind = \"sums\"\nset = [0, 2]",
        MapFault::Range { i: 1 },
    ),
    (
        8,
        SHAPE,
        "kind = \"sums\"\nset = [1, 1]",
        MapFault::Twice { i: 0, j: 1 },
    ),
    (
        8,
        SHAPE,
        "kind = \"sums\"\nset = [0, 1, 0, 7]",
        MapFault::Twice { i: 0, j: 2 },
    ),
    (
        8,
        SHAPE,
        "kind = \"sums\"\nset = [1, 255, 1]",
        MapFault::Range { i: 1 },
    ),
    (
        4,
        "n = 2\nb = 0\nd = 0\nm = 1\nwidth = 4",
        "kind = \"sums\"\nset = [7]",
        MapFault::Width,
    ),
];

// The first fault of the map, beside the shape.
#[test]
fn faulty_maps(rt: HostRuntime) -> Result<(), Fail> {
    for (width, lines, map, fault) in MAP_FAULTS {
        let shape = Shape::new(2, 0, 0, 1, width).ok().ok_or("shape")?;
        let text = text_with(rt.alloc(), lines, map).ok_or("text")?;
        let file = read_kind(rt.alloc(), text.as_bytes());
        assert!(rt; file == Err(JobError::Map { shape, fault }), "{map}");
    }
    Ok(())
}

// A rule of the shape is told before the width of the records.
#[test]
fn rules_before_the_width(rt: HostRuntime) -> Result<(), Fail> {
    let lines = "n = 2\nb = 1\nd = 0\nm = 1\nwidth = 4";
    let text = text_with(rt.alloc(), lines, "kind = \"sums\"\nset = [7]").ok_or("text")?;
    let file = read_kind(rt.alloc(), text.as_bytes());
    assert!(rt; file == Err(JobError::Shape { rule: 3 }), "rule");
    Ok(())
}
