//! Loads that are placed in two steps, without a rack.

ghost use Rattle.std.specs.Prelude.{◌≡◌, ◌+◌, ◌*◌, ◌^◌, ◌<◌, ◌≤◌, length};
ghost use Rattle.bm_base.specs.Shape.{load_stripes};
ghost use Rattle.bm_bufs.specs.Bufs.{FitsShape};
ghost use Rattle.bm_pass.specs.LoadPlaces.{IsOfLoad};
ghost use Rattle.bm_split.specs.Splits.{IsSplit};

use bm_base::Shape;
use bm_bufs::{Bufs, Placing};
use bm_gf2::Affine;
use bm_named::{
    bit_reversal, bits, gray, identity, inverse_gray, rotation, transpose, with_complement,
};
use bm_split::{Split, best_split, split_placing};
use std::alloc::Global;
use std::test::Fail;
use test_helpers::{draw, draw_map, has_moved, pattern};

// The widths that have a form of their own, and 3.
const WIDTHS: [u16; 15] = [1, 2, 3, 4, 8, 12, 16, 24, 32, 48, 64, 96, 128, 192, 256];

// Copies these records to the row list, and places them as the row of this number.
fn place_row(bufs: &mut Bufs, shape: &Shape, placing: &Placing, row: u64, records: &[u8])
    requires row { row < load_stripes shape.now }
    requires records { length records.now ≡ 2 ^ (shape.now.b + shape.now.d) * shape.now.width }
    requires placing { IsOfLoad shape.now placing.now }
    requires fits { FitsShape shape.now bufs.old }
    ensures fits { FitsShape shape.now bufs.new }
{
    bufs.row_mut().copy_from_slice(records);
    bufs.place_row(placing, row << (shape.b() + shape.d()));
}

// Places a load row by row. The answer is whether the records are those of its rows.
fn place_rows(bufs: &mut Bufs, shape: &Shape, placing: &Placing, records: &[u8]) -> bool
    requires placing { IsOfLoad shape.now placing.now }
    requires fits { FitsShape shape.now bufs.old }
    ensures fits { FitsShape shape.now bufs.new }
{
    let size = bufs.row().len();
    let mut rest = records;
    for row in 0..shape.load_stripes() {
        let Some((part, later)) = rest.split_at_checked(size) else {
            return false;
        };
        place_row(bufs, shape, placing, row, part);
        rest = later;
    }
    rest.is_empty()
}

// Whether the two steps take each record to where the placing takes it. The load list has none
// of the records' bytes before.
fn is_placed(
    bufs: &mut Bufs,
    shape: &Shape,
    placing: &Placing,
    split: &Split,
    records: &[u8],
) -> bool
    requires bits { placing.now.a.n ≡ shape.now.m }
    requires width { placing.now.width ≡ shape.now.width }
    requires split { IsSplit placing.now (shape.now.b + shape.now.d) split.now }
    requires fits { FitsShape shape.now bufs.old }
    ensures fits { FitsShape shape.now bufs.new }
{
    bufs.load_mut().fill(255);
    let placed = place_rows(bufs, shape, &split.outer, records);
    bufs.settle(&split.inner);
    placed
        && has_moved(
            bufs.load(),
            records,
            &placing.a,
            placing.plus,
            placing.width,
        )
}

// How many of the maps have two steps by runs of 2^low records. Nothing where the steps of one
// take a record elsewhere.
fn count_by_run(
    bufs: &mut Bufs,
    shape: &Shape,
    maps: &[Affine],
    low: u8,
    records: &[u8],
) -> Option<u64>
    requires low { low < shape.now.m }
    requires fits { FitsShape shape.now bufs.old }
    ensures fits { FitsShape shape.now bufs.new }
{
    let mut count = 0u64;
    for map in maps {
        if map.a.n != shape.m() {
            return None;
        }
        let placing = Placing {
            a: map.a,
            plus: map.c,
            width: shape.width(),
        };
        if let Some(split) = split_placing(&placing, low, shape.b() + shape.d()) {
            if !is_placed(bufs, shape, &placing, &split, records) {
                return None;
            }
            count = count.wrapping_add(1);
        }
    }
    Some(count)
}

// The same for the runs of every length from 2 records on and below a load.
fn count_by_shape(alloc: Global, shape: &Shape, maps: &[Affine], records: &[u8]) -> Option<u64> {
    let mut bufs = Bufs::new(alloc, shape).ok()?;
    let mut count = 0u64;
    for low in 1..shape.m() {
        count = count.wrapping_add(count_by_run(&mut bufs, shape, maps, low, records)?);
    }
    Some(count)
}

// The same for loads of 2^m records in rows of every length.
fn count_by_load(alloc: Global, m: u8, width: u16, maps: &[Affine]) -> Option<u64>
    requires { m ≤ 32 }
{
    let records = pattern(alloc, (1usize << m).wrapping_mul(usize::from(width)))?;
    let mut count = 0u64;
    for room in 0..m + 1 {
        let d = room.min(1);
        let shape = Shape::new(m, room - d, d, m, width).ok()?;
        count = count.wrapping_add(count_by_shape(alloc, &shape, maps, &records)?);
    }
    Some(count)
}

// Named maps of m bits and two that are drawn, each with a constant that is drawn.
fn maps_of(alloc: Global, state: &mut u64, m: u8) -> Option<Vec<Affine>>
    requires some { 1 ≤ m }
    requires few { m ≤ 32 }
{
    let named = [
        bit_reversal(m),
        transpose(m, m / 2),
        gray(m),
        inverse_gray(m),
        rotation(m, 1),
        rotation(m, m - 1),
        rotation(m, 3),
    ];
    let mut maps = Vec::new(alloc);
    for map in named {
        if map.a.n != m {
            return None;
        }
        maps.push(with_complement(&map, draw(state, m))).ok()?;
    }
    maps.push(draw_map(alloc, state, m)?).ok()?;
    maps.push(draw_map(alloc, state, m)?).ok()?;
    Some(maps)
}

// Records of every width, loads of 8 to 1024 records, rows of every length, runs from 2 records on:
// where there are two steps, they take each record to where the placing takes it.
//
// There are two steps just where a row has room for a tile. How often that is was counted apart from
// this code, by the dimension of a tile: of the span of the lowest units, a run's bits of them, and of
// their images.
#[test]
fn every_load_in_two_steps(rt: HostRuntime) -> Result<(), Fail> {
    let mut state = 1u64;
    let mut count = 0u64;
    for width in WIDTHS {
        for m in 3..=10u8 {
            let maps = maps_of(rt.alloc(), &mut state, m).ok_or("maps")?;
            let moved = count_by_load(rt.alloc(), m, width, &maps);
            assert!(rt; moved.is_some(), "width {width} m {m}");
            count = count.wrapping_add(moved.ok_or("moved")?);
        }
    }
    assert_eq!(rt; count, 20091);
    Ok(())
}

// What is chosen for a placing by a map, by today's bounds of `best_split`: the bits of a run and of a
// tile.
fn choice_of(map: &Affine, width: u16, room: u8) -> Option<(u8, u8)> {
    let placing = Placing {
        a: map.a,
        plus: map.c,
        width,
    };
    best_split(&placing, room).map(|split| (split.inner.low, split.inner.tile))
}

// The room of a row, and the pages that records go to. A bit reversal has tiles of twice the bits of a
// run, up to its own.
#[test]
fn choices_by_room_and_pages(rt: HostRuntime) -> Result<(), Fail> {
    let interleaved = bits(
        21,
        &[
            0, 11, 1, 12, 2, 13, 3, 14, 4, 15, 5, 16, 6, 17, 7, 18, 8, 19, 9, 20, 10,
        ],
    )?;
    let rows: [(Affine, u16, u8, Option<(u8, u8)>); 12] = [
        // A tile of 64 KiB has 2^13 records, also where there is room for more.
        (bit_reversal(18), 8, 16, Some((6, 12))),
        (bit_reversal(18), 8, 13, Some((6, 12))),
        (transpose(18, 8), 8, 13, Some((6, 12))),
        // The records of 128 KiB fill the lines that they go to, but those of 32 KiB are in 2^9 pages.
        (transpose(18, 9), 8, 13, Some((6, 12))),
        // .. in 2^4 pages, in 2^5 and in 2^6; with 4 bytes in 2^4, and in 2^5. A run has 1 KiB at most.
        (transpose(18, 14), 8, 13, None),
        (transpose(18, 13), 8, 13, Some((7, 12))),
        (transpose(18, 12), 8, 13, Some((7, 13))),
        (transpose(18, 14), 4, 13, None),
        (transpose(18, 13), 4, 13, Some((8, 13))),
        // A run has at least 2^3 records, so a tile has at least 2^6.
        (bit_reversal(18), 8, 6, Some((3, 6))),
        (bit_reversal(18), 8, 5, None),
        // 32 KiB go to 2^6 pages, but each 32 neighbours stay in one.
        (interleaved, 8, 13, None),
    ];
    for (map, width, room, want) in rows {
        let found = choice_of(&map, width, room);
        assert_eq!(rt; found, want, "{} bits, width {width} room {room}", map.a.n);
    }
    Ok(())
}

// One bit leaves the line for another line of the 2^14 records of 128 KiB, or for afar; and local maps.
#[test]
fn choices_by_distance(rt: HostRuntime) -> Result<(), Fail> {
    let far = bits(
        18,
        &[17, 1, 2, 3, 4, 5, 6, 7, 8, 9, 10, 11, 12, 13, 14, 15, 16, 0],
    )?;
    let near = bits(
        18,
        &[3, 1, 2, 0, 4, 5, 6, 7, 8, 9, 10, 11, 12, 13, 14, 15, 16, 17],
    )?;
    let rows: [(Affine, Option<(u8, u8)>); 5] = [
        (near, None),
        (far, Some((7, 8))),
        (identity(18), None),
        (gray(18), None),
        (inverse_gray(18), None),
    ];
    for (map, want) in rows {
        assert_eq!(rt; choice_of(&map, 8, 13), want, "to {}", map.a.apply(1));
    }
    Ok(())
}

// How many bytes a load has, and how wide its records are.
#[test]
fn choices_by_size_and_width(rt: HostRuntime) -> Result<(), Fail> {
    let rows: [(Affine, u16, u8, Option<(u8, u8)>); 13] = [
        // 1 MiB, and less.
        (bit_reversal(17), 8, 13, Some((6, 12))),
        (bit_reversal(17), 7, 13, None),
        // 2 MiB of records of less than 32 bytes, 4 MiB of wider ones, and less.
        (bit_reversal(16), 31, 13, Some((5, 10))),
        (bit_reversal(17), 32, 13, Some((5, 10))),
        (bit_reversal(16), 32, 13, None),
        // A unit has 2^3 records of more than 8 bytes.
        (bit_reversal(18), 33, 13, Some((5, 10))),
        (gray(18), 64, 13, None),
        (bit_reversal(18), 256, 13, Some((3, 6))),
        (bit_reversal(18), 257, 13, None),
        // Tiles of 64 KiB of records of one byte, and no runs of less than 32 bytes.
        (bit_reversal(21), 1, 20, Some((8, 16))),
        (bit_reversal(21), 1, 12, Some((6, 12))),
        (bit_reversal(21), 1, 11, Some((5, 10))),
        (bit_reversal(21), 1, 9, None),
    ];
    for (map, width, room, want) in rows {
        let found = choice_of(&map, width, room);
        assert_eq!(rt; found, want, "{} bits, width {width} room {room}", map.a.n);
    }
    Ok(())
}
