//! Pages that are bodies, and pages that are none.

use crate::bodies::{
    Body, LOAD, ONE_PASS, PARTS, PASS, REVERSAL, WHOLE, bytes_of, map_page, part_page, put,
};
use bm_base::Shape;
use bm_control::{
    decode_job, decode_load, decode_part, decode_pass, encode_job, encode_load, encode_part,
    encode_pass, gate_page, is_gate,
};
use bm_forms::{Job, MldForm, PassForm};
use bm_gf2::Affine;
use bm_named::{bit_reversal, from_rows};
use run_helpers::is_job;
use std::test::Fail;

// The job body by the map, where its numbers are in range.
fn job_body(shape: &Shape, map: &Affine, passes: u16, every: u64) -> Option<[u8; 512]> {
    if !is_job(shape, map, passes, every) {
        return None;
    }
    Some(encode_job(shape, &Job::Permute(*map), passes, every))
}

// The first pass by the map and its body, where it has a form.
fn pass_body(shape: &Shape, map: &Affine) -> Option<(PassForm, [u8; 512])> {
    if map.a.n != shape.n() {
        return None;
    }
    let map = MldForm::of(shape, map).ok()?;
    let pass = PassForm { low: 0, map };
    Some((pass, encode_pass(shape, &pass, 0)))
}

// The part body, where its numbers are in range.
fn part_body(shape: &Shape, pass: u16, loads: u64) -> Option<[u8; 512]> {
    if pass == 0 || pass > 254 || loads == 0 || loads >= shape.loads() {
        return None;
    }
    Some(encode_part(shape, pass, loads))
}

// The load body, the job bodies and a pass body are these pages. None is with its last byte set.
#[test]
fn bodies_byte_for_byte(rt: HostRuntime) -> Result<(), Fail> {
    let shape = Shape::new(4, 1, 1, 3, 1).ok().ok_or("shape")?;
    let page = put([0; 512], 0, &LOAD);
    assert_eq!(rt; encode_load(&shape), page);
    assert_eq!(rt; decode_load(&page), Some(shape));
    assert_eq!(rt; decode_load(&put(page, 511, &[1])), None);
    let map = bit_reversal(4);
    // after two loads, which are a whole pass, and after one
    for (head, every, last) in [(WHOLE, 2, 0), (PARTS, 1, 1)] {
        let page = map_page(head, REVERSAL, last);
        assert_eq!(rt; job_body(&shape, &map, 2, every), Some(page), "{every}");
        assert_eq!(rt;
            decode_job(&shape, &page),
            Some((Job::Permute(map), 2, every)),
            "{every}"
        );
        assert_eq!(rt; decode_job(&shape, &put(page, 511, &[1])), None, "{every}");
    }
    let (pass, found) = pass_body(&shape, &from_rows(4, &[1, 2, 4, 10])?).ok_or("pass")?;
    let page = map_page(PASS, ONE_PASS, 0);
    assert_eq!(rt; found, page);
    assert_eq!(rt; decode_pass(&shape, 0, &page), Some(pass));
    assert_eq!(rt; decode_pass(&shape, 0, &put(page, 511, &[1])), None);
    let page = part_page(1, 1);
    assert_eq!(rt; part_body(&shape, 1, 1), Some(page));
    assert_eq!(rt; decode_part(&shape, &page), Some((1, 1)));
    assert_eq!(rt; decode_part(&shape, &put(page, 511, &[1])), None);
    assert_eq!(rt; gate_page(), bytes_of(Body::Gate));
    assert!(rt; is_gate(&bytes_of(Body::Gate)));
    assert!(rt; !is_gate(&put(bytes_of(Body::Gate), 511, &[1])));
    Ok(())
}

// The page with one byte changed.
fn with_byte(page: [u8; 512], place: usize, byte: u8) -> [u8; 512] {
    let mut page = page;
    if let Some(old) = page.get_mut(place) {
        *old = byte;
    }
    page
}

// A load body with one byte changed to what it may not be: the version, b, the width, the zeros.
#[test]
fn pages_that_are_no_load_bodies(rt: HostRuntime) -> Result<(), Fail> {
    for (place, byte) in [(8, 2), (11, 3), (14, 0), (16, 1), (511, 1)] {
        let page = with_byte(put([0; 512], 0, &LOAD), place, byte);
        assert_eq!(rt; decode_load(&page), None, "{place} {byte}");
    }
    Ok(())
}

// A job body with one byte changed: the version, the kind, n, the passes, the zeros, the constant,
// a column beyond 2^n and one that is there twice, the number of loads.
//
// Version 2 is for jobs with fewer loads than a pass has, so that its number is 1 for this shape.
#[test]
fn pages_that_are_no_job_bodies(rt: HostRuntime) -> Result<(), Fail> {
    let shape = Shape::new(4, 1, 1, 3, 1).ok().ok_or("shape")?;
    let rows = [
        (0, 8, 0),
        (0, 8, 2),
        (0, 8, 3),
        (0, 10, 2),
        (0, 10, 3),
        (0, 11, 3),
        (0, 12, 0),
        (0, 12, 4),
        (0, 14, 1),
        (0, 16, 16),
        (0, 24, 16),
        (0, 24, 4),
        (0, 503, 1),
        (0, 504, 1),
        (0, 504, 2),
        (1, 8, 1),
        (1, 504, 0),
        (1, 504, 2),
        (1, 504, 3),
    ];
    for (last, place, byte) in rows {
        let head = if last == 0 { WHOLE } else { PARTS };
        let page = with_byte(map_page(head, REVERSAL, last), place, byte);
        assert_eq!(rt; decode_job(&shape, &page), None, "{last} {place} {byte}");
    }
    Ok(())
}

// A pass body with one byte changed, or read as another pass: the version, butterflies at this width,
// n, the number, the zeros, a column of zeros, one that is there twice, and a map that is not MLD.
#[test]
fn pages_that_are_no_pass_bodies(rt: HostRuntime) -> Result<(), Fail> {
    let shape = Shape::new(4, 1, 1, 3, 1).ok().ok_or("shape")?;
    let rows = [
        (0, 8, 2),
        (0, 10, 1),
        (0, 11, 5),
        (0, 12, 0),
        (0, 12, 2),
        (0, 14, 1),
        (0, 24, 0),
        (0, 24, 8),
        (0, 24, 9),
        (0, 504, 1),
        (1, 12, 1),
        (255, 12, 0),
        (255, 13, 1),
        (256, 13, 1),
        (65535, 12, 0),
    ];
    for (k, place, byte) in rows {
        let page = with_byte(map_page(PASS, ONE_PASS, 0), place, byte);
        assert_eq!(rt; decode_pass(&shape, k, &page), None, "{k} {place} {byte}");
    }
    Ok(())
}

// A part body with one byte changed: the version, the pass, the zeros, the loads.
#[test]
fn pages_that_are_no_part_bodies(rt: HostRuntime) -> Result<(), Fail> {
    let shape = Shape::new(4, 1, 1, 3, 1).ok().ok_or("shape")?;
    for (place, byte) in [
        (8, 1),
        (10, 0),
        (10, 255),
        (12, 1),
        (16, 0),
        (16, 2),
        (24, 1),
    ] {
        let page = with_byte(part_page(1, 1), place, byte);
        assert_eq!(rt; decode_part(&shape, &page), None, "{place} {byte}");
    }
    Ok(())
}
