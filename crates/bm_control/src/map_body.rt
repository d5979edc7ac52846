//! Bodies with a map: their first bytes, the map, and their last number.

ghost use Rattle.std.specs.Prelude.{◌≡◌, ℕ, ◌+◌, ◌*◌, ◌^◌, ◌<◌, ◌≤◌, List, ◌++◌, length, drop};
ghost use Rattle.std.specs.Prelude.{slice_index, Some, IfSome, IfNone};
ghost use Rattle.bm_gf2.specs.declared.affine.Affine.{Affine};
ghost use Rattle.bm_control.specs.Bodies.{padded, u64_bytes, u64_in, body_head, column_bytes};
ghost use Rattle.bm_control.specs.Bodies.{map_bytes, map_page};

use crate::page_reader::u64_at;
use crate::page_writer::PageWriter;
use bm_base::PAGE_BYTES;
use bm_gf2::{Affine, MOST_COLUMNS, Matrix, no_columns};

// Where the map's constant stands.
const CONSTANT_AT: usize = 16;

// Where the map's columns begin.
const COLUMNS_AT: usize = 24;

// The bytes of a column.
const COLUMN_BYTES: usize = 8;

// Where the last number stands.
const LAST_AT: usize = 504;

/// The first 16 bytes: a text, the version, two numbers of one byte, and one of two bytes.
pub fn start_body(text: &[u8; 8], version: u16, first: u8, second: u8, number: u16) -> PageWriter
    ensures bytes { result ≡ body_head text.now version first second number }
    ensures length { length result ≡ 16 }
{
    let mut page = PageWriter::new();
    page.put(text);
    page.put_u16(version);
    page.put(&[first, second]);
    page.put_u16(number);
    page.put(&[0, 0]);
    page
}

/// Writes a map's constant and columns.
pub fn put_map(page: &mut PageWriter, map: &Affine)
    requires { length page.old ≤ 16 }
    ensures bytes { page.new ≡ page.old ++ map_bytes map.now }
    ensures length { length page.new ≤ length page.old + 424 }
{
    page.put_u64(map.c);
    put_columns(page, &map.a.cols, map.a.n);
}

// Writes the first columns.
fn put_columns(page: &mut PageWriter, cols: &[u64; MOST_COLUMNS], count: u8)
    requires page { length page.old ≤ 24 }
    requires count { count ≤ 52 }
    ensures bytes { page.new ≡ page.old ++ column_bytes cols.now count }
    ensures length { length page.new ≡ length page.old + 8 * count }
{
    for j in 0..count {
        page.put_u64(cols[usize::from(j)]);
    }
}

/// The whole page, with the last number.
pub fn end_body(page: PageWriter, last: u64) -> [u8; PAGE_BYTES]
    requires { length page ≤ 504 }
    ensures { result ≡ padded 504 page ++ u64_bytes last }
{
    let mut page = page;
    page.skip_to(LAST_AT);
    page.put_u64(last);
    page.finish()
}

// The first n columns, or nothing where one of them has more than n bits.
fn read_columns(page: &[u8; PAGE_BYTES], n: u8) -> Option<[u64; MOST_COLUMNS]>
    requires { n ≤ 52 }
    ensures long { IfSome result (λ cols. length cols ≡ 52) }
    ensures columns { IfSome result (λ cols. (j : ℕ) → j < n
        → slice_index cols j ≡ u64_in (drop (24 + 8 * j) page.now)) }
    ensures below { IfSome result (λ cols. (j : ℕ) → j < n → slice_index cols j < 2 ^ n) }
    ensures rest { IfSome result (λ cols. (j : ℕ) → n ≤ j → slice_index cols j ≡ 0) }
    ensures wide { IfNone result (¬ ((j : ℕ) → j < n → u64_in (drop (24 + 8 * j) page.now) < 2 ^ n)) }
{
    let mut cols = no_columns();
    for j in 0..n {
        let column = u64_at(page, COLUMNS_AT + COLUMN_BYTES * usize::from(j));
        if column >> n != 0 {
            return None;
        }
        cols[usize::from(j)] = column;
    }
    Some(cols)
}

/// The map of n bits in a body, or nothing where its numbers have more than n bits.
pub fn read_map(page: &[u8; PAGE_BYTES], n: u8) -> Option<Affine>
    requires some { 1 ≤ n }
    requires few { n ≤ 52 }
    ensures size { IfSome result (λ f. f.a.n ≡ n) }
    ensures read { (head : List ℕ) (f : Affine) (last : ℕ) → length head ≡ 16
        → f.a.n ≡ n → page.now ≡ map_page head (map_bytes f) last → result ≡ Some f }
{
    let c = u64_at(page, CONSTANT_AT);
    if c >> n != 0 {
        return None;
    }
    let cols = read_columns(page, n)?;
    Some(Affine {
        a: Matrix { n, cols },
        c,
    })
}
