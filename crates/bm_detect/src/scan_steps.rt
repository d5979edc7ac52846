//! One number of a scan, and those of a load.

ghost use Rattle.std.specs.Prelude.{◌≡◌, ◌≢◌, ℕ, ◌+◌, ◌*◌, ◌^◌, ◌<◌, ◌≤◌, IfOk, length, bit_xor};
ghost use Rattle.std.specs.Fork.{slice_chunk};
ghost use Rattle.bm_base.specs.Butterfly.{number_in};
ghost use Rattle.bm_detect.specs.Scan.{IsScan, Knows, Scanned};

use crate::detect_error::DetectError;
use crate::scan_state::{Difference, Scan};
use bm_base::number_at;
use bm_gf2::{Affine, Matrix, no_columns};

/// A scan of a list of 2^n numbers that has seen none.
pub fn start_scan(n: u8) -> Scan
    requires some { 1 ≤ n }
    requires few { n ≤ 52 }
    ensures scan { IsScan n result }
    ensures knows { (ys : ℕ → ℕ) → Knows n ys 0 result }
{
    let a = Matrix {
        n,
        cols: no_columns(),
    };
    Scan {
        map: Affine { a, c: 0 },
        bits: 0,
        first: None,
    }
}

// The scan after the number y of address 0.
fn take_constant(scan: Scan, n: u8, y: u64) -> Scan
    requires scan { IsScan n scan }
    requires below { y < 2 ^ n }
    ensures scan { IsScan n result }
    ensures knows { (ys : ℕ → ℕ) → ys 0 ≡ y → Knows n ys 0 scan → Knows n ys 1 result }
{
    Scan {
        map: Affine {
            a: scan.map.a,
            c: y,
        },
        bits: scan.bits,
        first: scan.first,
    }
}

// The scan after the number y of the next unit address.
fn take_unit(scan: Scan, n: u8, y: u64) -> Scan
    requires scan { IsScan n scan }
    requires more { scan.bits < n }
    requires below { y < 2 ^ n }
    ensures scan { IsScan n result }
    ensures knows { (ys : ℕ → ℕ) → ys (2 ^ scan.bits) ≡ y → Knows n ys (2 ^ scan.bits) scan
        → Knows n ys (2 ^ scan.bits + 1) result }
{
    Scan {
        map: Affine {
            a: scan.map.a.with_column(scan.bits, y ^ scan.map.c),
            c: scan.map.c,
        },
        bits: scan.bits + 1,
        first: scan.first,
    }
}

// The scan after the number y of an address x whose columns are known.
fn take_other(scan: Scan, n: u8, x: u64, y: u64) -> Scan
    requires scan { IsScan n scan }
    requires address { x < 2 ^ n }
    requires some { 0 < x }
    requires other { x ≢ 2 ^ scan.bits }
    requires below { y < 2 ^ n }
    ensures scan { IsScan n result }
    ensures knows { (ys : ℕ → ℕ) → ys x ≡ y → Knows n ys x scan → Knows n ys (x + 1) result }
{
    if scan.first.is_some() {
        return scan;
    }
    let want = scan.map.apply(x);
    if y == want {
        return scan;
    }
    Scan {
        map: scan.map,
        bits: scan.bits,
        first: Some(Difference { x, y, want }),
    }
}

/// The scan after the number y of the next address x.
pub fn take_number(scan: Scan, n: u8, x: u64, y: u64) -> Scan
    requires few { n ≤ 52 }
    requires scan { IsScan n scan }
    requires address { x < 2 ^ n }
    requires below { y < 2 ^ n }
    ensures scan { IsScan n result }
    ensures knows { (ys : ℕ → ℕ) → ys x ≡ y → Knows n ys x scan → Knows n ys (x + 1) result }
{
    if x == 0 {
        return take_constant(scan, n, y);
    }
    if x == 1 << scan.bits {
        return take_unit(scan, n, y);
    }
    take_other(scan, n, x, y)
}

/// The scan after the numbers of a load, the first of them that of address `from`.
///
/// It stops at the first number that is no address.
pub fn take_load(
    mut scan: Scan,
    n: u8,
    from: u64,
    count: u64,
    bytes: &[u8],
) -> Result<Scan, DetectError>
    requires few { n ≤ 52 }
    requires scan { IsScan n scan }
    requires addresses { from + count ≤ 2 ^ n }
    requires size { length bytes.now ≡ count * 8 }
    ensures scan { IfOk result (λ after. IsScan n after) }
    ensures read { result ≢ Err DetectError.Failed }
    ensures knows { (ys : ℕ → ℕ)
        → ((i : ℕ) → i < count → number_in (slice_chunk bytes.now 8 i) ≡ ys (from + i))
        → Knows n ys from scan → Scanned n ys (from + count) result }
{
    for i in 0..count {
        let x = from + i;
        let y = number_at(bytes, i as usize);
        if y >= 1 << n {
            return Err(DetectError::OutOfRange { x, y });
        }
        scan = take_number(scan, n, x, y);
    }
    Ok(scan)
}
