//! The loads of a scan.

ghost use Rattle.std.specs.Prelude.{◌≡◌, ◌≢◌, ℕ, ◌+◌, ◌-◌, ◌*◌, ◌^◌, ◌<◌, ◌≤◌, IsTrue, IsOk, IfOk, Some};
ghost use Rattle.bm_base.specs.Shape.{dims_of, stripes, load_stripes};
ghost use Rattle.bm_bufs.specs.Bufs.{FitsShape};
ghost use Rattle.bm_rack.specs.Frames.{Keeps, MovesRows, HasCause, SameState};
ghost use Rattle.bm_detect.specs.Candidate.{input_number};
ghost use Rattle.bm_detect.specs.Scan.{IsScan, Knows, Scanned};

use crate::detect_error::DetectError;
use crate::scan_state::Scan;
use crate::scan_steps::{start_scan, take_load};
use bm_base::{Area, Shape};
use bm_bufs::Bufs;
use bm_rack::Rack;
use bm_stripe::read_load;

// Reads a load of the input and takes its numbers, in M/BD row calls.
fn scan_load<R: Rack>(
    rack: &mut R,
    shape: &Shape,
    load: u64,
    scan: Scan,
    bufs: &mut Bufs,
) -> Result<Scan, DetectError>
    requires attached { (R.view rack.old).attached ≡ Some (dims_of shape.now) }
    requires width { shape.now.width ≡ 8 }
    requires load { load < 2 ^ (shape.now.n - shape.now.m) }
    requires scan { IsScan shape.now.n scan }
    requires fits { FitsShape shape.now bufs.old }

    ensures scan { IfOk result (λ after. IsScan shape.now.n after) }
    ensures knows { IsTrue R.tells_contents
        → Knows shape.now.n (input_number (R.view rack.old).contents shape.now) (2 ^ shape.now.m * load) scan
        → Scanned shape.now.n (input_number (R.view rack.old).contents shape.now)
        (2 ^ shape.now.m * (load + 1)) result }
    ensures fits { FitsShape shape.now bufs.new }
    ensures state { SameState (R.view rack.old) (R.view rack.new) }
    ensures moved { MovesRows (load_stripes shape.now) (IsOk result)
        (R.view rack.old) (R.view rack.new) }
    ensures keeps { Keeps (R.view rack.old) (R.view rack.new) }
    ensures cause { HasCause (result ≡ Err DetectError.Failed) (R.view rack.old) (R.view rack.new) }
{
    if read_load(rack, shape, Area::Input, load, bufs.load_mut()).is_err() {
        return Err(DetectError::Failed);
    }
    let count = 1 << shape.m();
    take_load(scan, shape.n(), load << shape.m(), count, bufs.load())
}

/// Scans the numbers of the input in ascending order, in N/BD row calls.
///
/// It stops at the first number that is no address.
pub fn scan_input<R: Rack>(
    rack: &mut R,
    shape: &Shape,
    bufs: &mut Bufs,
) -> Result<Scan, DetectError>
    requires attached { (R.view rack.old).attached ≡ Some (dims_of shape.now) }
    requires width { shape.now.width ≡ 8 }
    requires fits { FitsShape shape.now bufs.old }

    ensures scan { IfOk result (λ after. IsScan shape.now.n after) }
    ensures knows { IsTrue R.tells_contents
        → Scanned shape.now.n (input_number (R.view rack.old).contents shape.now)
        (2 ^ shape.now.n) result }
    ensures fits { FitsShape shape.now bufs.new }
    ensures state { SameState (R.view rack.old) (R.view rack.new) }
    ensures moved { MovesRows (stripes shape.now) (IsOk result) (R.view rack.old) (R.view rack.new) }
    ensures keeps { Keeps (R.view rack.old) (R.view rack.new) }
    ensures cause { HasCause (result ≡ Err DetectError.Failed) (R.view rack.old) (R.view rack.new) }
{
    let mut scan = start_scan(shape.n());
    for load in 0..shape.loads() {
        scan = scan_load(rack, shape, load, scan, bufs)?;
    }
    Ok(scan)
}
