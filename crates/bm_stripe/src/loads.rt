//! Memory loads.

ghost use Rattle.std.specs.Prelude.{◌≡◌, ℕ, ◌+◌, ◌-◌, ◌*◌, ◌^◌, ◌<◌, ◌≤◌, IsTrue, IsOk, IsErr, length, Some};
ghost use Rattle.bm_base.specs.Shape.{dims_of, load_stripes};
ghost use Rattle.bm_base.specs.Area.{area_start};
ghost use Rattle.bm_base.specs.Records.{record_at, record_in};
ghost use Rattle.bm_rack.specs.Frames.{Keeps, MovesRows, HasCause, SameState, ChangesOnly};
ghost use Rattle.bm_stripe.specs.Units.{IsLoadUnit};

use crate::rows::{read_rows, write_rows};
use crate::spot::place_in_area;
use bm_base::{Area, Failed, Shape};
use bm_rack::Rack;

// The first place of a load of an area.
fn first_place(shape: &Shape, area: Area, load: u64) -> u64
    requires { load < 2 ^ (shape.now.n - shape.now.m) }
    ensures { result ≡ area_start shape.now area + load * load_stripes shape.now }
{
    place_in_area(shape, area, load * shape.load_stripes())
}

/// Reads a memory load of an area in M/BD row calls: its record i comes to place i of the buffer.
///
/// It stops at the first row call that fails. The buffer then holds anything.
pub fn read_load<R: Rack>(
    rack: &mut R,
    shape: &Shape,
    area: Area,
    load: u64,
    buf: &mut [u8],
) -> Result<(), Failed>
    requires attached { (R.view rack.old).attached ≡ Some (dims_of shape.now) }
    requires load { load < 2 ^ (shape.now.n - shape.now.m) }
    requires size { length buf.old ≡ 2 ^ shape.now.m * shape.now.width }

    ensures records { IsTrue R.tells_contents → IsOk result → (i : ℕ) → i < 2 ^ shape.now.m
        → record_in shape.now buf.new i
        ≡ record_at (R.view rack.old).contents shape.now area (2 ^ shape.now.m * load + i) }
    ensures state { SameState (R.view rack.old) (R.view rack.new) }
    ensures moved { MovesRows (load_stripes shape.now) (IsOk result)
        (R.view rack.old) (R.view rack.new) }
    ensures keeps { Keeps (R.view rack.old) (R.view rack.new) }
    ensures cause { HasCause (IsErr result) (R.view rack.old) (R.view rack.new) }
{
    let first = first_place(shape, area, load);
    read_rows(rack, shape.dims(), first, shape.load_stripes(), buf)
}

/// Writes a memory load of an area in M/BD row calls, the reverse of `read_load`.
///
/// It stops at the first row call that fails. The blocks of the load then hold anything.
pub fn write_load<R: Rack>(
    rack: &mut R,
    shape: &Shape,
    area: Area,
    load: u64,
    buf: &[u8],
) -> Result<(), Failed>
    requires attached { (R.view rack.old).attached ≡ Some (dims_of shape.now) }
    requires load { load < 2 ^ (shape.now.n - shape.now.m) }
    requires size { length buf.now ≡ 2 ^ shape.now.m * shape.now.width }

    ensures records { IsTrue R.tells_contents → IsOk result → (i : ℕ) → i < 2 ^ shape.now.m
        → record_at (R.view rack.new).contents shape.now area (2 ^ shape.now.m * load + i)
        ≡ record_in shape.now buf.now i }
    ensures only { ChangesOnly (IsLoadUnit shape.now area load)
        (R.view rack.old) (R.view rack.new) }
    ensures moved { MovesRows (load_stripes shape.now) (IsOk result)
        (R.view rack.old) (R.view rack.new) }
    ensures keeps { Keeps (R.view rack.old) (R.view rack.new) }
    ensures cause { HasCause (IsErr result) (R.view rack.old) (R.view rack.new) }
{
    let first = first_place(shape, area, load);
    write_rows(rack, shape.dims(), first, shape.load_stripes(), buf)
}
