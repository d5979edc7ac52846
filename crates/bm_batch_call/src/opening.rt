//! The load gates of bays, opened in order.

ghost use Rattle.std.specs.Prelude.{◌≡◌, map, Some, IsOk, IsErr, IfErr};
ghost use Rattle.bm_base.specs.Shape.{dims_of};
ghost use Rattle.bm_batch.specs.Batches.{AreAllAttached};
ghost use Rattle.bm_top.specs.Moment.{Tells};
ghost use Rattle.bm_batch_call.specs.Bays.{BayOpens};
ghost use Rattle.bm_batch_call.specs.Opening.{OpensCall};

use bm_base::Shape;
use bm_control::open_load;
use bm_rack::Rack;
use bm_top::Status;

// Opens the load gate of a bay.
fn open_bay<Y: Rack>(rack: &mut Y, shape: &Shape) -> Result<(), Status>
    requires { (Y.view rack.old).attached ≡ Some (dims_of shape.now) }
    ensures opens { (t : Tells) → BayOpens
        (record t { stands = Y.tells_stands; contents = Y.tells_contents }) shape.now
        (IsOk result) (IsErr result) (Y.view rack.old) (Y.view rack.new) }
    ensures fault { IfErr result (λ e. e ≡ Status.RackFault) }
{
    match open_load(rack, shape) {
        Ok(()) => Ok(()),
        Err(_) => Err(Status::RackFault),
    }
}

/// Opens the load gate of each bay in order. Each is attached with the shape's dims.
pub fn open_bays<Y: Rack>(bays: &mut [Y], shape: &Shape) -> Result<(), Status>
    requires { AreAllAttached shape.now (map Y.view bays.old) }
    ensures { (t : Tells) → OpensCall
        (record t { stands = Y.tells_stands; contents = Y.tells_contents }) shape.now
        (map Y.view bays.old) result (map Y.view bays.new) }
{
    for bay in 0..bays.len() {
        match open_bay(&mut bays[bay], shape) {
            Ok(()) => {}
            Err(status) => return Err(status),
        }
    }
    Ok(())
}
