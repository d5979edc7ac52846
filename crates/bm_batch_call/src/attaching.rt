//! The disks of bays, attached in order.

ghost use Rattle.std.specs.Prelude.{map, IsOk, IfErr};
ghost use Rattle.bm_top.specs.Moment.{Tells};
ghost use Rattle.bm_batch_call.specs.Bays.{BayAttached, AttachFails};
ghost use Rattle.bm_batch_call.specs.Opening.{AttachCall};

use bm_base::Shape;
use bm_rack::Rack;
use bm_top::{Status, attach_disks, disks_status};

// Attaches the disks of a bay.
fn attach_bay<Y: Rack>(rack: &mut Y, shape: &Shape) -> Result<(), Status>
    ensures attached { (t : Tells) → IsOk result → BayAttached
        (record t { stands = Y.tells_stands; contents = Y.tells_contents }) shape.now
        (Y.view rack.old) (Y.view rack.new) }
    ensures fails { (t : Tells) → IfErr result (λ e. AttachFails
        (record t { stands = Y.tells_stands; contents = Y.tells_contents }) shape.now
        (Y.view rack.old) e (Y.view rack.new)) }
{
    match attach_disks(rack, &shape.dims()) {
        Ok(()) => Ok(()),
        Err(error) => Err(disks_status(error)),
    }
}

/// Attaches the disks of each bay in order.
pub fn attach_bays<Y: Rack>(bays: &mut [Y], shape: &Shape) -> Result<(), Status>
    ensures { (t : Tells) → AttachCall
        (record t { stands = Y.tells_stands; contents = Y.tells_contents }) shape.now
        (map Y.view bays.old) result (map Y.view bays.new) }
{
    for bay in 0..bays.len() {
        match attach_bay(&mut bays[bay], shape) {
            Ok(()) => {}
            Err(status) => return Err(status),
        }
    }
    Ok(())
}
