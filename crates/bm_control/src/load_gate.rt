//! The load gate: whether records are loaded.

ghost use Rattle.std.specs.Prelude.{◌≡◌, IsTrue, IsOk, IsErr, OnOk, Some};
ghost use Rattle.bm_base.specs.Contents.{page_at};
ghost use Rattle.bm_base.specs.Gate.{IsOpenGate, IsClosedGate};
ghost use Rattle.bm_base.specs.Shape.{dims_of};
ghost use Rattle.bm_rack.specs.RackView.{IsAttached, IsClean};
ghost use Rattle.bm_rack.specs.Image.{InEveryImage};
ghost use Rattle.bm_rack.specs.Frames.{RackCall, MakesPageCalls};
ghost use Rattle.bm_rack.specs.Calls.{IsPage};
ghost use Rattle.bm_control.specs.Bodies.{load_page};
ghost use Rattle.bm_control.specs.Pages.{load_gate, HasOpenLoad, HasClosedLoad, HasClosedJob};
ghost use Rattle.bm_control.specs.Pages.{HasLoadBody, IsZeroPage};
ghost use Rattle.bm_control.specs.PageCalls.{IsLoadPage};
ghost use Rattle.bm_control.specs.Sound.{IsSound};

use crate::durable::write_page_durably;
use crate::gates::gate_page;
use crate::load_body::encode_load;
use crate::pages::{LOAD_BODY, LOAD_GATE};
use bm_base::{Failed, PAGE_BYTES, Shape};
use bm_rack::Rack;

/// Closes the load gate of a rack on which no job is open in any image: writes 512 zeros on it.
///
/// A rack that is sound, with nothing dirty and the load gate open, stays sound at each exit. A
/// gate that is closed already must not be closed again: a page that is written has images of any
/// bytes, an open gate among them.
pub fn close_load<R: Rack>(rack: &mut R) -> Result<(), Failed>
    requires { IsAttached (R.view rack.old).attached }
    ensures sound { IsTrue R.tells_stands → IsTrue R.tells_contents
        → IsSound (R.view rack.old) → IsClean (R.view rack.old)
        → HasOpenLoad (R.view rack.old).contents
        → HasClosedJob (R.view rack.old).contents
        → IsSound (R.view rack.new) }
    ensures clean { OnOk result (IsClean (R.view rack.new)) }
    ensures closed { IsTrue R.tells_contents
        → OnOk result (IsZeroPage (page_at (R.view rack.new).contents load_gate)) }
    ensures call { RackCall (IsPage load_gate) (IsErr result) (R.view rack.old) (R.view rack.new) }
    ensures counts { MakesPageCalls (IsOk result) 1 1 (R.view rack.old) (R.view rack.new) }
{
    write_page_durably(rack, LOAD_GATE, &[0; PAGE_BYTES])
}

/// Opens the load gate of a rack on which both gates are closed in every image, for records of this
/// shape.
///
/// The body is made durable before its gate is written. A rack of the shape's sizes is sound at
/// each exit.
pub fn open_load<R: Rack>(rack: &mut R, shape: &Shape) -> Result<(), Failed>
    requires { IsAttached (R.view rack.old).attached }
    ensures sound { IsTrue R.tells_stands → IsTrue R.tells_contents
        → (R.view rack.old).attached ≡ Some (dims_of shape.now)
        → InEveryImage HasClosedLoad (R.view rack.old)
        → InEveryImage HasClosedJob (R.view rack.old)
        → IsSound (R.view rack.new) }
    ensures clean { OnOk result (IsClean (R.view rack.new)) }
    ensures opened { IsTrue R.tells_contents
        → OnOk result (HasOpenLoad (R.view rack.new).contents) }
    ensures body { IsTrue R.tells_contents
        → OnOk result (HasLoadBody shape.now (R.view rack.new).contents) }
    ensures call { RackCall IsLoadPage (IsErr result) (R.view rack.old) (R.view rack.new) }
    ensures counts { MakesPageCalls (IsOk result) 2 2 (R.view rack.old) (R.view rack.new) }
{
    write_page_durably(rack, LOAD_BODY, &encode_load(shape))?;
    write_page_durably(rack, LOAD_GATE, &gate_page())
}
