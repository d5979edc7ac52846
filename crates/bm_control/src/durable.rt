//! A page that is written and made durable.

ghost use Rattle.std.specs.Prelude.{◌≡◌, ◌<◌, IsTrue, IsOk, IsErr, OnOk};
ghost use Rattle.bm_base.specs.Contents.{page_at};
ghost use Rattle.bm_rack.specs.RackView.{IsAttached, IsClean};
ghost use Rattle.bm_rack.specs.Frames.{RackCall, MakesPageCalls};
ghost use Rattle.bm_rack.specs.Calls.{IsPage};
ghost use Rattle.bm_control.specs.Moments.{IsCleanPage};

use bm_base::{Failed, PAGE_BYTES};
use bm_rack::Rack;

/// Writes a page of the slate and syncs. The page is below 516. Where it failed and the page is not
/// dirty, the page holds the bytes all the same.
pub fn write_page_durably<R: Rack>(
    rack: &mut R,
    page: u16,
    bytes: &[u8; PAGE_BYTES],
) -> Result<(), Failed>
    requires ready { IsAttached (R.view rack.old).attached }
    requires page { page < 516 }
    ensures call { RackCall (IsPage page) (IsErr result) (R.view rack.old) (R.view rack.new) }
    ensures clean { OnOk result (IsClean (R.view rack.new)) }
    ensures taken { IsTrue R.tells_contents
        → OnOk result (page_at (R.view rack.new).contents page ≡ bytes.now) }
    ensures held { IsTrue R.tells_contents → IsCleanPage page (R.view rack.new)
        → page_at (R.view rack.new).contents page ≡ bytes.now }
    ensures counts { MakesPageCalls (IsOk result) 1 1 (R.view rack.old) (R.view rack.new) }
{
    rack.write_page(page, bytes)?;
    rack.sync()
}
