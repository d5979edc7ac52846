//! One turn of a machine.

ghost use Rattle.std.specs.Prelude.{◌≡◌, ◌≢◌, ◌+◌, ◌*◌, ◌<◌, ◌≤◌, ◌↔◌, ℕ, IsTrue, IsFalse, IsOk};
ghost use Rattle.std.specs.Prelude.{IsErr, OnOk, OnErr, IfOk, IfErr, IsErrOf, Ok, Some, None};
ghost use Rattle.bm_base.specs.Contents.{page_at};
ghost use Rattle.bm_base.specs.Shape.{dims_of, load_stripes};
ghost use Rattle.bm_bufs.specs.Bufs.{FitsShape};
ghost use Rattle.bm_rack.specs.Frames.{RackCall, MakesCalls};
ghost use Rattle.bm_rack.specs.Image.{SameInput, InEveryImage};
ghost use Rattle.bm_control.specs.Progress.{IsGone};
ghost use Rattle.bm_control.specs.Sound.{IsSound};
ghost use Rattle.bm_job.specs.Follows.{Follows, IsNext, loads_moved, loads_counted};
ghost use Rattle.bm_job.specs.Turns.{SameJob, IsNextOf, IsHalted, TurnAnswer, IsTurnRefusal};
ghost use Rattle.bm_job.specs.Turns.{HasRead, IsBadBody, IsTurnUnit, form_pages, durable_pages};
ghost use Rattle.bm_job.specs.Turns.{durable_syncs};

use crate::answers::{RunError, Turn};
use crate::machine::Machine;
use crate::next_load::advance;
use bm_bufs::Bufs;
use bm_rack::Rack;

impl Machine {
    /// Moves one load of the pass under way, and makes progress durable where it is due.
    ///
    /// The machine is alive, the rack attached with the shape's dims, and the buffers fit the shape. At
    /// its first load of a pass it first reads the pass's body. After load t of the pass, counted from
    /// 1, where t is a multiple of `every` below N/M, it counts the loads in the slot that is not
    /// counted. After the last load it opens the pass's gate.
    ///
    /// `Finished` where all passes are done; where they were before, nothing is done. It refuses by
    /// `Failed`, and by `BadPage` of the pass's body. After a refusal the machine is not alive, and the
    /// job goes on by `begin`.
    pub fn turn<R: Rack>(&mut self, rack: &mut R, bufs: &mut Bufs) -> Result<Turn, RunError>
        requires alive { IsTrue self.old.alive }
        requires attached { (R.view rack.old).attached ≡ Some (dims_of self.old.shape) }
        requires fits { FitsShape self.old.shape bufs.old }

        ensures answer { TurnAnswer self.new result }
        ensures same { SameJob self.old self.new }
        ensures idle { self.old.done ≡ self.old.passes
            → (result ≡ Ok Turn.Finished) × (self.new ≡ self.old) × (rack.new ≡ rack.old) }
        ensures next { self.old.done < self.old.passes → OnOk result (IsNextOf self.old self.new) }
        ensures stopped { OnErr result (IsHalted self.old self.new) }
        ensures alive { OnOk result (IsTrue self.new.alive) }
        ensures moved { self.old.done < self.old.passes
            → OnOk result (loads_moved self.new ≡ loads_moved self.old + 1) }
        ensures follows { IsTrue R.tells_stands → IsTrue R.tells_contents
            → Follows self.old (R.view rack.old) → OnOk result (Follows self.new (R.view rack.new)) }
        ensures sound { IsTrue R.tells_stands → IsTrue R.tells_contents
            → Follows self.old (R.view rack.old) → IsSound (R.view rack.new) }
        ensures good { IsTrue R.tells_stands → IsTrue R.tells_contents
            → Follows self.old (R.view rack.old) → (page : ℕ) → ¬ IsErrOf result (RunError.BadPage page) }
        ensures bad { IsTrue R.tells_contents → (page : ℕ) → IsErrOf result (RunError.BadPage page)
            → IsBadBody self.old (R.view rack.old).contents page }
        ensures read { IsTrue R.tells_contents → self.old.done < self.old.passes → self.old.form ≡ None
            → OnOk result (HasRead self.old self.new (R.view rack.old).contents) }
        // No stop loses what is counted.
        ensures sure { IsTrue R.tells_stands → IsTrue R.tells_contents
            → Follows self.old (R.view rack.old)
            → InEveryImage (λ v. (gone : ℕ) → IsGone v gone → loads_counted self.old ≤ gone) (R.view rack.new) }
        ensures call { RackCall (IsTurnUnit self.old) (IsErrOf result RunError.Failed)
            (R.view rack.old) (R.view rack.new) }
        ensures input { SameInput (dims_of self.old.shape) (R.view rack.old) (R.view rack.new) }
        ensures counts { self.old.done < self.old.passes
            → MakesCalls (IsOk result) (2 * load_stripes self.old.shape)
            (form_pages self.old.form + durable_pages self.old) (durable_syncs self.old)
            (R.view rack.old) (R.view rack.new) }
        ensures fits { FitsShape self.old.shape bufs.new }
    {
        if self.finished() {
            return Ok(Turn::Finished);
        }
        match advance(self, rack, bufs) {
            Ok(next) => {
                *self = next;
                Ok(next.remaining())
            }
            Err(error) => {
                self.alive = false;
                Err(error)
            }
        }
    }

    // What remains: a load or a gate, or nothing.
    fn remaining(&self) -> Turn
        ensures { TurnAnswer self.now (Ok result) }
    {
        if self.finished() {
            Turn::Finished
        } else {
            Turn::Went
        }
    }
}
