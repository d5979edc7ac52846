//! One turn of a batch.

ghost use Rattle.std.specs.Prelude.{◌≡◌, ◌≢◌, ℕ, ◌<◌, IsTrue, Some, length, map, slice_index_or};
ghost use Rattle.bm_bufs.specs.Bufs.{FitsShape};
ghost use Rattle.bm_job.specs.declared.machine.Machine.{Machine};
ghost use Rattle.bm_batch.specs.declared.bay_slot.BaySlot.{BaySlot};
ghost use Rattle.bm_batch.specs.Bays.{BayStep};
ghost use Rattle.bm_batch.specs.Batches.{view_at, AreOthersSame, AreAttached, BatchFollows};
ghost use Rattle.bm_batch.specs.Batches.{BatchTurns, AreStillSound, AreDone};

use crate::batch::Batch;
use crate::bay_state::BayState;
use crate::one_bay::turn_bay;
use bm_bufs::Bufs;
use bm_rack::Rack;

impl Batch {
    /// Gives one turn to a bay that is Going, and does nothing with another. It answers how far the
    /// bay is then.
    ///
    /// The bay is below the count, there are as many bays as at `begin`, each that is Going is
    /// attached with the shape's dims, and the buffers fit the shape. It takes no memory.
    ///
    /// A turn that `Machine::turn` refuses leaves the bay Ended with that refusal. Every other bay
    /// is left exactly as it was.
    pub fn turn<Y: Rack>(&mut self, bay: u16, bays: &mut [Y], bufs: &mut Bufs) -> BayState
        requires below { bay < length self.old.slots }
        requires many { length bays.old ≡ length self.old.slots }
        requires attached { AreAttached self.old (map Y.view bays.old) }
        requires fits { FitsShape self.old.shape bufs.old }

        ensures answer { (d : BaySlot) → result ≡ (slice_index_or self.new.slots bay d).state }
        // The other bays, and this one where it was not Going.
        ensures other_racks { AreOthersSame bay bays.old bays.new }
        ensures other_states { AreOthersSame bay self.old.slots self.new.slots }
        ensures idle { (d : BaySlot)
            → (slice_index_or self.old.slots bay d).state ≢ BayState.Going
            → (self.new ≡ self.old) × (bays.new ≡ bays.old) }
        // What it did with every bay, and the one step of this bay.
        ensures turned { BatchTurns Y.tells_stands Y.tells_contents self.old self.new
            (map Y.view bays.old) (map Y.view bays.new) }
        ensures step { (d : BaySlot) (m : Machine)
            → (slice_index_or self.old.slots bay d).state ≡ BayState.Going
            → (slice_index_or self.old.slots bay d).machine ≡ Some m
            → BayStep Y.tells_stands Y.tells_contents m (slice_index_or self.new.slots bay d)
            (view_at (map Y.view bays.old) bay) (view_at (map Y.view bays.new) bay) }
        // Where the machine of each bay that is Going follows it.
        ensures sound { IsTrue Y.tells_stands → IsTrue Y.tells_contents
            → BatchFollows self.old (map Y.view bays.old)
            → AreStillSound self.old (map Y.view bays.old) (map Y.view bays.new) }
        ensures follows { IsTrue Y.tells_stands → IsTrue Y.tells_contents
            → BatchFollows self.old (map Y.view bays.old)
            → BatchFollows self.new (map Y.view bays.new) }
        ensures done { IsTrue Y.tells_stands → IsTrue Y.tells_contents
            → BatchFollows self.old (map Y.view bays.old)
            → AreDone self.old self.new (map Y.view bays.old) (map Y.view bays.new) }
        ensures attached { AreAttached self.new (map Y.view bays.new) }
        ensures fits { FitsShape self.new.shape bufs.new }
    {
        let at = usize::from(bay);
        let slot = turn_bay(&self.slots[at], &mut bays[at], bufs);
        self.slots[at] = slot;
        slot.state
    }
}
