//! Turns in a row, and rounds over all bays.

ghost use Rattle.std.specs.Prelude.{◌≡◌, ◌≢◌, ℕ, ◌<◌, IsTrue, IsFalse, length, map, slice_index_or};
ghost use Rattle.std.specs.List.{All};
ghost use Rattle.bm_bufs.specs.Bufs.{FitsShape};
ghost use Rattle.bm_batch.specs.Batches.{AreAttached, BatchFollows, BatchTurns, AreStillSound};
ghost use Rattle.bm_batch.specs.Batches.{IsNoneGoing, IsAnyGoing, HaveTurned, AreDone, AreComplete};

use crate::batch::Batch;
use crate::bay_state::BayState;
use bm_bufs::Bufs;
use bm_rack::Rack;

impl Batch {
    /// Gives these turns, and then rounds over all bays in order until none is Going.
    ///
    /// Each number is below the count. The rest is as in `turn`: there are as many bays as at
    /// `begin`, each that is Going is attached with the shape's dims, and the buffers fit the shape.
    /// It takes no memory.
    ///
    /// A bay that was Going is Finished where its own count of faults did not rise, whatever became
    /// of the others.
    pub fn run_turns<Y: Rack>(&mut self, turns: &[u16], bays: &mut [Y], bufs: &mut Bufs)
        requires turns { All (λ bay. bay < length self.old.slots) turns.now }
        requires many { length bays.old ≡ length self.old.slots }
        requires attached { AreAttached self.old (map Y.view bays.old) }
        requires fits { FitsShape self.old.shape bufs.old }

        ensures ended { IsNoneGoing self.new.slots }
        ensures turned { BatchTurns Y.tells_stands Y.tells_contents self.old self.new
            (map Y.view bays.old) (map Y.view bays.new) }
        // Where the machine of each bay that is Going follows it.
        ensures sound { IsTrue Y.tells_stands → IsTrue Y.tells_contents
            → BatchFollows self.old (map Y.view bays.old)
            → AreStillSound self.old (map Y.view bays.old) (map Y.view bays.new) }
        ensures done { IsTrue Y.tells_stands → IsTrue Y.tells_contents
            → BatchFollows self.old (map Y.view bays.old)
            → AreDone self.old self.new (map Y.view bays.old) (map Y.view bays.new) }
        ensures complete { IsTrue Y.tells_stands → IsTrue Y.tells_contents
            → BatchFollows self.old (map Y.view bays.old)
            → AreComplete self.old self.new (map Y.view bays.old) (map Y.view bays.new) }
        ensures fits { FitsShape self.new.shape bufs.new }
    {
        self.take_turns(turns, bays, bufs);
        while self.is_any_going() {
            self.take_round(bays, bufs);
        }
    }

    // Gives these turns.
    fn take_turns<Y: Rack>(&mut self, turns: &[u16], bays: &mut [Y], bufs: &mut Bufs)
        requires turns { All (λ bay. bay < length self.old.slots) turns.now }
        requires many { length bays.old ≡ length self.old.slots }
        requires attached { AreAttached self.old (map Y.view bays.old) }
        requires fits { FitsShape self.old.shape bufs.old }
        ensures turned { BatchTurns Y.tells_stands Y.tells_contents self.old self.new
            (map Y.view bays.old) (map Y.view bays.new) }
        ensures fits { FitsShape self.new.shape bufs.new }
    {
        for bay in turns {
            self.turn(*bay, bays, bufs);
        }
    }

    // Gives each bay a turn, in order.
    fn take_round<Y: Rack>(&mut self, bays: &mut [Y], bufs: &mut Bufs)
        requires many { length bays.old ≡ length self.old.slots }
        requires attached { AreAttached self.old (map Y.view bays.old) }
        requires fits { FitsShape self.old.shape bufs.old }
        ensures turned { BatchTurns Y.tells_stands Y.tells_contents self.old self.new
            (map Y.view bays.old) (map Y.view bays.new) }
        ensures each { HaveTurned (length self.old.slots) self.old.slots self.new.slots }
        ensures fits { FitsShape self.new.shape bufs.new }
    {
        for bay in 0..self.count() {
            self.turn(bay, bays, bufs);
        }
    }

    // Whether a bay is Going.
    fn is_any_going(&self) -> bool
        ensures some { IsTrue result → IsAnyGoing self.now.slots }
        ensures none { IsFalse result → IsNoneGoing self.now.slots }
    {
        for slot in &self.slots {
            if matches!(slot.state, BayState::Going) {
                return true;
            }
        }
        false
    }
}
