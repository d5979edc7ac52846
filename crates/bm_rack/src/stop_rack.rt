//! A rack that can be stopped and started again.

ghost use Rattle.std.specs.Prelude.{true, false};
ghost use Rattle.bm_rack.specs.Sessions.{StopSet, Restarted};

use crate::rack::Rack;

/// A rack that can be stopped within any device call, and started again.
///
/// A stop is a call that fails with every later call failing. After it the rack holds one image.
/// None of the three calls is a device call, and none can be refused.
pub trait StopRack: Rack {
    /// The next `calls` device calls go their way, and every later one fails.
    fn stop_after(&mut self, calls: u64)
        ensures { StopSet true (Self.view self.old) (Self.view self.new) };

    /// Takes a stop away, whether it was reached or not.
    fn stop_never(&mut self)
        ensures { StopSet false (Self.view self.old) (Self.view self.new) };

    /// Ends a stop: leaves one image of the rack, which `pick` chooses, and nothing dirty.
    fn restart(&mut self, pick: u64)
        ensures { Restarted Self.tells_stands Self.tells_contents (Self.view self.old) (Self.view self.new) };
}
