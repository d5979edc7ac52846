//! Stops of a drill.

ghost use Rattle.std.specs.Prelude.{◌≡◌, List};

use std::marker::Model;

/// One stop: the device calls that go their way before it, and the image that it leaves.
#[derive(Clone, Copy, Debug, PartialEq, Eq)]
pub struct Stop {
    /// How many device calls of the session go their way.
    pub after: u64,
    /// Which image of the rack the restart leaves, two bits a unit.
    pub pick: u64,
}

/// The stops of a drill in order. Contracts see the list.
#[derive(Drop)]
pub struct Stops {
    list: Vec<Stop>,
}

impl Model for Stops {
    ghost use Rattle.std.specs.Prelude.{List};
    ghost use Rattle.bm_base.specs.declared.stops.Stop.{Stop};

    ghost Value = { List Stop };

    ghost view = { λ s. s.list.items };
}

impl Stops {
    /// Takes a list that is made already.
    pub fn of(list: Vec<Stop>) -> Stops
        ensures { result ≡ list.items }
    {
        Stops { list }
    }

    /// The stops.
    pub fn list(&self) -> &[Stop]
        ensures { result.now ≡ self.now }
    {
        self.list.as_slice()
    }
}
