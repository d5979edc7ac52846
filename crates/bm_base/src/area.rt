//! The three areas of a rack.

ghost use Rattle.std.specs.Prelude.{◌≡◌};
ghost use Rattle.bm_base.specs.Area.{area_after};

/// A third of each disk, which holds one list of N records.
///
/// The input is never written by a pass. Passes write `One` and `Two` in turn.
#[derive(Clone, Copy, Debug, PartialEq, Eq)]
pub enum Area {
    /// The records as they were loaded.
    Input,
    /// The target of the first pass and of every second one after it.
    One,
    /// The target of the second pass and of every second one after it.
    Two,
}

/// The area that holds the records after so many passes.
pub fn area_of(passes: u16) -> Area
    ensures { result ≡ area_after passes }
{
    if passes == 0 {
        return Area::Input;
    }
    if passes % 2 == 1 {
        Area::One
    } else {
        Area::Two
    }
}
