//! The line that tells which sides of a mirror are in.

ghost use Rattle.std.specs.Prelude.{◌≡◌, ◌≤◌, ◌++◌, IsTrue};
ghost use Rattle.bm_base.specs.Count.{Rose};
ghost use Rattle.bm_rack.specs.Sink.{AppendsFront};
ghost use Rattle.bm_mirror_call.specs.SidesLine.{sides_line};

use bm_mirror::Sides;
use bm_rack::{Sink, write_all_of};

// The line of these sides.
fn line_of_sides(sides: Sides) -> &'static [u8]
    ensures { result.now ≡ sides_line sides }
{
    match (sides.left, sides.right) {
        (true, true) => b"sides left right\n",
        (true, false) => b"sides left\n",
        (false, true) => b"sides right\n",
        (false, false) => b"sides\n",
    }
}

/// Writes which sides are in. A write that fails ends it, and changes nothing else.
pub fn write_sides<E: Sink>(err: &mut E, sides: Sides)
    ensures line { IsTrue E.tells → ¬ Rose (E.faults err.old) (E.faults err.new)
        → E.taken err.new ≡ E.taken err.old ++ sides_line sides }
    ensures front { IsTrue E.tells → AppendsFront (E.taken err.old) (E.taken err.new) (sides_line sides) }
    ensures faults { E.faults err.old ≤ E.faults err.new }
{
    let _ = write_all_of(err, line_of_sides(sides));
}
