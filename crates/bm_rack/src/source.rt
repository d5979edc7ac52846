//! Where bytes come from.

ghost use Rattle.std.specs.Prelude.{◌≡◌, ℕ, ◌^◌, ◌<◌, ◌≤◌, Bool, List, length, IsOk, IsErr};
ghost use Rattle.bm_base.specs.Count.{Rose};
ghost use Rattle.bm_rack.specs.Source.{SourceRead};

use bm_base::Failed;

/// A source of bytes.
pub trait Source {
    /// Whether a contract sees what is left.
    ghost tells: { Bool };

    /// The bytes that are left.
    ghost left: { Self → List ℕ };

    /// How many reads failed. The count stands still at its last value.
    ghost faults: { Self → ℕ };

    /// The next bytes, at least one; 0 at the end of the input, and only there.
    ///
    /// A failed read takes no byte. A read that answers Ok counts no fault.
    fn read(&mut self, into: &mut [u8]) -> Result<usize, Failed>
        requires { 0 < length into.old }
        ensures read { SourceRead tells (left self.old) (length into.old) result into.new (left self.new) }
        ensures faults { faults self.old ≤ faults self.new }
        ensures quiet { IsOk result → faults self.new ≡ faults self.old }
        ensures cause { IsErr result → Rose (faults self.old) (faults self.new) };

    /// The count of faults fits its type.
    ghost counted: { (source : Self) → faults source < 2 ^ 64 };
}
