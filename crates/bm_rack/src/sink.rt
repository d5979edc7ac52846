//! Where bytes go.

ghost use Rattle.std.specs.Prelude.{◌≡◌, ℕ, ◌^◌, ◌<◌, ◌≤◌, ◌++◌, Bool, IsTrue, List, length, IsOk, IsErr};
ghost use Rattle.bm_base.specs.Count.{Rose};
ghost use Rattle.bm_rack.specs.Sink.{SinkWritten, AppendsFront};

use bm_base::Failed;

/// A sink of bytes.
pub trait Sink {
    /// Whether a contract sees what was taken.
    ghost tells: { Bool };

    /// The bytes that were taken.
    ghost taken: { Self → List ℕ };

    /// How many writes failed. The count stands still at its last value.
    ghost faults: { Self → ℕ };

    /// Appends a front of the bytes, at least one of them, and says how many.
    ///
    /// A failed write appends nothing. A write that answers Ok counts no fault, so it tried nothing
    /// that failed a second time.
    fn write(&mut self, bytes: &[u8]) -> Result<usize, Failed>
        requires { 0 < length bytes.now }
        ensures written { SinkWritten tells (taken self.old) bytes.now result (taken self.new) }
        ensures faults { faults self.old ≤ faults self.new }
        ensures quiet { IsOk result → faults self.new ≡ faults self.old }
        ensures cause { IsErr result → Rose (faults self.old) (faults self.new) };

    /// The count of faults fits its type.
    ghost counted: { (sink : Self) → faults sink < 2 ^ 64 };
}

/// Writes all of the bytes. Where it fails, a front of them was written. No write that failed is
/// tried again.
#[tactic(auto, using(crate::proofs::SinkLemmas::front_within, crate::proofs::SinkLemmas::front_longer))]
pub fn write_all_of<K: Sink>(sink: &mut K, bytes: &[u8]) -> Result<(), Failed>
    ensures all { IsTrue K.tells → IsOk result → K.taken sink.new ≡ K.taken sink.old ++ bytes.now }
    ensures front { IsTrue K.tells → AppendsFront (K.taken sink.old) (K.taken sink.new) bytes.now }
    ensures faults { K.faults sink.old ≤ K.faults sink.new }
    ensures quiet { IsOk result → K.faults sink.new ≡ K.faults sink.old }
    ensures cause { IsErr result → Rose (K.faults sink.old) (K.faults sink.new) }
{
    let mut at = 0;
    while at < bytes.len() {
        at += sink.write(&bytes[at..])?;
    }
    Ok(())
}
