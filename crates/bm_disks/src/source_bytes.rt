//! Bytes from a source.

ghost use Rattle.std.specs.Prelude.{◌≡◌, ℕ, ◌<◌, ◌≤◌, ◌++◌, List, [], length, take, drop, IsTrue, IsOk, IsErr, IfOk, ◌↔◌};
ghost use Rattle.bm_base.specs.Count.{Rose};
ghost use Rattle.bm_disks.specs.Input.{EndsAfter, IsRead};

use bm_base::Failed;
use bm_rack::Source;

/// Why a buffer wasn't filled.
#[derive(Clone, Copy, Debug, PartialEq, Eq)]
pub enum FillError {
    /// A read failed.
    Fault,
    /// The source ended after so many bytes, which are fewer than the buffer's.
    Short {
        /// The bytes that came.
        got: usize,
    },
}

/// Fills the buffer with the next bytes of the source, and reads no more than it holds.
pub fn fill<S: Source>(source: &mut S, into: &mut [u8]) -> Result<(), FillError>
    ensures whole { IsTrue S.tells → IsOk result
        → S.left source.old ≡ into.new ++ S.left source.new }
    ensures short { (got : ℕ) → result ≡ Err (FillError.Short got)
        → EndsAfter S.tells (length into.old) (S.left source.old) (S.left source.new) got }
    ensures part { IsTrue S.tells → (got : ℕ) → result ≡ Err (FillError.Short got)
        → S.left source.old ≡ take got into.new }
    ensures few { IsTrue S.tells
        → IsRead (length into.old) (S.left source.old) (S.left source.new) }
    ensures within { (got : ℕ) → result ≡ Err (FillError.Short got) → got < length into.new }
    ensures fault { result ≡ Err FillError.Fault
        → Rose (S.faults source.old) (S.faults source.new) }
    ensures faults { S.faults source.old ≤ S.faults source.new }
{
    let mut at = 0;
    while at < into.len() {
        match source.read(&mut into[at..]) {
            Err(Failed) => return Err(FillError::Fault),
            Ok(0) => return Err(FillError::Short { got: at }),
            Ok(count) => at += count,
        }
    }
    Ok(())
}

/// Asks for one byte more, which is taken where there is one.
pub fn is_at_end<S: Source>(source: &mut S) -> Result<bool, Failed>
    ensures ended { IsTrue S.tells
        → IfOk result (λ is_end. IsTrue is_end ↔ (S.left source.old ≡ [])) }
    ensures taken { IsTrue S.tells → IsOk result → S.left source.new ≡ drop 1 (S.left source.old) }
    ensures few { IsTrue S.tells → IsRead 1 (S.left source.old) (S.left source.new) }
    ensures cause { IsErr result → Rose (S.faults source.old) (S.faults source.new) }
    ensures faults { S.faults source.old ≤ S.faults source.new }
{
    let mut byte = [0u8; 1];
    let count = source.read(&mut byte)?;
    Ok(count == 0)
}
