//! What the control file tells.

ghost use Rattle.std.specs.Prelude.{◌≡◌, ◌<◌, ◌≤◌, ◌+◌, ◌*◌, ℕ, IsTrue, IfOk, IsErrOf, IsOkUnless};
ghost use Rattle.bm_base.specs.Contents.{Contents, page_at};
ghost use Rattle.bm_rack.specs.RackView.{IsAttached};
ghost use Rattle.bm_rack.specs.Frames.{SameState, Keeps, HasCause, RaisesCounts};

use bm_base::{PAGE_BYTES, Shape};
use bm_forms::Job;
use bm_rack::Rack;

/// What the control file tells.
#[derive(Clone, Copy, Debug, PartialEq, Eq)]
pub enum SlateState {
    /// No records are loaded.
    Closed,
    /// Records of this shape are loaded, and no job is open.
    Loaded {
        shape: Shape,
    },
    /// A job is open.
    Working {
        /// The shape of the records.
        shape: Shape,
        /// What is to be done.
        job: Job,
        /// How many passes it has.
        passes: u16,
        /// How many of them are done.
        done: u16,
        /// After how many loads of a pass its progress is made durable.
        every: u64,
        /// How many loads of the next pass are counted.
        part: u64,
        /// The slot that counts them, or `NO_SLOT` where none does.
        slot: u8,
    },
}

/// Why the control file was not read.
#[derive(Clone, Copy, Debug, PartialEq, Eq)]
pub enum ControlError {
    /// The rack failed.
    Failed,
    /// This page is wrong: a body that doesn't decode, a pass gate that is open after a closed one,
    /// or the body of an open slot whose pass can't be under way or done.
    BadPage {
        /// The page's number.
        page: u16,
    },
}

/// A page of the slate. The page is below 516.
pub fn page_of<R: Rack>(rack: &mut R, page: u16) -> Result<[u8; PAGE_BYTES], ControlError>
    requires ready { IsAttached (R.view rack.old).attached }
    requires page { page < 516 }
    ensures bytes { IsTrue R.tells_contents → (v : Contents) → (R.view rack.old).contents ≡ v
        → IfOk result (λ bytes. bytes ≡ page_at v page) }
    ensures failed { IsOkUnless result ControlError.Failed }
    ensures state { SameState (R.view rack.old) (R.view rack.new) }
    ensures counts { RaisesCounts 0 1 0 (R.view rack.old) (R.view rack.new) }
    ensures keeps { Keeps (R.view rack.old) (R.view rack.new) }
    ensures cause { HasCause (IsErrOf result ControlError.Failed)
        (R.view rack.old) (R.view rack.new) }
{
    let mut bytes = [0; PAGE_BYTES];
    match rack.read_page(page, &mut bytes) {
        Ok(()) => Ok(bytes),
        Err(_) => Err(ControlError::Failed),
    }
}
