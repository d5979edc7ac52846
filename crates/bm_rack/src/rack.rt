//! A rack of disks with a slate of pages.

ghost use Rattle.std.specs.Prelude.{◌≡◌, ℕ, ◌<◌, Bool, length, Some, IsErr, IsErrOf};
ghost use Rattle.bm_base.specs.declared.dims.Dims.{Dims};
ghost use Rattle.bm_rack.specs.RackView.{RackView, IsWellFormed, IsAttached};
ghost use Rattle.bm_rack.specs.Frames.{Keeps, RaisesCounts, HasCause, SameState};
ghost use Rattle.bm_rack.specs.Calls.{RowFits, RowRead, RowWritten, PageRead, PageWritten, Synced, AttachDone, CreateDone};

use bm_base::{Dims, Failed, PAGE_BYTES};

/// What stands where a rack was looked for.
#[derive(Clone, Copy, Debug, PartialEq, Eq)]
pub enum Found {
    /// A rack of the sizes that were asked for. It is attached now.
    Ready,
    /// Nothing.
    Absent,
    /// Something else than a rack of these sizes.
    Other,
}

/// Why an attach answers nothing of what stands.
#[derive(Clone, Copy, Debug, PartialEq, Eq)]
pub enum AttachError {
    /// The rack failed.
    Failed,
    /// Memory was refused.
    OutOfMemory,
}

/// Why no rack was made.
#[derive(Clone, Copy, Debug, PartialEq, Eq)]
pub enum CreateError {
    /// The rack failed.
    Failed,
    /// Something stands already.
    Present,
    /// Memory was refused.
    OutOfMemory,
}

/// D disks and a slate, as in the parallel disk model of Vitter and Shriver.
///
/// A disk is a list of blocks, the slate a list of 516 pages of 512 bytes. A unit is one block or
/// one page. A unit that was written is dirty until the next sync that succeeds.
/// An image of a rack is any contents of the same sizes that agree with the present ones in every
/// unit that is not dirty: a stop of the machine may leave any of them.
///
/// One row call is one parallel transfer: it moves at most one block of each disk.
/// A call that fails may have written anything into its own units, and nothing elsewhere.
/// A rack is steady where none of its calls fails but for a stop that is set on purpose.
pub trait Rack {
    /// Whether a contract sees what stands.
    ghost tells_stands: { Bool };

    /// Whether a contract sees the blocks and pages, and which of them are dirty.
    ghost tells_contents: { Bool };

    /// What a contract sees of the rack.
    ghost view: { Self → RackView };

    /// Looks what stands, and takes it for the calls below where it has these sizes.
    ///
    /// Nothing is attached after every answer but `Ready`.
    fn attach(&mut self, dims: &Dims) -> Result<Found, AttachError>
        ensures attached { AttachDone tells_stands dims.now (view self.old) result (view self.new) }
        ensures counts { RaisesCounts 0 0 0 (view self.old) (view self.new) }
        ensures keeps { Keeps (view self.old) (view self.new) }
        ensures cause { HasCause (IsErrOf result AttachError.Failed) (view self.old) (view self.new) };

    /// Makes a rack of zeros where nothing stands, with nothing dirty.
    ///
    /// `Present` where something stands. A refusal leaves what stands. Nothing is attached after it.
    fn create(&mut self, dims: &Dims) -> Result<(), CreateError>
        ensures created { CreateDone tells_stands tells_contents dims.now (view self.old) result (view self.new) }
        ensures counts { RaisesCounts 0 0 0 (view self.old) (view self.new) }
        ensures keeps { Keeps (view self.old) (view self.new) }
        ensures cause { HasCause (IsErrOf result CreateError.Failed) (view self.old) (view self.new) };

    /// Reads one block of each disk that takes part, into the bytes of its disk.
    ///
    /// Entry k of `places` is the place on disk k, or nothing where disk k takes no part.
    /// The bytes of disk k are those from `k * block`.
    fn read_row(&mut self, places: &[Option<u64>], bytes: &mut [u8]) -> Result<(), Failed>
        requires { RowFits (view self.old).attached places.now (length bytes.old) }
        ensures bytes { (dims : Dims) → (view self.old).attached ≡ Some dims
            → RowRead tells_contents dims (view self.old).contents places.now result bytes.old bytes.new }
        ensures state { SameState (view self.old) (view self.new) }
        ensures counts { RaisesCounts 1 0 0 (view self.old) (view self.new) }
        ensures keeps { Keeps (view self.old) (view self.new) }
        ensures cause { HasCause (IsErr result) (view self.old) (view self.new) };

    /// Writes one block of each disk that takes part, from the bytes of its disk.
    ///
    /// The entries and bytes are as in `read_row`. The blocks are dirty afterwards, also where it fails.
    fn write_row(&mut self, places: &[Option<u64>], bytes: &[u8]) -> Result<(), Failed>
        requires { RowFits (view self.old).attached places.now (length bytes.now) }
        ensures written { (dims : Dims) → (view self.old).attached ≡ Some dims
            → RowWritten tells_contents dims (view self.old) places.now bytes.now result (view self.new) }
        ensures counts { RaisesCounts 1 0 0 (view self.old) (view self.new) }
        ensures keeps { Keeps (view self.old) (view self.new) }
        ensures cause { HasCause (IsErr result) (view self.old) (view self.new) };

    /// Reads a page of the slate. The page is below 516.
    fn read_page(&mut self, page: u16, bytes: &mut [u8; PAGE_BYTES]) -> Result<(), Failed>
        requires ready { IsAttached (view self.old).attached }
        requires page { page < 516 }
        ensures length { length bytes.new ≡ 512 }
        ensures bytes { PageRead tells_contents (view self.old).contents page result bytes.new }
        ensures state { SameState (view self.old) (view self.new) }
        ensures counts { RaisesCounts 0 1 0 (view self.old) (view self.new) }
        ensures keeps { Keeps (view self.old) (view self.new) }
        ensures cause { HasCause (IsErr result) (view self.old) (view self.new) };

    /// Writes a page of the slate, which is dirty afterwards, also where it fails. The page is below 516.
    fn write_page(&mut self, page: u16, bytes: &[u8; PAGE_BYTES]) -> Result<(), Failed>
        requires ready { IsAttached (view self.old).attached }
        requires page { page < 516 }
        ensures written { PageWritten tells_contents (view self.old) page bytes.now result (view self.new) }
        ensures counts { RaisesCounts 0 1 0 (view self.old) (view self.new) }
        ensures keeps { Keeps (view self.old) (view self.new) }
        ensures cause { HasCause (IsErr result) (view self.old) (view self.new) };

    /// Makes durable what was written: nothing is dirty where it succeeds.
    fn sync(&mut self) -> Result<(), Failed>
        requires { IsAttached (view self.old).attached }
        ensures synced { Synced (view self.old) result (view self.new) }
        ensures counts { RaisesCounts 0 0 1 (view self.old) (view self.new) }
        ensures keeps { Keeps (view self.old) (view self.new) }
        ensures cause { HasCause (IsErr result) (view self.old) (view self.new) };

    /// The row calls made so far. It is no device call.
    fn rows(&self) -> u64
        ensures { result ≡ (view self.now).moves };

    /// The parts of a view agree at every moment.
    ghost consistent: { (rack : Self) → IsWellFormed tells_stands tells_contents (view rack) };
}
