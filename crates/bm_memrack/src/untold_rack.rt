//! A rack of which no contract tells anything.

ghost use Rattle.std.specs.Prelude.{◌≡◌, ◌<◌, ◌^◌, false};
ghost use Rattle.std.proofs.Common.{rules};
ghost use Rattle.bm_rack.specs.Untold.{untold_view};

use crate::block_copy::clear_blocks;
use bm_base::{Dims, Failed, PAGE_BYTES};
use bm_rack::{AttachError, CreateError, Found, Rack};

/// A rack for tests that tells neither what stands nor what it holds, and keeps nothing.
///
/// It answers `Ready` to every attach and `Present` to every create, gives zeros to every read, and
/// takes every write and sync. It asks for no memory.
#[derive(Drop)]
pub struct UntoldRack {
    attached: Option<Dims>,
    moves: u64,
    pages: u64,
    syncs: u64,
    ghost moves_fit: { moves < 2 ^ 64 },
    ghost pages_fit: { pages < 2 ^ 64 },
    ghost syncs_fit: { syncs < 2 ^ 64 },
}

impl UntoldRack {
    /// Nothing is attached yet.
    pub fn new() -> UntoldRack
        ensures { ⟦<UntoldRack as Rack>⟧.view result ≡ untold_view None 0 0 0 0 }
    {
        UntoldRack {
            attached: None,
            moves: 0,
            pages: 0,
            syncs: 0,
        }
    }
}

impl Rack for UntoldRack {
    ghost use Rattle.std.specs.Prelude.{◌≡◌, ℕ, ◌<◌, length, replicate, Ok, Err, Some, IsOk, IsErr, IsErrOf};
    ghost use Rattle.bm_base.specs.declared.dims.Dims.{Dims};
    ghost use Rattle.bm_rack.specs.declared.rack.Found.TheVariants.{Ready};
    ghost use Rattle.bm_rack.specs.declared.rack.CreateError.TheVariants.{Present};
    ghost use Rattle.bm_rack.specs.RackView.{IsAttached};
    ghost use Rattle.bm_rack.specs.Frames.{Keeps, RaisesCounts, HasCause, SameState};
    ghost use Rattle.bm_rack.specs.Calls.{RowFits, RowRead, RowWritten, PageRead, PageWritten, Synced, AttachDone, CreateDone, place_on, disk_bytes};
    ghost use Rattle.bm_memrack.specs.UntoldRack.{view_of};

    ghost tells_stands = { false };

    ghost tells_contents = { false };

    ghost view = { view_of };

    ghost consistent = { λ r. record {
      attached = λ h. Prim.search rules;
      sizes = λ h. Prim.search rules;
      faults = Prim.search rules;
      moves = r.moves_fit;
      pages = r.pages_fit;
      syncs = r.syncs_fit;
    } };

    fn attach(&mut self, dims: &Dims) -> Result<Found, AttachError>
        ensures attached { AttachDone false dims.now (view_of self.old) result (view_of self.new) }
        ensures counts { RaisesCounts 0 0 0 (view_of self.old) (view_of self.new) }
        ensures keeps { Keeps (view_of self.old) (view_of self.new) }
        ensures cause { HasCause (IsErrOf result AttachError.Failed)
            (view_of self.old) (view_of self.new) }
        ensures ready { result ≡ Ok Ready }
    {
        self.attached = Some(*dims);
        Ok(Found::Ready)
    }

    fn create(&mut self, _dims: &Dims) -> Result<(), CreateError>
        ensures created { CreateDone false false _dims.now
            (view_of self.old) result (view_of self.new) }
        ensures counts { RaisesCounts 0 0 0 (view_of self.old) (view_of self.new) }
        ensures keeps { Keeps (view_of self.old) (view_of self.new) }
        ensures cause { HasCause (IsErrOf result CreateError.Failed)
            (view_of self.old) (view_of self.new) }
        ensures present { result ≡ Err Present }
    {
        self.attached = None;
        Err(CreateError::Present)
    }

    fn read_row(&mut self, places: &[Option<u64>], bytes: &mut [u8]) -> Result<(), Failed>
        requires { RowFits (view_of self.old).attached places.now (length bytes.old) }
        ensures bytes { (dims : Dims) → (view_of self.old).attached ≡ Some dims
            → RowRead false dims (view_of self.old).contents places.now result bytes.old bytes.new }
        ensures state { SameState (view_of self.old) (view_of self.new) }
        ensures counts { RaisesCounts 1 0 0 (view_of self.old) (view_of self.new) }
        ensures keeps { Keeps (view_of self.old) (view_of self.new) }
        ensures cause { HasCause (IsErr result) (view_of self.old) (view_of self.new) }
        ensures sure { IsOk result }
        ensures zeros { (dims : Dims) (disk place : ℕ) → (view_of self.old).attached ≡ Some dims
            → disk < dims.disks → place_on places.now disk ≡ Some place
            → disk_bytes dims disk bytes.new ≡ replicate dims.block 0 }
    {
        self.moves = self.moves.saturating_add(1);
        match &self.attached {
            Some(dims) => clear_blocks(dims, places, bytes),
            None => unreachable!(),
        }
        Ok(())
    }

    fn write_row(&mut self, _places: &[Option<u64>], _bytes: &[u8]) -> Result<(), Failed>
        requires { RowFits (view_of self.old).attached _places.now (length _bytes.now) }
        ensures written { (dims : Dims) → (view_of self.old).attached ≡ Some dims
            → RowWritten false dims (view_of self.old) _places.now _bytes.now result
            (view_of self.new) }
        ensures counts { RaisesCounts 1 0 0 (view_of self.old) (view_of self.new) }
        ensures keeps { Keeps (view_of self.old) (view_of self.new) }
        ensures cause { HasCause (IsErr result) (view_of self.old) (view_of self.new) }
        ensures sure { IsOk result }
    {
        self.moves = self.moves.saturating_add(1);
        Ok(())
    }

    fn read_page(&mut self, _page: u16, bytes: &mut [u8; PAGE_BYTES]) -> Result<(), Failed>
        requires ready { IsAttached (view_of self.old).attached }
        requires page { _page < 516 }
        ensures length { length bytes.new ≡ 512 }
        ensures bytes { PageRead false (view_of self.old).contents _page result bytes.new }
        ensures state { SameState (view_of self.old) (view_of self.new) }
        ensures counts { RaisesCounts 0 1 0 (view_of self.old) (view_of self.new) }
        ensures keeps { Keeps (view_of self.old) (view_of self.new) }
        ensures cause { HasCause (IsErr result) (view_of self.old) (view_of self.new) }
        ensures sure { IsOk result }
        ensures zeros { bytes.new ≡ replicate 512 0 }
    {
        self.pages = self.pages.saturating_add(1);
        *bytes = [0; PAGE_BYTES];
        Ok(())
    }

    fn write_page(&mut self, _page: u16, _bytes: &[u8; PAGE_BYTES]) -> Result<(), Failed>
        requires ready { IsAttached (view_of self.old).attached }
        requires page { _page < 516 }
        ensures written { PageWritten false (view_of self.old) _page _bytes.now result
            (view_of self.new) }
        ensures counts { RaisesCounts 0 1 0 (view_of self.old) (view_of self.new) }
        ensures keeps { Keeps (view_of self.old) (view_of self.new) }
        ensures cause { HasCause (IsErr result) (view_of self.old) (view_of self.new) }
        ensures sure { IsOk result }
    {
        self.pages = self.pages.saturating_add(1);
        Ok(())
    }

    fn sync(&mut self) -> Result<(), Failed>
        requires { IsAttached (view_of self.old).attached }
        ensures synced { Synced (view_of self.old) result (view_of self.new) }
        ensures counts { RaisesCounts 0 0 1 (view_of self.old) (view_of self.new) }
        ensures keeps { Keeps (view_of self.old) (view_of self.new) }
        ensures cause { HasCause (IsErr result) (view_of self.old) (view_of self.new) }
        ensures sure { IsOk result }
    {
        self.syncs = self.syncs.saturating_add(1);
        Ok(())
    }

    fn rows(&self) -> u64 {
        self.moves
    }
}
