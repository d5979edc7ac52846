//! A rack in memory that never fails.

ghost use Rattle.std.specs.Prelude.{◌≡◌, ◌<◌, ◌^◌, true, false};

use crate::store::{Store, make_store};
use bm_base::{Dims, Failed, PAGE_BYTES};
use bm_rack::{AttachError, CreateError, Found, Rack};
use std::alloc::Global;

/// A rack in memory whose calls never fail. It is always steady and never stopping.
#[derive(Drop)]
pub struct SureRack {
    alloc: Global,
    store: Option<Store>,
    attached: bool,
    moves: u64,
    pages: u64,
    syncs: u64,
    ghost moves_fit: { moves < 2 ^ 64 },
    ghost pages_fit: { pages < 2 ^ 64 },
    ghost syncs_fit: { syncs < 2 ^ 64 },
}

impl SureRack {
    ghost use Rattle.bm_memrack.specs.Store.{new_view};

    /// Nothing stands yet. Its memory is taken by `create` alone.
    pub fn new(alloc: Global) -> SureRack
        ensures { ⟦<SureRack as Rack>⟧.view result ≡ new_view true }
    {
        SureRack {
            alloc,
            store: None,
            attached: false,
            moves: 0,
            pages: 0,
            syncs: 0,
        }
    }
}

impl Rack for SureRack {
    ghost use Rattle.std.specs.Prelude.{true, IsErrOf, IsOk};
    ghost use Rattle.bm_rack.specs.Frames.{Keeps, RaisesCounts, HasCause};
    ghost use Rattle.bm_rack.specs.Calls.{AttachDone};
    ghost use Rattle.bm_memrack.specs.SureRack.{view_of};
    ghost use Rattle.bm_memrack.specs.SizeLemmas.{memory_well_formed};
    ghost use Rattle.std.proofs.Common.{rules};

    ghost tells_stands = { true };

    ghost tells_contents = { true };

    ghost view = { view_of };

    ghost consistent = { λ r. memory_well_formed r.store r.attached 0 r.moves r.pages r.syncs
        true false (Prim.search rules) r.moves_fit r.pages_fit r.syncs_fit };

    fn attach(&mut self, dims: &Dims) -> Result<Found, AttachError>
        ensures attached { AttachDone true dims.now (view_of self.old) result (view_of self.new) }
        ensures counts { RaisesCounts 0 0 0 (view_of self.old) (view_of self.new) }
        ensures keeps { Keeps (view_of self.old) (view_of self.new) }
        ensures cause { HasCause (IsErrOf result AttachError.Failed)
            (view_of self.old) (view_of self.new) }
        ensures sure { IsOk result }
    {
        let found = match &self.store {
            None => Found::Absent,
            Some(store) => {
                if store.dims == *dims {
                    Found::Ready
                } else {
                    Found::Other
                }
            }
        };
        self.attached = found == Found::Ready;
        Ok(found)
    }

    fn create(&mut self, dims: &Dims) -> Result<(), CreateError> {
        self.attached = false;
        if self.store.is_some() {
            return Err(CreateError::Present);
        }
        match make_store(self.alloc, dims) {
            Ok(store) => {
                self.store = Some(store);
                Ok(())
            }
            Err(_) => Err(CreateError::OutOfMemory),
        }
    }

    fn read_row(&mut self, places: &[Option<u64>], bytes: &mut [u8]) -> Result<(), Failed> {
        self.moves = self.moves.saturating_add(1);
        match &self.store {
            Some(store) => store.read_row(places, bytes),
            None => unreachable!(),
        }
        Ok(())
    }

    fn write_row(&mut self, places: &[Option<u64>], bytes: &[u8]) -> Result<(), Failed> {
        self.moves = self.moves.saturating_add(1);
        match &mut self.store {
            Some(store) => {
                let whole = store.dims.block as usize;
                store.write_row(places, bytes, whole)
            }
            None => unreachable!(),
        }
        Ok(())
    }

    fn read_page(&mut self, page: u16, bytes: &mut [u8; PAGE_BYTES]) -> Result<(), Failed> {
        self.pages = self.pages.saturating_add(1);
        match &self.store {
            Some(store) => store.read_page(page, bytes),
            None => unreachable!(),
        }
        Ok(())
    }

    fn write_page(&mut self, page: u16, bytes: &[u8; PAGE_BYTES]) -> Result<(), Failed> {
        self.pages = self.pages.saturating_add(1);
        match &mut self.store {
            Some(store) => store.write_page(page, bytes, PAGE_BYTES),
            None => unreachable!(),
        }
        Ok(())
    }

    fn sync(&mut self) -> Result<(), Failed> {
        self.syncs = self.syncs.saturating_add(1);
        match &mut self.store {
            Some(store) => store.clean(),
            None => unreachable!(),
        }
        Ok(())
    }

    fn rows(&self) -> u64 {
        self.moves
    }
}
