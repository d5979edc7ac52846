//! A rack in memory that fails as it was told, and can be stopped and started again.

ghost use Rattle.std.specs.Prelude.{◌≡◌, ◌^◌, ◌<◌, is_some};
ghost use Rattle.bm_memrack.specs.FaultList.{is_empty};

use crate::fault_list::FaultList;
use crate::store::{Store, make_store};
use crate::told_call::{fails, outcome, taken_len};
use bm_base::{Dims, Failed, PAGE_BYTES};
use bm_rack::{AttachError, CreateError, Found, Rack, StopRack};
use std::alloc::Global;

/// A rack in memory whose calls fail as it was told, for tests and for runs of sessions.
///
/// Attach, create, row, page and sync calls are its device calls. A device call fails exactly where
/// its number, counted from 1, stands in the list of faults, or where a stop was reached. It is
/// steady where that list is empty. A write that fails sets the first half of each of its units.
#[derive(Drop)]
pub struct MemRack {
    alloc: Global,
    store: Option<Store>,
    attached: bool,
    list: FaultList,
    stop: Option<u64>,
    moves: u64,
    pages: u64,
    syncs: u64,
    ghost moves_fit: { moves < 2 ^ 64 },
    ghost pages_fit: { pages < 2 ^ 64 },
    ghost syncs_fit: { syncs < 2 ^ 64 },
}

impl MemRack {
    ghost use Rattle.bm_memrack.specs.Store.{new_view};

    /// Nothing stands yet, and no stop is ahead. Its memory is taken by `create` alone.
    ///
    /// `faults` lists the numbers of the device calls that fail, counted from 1.
    pub fn new(alloc: Global, faults: Vec<u64>) -> MemRack
        ensures view { ⟦<MemRack as Rack>⟧.view result ≡ new_view (is_empty faults.items) }
        ensures numbers { result.list.numbers ≡ faults }
        ensures calls { result.list.calls ≡ 0 }
        ensures stop { result.stop ≡ None }
    {
        MemRack {
            alloc,
            store: None,
            attached: false,
            list: FaultList::new(faults),
            stop: None,
            moves: 0,
            pages: 0,
            syncs: 0,
        }
    }
}

impl Rack for MemRack {
    ghost use Rattle.std.specs.Prelude.{◌≡◌, ℕ, ◌<◌, true, length, Some, IsErr, IsErrOf};
    ghost use Rattle.bm_base.specs.declared.dims.Dims.{Dims};
    ghost use Rattle.bm_rack.specs.RackView.{IsAttached};
    ghost use Rattle.bm_rack.specs.Frames.{Keeps, RaisesCounts, HasCause, SameState};
    ghost use Rattle.bm_rack.specs.Calls.{RowFits, RowRead, RowWritten, PageRead, PageWritten, Synced, AttachDone, CreateDone};
    ghost use Rattle.bm_memrack.specs.MemRack.{view_of, IsDeviceCall, IsTornRow, IsTornPage};
    ghost use Rattle.bm_memrack.specs.SizeLemmas.{memory_well_formed};

    ghost tells_stands = { true };

    ghost tells_contents = { true };

    ghost view = { view_of };

    ghost consistent = { λ r. memory_well_formed r.store r.attached r.list.faults
        r.moves r.pages r.syncs (is_empty r.list.numbers.items) (is_some r.stop)
        r.list.faults_fit r.moves_fit r.pages_fit r.syncs_fit };

    fn attach(&mut self, dims: &Dims) -> Result<Found, AttachError>
        ensures attached { AttachDone true dims.now (view_of self.old) result (view_of self.new) }
        ensures counts { RaisesCounts 0 0 0 (view_of self.old) (view_of self.new) }
        ensures keeps { Keeps (view_of self.old) (view_of self.new) }
        ensures cause { HasCause (IsErrOf result AttachError.Failed)
            (view_of self.old) (view_of self.new) }
        ensures told { IsDeviceCall (IsErr result) self.old self.new }
    {
        self.attached = false;
        if fails(&mut self.list, &mut self.stop) {
            return Err(AttachError::Failed);
        }
        let found = match &self.store {
            None => Found::Absent,
            Some(store) => {
                if store.dims == *dims {
                    Found::Ready
                } else {
                    Found::Other
                }
            }
        };
        self.attached = found == Found::Ready;
        Ok(found)
    }

    fn create(&mut self, dims: &Dims) -> Result<(), CreateError>
        ensures created { CreateDone true true dims.now
            (view_of self.old) result (view_of self.new) }
        ensures counts { RaisesCounts 0 0 0 (view_of self.old) (view_of self.new) }
        ensures keeps { Keeps (view_of self.old) (view_of self.new) }
        ensures cause { HasCause (IsErrOf result CreateError.Failed)
            (view_of self.old) (view_of self.new) }
        ensures told { IsDeviceCall (IsErrOf result CreateError.Failed) self.old self.new }
    {
        self.attached = false;
        if fails(&mut self.list, &mut self.stop) {
            return Err(CreateError::Failed);
        }
        if self.store.is_some() {
            return Err(CreateError::Present);
        }
        match make_store(self.alloc, dims) {
            Ok(store) => {
                self.store = Some(store);
                Ok(())
            }
            Err(_) => Err(CreateError::OutOfMemory),
        }
    }

    fn read_row(&mut self, places: &[Option<u64>], bytes: &mut [u8]) -> Result<(), Failed>
        requires { RowFits (view_of self.old).attached places.now (length bytes.old) }
        ensures bytes { (dims : Dims) → (view_of self.old).attached ≡ Some dims
            → RowRead true dims (view_of self.old).contents places.now result bytes.old bytes.new }
        ensures state { SameState (view_of self.old) (view_of self.new) }
        ensures counts { RaisesCounts 1 0 0 (view_of self.old) (view_of self.new) }
        ensures keeps { Keeps (view_of self.old) (view_of self.new) }
        ensures cause { HasCause (IsErr result) (view_of self.old) (view_of self.new) }
        ensures told { IsDeviceCall (IsErr result) self.old self.new }
    {
        self.moves = self.moves.saturating_add(1);
        if fails(&mut self.list, &mut self.stop) {
            return Err(Failed);
        }
        match &self.store {
            Some(store) => store.read_row(places, bytes),
            None => unreachable!(),
        }
        Ok(())
    }

    fn write_row(&mut self, places: &[Option<u64>], bytes: &[u8]) -> Result<(), Failed>
        requires { RowFits (view_of self.old).attached places.now (length bytes.now) }
        ensures written { (dims : Dims) → (view_of self.old).attached ≡ Some dims
            → RowWritten true dims (view_of self.old) places.now bytes.now result
            (view_of self.new) }
        ensures torn { (dims : Dims) → (view_of self.old).attached ≡ Some dims
            → IsErr result → IsTornRow dims places.now bytes.now
            (view_of self.old).contents (view_of self.new).contents }
        ensures counts { RaisesCounts 1 0 0 (view_of self.old) (view_of self.new) }
        ensures keeps { Keeps (view_of self.old) (view_of self.new) }
        ensures cause { HasCause (IsErr result) (view_of self.old) (view_of self.new) }
        ensures told { IsDeviceCall (IsErr result) self.old self.new }
    {
        self.moves = self.moves.saturating_add(1);
        let fails = fails(&mut self.list, &mut self.stop);
        match &mut self.store {
            Some(store) => {
                let whole = store.dims.block as usize;
                store.write_row(places, bytes, taken_len(whole, fails))
            }
            None => unreachable!(),
        }
        outcome(fails)
    }

    fn read_page(&mut self, page: u16, bytes: &mut [u8; PAGE_BYTES]) -> Result<(), Failed>
        requires ready { IsAttached (view_of self.old).attached }
        requires page { page < 516 }
        ensures length { length bytes.new ≡ 512 }
        ensures bytes { PageRead true (view_of self.old).contents page result bytes.new }
        ensures state { SameState (view_of self.old) (view_of self.new) }
        ensures counts { RaisesCounts 0 1 0 (view_of self.old) (view_of self.new) }
        ensures keeps { Keeps (view_of self.old) (view_of self.new) }
        ensures cause { HasCause (IsErr result) (view_of self.old) (view_of self.new) }
        ensures told { IsDeviceCall (IsErr result) self.old self.new }
    {
        self.pages = self.pages.saturating_add(1);
        if fails(&mut self.list, &mut self.stop) {
            return Err(Failed);
        }
        match &self.store {
            Some(store) => store.read_page(page, bytes),
            None => unreachable!(),
        }
        Ok(())
    }

    fn write_page(&mut self, page: u16, bytes: &[u8; PAGE_BYTES]) -> Result<(), Failed>
        requires ready { IsAttached (view_of self.old).attached }
        requires page { page < 516 }
        ensures written { PageWritten true (view_of self.old) page bytes.now result
            (view_of self.new) }
        ensures torn { IsErr result → IsTornPage page bytes.now
            (view_of self.old).contents (view_of self.new).contents }
        ensures counts { RaisesCounts 0 1 0 (view_of self.old) (view_of self.new) }
        ensures keeps { Keeps (view_of self.old) (view_of self.new) }
        ensures cause { HasCause (IsErr result) (view_of self.old) (view_of self.new) }
        ensures told { IsDeviceCall (IsErr result) self.old self.new }
    {
        self.pages = self.pages.saturating_add(1);
        let fails = fails(&mut self.list, &mut self.stop);
        match &mut self.store {
            Some(store) => store.write_page(page, bytes, taken_len(PAGE_BYTES, fails)),
            None => unreachable!(),
        }
        outcome(fails)
    }

    fn sync(&mut self) -> Result<(), Failed>
        requires { IsAttached (view_of self.old).attached }
        ensures synced { Synced (view_of self.old) result (view_of self.new) }
        ensures counts { RaisesCounts 0 0 1 (view_of self.old) (view_of self.new) }
        ensures keeps { Keeps (view_of self.old) (view_of self.new) }
        ensures cause { HasCause (IsErr result) (view_of self.old) (view_of self.new) }
        ensures told { IsDeviceCall (IsErr result) self.old self.new }
    {
        self.syncs = self.syncs.saturating_add(1);
        if fails(&mut self.list, &mut self.stop) {
            return Err(Failed);
        }
        match &mut self.store {
            Some(store) => store.clean(),
            None => unreachable!(),
        }
        Ok(())
    }

    fn rows(&self) -> u64 {
        self.moves
    }
}

impl StopRack for MemRack {
    ghost use Rattle.std.specs.Prelude.{◌≡◌, true, false, Some, None};
    ghost use Rattle.bm_base.specs.declared.dims.Dims.{Dims};
    ghost use Rattle.bm_rack.specs.Sessions.{StopSet, Restarted};
    ghost use Rattle.bm_memrack.specs.CrashChoice.{LeavesChosen};
    ghost use Rattle.bm_memrack.specs.MemRack.{view_of};

    fn stop_after(&mut self, calls: u64)
        ensures set { StopSet true (view_of self.old) (view_of self.new) }
        ensures stop { self.new.stop ≡ Some calls }
        ensures list { self.new.list ≡ self.old.list }
    {
        self.stop = Some(calls);
    }

    fn stop_never(&mut self)
        ensures set { StopSet false (view_of self.old) (view_of self.new) }
        ensures stop { self.new.stop ≡ None }
        ensures list { self.new.list ≡ self.old.list }
    {
        self.stop = None;
    }

    fn restart(&mut self, pick: u64)
        ensures restarted { Restarted true true (view_of self.old) (view_of self.new) }
        ensures chosen { (dims : Dims) → (view_of self.old).stands ≡ Some dims
            → LeavesChosen dims pick (view_of self.old).dirty
            (view_of self.old).contents (view_of self.new).contents }
        ensures stop { self.new.stop ≡ None }
        ensures list { self.new.list ≡ self.old.list }
    {
        self.stop = None;
        if let Some(store) = &mut self.store {
            store.crash(pick);
        }
    }
}
