//! Sources of bytes in memory.

ghost use Rattle.std.specs.Prelude.{◌≡◌, ◌≤◌, ◌++◌, min, length, take, drop};
ghost use Rattle.std.proofs.Common.{rules};

use crate::fault_list::FaultList;
use bm_base::Failed;
use bm_rack::Source;

// Bytes of which a front was given.
#[derive(Drop)]
struct Unread {
    bytes: Vec<u8>,
    at: usize,
    ghost within: { at ≤ length bytes.items },
}

impl Unread {
    // None was given yet.
    fn new(bytes: Vec<u8>) -> Unread
        ensures { drop result.at result.bytes.items ≡ bytes.items }
    {
        Unread { bytes, at: 0 }
    }

    // Gives the next bytes, at most so many, and says how many.
    fn give(&mut self, into: &mut [u8], most: usize) -> usize
        ensures count { result
            ≡ min (min (length into.old) most) (length (drop self.old.at self.old.bytes.items)) }
        ensures given { into.new
            ≡ take result (drop self.old.at self.old.bytes.items) ++ drop result into.old }
        ensures rest { drop self.new.at self.new.bytes.items
            ≡ drop result (drop self.old.at self.old.bytes.items) }
    {
        let count = into.len().min(most).min(self.bytes.len() - self.at);
        into[..count].copy_from_slice(&self.bytes[self.at..self.at + count]);
        self.at += count;
        count
    }
}

/// A source of bytes in memory, whose reads fail as it was told.
#[derive(Drop)]
pub struct MemSource {
    unread: Unread,
    most: usize,
    list: FaultList,
    ghost gives_some: { 1 ≤ most },
}

impl MemSource {
    /// A source of these bytes.
    ///
    /// `faults` lists the numbers of the reads that fail, counted from 1. Any other read gives as
    /// many bytes as the smallest of `most`, the room lent and what is left.
    pub fn new(bytes: Vec<u8>, most: usize, faults: Vec<u64>) -> MemSource
        requires { 1 ≤ most }
        ensures left { ⟦<MemSource as Source>⟧.left result ≡ bytes.items }
        ensures faults { ⟦<MemSource as Source>⟧.faults result ≡ 0 }
        ensures most { result.most ≡ most }
        ensures numbers { result.list.numbers ≡ faults }
        ensures calls { result.list.calls ≡ 0 }
    {
        MemSource {
            unread: Unread::new(bytes),
            most,
            list: FaultList::new(faults),
        }
    }
}

impl Source for MemSource {
    ghost use Rattle.std.specs.Prelude.{◌≡◌, ◌<◌, ◌≤◌, true, false, IsOk, IsErr, IfOk, min, length};
    ghost use Rattle.bm_base.specs.Count.{Rose};
    ghost use Rattle.bm_rack.specs.Source.{SourceRead};
    ghost use Rattle.bm_memrack.specs.ToldCall.{IsToldCall};
    ghost use Rattle.bm_memrack.specs.MemSource.{mem_left};

    ghost tells = { true };

    ghost left = { mem_left };

    ghost faults = { λ s. s.list.faults };

    ghost counted = { λ s. s.list.faults_fit };

    fn read(&mut self, into: &mut [u8]) -> Result<usize, Failed>
        requires { 0 < length into.old }
        ensures read { SourceRead true (mem_left self.old) (length into.old) result
            into.new (mem_left self.new) }
        ensures faults { self.old.list.faults ≤ self.new.list.faults }
        ensures quiet { IsOk result → self.new.list.faults ≡ self.old.list.faults }
        ensures cause { IsErr result → Rose self.old.list.faults self.new.list.faults }
        ensures told { IsToldCall false (IsErr result) self.old.list self.new.list }
        ensures count { IfOk result
            (λ k. k ≡ min (min (length into.old) self.old.most) (length (mem_left self.old))) }
        ensures most { self.new.most ≡ self.old.most }
    {
        if self.list.fails(false) {
            return Err(Failed);
        }
        Ok(self.unread.give(into, self.most))
    }
}

/// A source of bytes in memory that never fails.
#[derive(Drop)]
pub struct SureSource {
    unread: Unread,
}

impl SureSource {
    /// A source of these bytes. Each read gives as many of them as there is room.
    pub fn new(bytes: Vec<u8>) -> SureSource
        ensures left { ⟦<SureSource as Source>⟧.left result ≡ bytes.items }
        ensures faults { ⟦<SureSource as Source>⟧.faults result ≡ 0 }
    {
        SureSource {
            unread: Unread::new(bytes),
        }
    }
}

impl Source for SureSource {
    ghost use Rattle.std.specs.Prelude.{◌≡◌, ◌<◌, true, IsOk, IfOk, min, length};
    ghost use Rattle.bm_rack.specs.Source.{SourceRead};
    ghost use Rattle.bm_memrack.specs.MemSource.{sure_left};

    ghost tells = { true };

    ghost left = { sure_left };

    ghost faults = { λ s. 0 };

    ghost counted = { λ s. Prim.search rules };

    fn read(&mut self, into: &mut [u8]) -> Result<usize, Failed>
        requires { 0 < length into.old }
        ensures read { SourceRead true (sure_left self.old) (length into.old) result
            into.new (sure_left self.new) }
        ensures sure { IsOk result }
        ensures count { IfOk result (λ k. k ≡ min (length into.old) (length (sure_left self.old))) }
    {
        let most = into.len();
        Ok(self.unread.give(into, most))
    }
}
