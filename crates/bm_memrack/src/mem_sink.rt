//! A sink of bytes in memory.

ghost use Rattle.std.specs.Prelude.{◌≡◌, ◌≤◌, IsOk, IfOk, [], length, vec_capacity};

use crate::fault_list::FaultList;
use bm_base::{Failed, OutOfMemory};
use bm_rack::Sink;
use std::alloc::Global;

/// A sink of bytes in memory, whose writes fail as it was told and where its room is used up.
#[derive(Drop)]
pub struct MemSink {
    bytes: Vec<u8>,
    room: usize,
    most: usize,
    list: FaultList,
    ghost takes_some: { 1 ≤ most },
    ghost within: { length bytes.items ≤ room },
    ghost reserved: { room ≤ vec_capacity bytes },
}

impl MemSink {
    /// A sink with room for so many bytes, which it takes from memory here.
    ///
    /// `faults` lists the numbers of the writes that fail, counted from 1. A write where the room is
    /// used up fails too. Any other takes as many bytes as the smallest of `most`, the piece and the
    /// room left.
    pub fn new(
        alloc: Global,
        room: usize,
        most: usize,
        faults: Vec<u64>,
    ) -> Result<MemSink, OutOfMemory>
        requires { 1 ≤ most }
        ensures taken { IfOk result (λ sink. ⟦<MemSink as Sink>⟧.taken sink ≡ []) }
        ensures faults { IfOk result (λ sink. ⟦<MemSink as Sink>⟧.faults sink ≡ 0) }
        ensures room { IfOk result (λ sink. sink.room ≡ room) }
        ensures most { IfOk result (λ sink. sink.most ≡ most) }
        ensures numbers { IfOk result (λ sink. sink.list.numbers ≡ faults) }
        ensures calls { IfOk result (λ sink. sink.list.calls ≡ 0) }
        // no memory is asked for where there is no room
        ensures roomless { room ≡ 0 → IsOk result }
    {
        match Vec::with_capacity(alloc, room) {
            Ok(bytes) => Ok(MemSink {
                bytes,
                room,
                most,
                list: FaultList::new(faults),
            }),
            Err(_) => Err(OutOfMemory),
        }
    }

    /// The bytes that were taken.
    pub fn taken(&self) -> &[u8]
        ensures { result.now ≡ ⟦<MemSink as Sink>⟧.taken self.now }
    {
        &self.bytes
    }
}

impl Sink for MemSink {
    ghost use Rattle.std.specs.Prelude.{◌≡◌, ◌<◌, ◌≤◌, true, IsOk, IsErr, IfOk, min, length};
    ghost use Rattle.bm_base.specs.Count.{Rose};
    ghost use Rattle.bm_rack.specs.Sink.{SinkWritten};
    ghost use Rattle.bm_memrack.specs.ToldCall.{IsToldCall};
    ghost use Rattle.bm_memrack.specs.MemSink.{taken_by, room_left, is_full};

    ghost tells = { true };

    ghost taken = { taken_by };

    ghost faults = { λ s. s.list.faults };

    ghost counted = { λ s. s.list.faults_fit };

    fn write(&mut self, bytes: &[u8]) -> Result<usize, Failed>
        requires { 0 < length bytes.now }
        ensures written { SinkWritten true (taken_by self.old) bytes.now result
            (taken_by self.new) }
        ensures faults { self.old.list.faults ≤ self.new.list.faults }
        ensures quiet { IsOk result → self.new.list.faults ≡ self.old.list.faults }
        ensures cause { IsErr result → Rose self.old.list.faults self.new.list.faults }
        ensures told { IsToldCall (is_full self.old) (IsErr result) self.old.list self.new.list }
        ensures count { IfOk result
            (λ k. k ≡ min (min (length bytes.now) self.old.most) (room_left self.old)) }
        ensures room { self.new.room ≡ self.old.room }
        ensures most { self.new.most ≡ self.old.most }
    {
        let left = self.room - self.bytes.len();
        if self.list.fails(left == 0) {
            return Err(Failed);
        }
        let count = bytes.len().min(self.most).min(left);
        match self.bytes.extend_from_slice(&bytes[..count]) {
            Ok(()) => Ok(count),
            Err(_) => unreachable!(),
        }
    }
}
