//! The blocks and pages of a rack in memory.

ghost use Rattle.std.specs.Prelude.{◌≡◌, ℕ, ◌+◌, ◌*◌, ◌^◌, ◌<◌, ◌≤◌, length, slice_index_or, take, drop, set, replicate, true, false, Bool, List, Some, None, IfOk};
ghost use Rattle.std.specs.Fork.{slice_chunk};
ghost use borrow.Rule.Slice.PartMut.{put_mid};
ghost use Rattle.bm_memrack.specs.CrashChoice.{dirty_count, unit_after};
ghost use Rattle.bm_memrack.specs.BlockCopy.{AreOnDisks, BlocksRead, BlocksWritten, flat_at, flag_at};

use crate::block_copy::{copy_bytes, read_blocks, write_blocks};
use crate::crash_choice::choose_units;
use bm_base::{Dims, PAGE_BYTES, SLATE_BYTES, SLATE_PAGES};
use std::alloc::{AllocError, Global};

/// A rack's blocks in one list, disk after disk, its slate in another, and which of them are dirty.
#[derive(Drop)]
pub struct Store {
    /// The sizes.
    pub dims: Dims,
    /// The bytes of the blocks, disk after disk.
    pub flat: Vec<u8>,
    /// The bytes of the pages.
    pub slate: Vec<u8>,
    /// Which blocks are dirty, in the same order.
    pub dirty_blocks: Vec<bool>,
    /// Which pages are dirty.
    pub dirty_pages: Vec<bool>,
    ghost count: { dims.disks * dims.places < 2 ^ 63 },
    ghost flat_size: { length flat.items ≡ dims.disks * dims.places * dims.block },
    ghost slate_size: { length slate.items ≡ 264192 },
    ghost dirty_blocks_size: { length dirty_blocks.items ≡ dims.disks * dims.places },
    ghost dirty_pages_size: { length dirty_pages.items ≡ 516 },
}

/// A store of zeros with nothing dirty.
///
/// It is refused where memory is, and where its sizes are above what memory can have.
pub fn make_store(alloc: Global, dims: &Dims) -> Result<Store, AllocError>
    ensures dims { IfOk result (λ s. s.dims ≡ dims.now) }
    ensures flat { IfOk result (λ s. s.flat.items
        ≡ replicate (dims.now.disks * dims.now.places * dims.now.block) 0) }
    ensures slate { IfOk result (λ s. s.slate.items ≡ replicate 264192 0) }
    ensures dirty_blocks { IfOk result (λ s. s.dirty_blocks.items
        ≡ replicate (dims.now.disks * dims.now.places) false) }
    ensures dirty_pages { IfOk result (λ s. s.dirty_pages.items ≡ replicate 516 false) }
{
    let Some(count) = (dims.disks as usize).checked_mul(dims.places as usize) else {
        return Err(AllocError);
    };
    if count >= 1 << 63 {
        return Err(AllocError);
    }
    let Some(size) = count.checked_mul(dims.block as usize) else {
        return Err(AllocError);
    };
    Ok(Store {
        dims: *dims,
        flat: vec![in alloc; 0; size]?,
        slate: vec![in alloc; 0; SLATE_BYTES]?,
        dirty_blocks: vec![in alloc; false; count]?,
        dirty_pages: vec![in alloc; false; SLATE_PAGES as usize]?,
    })
}

// Makes each flag false.
fn clear_flags(flags: &mut [bool])
    ensures { (k : ℕ) → flag_at flags.new k ≡ false }
{
    for flag in flags.iter_mut() {
        *flag = false;
    }
}

impl Store {
    /// Reads the blocks of a row into the bytes of their disks.
    pub fn read_row(&self, places: &[Option<u64>], bytes: &mut [u8])
        requires disks { length places.now ≡ self.now.dims.disks }
        requires below { AreOnDisks self.now.dims places.now }
        requires bytes { length bytes.old ≡ self.now.dims.disks * self.now.dims.block }
        ensures { BlocksRead self.now.dims self.now.dims.disks
            (flat_at self.now.dims self.now.flat.items) places.now bytes.old bytes.new }
    {
        read_blocks(&self.dims, &self.flat, places, bytes);
    }

    /// Writes the first `len` bytes of each block of a row, and makes these blocks dirty.
    pub fn write_row(&mut self, places: &[Option<u64>], bytes: &[u8], len: usize)
        requires disks { length places.now ≡ self.old.dims.disks }
        requires below { AreOnDisks self.old.dims places.now }
        requires bytes { length bytes.now ≡ self.old.dims.disks * self.old.dims.block }
        requires len { len ≤ self.old.dims.block }
        ensures written { BlocksWritten self.old.dims self.old.dims.disks places.now bytes.now len
            self.old.flat.items self.old.dirty_blocks.items
            self.new.flat.items self.new.dirty_blocks.items }
        ensures dims { self.new.dims ≡ self.old.dims }
        ensures slate { self.new.slate ≡ self.old.slate }
        ensures dirty_pages { self.new.dirty_pages ≡ self.old.dirty_pages }
    {
        write_blocks(
            &self.dims,
            &mut self.flat,
            &mut self.dirty_blocks,
            places,
            bytes,
            len,
        );
    }

    /// Reads a page.
    pub fn read_page(&self, page: u16, bytes: &mut [u8; PAGE_BYTES])
        requires { page < 516 }
        ensures length { length bytes.new ≡ 512 }
        ensures bytes { bytes.new ≡ slice_chunk self.now.slate.items 512 page }
    {
        let from = page as usize * PAGE_BYTES;
        bytes.copy_from_slice(&self.slate[from..from + PAGE_BYTES]);
    }

    /// Writes the first `len` bytes of a page, and makes it dirty.
    pub fn write_page(&mut self, page: u16, bytes: &[u8; PAGE_BYTES], len: usize)
        requires page { page < 516 }
        requires len { len ≤ 512 }
        ensures slate { self.new.slate.items
            ≡ put_mid (page * 512) len self.old.slate.items (take len bytes.now) }
        ensures dirty_pages { self.new.dirty_pages.items
            ≡ set self.old.dirty_pages.items page true }
        ensures dims { self.new.dims ≡ self.old.dims }
        ensures flat { self.new.flat ≡ self.old.flat }
        ensures dirty_blocks { self.new.dirty_blocks ≡ self.old.dirty_blocks }
    {
        copy_bytes(&mut self.slate, page as usize * PAGE_BYTES, bytes, 0, len);
        self.dirty_pages[page as usize] = true;
    }

    /// Makes everything clean.
    pub fn clean(&mut self)
        ensures dims { self.new.dims ≡ self.old.dims }
        ensures flat { self.new.flat ≡ self.old.flat }
        ensures slate { self.new.slate ≡ self.old.slate }
        ensures dirty_blocks { (k : ℕ) → flag_at self.new.dirty_blocks.items k ≡ false }
        ensures dirty_pages { (k : ℕ) → flag_at self.new.dirty_pages.items k ≡ false }
    {
        clear_flags(&mut self.dirty_blocks);
        clear_flags(&mut self.dirty_pages);
    }

    /// Leaves of each dirty unit what `pick` chooses, with nothing dirty.
    ///
    /// The dirty units are counted from 0: pages first, and then blocks by disk and place.
    pub fn crash(&mut self, pick: u64)
        ensures dims { self.new.dims ≡ self.old.dims }
        ensures pages { (k : ℕ) → k < 516 → slice_chunk self.new.slate.items 512 k
            ≡ unit_after (flag_at self.old.dirty_pages.items) 0 pick k
            (slice_chunk self.old.slate.items 512 k) }
        ensures blocks { (k : ℕ) → k < self.old.dims.disks * self.old.dims.places
            → slice_chunk self.new.flat.items self.old.dims.block k
            ≡ unit_after (flag_at self.old.dirty_blocks.items)
            (dirty_count (flag_at self.old.dirty_pages.items) 516) pick k
            (slice_chunk self.old.flat.items self.old.dims.block k) }
        ensures clean_blocks { (k : ℕ) → flag_at self.new.dirty_blocks.items k ≡ false }
        ensures clean_pages { (k : ℕ) → flag_at self.new.dirty_pages.items k ≡ false }
    {
        let block = self.dims.block as usize;
        let next = choose_units(&self.dirty_pages, &mut self.slate, PAGE_BYTES, 0, pick);
        choose_units(&self.dirty_blocks, &mut self.flat, block, next, pick);
        self.clean();
    }
}
