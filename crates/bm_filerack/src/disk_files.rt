//! The open files of a rack that is attached.

ghost use Rattle.std.specs.Prelude.{◌≡◌, ◌≢◌, ◌*◌, ◌^◌, ◌<◌, ℕ, false, length, Some, None, All, OnOk};
ghost use Rattle.bm_rack.specs.Calls.{RowFits, place_on, disk_bytes};

use crate::synced_file::SyncedFile;
use bm_base::{Dims, PAGE_BYTES};
use std::io;
use std::os::unix::fs::FileExt;
use std::rt::Files;

/// The open files of a rack that is attached.
#[derive(Drop)]
pub struct DiskFiles<F: Files> {
    dims: Dims,
    slate: SyncedFile<F::File>,
    disks: Vec<SyncedFile<F::File>>,
    ghost all: { length disks.items ≡ dims.disks },
    ghost size: { dims.places * dims.block < 2 ^ 63 },
}

impl<F: Files> DiskFiles<F> {
    /// The slate and the disks of these sizes.
    pub fn new(
        dims: &Dims,
        slate: SyncedFile<F::File>,
        disks: Vec<SyncedFile<F::File>>,
    ) -> DiskFiles<F>
        requires all { length disks.items ≡ dims.now.disks }
        requires size { dims.now.places * dims.now.block < 2 ^ 63 }
        ensures { result.dims ≡ dims.now }
    {
        DiskFiles {
            dims: *dims,
            slate,
            disks,
        }
    }

    /// Makes durable what was written, in the files that were written.
    pub fn sync(&mut self) -> io::Result<()>
        ensures dims { self.new.dims ≡ self.old.dims }
        ensures disks { OnOk result (All (λ file. file.is_written ≡ false) self.new.disks.items) }
        ensures slate { OnOk result (self.new.slate.is_written ≡ false) }
    {
        for disk in self.disks.iter_mut() {
            disk.sync()?;
        }
        self.slate.sync()
    }
}

impl<F: Files> DiskFiles<F>
where
    F::File: FileExt,
{
    // Reads a block into the bytes of its disk.
    fn read_block(&self, disk: usize, place: u64, bytes: &mut [u8]) -> io::Result<()>
        requires disk { disk < self.now.dims.disks }
        requires place { place < self.now.dims.places }
        requires bytes { length bytes.old ≡ self.now.dims.disks * self.now.dims.block }
        ensures others { (other : ℕ) → other ≢ disk
            → disk_bytes self.now.dims other bytes.new ≡ disk_bytes self.now.dims other bytes.old }
    {
        let block = self.dims.block as usize;
        let start = disk * block;
        self.disks[disk].read_unit(place, &mut bytes[start..start + block])
    }

    // Writes a block from the bytes of its disk.
    fn write_block(&mut self, disk: usize, place: u64, bytes: &[u8]) -> io::Result<()>
        requires disk { disk < self.old.dims.disks }
        requires place { place < self.old.dims.places }
        requires bytes { length bytes.now ≡ self.old.dims.disks * self.old.dims.block }
        ensures { self.new.dims ≡ self.old.dims }
    {
        let block = self.dims.block as usize;
        let start = disk * block;
        self.disks[disk].write_unit(place, &bytes[start..start + block])
    }

    /// Reads the blocks of a row. The bytes of disks that take no part stay.
    pub fn read_row(&self, places: &[Option<u64>], bytes: &mut [u8]) -> io::Result<()>
        requires { RowFits (Some self.now.dims) places.now (length bytes.old) }
        ensures resting { (disk : ℕ) → disk < self.now.dims.disks → place_on places.now disk ≡ None
            → disk_bytes self.now.dims disk bytes.new ≡ disk_bytes self.now.dims disk bytes.old }
    {
        for (disk, place) in places.iter().enumerate() {
            if let Some(place) = *place {
                self.read_block(disk, place, bytes)?;
            }
        }
        Ok(())
    }

    /// Writes the blocks of a row.
    pub fn write_row(&mut self, places: &[Option<u64>], bytes: &[u8]) -> io::Result<()>
        requires { RowFits (Some self.old.dims) places.now (length bytes.now) }
        ensures { self.new.dims ≡ self.old.dims }
    {
        for (disk, place) in places.iter().enumerate() {
            if let Some(place) = *place {
                self.write_block(disk, place, bytes)?;
            }
        }
        Ok(())
    }

    /// Reads a page of the slate.
    pub fn read_page(&self, page: u16, bytes: &mut [u8; PAGE_BYTES]) -> io::Result<()> {
        self.slate.read_unit(u64::from(page), bytes)
    }

    /// Writes a page of the slate.
    pub fn write_page(&mut self, page: u16, bytes: &[u8; PAGE_BYTES]) -> io::Result<()>
        ensures { self.new.dims ≡ self.old.dims }
    {
        self.slate.write_unit(u64::from(page), bytes)
    }
}
