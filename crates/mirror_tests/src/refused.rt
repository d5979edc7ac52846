//! A rack that finds no memory where it makes nothing.

use bm_base::{Dims, Failed, PAGE_BYTES};
use bm_rack::{AttachError, CreateError, Found, Rack};

/// A rack whose calls are those of another one, but that every refusal of a create is want of memory.
#[derive(Drop)]
pub struct Refused<R: Rack + Drop> {
    inner: R,
}

impl<R: Rack + Drop> Refused<R> {
    /// The rack, with such refusals.
    pub fn new(inner: R) -> Refused<R> {
        Refused { inner }
    }
}

impl<R: Rack + Drop> Rack for Refused<R> {
    ghost tells_stands = { R.tells_stands };

    ghost tells_contents = { R.tells_contents };

    ghost view = { λ r. R.view r.inner };

    ghost consistent = { λ r. R.consistent r.inner };

    fn attach(&mut self, dims: &Dims) -> Result<Found, AttachError> {
        self.inner.attach(dims)
    }

    fn create(&mut self, dims: &Dims) -> Result<(), CreateError> {
        match self.inner.create(dims) {
            Ok(()) => Ok(()),
            Err(_) => Err(CreateError::OutOfMemory),
        }
    }

    fn read_row(&mut self, places: &[Option<u64>], bytes: &mut [u8]) -> Result<(), Failed> {
        self.inner.read_row(places, bytes)
    }

    fn write_row(&mut self, places: &[Option<u64>], bytes: &[u8]) -> Result<(), Failed> {
        self.inner.write_row(places, bytes)
    }

    fn read_page(&mut self, page: u16, bytes: &mut [u8; PAGE_BYTES]) -> Result<(), Failed> {
        self.inner.read_page(page, bytes)
    }

    fn write_page(&mut self, page: u16, bytes: &[u8; PAGE_BYTES]) -> Result<(), Failed> {
        self.inner.write_page(page, bytes)
    }

    fn sync(&mut self) -> Result<(), Failed> {
        self.inner.sync()
    }

    fn rows(&self) -> u64 {
        self.inner.rows()
    }
}
