//! A rack that notes the device calls which are made of it.

ghost use Rattle.std.specs.Prelude.{◌≡◌};

use bm_base::{Dims, Failed, PAGE_BYTES};
use bm_rack::{AttachError, CreateError, Found, Rack};
use std::alloc::Global;

/// A device call: its kind, and the page, or the places on the first two disks.
#[derive(Clone, Copy, Debug, PartialEq, Eq)]
pub enum Call {
    Attach,
    Create,
    ReadRow { places: [Option<u64>; 2] },
    WriteRow { places: [Option<u64>; 2] },
    ReadPage { page: u16 },
    WritePage { page: u16 },
    Sync,
}

/// A rack whose calls are those of another one, and are noted in order. One for which memory is
/// refused is not noted.
#[derive(Drop)]
pub struct Recorder<R: Rack + Drop> {
    inner: R,
    calls: Vec<Call>,
}

// The places on the first two disks.
fn first_two(places: &[Option<u64>]) -> [Option<u64>; 2] {
    [
        places.first().copied().flatten(),
        places.get(1).copied().flatten(),
    ]
}

impl<R: Rack + Drop> Recorder<R> {
    /// Nothing is noted yet.
    pub fn new(alloc: Global, inner: R) -> Recorder<R> {
        Recorder {
            inner,
            calls: Vec::new(alloc),
        }
    }

    /// The calls so far.
    pub fn calls(&self) -> &[Call] {
        self.calls.as_slice()
    }

    /// Forgets the calls so far.
    pub fn forget(&mut self)
        ensures { self.new.inner ≡ self.old.inner }
    {
        self.calls.clear();
    }
}

impl<R: Rack + Drop> Rack for Recorder<R> {
    ghost tells_stands = { R.tells_stands };

    ghost tells_contents = { R.tells_contents };

    ghost view = { λ r. R.view r.inner };

    ghost consistent = { λ r. R.consistent r.inner };

    fn attach(&mut self, dims: &Dims) -> Result<Found, AttachError> {
        let _ = self.calls.push(Call::Attach);
        self.inner.attach(dims)
    }

    fn create(&mut self, dims: &Dims) -> Result<(), CreateError> {
        let _ = self.calls.push(Call::Create);
        self.inner.create(dims)
    }

    fn read_row(&mut self, places: &[Option<u64>], bytes: &mut [u8]) -> Result<(), Failed> {
        let _ = self.calls.push(Call::ReadRow {
            places: first_two(places),
        });
        self.inner.read_row(places, bytes)
    }

    fn write_row(&mut self, places: &[Option<u64>], bytes: &[u8]) -> Result<(), Failed> {
        let _ = self.calls.push(Call::WriteRow {
            places: first_two(places),
        });
        self.inner.write_row(places, bytes)
    }

    fn read_page(&mut self, page: u16, bytes: &mut [u8; PAGE_BYTES]) -> Result<(), Failed> {
        let _ = self.calls.push(Call::ReadPage { page });
        self.inner.read_page(page, bytes)
    }

    fn write_page(&mut self, page: u16, bytes: &[u8; PAGE_BYTES]) -> Result<(), Failed> {
        let _ = self.calls.push(Call::WritePage { page });
        self.inner.write_page(page, bytes)
    }

    fn sync(&mut self) -> Result<(), Failed> {
        let _ = self.calls.push(Call::Sync);
        self.inner.sync()
    }

    fn rows(&self) -> u64 {
        self.inner.rows()
    }
}
