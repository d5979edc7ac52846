//! A rack that notes its calls in a list that both sides share.

use bm_base::{Dims, Failed, PAGE_BYTES};
use bm_mirror::Side;
use bm_rack::{AttachError, CreateError, Found, Rack};
use std::cell::RefCell;

/// The kind of a device call.
#[derive(Clone, Copy, Debug, PartialEq, Eq)]
pub enum Kind {
    Attach,
    Create,
    ReadRow,
    WriteRow,
    ReadPage,
    WritePage,
    Sync,
}

/// A call of one side.
#[derive(Clone, Copy, Debug, PartialEq, Eq)]
pub struct Note {
    pub side: Side,
    pub kind: Kind,
}

/// The call of this side.
pub const fn call_of(side: Side, kind: Kind) -> Note {
    Note { side, kind }
}

/// The notes of two sides. A call for which memory is refused is not noted.
pub type Notes = RefCell<Vec<Note>>;

/// A rack as one side, whose calls are those of another one.
#[derive(Drop)]
pub struct Noted<'a, R: Rack + Drop> {
    inner: R,
    side: Side,
    notes: &'a Notes,
}

impl<'a, R: Rack + Drop> Noted<'a, R> {
    /// The rack as this side.
    pub fn new(inner: R, side: Side, notes: &'a Notes) -> Noted<'a, R> {
        Noted { inner, side, notes }
    }
}

// Notes a call.
fn add_note(notes: &Notes, side: Side, kind: Kind) {
    if let Ok(mut list) = notes.try_borrow_mut() {
        let _ = list.push(Note { side, kind });
    }
}

impl<'a, R: Rack + Drop> Rack for Noted<'a, R> {
    ghost tells_stands = { R.tells_stands };

    ghost tells_contents = { R.tells_contents };

    ghost view = { λ r. R.view r.inner };

    ghost consistent = { λ r. R.consistent r.inner };

    fn attach(&mut self, dims: &Dims) -> Result<Found, AttachError> {
        add_note(self.notes, self.side, Kind::Attach);
        self.inner.attach(dims)
    }

    fn create(&mut self, dims: &Dims) -> Result<(), CreateError> {
        add_note(self.notes, self.side, Kind::Create);
        self.inner.create(dims)
    }

    fn read_row(&mut self, places: &[Option<u64>], bytes: &mut [u8]) -> Result<(), Failed> {
        add_note(self.notes, self.side, Kind::ReadRow);
        self.inner.read_row(places, bytes)
    }

    fn write_row(&mut self, places: &[Option<u64>], bytes: &[u8]) -> Result<(), Failed> {
        add_note(self.notes, self.side, Kind::WriteRow);
        self.inner.write_row(places, bytes)
    }

    fn read_page(&mut self, page: u16, bytes: &mut [u8; PAGE_BYTES]) -> Result<(), Failed> {
        add_note(self.notes, self.side, Kind::ReadPage);
        self.inner.read_page(page, bytes)
    }

    fn write_page(&mut self, page: u16, bytes: &[u8; PAGE_BYTES]) -> Result<(), Failed> {
        add_note(self.notes, self.side, Kind::WritePage);
        self.inner.write_page(page, bytes)
    }

    fn sync(&mut self) -> Result<(), Failed> {
        add_note(self.notes, self.side, Kind::Sync);
        self.inner.sync()
    }

    fn rows(&self) -> u64 {
        self.inner.rows()
    }
}
