//! What is called on files, and which calls fail.

use std::alloc::Global;
use std::cell::{Cell, RefCell};
use std::io;
use std::io::ErrorKind;

/// What was called, a line for each call.
#[derive(Drop)]
pub struct Notes {
    alloc: Global,
    text: RefCell<String>,
    left: Cell<u64>,
    stops: Cell<bool>,
    room: Cell<Option<u64>>,
    holds_syncs: Cell<bool>,
}

impl Notes {
    /// Nothing was called, and no call fails.
    pub fn new(alloc: Global) -> Notes {
        Notes {
            alloc,
            text: RefCell::new(String::new(alloc)),
            left: Cell::new(0),
            stops: Cell::new(false),
            room: Cell::new(None),
            holds_syncs: Cell::new(false),
        }
    }

    /// Lets the call of this number from now on fail; none where it is 0.
    pub fn fail(&self, number: u64) {
        self.left.set(number);
        self.stops.set(false);
    }

    /// Lets the call of this number from now on fail, and each after it, as where a program is
    /// stopped; none where it is 0.
    pub fn stop(&self, number: u64) {
        self.left.set(number);
        self.stops.set(true);
    }

    /// Gives the disk room for so many writing calls from now on, after which it is full; none where
    /// it is never full. To make a file, and to lengthen, write or sync one, are writing calls.
    ///
    /// Of the bytes of a write that finds the disk full the first half is written.
    pub fn fill(&self, room: Option<u64>) {
        self.room.set(room);
    }

    /// Passes no sync on to the system from now on. They take most of the time of a test, and only a
    /// loss of power could show them.
    pub fn hold_syncs(&self) {
        self.holds_syncs.set(true);
    }

    /// What was called since this was asked last.
    pub fn take(&self) -> String {
        match self.text.try_replace(String::new(self.alloc)) {
            Ok(text) => text,
            Err(_) => String::new(self.alloc),
        }
    }

    /// The allocator of the notes.
    pub(crate) fn alloc(&self) -> Global {
        self.alloc
    }

    /// Whether syncs are passed on to the system.
    pub(crate) fn passes_syncs(&self) -> bool {
        !self.holds_syncs.get()
    }

    /// Counts a call, which fails where it is its turn.
    pub(crate) fn count(&self) -> io::Result<()> {
        let left = self.left.get();
        if left == 1 {
            if !self.stops.get() {
                self.left.set(0);
            }
            Err(io::Error::from(ErrorKind::Other))
        } else {
            self.left.set(left.saturating_sub(1));
            Ok(())
        }
    }

    /// Takes the room of a writing call. It fails on a full disk.
    pub(crate) fn take_room(&self) -> io::Result<()> {
        match self.room.get() {
            None => Ok(()),
            Some(0) => Err(io::Error::from(ErrorKind::StorageFull)),
            Some(room) => {
                self.room.set(Some(room.saturating_sub(1)));
                Ok(())
            }
        }
    }

    /// Notes a call, and counts it.
    pub(crate) fn note(&self, line: String) -> io::Result<()> {
        if let Ok(mut text) = self.text.try_borrow_mut() {
            text.push_str(line.as_str())?;
            text.push_str("\n")?;
        }
        self.count()
    }
}
