//! The limits of the program, each of them once.
//!
//! Definitions and clauses state the same limits as plain numbers. So a limit that is changed here
//! alone is no longer proved.

/// The most bits of an address.
pub const MOST_ADDRESS_BITS: u8 = 52;

/// The most bits of a disk's number.
pub const MOST_DISK_BITS: u8 = 6;

/// The most disks of a rack.
pub const MOST_DISKS: u32 = 64;

/// The most bytes of a record.
pub const MOST_WIDTH: u16 = 4096;

/// A memory load has at most 2 to this power of bytes.
pub const MOST_LOAD_BITS: u8 = 30;

/// A disk of three areas has at most 2 to this power of bytes.
pub const MOST_DISK_BYTES_BITS: u8 = 63;

/// The most passes of a plan.
pub const MOST_PASSES: u16 = 256;

/// The most passes of a job that has checkpoints within its passes.
pub const MOST_CHECKPOINT_PASSES: u16 = 254;

/// The most bytes of a job text.
pub const MOST_TEXT_BYTES: usize = 65536;

/// The bytes that are asked for of a job source: one more than a job text has at most.
pub const TEXT_ROOM: usize = MOST_TEXT_BYTES + 1;

/// The pages of a slate.
pub const SLATE_PAGES: u16 = 516;

/// The bytes of a page.
pub const PAGE_BYTES: usize = 512;

/// The bytes of a slate.
pub const SLATE_BYTES: usize = SLATE_PAGES as usize * PAGE_BYTES;

/// The bytes of a number, in records of one number each.
pub const NUMBER_BYTES: usize = 8;

/// What stands for the number of a checkpoint's slot where no slot counts. The slots are 0 and 1.
pub const NO_SLOT: u8 = 2;
