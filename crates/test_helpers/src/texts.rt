//! Words of a line, and texts of jobs.

use std::alloc::{AllocError, Global};

/// The bit reversal of sixteen records of a byte, eight in memory, on two disks in blocks of two.
pub const REVERSAL: &str =
    "[shape]\nn = 4\nb = 1\nd = 1\nm = 3\nwidth = 1\n[map]\nkind = \"bit-reversal\"\n";

/// The bit reversal with progress made durable after each load.
pub const MARKED_REVERSAL: &str =
    "[shape]\nn = 4\nb = 1\nd = 1\nm = 3\nwidth = 1\n[map]\nkind = \"bit-reversal\"\n[run]\ncheckpoint = 1\n";

/// The Gray code on the same disks.
pub const GRAY: &str = "[shape]\nn = 4\nb = 1\nd = 1\nm = 3\nwidth = 1\n[map]\nkind = \"gray\"\n";

/// The Gray code with progress made durable after each load.
pub const MARKED_GRAY: &str =
    "[shape]\nn = 4\nb = 1\nd = 1\nm = 3\nwidth = 1\n[map]\nkind = \"gray\"\n[run]\ncheckpoint = 1\n";

/// The identity on the same disks.
pub const IDENTITY: &str =
    "[shape]\nn = 4\nb = 1\nd = 1\nm = 3\nwidth = 1\n[map]\nkind = \"identity\"\n";

/// The bit reversal on one disk.
pub const ONE_DISK: &str =
    "[shape]\nn = 4\nb = 1\nd = 0\nm = 2\nwidth = 1\n[map]\nkind = \"bit-reversal\"\n";

/// The bit reversal with four records in memory, on disks of the same dims as with eight.
pub const SMALL_MEMORY: &str =
    "[shape]\nn = 4\nb = 1\nd = 1\nm = 2\nwidth = 1\n[map]\nkind = \"bit-reversal\"\n";

/// A matrix of 1024 rows and columns of 8 bytes, transposed on four disks in 64 loads.
pub const TRANSPOSE: &str =
    "[shape]\nn = 20\nb = 7\nd = 2\nm = 14\nwidth = 8\n[map]\nkind = \"transpose\"\np = 10\n";

/// The words of a line, which stand one space apart.
pub fn words_of(alloc: Global, line: &str) -> Result<Vec<String>, AllocError> {
    let mut words = Vec::new(alloc);
    for word in line.split(' ') {
        words.push(String::from_str(alloc, word)?)?;
    }
    Ok(words)
}

/// A job text with these lines in the tables of its shape and of its map. Nothing where memory is
/// refused.
pub fn text_with(alloc: Global, shape: &str, map: &str) -> Option<String> {
    let mut text = String::new(alloc);
    text.push_str("[shape]\n").ok()?;
    text.push_str(shape).ok()?;
    text.push_str("\n[map]\n").ok()?;
    text.push_str(map).ok()?;
    Some(text)
}
