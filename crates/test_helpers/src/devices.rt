//! Devices in memory.

use bm_memrack::{MemRack, SureSource};
use std::alloc::Global;

/// A rack in memory whose calls of these numbers fail. Nothing where memory is refused.
pub fn rack_of(alloc: Global, faults: &[u64]) -> Option<MemRack> {
    Some(MemRack::new(alloc, faults.to_vec(alloc).ok()?))
}

/// These bytes as a source. Nothing where memory is refused.
pub fn bytes_source(alloc: Global, bytes: &[u8]) -> Option<SureSource> {
    Some(SureSource::new(bytes.to_vec(alloc).ok()?))
}

/// A text as a source. Nothing where memory is refused.
pub fn text_source(alloc: Global, text: &str) -> Option<SureSource> {
    bytes_source(alloc, text.as_bytes())
}
