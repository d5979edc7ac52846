//! Loads and dumps of disks in memory.

ghost use Rattle.std.specs.Prelude.{◌≡◌, IsTrue, Some};
ghost use Rattle.bm_base.specs.Shape.{dims_of};

use bm_base::{Area, Failed, Shape};
use bm_bufs::Bufs;
use bm_disks::{DumpError, LoadError, dump_records, load_records};
use bm_memrack::{MemSink, MemSource};
use bm_rack::{Rack, Sink};
use std::alloc::Global;

/// What a load of these bytes answers, from a source that gives five at most in a read.
pub fn loaded<R: Rack>(
    alloc: Global,
    rack: &mut R,
    shape: &Shape,
    bytes: &[u8],
) -> Option<Result<(), LoadError>>
    requires { (R.view rack.old).attached ≡ Some (dims_of shape.now) }
    ensures { (R.view rack.new).attached ≡ Some (dims_of shape.now) }
{
    let mut bufs = Bufs::new(alloc, shape).ok()?;
    let mut given = Vec::new(alloc);
    given.extend_from_slice(bytes).ok()?;
    let mut input = MemSource::new(given, 5, Vec::new(alloc));
    Some(load_records(rack, shape, &mut input, &mut bufs))
}

/// A sink that notes the lengths of the pieces that it is handed.
#[derive(Drop)]
pub struct Pieces<K: Sink + Drop> {
    inner: K,
    lengths: Vec<usize>,
}

impl<K: Sink + Drop> Sink for Pieces<K> {
    ghost tells = { K.tells };

    ghost taken = { λ s. K.taken s.inner };

    ghost faults = { λ s. K.faults s.inner };

    ghost counted = { λ s. K.counted s.inner };

    fn write(&mut self, bytes: &[u8]) -> Result<usize, Failed> {
        let _ = self.lengths.push(bytes.len());
        self.inner.write(bytes)
    }
}

/// A dump: what it answers, the bytes that came, and the lengths of the pieces that they came in.
#[derive(Debug, PartialEq, Drop)]
pub struct Dump {
    pub answer: Result<(), DumpError>,
    pub bytes: Vec<u8>,
    pub pieces: Vec<usize>,
}

/// What a dump of an area gives, where the writes of these numbers fail.
pub fn dumped<R: Rack>(
    alloc: Global,
    rack: &mut R,
    shape: &Shape,
    area: Area,
    faults: &[u64],
) -> Option<Dump>
    requires { (R.view rack.old).attached ≡ Some (dims_of shape.now) }
    ensures { (R.view rack.new).attached ≡ Some (dims_of shape.now) }
{
    let mut bufs = Bufs::new(alloc, shape).ok()?;
    let mut numbers = Vec::new(alloc);
    numbers.extend_from_slice(faults).ok()?;
    let mut out = Pieces {
        inner: MemSink::new(alloc, 64, 64, numbers).ok()?,
        lengths: Vec::new(alloc),
    };
    let answer = dump_records(rack, shape, area, &mut out, &mut bufs);
    let mut bytes = Vec::new(alloc);
    bytes.extend_from_slice(out.inner.taken()).ok()?;
    Some(Dump {
        answer,
        bytes,
        pieces: out.lengths,
    })
}
