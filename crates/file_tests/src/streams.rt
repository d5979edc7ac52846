//! Sources and sinks over real files, and over readers and writers that fail.

use bm_base::Failed;
use bm_filerack::{FileSource, StdSink, StdSource};
use bm_rack::{Sink, Source, write_all_of};
use file_helpers::enter_empty_folder;
use std::fs::File;
use std::io::{ErrorKind, Write};
use std::test::Fail;
use std::{fs, io};

#[test]
fn a_file_is_read_to_its_end(rt: HostRuntime) -> Result<(), Fail> {
    enter_empty_folder(&rt, "a_file_is_read_to_its_end")?;
    let mut into = [0u8; 4];
    fs::write(&rt, "text", b"abcde")?;
    let mut source = FileSource::new(&rt, "text");
    assert_eq!(rt; source.read(&mut into), Ok(4));
    assert_eq!(rt; into, *b"abcd");
    assert_eq!(rt; source.read(&mut into), Ok(1));
    assert_eq!(rt; into[0], b'e');
    assert_eq!(rt; source.read(&mut into), Ok(0));
    let mut missing = FileSource::new(&rt, "missing");
    assert_eq!(rt; missing.read(&mut into), Err(Failed));
    Ok(())
}

#[test]
fn a_reader_is_a_source(rt: HostRuntime) -> Result<(), Fail> {
    enter_empty_folder(&rt, "a_reader_is_a_source")?;
    let mut into = [0u8; 4];
    fs::write(&rt, "text", b"abc")?;
    let mut source = StdSource::new(File::open(&rt, "text")?);
    assert_eq!(rt; source.read(&mut into), Ok(3));
    assert_eq!(rt; into, *b"abc\0");
    assert_eq!(rt; source.read(&mut into), Ok(0));
    let mut folder = StdSource::new(File::open(&rt, ".")?);
    assert_eq!(rt; folder.read(&mut into), Err(Failed));
    Ok(())
}

// A writer that takes all bytes, and loses them at the flush.
#[derive(Drop)]
struct LosingWriter {
    taken: usize,
}

impl Write for LosingWriter {
    fn write(&mut self, bytes: &[u8]) -> io::Result<usize> {
        self.taken = self.taken.saturating_add(bytes.len());
        Ok(bytes.len())
    }

    fn flush(&mut self) -> io::Result<()> {
        Err(io::Error::from(ErrorKind::Other))
    }
}

#[test]
fn a_writer_is_a_sink(rt: HostRuntime) -> Result<(), Fail> {
    enter_empty_folder(&rt, "a_writer_is_a_sink")?;
    let mut sink = StdSink::new(File::create(&rt, "text")?);
    assert_eq!(rt; sink.write(b"abc"), Ok(3));
    assert_eq!(rt; sink.write(b"de"), Ok(2));
    let text = fs::read(&rt, "text")?;
    assert_eq!(rt; text.as_slice(), b"abcde".as_slice());
    let mut full = StdSink::new(File::options().write(true).open(&rt, "/dev/full")?);
    assert_eq!(rt; full.write(b"abc"), Err(Failed));
    let mut losing = StdSink::new(LosingWriter { taken: 0 });
    assert_eq!(rt; losing.write(b"abc"), Err(Failed));
    Ok(())
}

// A writer that takes one byte a call.
#[derive(Drop)]
struct SlowWriter {
    file: File,
}

impl Write for SlowWriter {
    fn write(&mut self, bytes: &[u8]) -> io::Result<usize> {
        self.file.write(&bytes[..bytes.len().min(1)])
    }

    fn flush(&mut self) -> io::Result<()> {
        self.file.flush()
    }
}

#[test]
fn a_writer_that_takes_one_byte_gets_all(rt: HostRuntime) -> Result<(), Fail> {
    enter_empty_folder(&rt, "a_writer_that_takes_one_byte_gets_all")?;
    let file = File::create(&rt, "text")?;
    let mut sink = StdSink::new(SlowWriter { file });
    assert_eq!(rt; sink.write(b"abc"), Ok(1));
    assert_eq!(rt; write_all_of(&mut sink, b"bcde"), Ok(()));
    let text = fs::read(&rt, "text")?;
    assert_eq!(rt; text.as_slice(), b"abcde".as_slice());
    Ok(())
}
