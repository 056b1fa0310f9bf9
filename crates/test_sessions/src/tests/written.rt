//! Lines that are written to writers that fail, or keep what is written until they are flushed.

use kernel_replay::write_out;
use std::alloc::Global;
use std::io::{self, ErrorKind, Write};

/// Refuses each write.
#[derive(Drop)]
struct Closed;

impl Write for Closed {
    fn write(&mut self, _buf: &[u8]) -> io::Result<usize> {
        Err(io::Error::from(ErrorKind::BrokenPipe))
    }

    fn flush(&mut self) -> io::Result<()> {
        Ok(())
    }
}

/// Keeps what is written until it is flushed.
#[derive(Drop)]
struct Buffered {
    /// What wasn't flushed yet.
    waiting: Vec<u8>,
    /// What was.
    flushed: Vec<u8>,
}

impl Write for Buffered {
    fn write(&mut self, buf: &[u8]) -> io::Result<usize> {
        self.waiting.extend_from_slice(buf)?;
        Ok(buf.len())
    }

    fn flush(&mut self) -> io::Result<()> {
        self.flushed.append(&mut self.waiting)?;
        Ok(())
    }
}

/// Takes what is written, and fails to flush it.
#[derive(Drop)]
struct Full;

impl Write for Full {
    fn write(&mut self, buf: &[u8]) -> io::Result<usize> {
        Ok(buf.len())
    }

    fn flush(&mut self) -> io::Result<()> {
        Err(io::Error::from(ErrorKind::StorageFull))
    }
}

/// Whether lines are written and flushed.
fn are_flushed(alloc: Global) -> bool {
    let mut writer = Buffered {
        waiting: Vec::new(alloc),
        flushed: Vec::new(alloc),
    };
    let is_written = write_out(&mut writer, b"lines").is_ok();
    let are_flushed = writer.flushed.as_slice() == b"lines".as_slice();
    drop(writer);
    is_written && are_flushed
}

#[test]
fn what_is_written_is_flushed(rt: HostRuntime) {
    assert!(rt; are_flushed(rt.alloc()));
}

#[test]
fn what_cannot_be_written_or_flushed_is_told(rt: HostRuntime) {
    let closed = write_out(&mut Closed, b"lines").is_err();
    let full = write_out(&mut Full, b"lines").is_err();
    assert_eq!(rt; (closed, full), (true, true));
}
