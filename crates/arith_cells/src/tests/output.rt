//! What is printed, and what a read, a write or a flush that fails ends in.

use crate::lines::run_input;
use crate::status::Status;
use arith_shell::ShellArith;
use std::alloc::Global;
use std::io::{self, BufReader, ErrorKind, Read, Write};
use std::test::Fail;

/// Keeps what is written until it is flushed.
#[derive(Drop)]
struct Buffered {
    /// What was written since the last flush.
    waiting: Vec<u8>,
    /// What was flushed.
    flushed: Vec<u8>,
}

impl Write for Buffered {
    fn write(&mut self, buf: &[u8]) -> io::Result<usize> {
        self.waiting.extend_from_slice(buf)?;
        Ok(buf.len())
    }

    fn flush(&mut self) -> io::Result<()> {
        self.flushed.append(&mut self.waiting)?;
        Ok(())
    }
}

/// Takes so many writes, and refuses each one behind them.
#[derive(Drop)]
struct Closing {
    /// How many writes it still takes.
    left: u64,
}

impl Write for Closing {
    fn write(&mut self, buf: &[u8]) -> io::Result<usize> {
        if self.left == 0 {
            return Err(io::Error::from(ErrorKind::BrokenPipe));
        }
        self.left -= 1;
        Ok(buf.len())
    }

    fn flush(&mut self) -> io::Result<()> {
        Ok(())
    }
}

/// Takes what is written, and fails to flush it.
#[derive(Drop)]
struct Full;

impl Write for Full {
    fn write(&mut self, buf: &[u8]) -> io::Result<usize> {
        Ok(buf.len())
    }

    fn flush(&mut self) -> io::Result<()> {
        Err(io::Error::from(ErrorKind::StorageFull))
    }
}

/// Gives a line at the first read, and fails at each one behind it.
#[derive(Drop)]
struct Broken {
    /// Whether the line was read.
    read: bool,
}

impl Read for Broken {
    fn read(&mut self, buf: &mut [u8]) -> io::Result<usize> {
        if self.read || buf.len() < 2 {
            return Err(io::Error::from(ErrorKind::ConnectionReset));
        }
        self.read = true;
        buf[0] = b'7';
        buf[1] = b'\n';
        Ok(2)
    }
}

/// A writer that keeps what is written until it is flushed.
fn empty_buffer(alloc: Global) -> Buffered {
    Buffered {
        waiting: Vec::new(alloc),
        flushed: Vec::new(alloc),
    }
}

/// How the program ends that reads an input, printing to a writer.
fn ended<W: Write>(alloc: Global, input: &[u8], writer: &mut W) -> Status {
    let mut reader = input;
    run_input(alloc, &mut ShellArith::new(alloc), &mut reader, writer)
}

#[test]
fn what_is_printed_is_flushed(rt: HostRuntime) -> Result<(), Fail> {
    for (input, printed) in [
        (
            "x=2; x+1\nx\n1/0\n",
            "2\n3\n2\nZeroDivisionError: division by zero\n",
        ),
        ("1;2/0;3", "1\nZeroDivisionError: division by zero\n"),
        ("1+", "SyntaxError: syntax error at 2\n"),
        ("", ""),
        ("\n;\n", ""),
    ] {
        let mut writer = empty_buffer(rt.alloc());
        let status = ended(rt.alloc(), input.as_bytes(), &mut writer);
        assert_eq!(rt; status, Status::Done, "of {input}");
        assert!(rt;
            writer.flushed.as_slice() == printed.as_bytes(),
            "of {input}"
        );
    }
    Ok(())
}

#[test]
fn a_write_that_fails_ends_in_failure(rt: HostRuntime) {
    // A value and its line feed are a write each, a fault four, and what a step writes on the way one.
    for (input, writes) in [("1\n", 2), ("1\n2", 4), ("1/0", 4), ("1;2", 3)] {
        for left in 0..writes {
            let status = ended(rt.alloc(), input.as_bytes(), &mut Closing { left });
            assert_eq!(rt; status, Status::Failed, "of {input} after {left} writes");
        }
        let status = ended(rt.alloc(), input.as_bytes(), &mut Closing { left: writes });
        assert_eq!(rt; status, Status::Done, "of {input}");
    }
}

#[test]
fn a_flush_that_fails_ends_in_failure(rt: HostRuntime) {
    for input in ["1\n", ""] {
        let status = ended(rt.alloc(), input.as_bytes(), &mut Full);
        assert_eq!(rt; status, Status::Failed, "of {input}");
    }
}

#[test]
fn a_read_that_fails_and_a_line_that_is_no_text_end_in_failure(
    rt: HostRuntime,
) -> Result<(), Fail> {
    let mut reader = BufReader::new(rt.alloc(), Broken { read: false })?;
    let mut writer = empty_buffer(rt.alloc());
    let mut arithmetic = ShellArith::new(rt.alloc());
    let status = run_input(rt.alloc(), &mut arithmetic, &mut reader, &mut writer);
    assert_eq!(rt; status, Status::Failed);
    assert!(rt; writer.waiting.as_slice() == b"7\n".as_slice());
    let status = ended(rt.alloc(), b"1\n\xff\n", &mut empty_buffer(rt.alloc()));
    assert_eq!(rt; status, Status::Failed);
    Ok(())
}
