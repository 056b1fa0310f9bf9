//! Clocks that can't be read.

use crate::marks::{begin, end, say_number};
use kernel_program::tell_of_clock;
use std::io::{self, ErrorKind, Write};
use std::time::{Clock, Duration};

/// A clock of which the time since 1970 can be read, or the time since a start, or neither.
#[derive(Drop)]
struct Broken {
    /// Whether the time since 1970 can be read.
    has_date: bool,
    /// Whether the time since a start can be read.
    has_start: bool,
}

/// What a reading gives.
fn reading(is_given: bool) -> io::Result<Duration> {
    if is_given {
        Ok(Duration::from_secs(1))
    } else {
        Err(io::Error::from(ErrorKind::Other))
    }
}

impl Clock for Broken {
    fn monotonic(&self) -> io::Result<Duration> {
        reading(self.has_start)
    }

    fn since_1970(&self) -> io::Result<Duration> {
        reading(self.has_date)
    }
}

/// Counts the lines that are written.
#[derive(Drop)]
struct Lines {
    /// How many there were.
    count: u8,
}

impl Write for Lines {
    fn write(&mut self, buf: &[u8]) -> io::Result<usize> {
        for octet in buf {
            if *octet == b'\n' {
                self.count = self.count.saturating_add(1);
            }
        }
        Ok(buf.len())
    }

    fn flush(&mut self) -> io::Result<()> {
        Ok(())
    }
}

/// Prints how many lines a person is told, if all of a clock can be read, only its date, only its start, or neither.
pub(crate) fn clock<R: Print>(rt: &R) {
    for (has_date, has_start) in [(true, true), (true, false), (false, true), (false, false)] {
        let clock = Broken {
            has_date,
            has_start,
        };
        let mut lines = Lines { count: 0 };
        begin(rt);
        tell_of_clock(&clock, "jkernel", &mut lines);
        end(rt);
        say_number(rt, lines.count);
    }
}
