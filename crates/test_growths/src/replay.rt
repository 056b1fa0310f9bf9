//! Calls of a replay, whose text can be read up to some read.

use crate::marks::{begin, end, say_number, say_octets, text_at};
use arith_shell::ShellArith;
use kernel_program::run_replay;
use std::io::{self, ErrorKind, Read};

/// Gives its octets, and fails at one of the reads.
#[derive(Drop)]
struct Failing<'t> {
    /// What it hasn't given yet.
    rest: &'t [u8],
    /// The read that fails, counted down; none if it is 0.
    fails: u8,
}

impl<'t> Read for Failing<'t> {
    fn read(&mut self, buf: &mut [u8]) -> io::Result<usize> {
        if self.fails == 1 {
            return Err(io::Error::from(ErrorKind::BrokenPipe));
        }
        self.fails = self.fails.saturating_sub(1);
        let count = self.rest.len().min(buf.len());
        let (piece, rest) = self.rest.split_at(count);
        buf[..count].copy_from_slice(piece);
        self.rest = rest;
        Ok(count)
    }
}

/// Replays a text over shell arithmetic, under no key, and tells its status and what was written.
pub(crate) fn replay<R: Print + AllocGlobal>(rt: &R, words: &[Vec<u8>]) {
    let alloc = rt.alloc();
    let mut reader = Failing {
        rest: text_at(words, 1).as_bytes(),
        fails: text_at(words, 0).parse().unwrap_or(0),
    };
    let mut writer = Vec::new(alloc);
    begin(rt);
    let status = run_replay(
        alloc,
        ShellArith::new(alloc),
        &mut reader,
        &mut writer,
        Vec::new(alloc),
    );
    end(rt);
    say_number(rt, status);
    say_octets(rt, &writer);
}
