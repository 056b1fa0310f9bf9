//! How much memory this process had.

use std::rt::Files;
use std::{fmt, fs, io};

/// The most memory that this process had so far, in KiB, as Linux counts it.
#[derive(Clone, Copy, Debug)]
pub(crate) struct Peak {
    /// What was in memory.
    pub(crate) memory: u64,
    /// What was asked for, touched or not.
    pub(crate) space: u64,
}

impl Peak {
    /// The peak up to now.
    pub(crate) fn now<R: Files + Alloc>(rt: &R) -> io::Result<Peak> {
        let status = fs::read_to_string(rt, "/proc/self/status")?;
        let mut peak = Peak {
            memory: 0,
            space: 0,
        };
        for line in status.as_str().lines() {
            if let Some(words) = line.strip_prefix("VmHWM:") {
                peak.memory = first_number(words);
            }
            if let Some(words) = line.strip_prefix("VmPeak:") {
                peak.space = first_number(words);
            }
        }
        Ok(peak)
    }
}

impl fmt::Display for Peak {
    fn fmt<W: fmt::Write>(&self, f: &mut fmt::Formatter<W>) -> fmt::Result {
        let memory = self.memory;
        let space = self.space;
        write!(f, "{memory} KiB in memory and {space} KiB asked for")
    }
}

/// The number that the first word says, or 0.
fn first_number(words: &str) -> u64 {
    match words.split_whitespace().next() {
        Some(word) => word.parse::<u64>().unwrap_or(0),
        None => 0,
    }
}
