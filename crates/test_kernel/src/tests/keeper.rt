//! What writes to a subscriber here.

use iopub_relay::{Buffered, Rest};
use std::alloc::Global;
use std::sync::Arc;
use std::sync::atomic::{AtomicBool, Ordering};
use zmtp_wire::{Outlet, WriteFailed};

/// What the type of an output is.
const STREAM: &[u8] = b"stream";

/// Keeps the octets that it is given, and raises a flag at a piece in which the type of an output stands.
#[derive(Drop)]
pub(crate) struct Keeper {
    /// What it was given.
    pub(crate) octets: Vec<u8>,
    /// Whether an output came.
    has_output: Arc<AtomicBool, Global>,
}

impl Keeper {
    /// One that was given nothing, and raises this flag.
    pub(crate) fn new(alloc: Global, has_output: Arc<AtomicBool, Global>) -> Keeper {
        Keeper {
            octets: Vec::new(alloc),
            has_output,
        }
    }

    /// What it was given.
    pub(crate) fn into_octets(self) -> Vec<u8> {
        let Keeper { octets, has_output } = self;
        drop(has_output);
        octets
    }
}

impl Outlet for Keeper {
    ghost use Rattle.std.specs.Prelude.{None};

    ghost outflow = { λ keeper. record { written = None; failures = 18446744073709551615 } };

    fn write(&mut self, piece: &[u8]) -> Result<usize, WriteFailed> {
        if piece.windows(STREAM.len()).any(|window| window == STREAM) {
            self.has_output.store(true, Ordering::SeqCst);
        }
        match self.octets.extend_from_slice(piece) {
            Ok(()) => Ok(piece.len()),
            Err(_) => Err(WriteFailed),
        }
    }
}

impl Buffered for Keeper {
    fn flush(&mut self) -> Rest {
        Rest::Nothing
    }

    fn is_crowded(&self) -> bool {
        false
    }
}
