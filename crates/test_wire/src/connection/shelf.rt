//! What traffic is put into.

use std::alloc::{AllocError, Global};
use std::cell::Cell;
use zmtp_connection::Intake;
use zmtp_wire::Traffic;

/// Keeps what is put as text, up to so many places.
#[derive(Drop)]
pub(crate) struct Shelf {
    /// What was put: a message's frames each behind `|`, a command's name behind `/`.
    pub(crate) text: Vec<u8>,
    /// How many places are left.
    pub(crate) places: u64,
    /// Whether it has no memory when none is left, and else says no.
    pub(crate) is_wanting: bool,
    /// How often it was asked.
    pub(crate) asked: u64,
    /// How many octets came after the last whole traffic, as it was told last.
    pub(crate) unfinished: Cell<u64>,
}

impl Shelf {
    /// A shelf with a hundred places.
    pub(crate) fn new(alloc: Global) -> Shelf {
        Shelf {
            text: Vec::new(alloc),
            places: 100,
            is_wanting: false,
            asked: 0,
            unfinished: Cell::new(0),
        }
    }
}

impl Intake for Shelf {
    ghost use Rattle.std.specs.Prelude.{⊤, None, []};

    ghost takes = { λ _ _ _ _. ⊤ };

    ghost told = { λ _. None };

    ghost names = { λ _. [] };

    fn note_unfinished(&self, octets: usize) {
        self.unfinished.set(octets as u64);
    }

    fn put(&mut self, traffic: Traffic) -> Result<bool, AllocError> {
        self.asked = self.asked.saturating_add(1);
        if self.places == 0 {
            return if self.is_wanting {
                Err(AllocError)
            } else {
                Ok(false)
            };
        }
        self.places -= 1;
        match traffic {
            Traffic::Message(frames) => {
                for frame in frames.as_slice() {
                    self.text.push(b'|')?;
                    self.text.extend_from_slice(frame.as_slice())?;
                }
            }
            Traffic::Command(name, _rest) => {
                self.text.push(b'/')?;
                self.text.extend_from_slice(name.as_slice())?;
            }
        }
        Ok(true)
    }
}
