//! What answers the messages of a peer.

use std::alloc::{AllocError, Global};
use zmtp_connection::{Answered, Server};
use zmtp_wire::{Message, write_message};

/// What a clerk lacks.
#[derive(Clone, Copy, Debug, PartialEq, Eq)]
pub(crate) enum Want {
    /// It is worn.
    Worn,
    /// No memory is left.
    Memory,
}

/// How a clerk ends the session.
#[derive(Clone, Copy, Debug, PartialEq, Eq)]
pub(crate) enum Leave {
    /// It lacks something, and gives no reply.
    Failed(Want),
    /// By a shutdown, with its reply.
    Shutdown(bool),
}

/// Answers the message at which it is by its number, nothing where the message is `hush`, and drops it where it is
/// `drop`.
#[derive(Clone, Copy, Debug)]
pub(crate) struct Clerk {
    /// How many messages it answered.
    pub(crate) answered: u8,
    /// The number of the message at which it ends the session.
    pub(crate) last: u8,
    /// How it does so.
    pub(crate) leave: Leave,
}

impl Server for Clerk {
    type End = Leave;

    ghost use Rattle.std.specs.Prelude.{⊤, []};

    ghost answers = { λ _ _ _ _ _. ⊤ };

    ghost names = { λ _. [] };

    fn answer(
        &mut self,
        alloc: Global,
        message: Message,
        reply: &mut Vec<u8>,
    ) -> Result<Answered, Leave> {
        if is_frame(&message, b"hush") {
            return Ok(Answered::Done);
        }
        if is_frame(&message, b"drop") {
            return Ok(Answered::Dropped);
        }
        let ends = self.answered == self.last;
        if let (true, Leave::Failed(want)) = (ends, self.leave) {
            return Err(Leave::Failed(want));
        }
        let Ok(number) = numbered(alloc, self.answered) else {
            return Err(Leave::Failed(Want::Memory));
        };
        if number.is_empty() || write_message(alloc, &number, reply).is_err() {
            return Err(Leave::Failed(Want::Memory));
        }
        self.answered = self.answered.saturating_add(1);
        if let (true, Leave::Shutdown(restart)) = (ends, self.leave) {
            return Err(Leave::Shutdown(restart));
        }
        Ok(Answered::Done)
    }
}

/// Whether a message's first frame is this text.
fn is_frame(message: &Message, text: &[u8]) -> bool {
    match message.as_slice().first() {
        Some(frame) => frame.as_slice() == text,
        None => false,
    }
}

/// A message of one frame that holds a number.
fn numbered(alloc: Global, number: u8) -> Result<Vec<Vec<u8>>, AllocError> {
    let frame = vec![in alloc; number; 1]?;
    Ok(vec![in alloc; frame]?)
}
