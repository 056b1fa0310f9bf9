//! The inboxes of workers.

ghost use Rattle.std.specs.Prelude.{◌≡◌, [], IfOk};

use crate::arrivals::Arrivals;
use crossbeam_channel::{SendError, Sender, unbounded};
use std::alloc::{AllocError, Global};
use std::sync::Wait;
use std::thread;

/// What a worker finds in its inbox.
#[derive(Debug, Drop)]
pub enum Note<T> {
    /// An item: a job of shell or control, or an event of a subscriber.
    Item(T),
    /// That it is to end.
    End,
}

/// The two ends of a worker's inbox, which holds any number of notes.
#[derive(Drop)]
pub struct Inbox<T> {
    /// Where notes are put in.
    pub to: Sender<Note<T>>,
    /// Where the worker takes them out.
    pub from: Arrivals<T>,
}

impl<T: Drop> Inbox<T> {
    /// An inbox with nothing in it.
    ///
    /// # Errors
    ///
    /// If memory is refused.
    pub fn new(alloc: Global) -> Result<Inbox<T>, AllocError>
        ensures { IfOk result (λ inbox. inbox.from ≡ []) }
    {
        match unbounded(alloc) {
            Ok((to, from)) => Ok(Inbox {
                to,
                from: Arrivals::new(from),
            }),
            Err(_) => Err(AllocError),
        }
    }
}

/// Tells somebody something. If memory is refused it is tried again; if nobody is there any more nothing is to be done.
pub fn tell<T: Drop, R: Wait>(rt: &R, to: &Sender<T>, item: T) {
    let mut left = item;
    for _ in rt.forever() {
        match try_to_tell(rt, to, left) {
            None => return,
            Some(refused) => left = refused,
        }
        thread::yield_now();
    }
    unreachable!()
}

/// Tells a worker to end: whether it is gone, since it has dropped its inbox.
pub fn is_gone<T: Drop, R: Wait>(rt: &R, to: &Sender<Note<T>>) -> bool {
    match to.send(rt, Note::End) {
        Ok(()) => false,
        Err(SendError::Disconnected(note)) => {
            drop(note);
            true
        }
        Err(SendError::OutOfMemory(note)) => {
            drop(note);
            false
        }
    }
}

/// Tells somebody something, unless memory is refused: then it gives that back.
fn try_to_tell<T: Drop, R: Wait>(rt: &R, to: &Sender<T>, item: T) -> Option<T> {
    match to.send(rt, item) {
        Ok(()) => None,
        Err(SendError::Disconnected(item)) => {
            drop(item);
            None
        }
        Err(SendError::OutOfMemory(item)) => Some(item),
    }
}
