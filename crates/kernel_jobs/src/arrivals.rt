//! What comes out of an inbox, in the order in which its worker takes it out.

ghost use Rattle.std.specs.Prelude.{◌≡◌, [], ◌∷◌, ◌++◌};

use crate::inbox::Note;
use crossbeam_channel::Receiver;
use ghost_log::Log;
use std::marker::Model;
use std::sync::Wait;

/// The end of an inbox at which its worker takes notes out. A contract sees the list of what it took out: each item,
/// and None if it was told to end, or nobody was left who could tell it anything.
#[derive(Drop)]
pub struct Arrivals<T> {
    /// Where notes come from.
    from: Receiver<Note<T>>,
    /// What was taken out.
    came: Log<Option<T>>,
}

impl<T> Model for Arrivals<T> {
    ghost use Rattle.std.specs.Prelude.{List, Option};

    ghost Value = { List (Option T) };

    ghost view = { λ arrivals. arrivals.came.items };
}

impl<T> Arrivals<T> {
    /// An inbox out of which nothing was taken.
    pub fn new(from: Receiver<Note<T>>) -> Arrivals<T>
        ensures { result ≡ [] }
    {
        Arrivals {
            from,
            came: Log::new(),
        }
    }
}

impl<T: Drop> Arrivals<T> {
    /// Takes the next item out. None if the worker is told to end, or nobody is left who could tell it anything.
    pub fn next<R: Wait>(&mut self, rt: &R) -> Option<T>
        ensures { self.new ≡ self.old ++ result ∷ [] }
    {
        let next = match self.from.recv(rt) {
            Ok(Note::Item(item)) => Some(item),
            Ok(Note::End) | Err(_) => None,
        };
        self.came = self.came.and(&next);
        next
    }
}
