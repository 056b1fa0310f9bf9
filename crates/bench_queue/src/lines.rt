//! The three lines that are compared: each has ends to put items in, and one to look for the next.

use crossbeam_channel::{Receiver, Sender};
use iopub_queue::{Publisher, Taken, Taker};
use std::alloc::Global;
use std::collections::VecDeque;
use std::sync::{Arc, Mutex, Wait};
use std::thread;

/// How many items a line holds.
pub(crate) const CAPACITY: usize = 1_024;

/// An end to put items in.
pub(crate) trait Entrance<T> {
    /// Puts an item in, once there is room. Says whether it is in.
    fn put(&mut self, item: T) -> bool;
}

/// An end to look for items.
pub(crate) trait Exit<T> {
    /// The next item, where one is there.
    fn get(&mut self) -> Option<T>;
}

impl<T: Drop, R: Wait> Entrance<T> for Publisher<T, R> {
    fn put(&mut self, item: T) -> bool {
        self.publish(item).is_ok()
    }
}

impl<T: Drop, R: Wait> Exit<T> for Taker<T, R> {
    fn get(&mut self) -> Option<T> {
        match self.take() {
            Taken::Item(_, item) => Some(item),
            _ => None,
        }
    }
}

/// An end of a channel.
#[derive(Drop)]
pub(crate) struct Sends<T, R> {
    /// The channel.
    pub(crate) to: Sender<T, Global>,
    /// By which it waits.
    pub(crate) rt: R,
}

/// The other end.
#[derive(Drop)]
pub(crate) struct Receives<T, R> {
    /// The channel.
    pub(crate) from: Receiver<T, Global>,
    /// By which it waits.
    pub(crate) rt: R,
}

impl<T: Drop, R: Wait> Entrance<T> for Sends<T, R> {
    fn put(&mut self, item: T) -> bool {
        self.to.send(&self.rt, item).is_ok()
    }
}

impl<T: Drop, R: Wait> Exit<T> for Receives<T, R> {
    fn get(&mut self) -> Option<T> {
        self.from.try_recv(&self.rt).ok()
    }
}

/// A list behind a lock.
#[derive(Drop)]
pub(crate) struct Locked<T, R> {
    /// The list.
    pub(crate) items: Arc<Mutex<VecDeque<T>>, Global>,
    /// By which it waits.
    pub(crate) rt: R,
}

impl<T: Drop, R: Wait> Entrance<T> for Locked<T, R> {
    fn put(&mut self, item: T) -> bool {
        for _ in self.rt.forever() {
            let mut items = self.items.lock(&self.rt);
            if items.len() < CAPACITY {
                return items.push_back(item).is_ok();
            }
            drop(items);
            thread::yield_now();
        }
        unreachable!()
    }
}

impl<T: Drop, R: Wait> Exit<T> for Locked<T, R> {
    fn get(&mut self) -> Option<T> {
        self.items.lock(&self.rt).pop_front()
    }
}
