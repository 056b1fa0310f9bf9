//! The queue's core, without threads: what the queue does with a list of events.

ghost use Rattle.std.specs.Prelude.{◌≡◌, ◌≤◌, length, take, drop, IfOk, IfErr, MatchBool};
ghost use Rattle.iopub_queue.specs.Fault.{core_fault_number};
ghost use Rattle.iopub_queue.specs.Marks.{IsOpenMark, Steps};
ghost use Rattle.iopub_queue.specs.declared.plain_core.CoreEvent.TheVariants.{Publish, Close};
ghost use Rattle.iopub_queue.specs.Running.{RunsEvents};
ghost use Rattle.iopub_queue.specs.declared.plain_core.CoreFault.TheVariants.{OutOfMemory};

use listed::Row;
use std::alloc::Global;
use thiserror::Error;

/// An event of the core.
#[derive(Debug, Drop)]
pub enum CoreEvent<T> {
    /// The publisher of this number publishes an item.
    Publish(usize, T),
    /// The publisher of this number closes.
    Close(usize),
    /// The first entry that waits is taken. If none waits nothing happens.
    Take,
}

/// What the core holds: entries in their order, each with its publisher's number; `None` is a close.
#[derive(Debug, Drop)]
pub struct CoreState<T> {
    /// What was taken.
    pub taken: Row<(usize, Option<T>)>,
    /// What waits.
    pub waiting: Row<(usize, Option<T>)>,
}

/// Why events weren't run to their end.
#[derive(Clone, Copy, Debug, PartialEq, Eq, Error)]
pub enum CoreFault {
    /// The event at this place, counted from 0, publishes or closes at a number that isn't known, or was closed.
    #[error("event {0} is not allowed")]
    NotAllowed(usize),
    /// An allocation was refused.
    #[error("out of memory")]
    OutOfMemory,
}

impl CoreFault {
    /// The number of the fault.
    pub fn number(self) -> u8
        ensures { result ≡ core_fault_number self }
    {
        match self {
            CoreFault::NotAllowed(_) => 63,
            CoreFault::OutOfMemory => 64,
        }
    }
}

/// The core while it runs.
#[derive(Drop)]
struct Core<T> {
    /// For each number whether it was closed.
    closed: Vec<bool>,
    /// All entries, those that were taken in front.
    entries: Vec<(usize, Option<T>)>,
    /// How many entries were taken.
    taken: usize,
}

impl<T: Drop> Core<T> {
    /// Does one event.
    fn step(&mut self, place: usize, event: CoreEvent<T>) -> Result<(), CoreFault>
        ensures { Steps (length self.old.closed.items) self.old event place result self.new }
    {
        match event {
            CoreEvent::Publish(number, item) => self.publish(place, number, item),
            CoreEvent::Close(number) => self.close(place, number),
            CoreEvent::Take => {
                if self.taken < self.entries.len() {
                    self.taken += 1;
                }
                Ok(())
            }
        }
    }

    /// Whether a number is known and wasn't closed.
    fn is_open(&self, number: usize) -> bool
        ensures { MatchBool result (IsOpenMark self.now.closed.items number)
            (¬ IsOpenMark self.now.closed.items number) }
    {
        number < self.closed.len() && !self.closed[number]
    }

    /// Puts an item after the other entries.
    fn publish(&mut self, place: usize, number: usize, item: T) -> Result<(), CoreFault>
        ensures { Steps (length self.old.closed.items) self.old (Publish number item) place result self.new }
    {
        if !self.is_open(number) {
            return Err(CoreFault::NotAllowed(place));
        }
        let Ok(()) = self.entries.push((number, Some(item))) else {
            return Err(CoreFault::OutOfMemory);
        };
        Ok(())
    }

    /// Puts a close after the other entries.
    fn close(&mut self, place: usize, number: usize) -> Result<(), CoreFault>
        ensures { Steps (length self.old.closed.items) self.old (Close number) place result self.new }
    {
        if !self.is_open(number) {
            return Err(CoreFault::NotAllowed(place));
        }
        let Ok(()) = self.entries.push((number, None)) else {
            return Err(CoreFault::OutOfMemory);
        };
        self.closed[number] = true;
        Ok(())
    }

    /// What was taken, and what waits.
    fn end(mut self) -> Result<CoreState<T>, CoreFault>
        requires { self.taken ≤ length self.entries.items }
        ensures taken { IfOk result (λ ended. ended.taken ≡ take self.taken self.entries.items) }
        ensures waiting { IfOk result (λ ended. ended.waiting ≡ drop self.taken self.entries.items) }
        ensures memory { IfErr result (λ fault. fault ≡ OutOfMemory) }
    {
        let Ok(waiting) = self.entries.split_off(self.taken) else {
            return Err(CoreFault::OutOfMemory);
        };
        Ok(CoreState {
            taken: Row::new(self.entries),
            waiting: Row::new(waiting),
        })
    }
}

/// Runs the events of a queue of n publishers, one after the other.
///
/// # Errors
///
/// At the first event that publishes or closes at a number that isn't below n or was closed before, and if memory is
/// wanting.
pub fn run_core<T: Drop>(
    alloc: Global,
    n: usize,
    events: Vec<CoreEvent<T>>,
) -> Result<CoreState<T>, CoreFault>
    ensures { RunsEvents n events.items result }
{
    let Ok(closed) = Vec::from_elem(alloc, false, n) else {
        return Err(CoreFault::OutOfMemory);
    };
    let mut core = Core {
        closed,
        entries: Vec::new(alloc),
        taken: 0,
    };
    let mut place = 0;
    for event in events {
        core.step(place, event)?;
        place += 1;
    }
    core.end()
}
