//! The runs: what each of them measures.

use crate::lines::{CAPACITY, Entrance, Exit, Locked, Receives, Sends};
use crate::load::Load;
use crossbeam_channel::bounded;
use iopub_queue::open_queue;
use std::alloc::Global;
use std::collections::VecDeque;
use std::rt::Clock;
use std::sync::{Arc, Mutex, Wait};
use std::thread::Threads;
use std::time::Instant;
use std::{io, thread};

/// How long a publisher pauses before an item whose way is measured, in nanoseconds.
const PAUSE: u64 = 20_000;

/// What is said where no queue, thread or memory was found.
fn wanting<E: Drop>(_: E) -> io::Error {
    io::Error::other("no memory, no thread, or no such line")
}

/// The nanoseconds since an instant.
fn nanos_since(rt: &impl Clock, start: Instant) -> io::Result<u64> {
    Ok(u64::try_from(start.elapsed(rt)?.as_nanos()).unwrap_or(u64::MAX))
}

/// Puts so many items in.
fn fill<T: Load + Drop, E: Entrance<T>>(alloc: Global, mut entrance: E, items: u64) -> bool
where
    E: Drop,
{
    for number in 0..items {
        let Some(item) = T::make(alloc, number) else {
            return false;
        };
        if !entrance.put(item) {
            return false;
        }
    }
    true
}

/// The time that the items of all entrances take.
fn timed<T, E, X, R>(rt: R, entrances: Vec<E>, mut exit: X, items: u64) -> io::Result<u64>
where
    T: Load + Drop + Send + 'static,
    E: Entrance<T> + Drop + Send + 'static,
    X: Exit<T> + Drop,
    R: Clock + Threads + Wait + AllocGlobal + Copy + Send + Sync + Drop + 'static,
{
    let alloc = rt.alloc();
    let start = Instant::now(&rt)?;
    let all = items.saturating_mul(entrances.len() as u64);
    let mut threads = Vec::new(alloc);
    for entrance in entrances {
        let Ok(thread) = thread::spawn(&rt, move || fill::<T, E>(alloc, entrance, items)) else {
            return Err(wanting(()));
        };
        threads.push(thread)?;
    }
    for _ in 0..all {
        for _ in rt.forever() {
            if exit.get().is_some() {
                break;
            }
            thread::yield_now();
        }
    }
    let nanos = nanos_since(&rt, start)?;
    for thread in threads {
        thread.join(&rt);
    }
    Ok(nanos / 1_000)
}

/// The microseconds that so many items of each publisher take.
pub(crate) fn rate<T, R>(rt: R, line: &str, publishers: u64, items: u64) -> io::Result<u64>
where
    T: Load + Drop + Send + 'static,
    R: Clock + Threads + Wait + AllocGlobal + Copy + Send + Sync + Drop + 'static,
{
    let alloc = rt.alloc();
    match line {
        "queue" => {
            let count = usize::try_from(publishers).unwrap_or(0);
            let (entrances, taker) = open_queue::<T, R>(&rt, alloc, count, CAPACITY).map_err(
                wanting,
            )?;
            timed::<T, _, _, R>(rt, entrances, taker, items)
        }
        "channel" => {
            let (to, from) = bounded::<T, Global>(alloc, CAPACITY)?;
            let mut entrances = Vec::new(alloc);
            for _ in 0..publishers {
                entrances.push(Sends {
                    to: to.clone()?,
                    rt,
                })?;
            }
            timed::<T, _, _, R>(rt, entrances, Receives { from, rt }, items)
        }
        "lock" => {
            let list = Arc::new(alloc, Mutex::new(VecDeque::new(alloc)))?;
            let mut entrances = Vec::new(alloc);
            for _ in 0..publishers {
                entrances.push(Locked {
                    items: Arc::try_clone(&list)?,
                    rt,
                })?;
            }
            timed::<T, _, _, R>(rt, entrances, Locked { items: list, rt }, items)
        }
        _ => Err(wanting(())),
    }
}

/// Puts in the time at which each item is put in.
fn stamp<E, R>(rt: R, mut entrance: E, start: Instant, items: u64) -> bool
where
    E: Entrance<u64> + Drop,
    R: Clock + Wait + Drop,
{
    for _ in 0..items {
        let Ok(before) = nanos_since(&rt, start) else {
            return false;
        };
        for _ in rt.forever() {
            let Ok(now) = nanos_since(&rt, start) else {
                return false;
            };
            if now >= before.saturating_add(PAUSE) {
                if !entrance.put(now) {
                    return false;
                }
                break;
            }
        }
    }
    true
}

/// The times on the way, by rising length: the one in the middle, and the last but a hundredth of all.
fn ways<E, X, R>(rt: R, entrance: E, mut exit: X, items: u64) -> io::Result<(u64, u64)>
where
    E: Entrance<u64> + Drop + Send + 'static,
    X: Exit<u64> + Drop,
    R: Clock + Threads + Wait + AllocGlobal + Copy + Send + Sync + Drop + 'static,
{
    let start = Instant::now(&rt)?;
    let mut times = Vec::new(rt.alloc());
    let Ok(thread) = thread::spawn(&rt, move || stamp::<E, R>(rt, entrance, start, items)) else {
        return Err(wanting(()));
    };
    for _ in 0..items {
        for _ in rt.forever() {
            if let Some(then) = exit.get() {
                times.push(nanos_since(&rt, start)?.saturating_sub(then))?;
                break;
            }
        }
    }
    thread.join(&rt);
    times.sort_unstable();
    let median = times.get(times.len() / 2).copied().unwrap_or(0);
    let late = times
        .get(times.len().saturating_sub(times.len() / 100 + 1))
        .copied()
        .unwrap_or(0);
    Ok((median, late))
}

/// The times on the way through a line.
pub(crate) fn way<R>(rt: R, line: &str, items: u64) -> io::Result<(u64, u64)>
where
    R: Clock + Threads + Wait + AllocGlobal + Copy + Send + Sync + Drop + 'static,
{
    let alloc = rt.alloc();
    match line {
        "queue" => {
            let (publishers, taker) = open_queue::<u64, R>(&rt, alloc, 1, CAPACITY).map_err(
                wanting,
            )?;
            let Some(publisher) = publishers.into_iter().next() else {
                return Err(wanting(()));
            };
            ways(rt, publisher, taker, items)
        }
        "channel" => {
            let (to, from) = bounded::<u64, Global>(alloc, CAPACITY)?;
            ways(rt, Sends { to, rt }, Receives { from, rt }, items)
        }
        "lock" => {
            let list = Arc::new(alloc, Mutex::new(VecDeque::new(alloc)))?;
            let other = Arc::try_clone(&list)?;
            ways(
                rt,
                Locked { items: list, rt },
                Locked { items: other, rt },
                items,
            )
        }
        _ => Err(wanting(())),
    }
}
