//! A queue of three publishers.

ghost use Rattle.std.specs.Prelude.{◌≡◌, IfOk};
ghost use Rattle.kernel_workers.specs.Starting.{IsOpened};

use iopub_queue::{OpenFault, Publisher, Taker, open_queue};
use std::alloc::Global;

/// The publishers of shell, of control and of subscriptions, and the taker, of a queue of so many places.
pub fn open_three<T: Drop, R: Copy + Drop>(
    rt: &R,
    alloc: Global,
    capacity: usize,
) -> Result<
    (
        Publisher<T, R>,
        Publisher<T, R>,
        Publisher<T, R>,
        Taker<T, R>,
    ),
    OpenFault,
>
    ensures opened { IfOk result (λ opened. IsOpened opened.0 opened.1 opened.2 opened.3) }
{
    let (publishers, taker) = open_queue(rt, alloc, 3, capacity)?;
    let mut publishers = publishers.into_iter();
    let shell = publishers.next().unwrap();
    let control = publishers.next().unwrap();
    let subscriptions = publishers.next().unwrap();
    drop(publishers);
    Ok((shell, control, subscriptions, taker))
}
