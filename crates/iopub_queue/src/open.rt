//! How a queue is opened.

ghost use Rattle.std.specs.Prelude.{◌≡◌, IfErr, IfOk, OnOk};
ghost use Rattle.std.specs.Arc.{arc_value};
ghost use Rattle.crossbeam_queue.specs.Passes.{IsPassOf, view};
ghost use Rattle.iopub_queue.specs.Calls.{IsCapacity, IsCount, OpenGives, newcomers};
ghost use Rattle.iopub_queue.specs.Views.{taking};
ghost use Rattle.iopub_queue.specs.declared.fault.OpenFault.TheVariants.{OutOfMemory};

use crate::fault::OpenFault;
use crate::line::{Line, Seat, open_line, split_publisher};
use crate::publisher::Publisher;
use crate::taker::Taker;
use std::alloc::Global;
use std::sync::Arc;

/// How many publishers a queue may have.
const MOST_PUBLISHERS: usize = 64;

/// How many places a queue may have.
const MOST_PLACES: usize = 65_536;

/// Opens a queue of n publishers, numbered from 0, and of so many places.
///
/// # Errors
///
/// If n isn't from 1 to 64; if the capacity isn't from 1 to 65,536; if memory is wanting; in this order.
pub fn open_queue<T: Drop, R: Copy + Drop>(
    rt: &R,
    alloc: Global,
    n: usize,
    capacity: usize,
) -> Result<(Vec<Publisher<T, R>>, Taker<T, R>), OpenFault>
    ensures { OpenGives n capacity result }
{
    if n == 0 || n > MOST_PUBLISHERS {
        return Err(OpenFault::Count);
    }
    if capacity == 0 || capacity > MOST_PLACES {
        return Err(OpenFault::Capacity);
    }
    open_judged(rt, alloc, n, capacity)
}

/// Opens a queue of numbers of publishers and places that were judged.
fn open_judged<T: Drop, R: Copy + Drop>(
    rt: &R,
    alloc: Global,
    n: usize,
    capacity: usize,
) -> Result<(Vec<Publisher<T, R>>, Taker<T, R>), OpenFault>
    requires count { IsCount n }
    requires capacity { IsCapacity capacity }
    ensures { OpenGives n capacity result }
{
    let Ok(closed) = Vec::from_elem(alloc, false, n) else {
        return Err(OpenFault::OutOfMemory);
    };
    let Ok((line, mut seat)) = open_line(alloc, capacity) else {
        return Err(OpenFault::OutOfMemory);
    };
    let Ok(line) = Arc::new(alloc, line) else {
        return Err(OpenFault::OutOfMemory);
    };
    let publishers = split_publishers(rt, alloc, &line, &mut seat, n)?;
    let taker = Taker {
        line,
        seat,
        closed,
        left: n,
        rt: *rt,
    };
    Ok((publishers, taker))
}

/// Splits the publishers off from the taker's seat, numbered from 0.
fn split_publishers<T: Drop, R: Copy + Drop>(
    rt: &R,
    alloc: Global,
    line: &Arc<Line<T>, Global>,
    taker: &mut Seat<T>,
    n: usize,
) -> Result<Vec<Publisher<T, R>>, OpenFault>
    requires seat { IsPassOf (arc_value line.now) taker.old }
    requires alone { view taker.old ≡ taking }
    ensures seat { OnOk result (IsPassOf (arc_value line.now) taker.new) }
    ensures known { OnOk result (view taker.new ≡ record taking { number = n }) }
    ensures fresh { IfOk result (λ publishers. publishers.items ≡ newcomers taker.new.table_id 0 n) }
    ensures memory { IfErr result (λ fault. fault ≡ OutOfMemory) }
{
    let mut publishers = Vec::new(alloc);
    for number in 0..n {
        let Ok(shared) = Arc::try_clone(line) else {
            return Err(OpenFault::OutOfMemory);
        };
        let publisher = Publisher {
            seat: split_publisher(&shared, taker),
            line: shared,
            number,
            rt: *rt,
        };
        let Ok(()) = publishers.push(publisher) else {
            return Err(OpenFault::OutOfMemory);
        };
    }
    Ok(publishers)
}
